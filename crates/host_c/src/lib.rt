// The calls for host programs in C and Python: each export is the call of the crate `host` that has its name, under the same clauses. include/venue.h
// declares them, and tools/libhost builds the archive.
#![tactic(auto)]

ghost use Rattle.std.specs.Prelude.{◌≡◌, length};
ghost use Rattle.prices.specs.Prices.{permitted_of};
ghost use Rattle.prices.specs.Watch.{watch_outcome, watched};
ghost use Rattle.book.specs.rules.Depth.{depth_of};
ghost use Rattle.engine.specs.rules.Copy.{copied, copy_outcome};
ghost use Rattle.engine.specs.rules.Records.{record_at};
ghost use Rattle.host.specs.claims.Calls.{HostApplied, HostOpened};
ghost use Rattle.host.specs.claims.PlayCalls.{HostPlayed};
ghost use Rattle.host.specs.rules.Fill.{fill_number};
ghost use Rattle.host.specs.rules.Host.{end_or_zero, host_answer, value_or_zero};
ghost use Rattle.host.specs.rules.Observe.{depth_number, side_of, watch_count};

use book::OrderRecord;
use host::{calls, fill, observe, play};
use prices::Watch;

// Makes the words a fresh venue at a step, those behind it kept; a refusal changes no word.
#[unsafe(no_mangle)]
pub extern "C" fn venue_open(words: &mut [u32], step: u32, close: u32) -> u32
    ensures { HostOpened words.old step close result words.new }
{
    calls::venue_open(words, step, close)
}

// The event whose record stands at offset 0; a refusal changes no word and no byte.
#[unsafe(no_mangle)]
pub extern "C" fn venue_apply(words: &mut [u32], record: &[u8], reports: &mut [u8]) -> u32
    ensures { HostApplied words.old «record».now reports.old result words.new reports.new }
{
    calls::venue_apply(words, record, reports)
}

// Plays the records from an offset on; progress gets the events played, the offset reached and the bytes written. Refusal 16 changes nothing.
#[unsafe(no_mangle)]
pub extern "C" fn venue_play(
    words: &mut [u32],
    records: &[u8],
    from: u64,
    reports: &mut [u8],
    ends: &mut [u64],
    progress: &mut [u64; 3],
) -> u32
    ensures { HostPlayed words.old records.now from reports.old ends.old progress.old result words.new reports.new ends.new progress.new }
{
    play::venue_play(words, records, from, reports, ends, progress)
}

// Whether an entry with a mark, a price and shares would fill in full now, and how many orders were read to tell; nothing is changed.
#[unsafe(no_mangle)]
pub extern "C" fn venue_would_fill(words: &[u32], mark: u32, price: u32, shares: u32) -> u32
    ensures { result ≡ fill_number words.now mark price shares }
{
    fill::venue_would_fill(words, mark, price, shares)
}

// The byte count of the event record at offset 0; 0 stands for a refusal.
#[unsafe(no_mangle)]
pub extern "C" fn venue_record_check(bytes: &[u8]) -> u64
    ensures { result ≡ end_or_zero (record_at bytes.now 0) }
{
    calls::venue_record_check(bytes)
}

// The permitted price of a bid at a step; 0 stands for a refusal.
#[unsafe(no_mangle)]
pub extern "C" fn venue_permitted_price(step: u32, bid: u32) -> u32
    ensures { result ≡ value_or_zero (permitted_of step bid) }
{
    calls::venue_permitted_price(step, bid)
}

// The resting orders in a run of records, those behind them kept; a refusal changes no record.
#[unsafe(no_mangle)]
pub extern "C" fn venue_copy_out(words: &[u32], run: &mut [OrderRecord]) -> u32
    ensures { (result ≡ host_answer (copy_outcome words.now (length run.old))) × (run.new ≡ copied words.now run.old) }
{
    observe::venue_copy_out(words, run)
}

// The displayed shares at a price in a run of records; side 0 is a buy, any other a sell.
#[unsafe(no_mangle)]
pub extern "C" fn venue_depth(run: &[OrderRecord], price: u32, side: u32) -> u64
    ensures { result ≡ depth_number (depth_of run.now price (side_of side)) }
{
    observe::venue_depth(run, price, side)
}

// A tape price at a step on the host's own record of close and phase; a refusal leaves it as it was.
#[unsafe(no_mangle)]
pub extern "C" fn venue_watch(watch: &mut Watch, step: u32, price: u32) -> u32
    ensures { (result ≡ host_answer (watch_count (watch_outcome step price))) × (watch.new ≡ watched step watch.old price) }
{
    observe::venue_watch(watch, step, price)
}
