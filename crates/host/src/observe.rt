// Copy out, depth and watch for host programs.
ghost use Rattle.std.specs.Prelude.{◌≡◌, length};
ghost use Rattle.prices.specs.Watch.{watched, watch_outcome};
ghost use Rattle.book.specs.rules.Depth.{depth_of};
ghost use Rattle.engine.specs.rules.Copy.{copy_outcome, copied};
ghost use Rattle.host.specs.rules.Host.{host_answer};
ghost use Rattle.host.specs.rules.Observe.{side_of, depth_number, watch_count};

use crate::calls;
use book::{OrderRecord, Side, TooManyRecords, depth};
use engine::{Refusal, copy};
use prices::{Watch, restriction};

// The resting orders in a run of records, those behind them kept; a refusal changes no record.
pub fn venue_copy_out(words: &[u32], run: &mut [OrderRecord]) -> u32
    ensures { (result ≡ host_answer (copy_outcome words.now (length run.old))) × (run.new ≡ copied words.now run.old) }
{
    match copy::copy_out(words, run) {
        Ok(count) => count as u32,
        Err(error) => calls::refused(u32::from(error)),
    }
}

// 0 is a buy, any other a sell.
fn side_of(side: u32) -> Side
    ensures { result ≡ side_of side }
{
    if side == 0 { Side::Buy } else { Side::Sell }
}

// The displayed shares at a price in a run of records; side 0 is a buy, any other a sell.
pub fn venue_depth(run: &[OrderRecord], price: u32, side: u32) -> u64
    ensures { result ≡ depth_number (depth_of run.now price (side_of side)) }
{
    match depth::depth(run, price, side_of(side)) {
        Ok(shares) => shares,
        Err(TooManyRecords) => u64::MAX,
    }
}

// A tape price at a step on the host's own record of close and phase; a refusal leaves it as it was.
pub fn venue_watch(watch: &mut Watch, step: u32, price: u32) -> u32
    ensures { (result ≡ host_answer (watch_count (watch_outcome step price))) × (watch.new ≡ watched step watch.old price) }
{
    match restriction::watch(watch, step, price) {
        Ok(()) => 0,
        Err(error) => calls::refused(u32::from(Refusal::from(error))),
    }
}
