// Open, the event, the record check and the permitted price for host programs.
ghost use Rattle.std.specs.Prelude.{◌≡◌, ◌<◌};
ghost use Rattle.numbers.specs.Answers.{refuses};
ghost use Rattle.numbers.specs.Tests.{All};
ghost use Rattle.prices.specs.Prices.{permitted_of};
ghost use Rattle.engine.specs.rules.Records.{record_numbers, record_at};
ghost use Rattle.engine.specs.claims.RoundTrips.{Word};
ghost use Rattle.host.specs.rules.Host.{host_answer, end_or_zero, value_or_zero};
ghost use Rattle.host.specs.claims.Calls.{HostOpened, EventApplied, HostApplied};

use book::words;
use engine::{Event, Refusal, apply, open};
use prices::increments;
use records::{EventAt, record};

// An answer is refusal × REFUSAL_UNIT + byte count.
const REFUSAL_UNIT: u32 = 65_536;

// The answer of a refusal, by its number.
pub(crate) fn refused(number: u32) -> u32
    requires { number < 65_536 }
    ensures { result ≡ host_answer (refuses number) }
{
    number * REFUSAL_UNIT
}

// Makes the words a fresh venue at a step, those behind it kept; a refusal changes no word.
pub fn venue_open(words: &mut [u32], step: u32, close: u32) -> u32
    ensures { HostOpened words.old step close result words.new }
{
    if words.len() < words::VENUE {
        return refused(u32::from(Refusal::VenueBroken));
    }
    let opened = open::open(step, close);
    match opened.answer {
        Ok(()) => {
            let fresh = &opened.words;
            words[..fresh.len()].copy_from_slice(fresh);
            0
        }
        Err(not_opened) => refused(u32::from(not_opened)),
    }
}

// An event whose fields are 32-bit numbers, as those of every event are that was read from a record.
fn apply_event(words: &mut [u32], event: Event, reports: &mut [u8]) -> u32
    requires { All Word (record_numbers event) }
    ensures { EventApplied words.old event reports.old result words.new reports.new }
{
    match apply::apply(words, event, reports) {
        Ok(count) => count as u32,
        Err(refusal) => refused(u32::from(refusal)),
    }
}

// The event whose record stands at offset 0; a refusal changes no word and no byte.
pub fn venue_apply(words: &mut [u32], record: &[u8], reports: &mut [u8]) -> u32
    ensures { HostApplied words.old «record».now reports.old result words.new reports.new }
{
    match record::read_record(record, 0) {
        Ok(EventAt { event, end: _ }) => apply_event(words, event, reports),
        Err(unreadable) => refused(u32::from(unreadable)),
    }
}

// The byte count of the event record at offset 0; 0 stands for a refusal.
pub fn venue_record_check(bytes: &[u8]) -> u64
    ensures { result ≡ end_or_zero (record_at bytes.now 0) }
{
    match record::read_record(bytes, 0) {
        Ok(read) => read.end as u64,
        Err(_unreadable) => 0,
    }
}

// The permitted price of a bid at a step; 0 stands for a refusal.
pub fn venue_permitted_price(step: u32, bid: u32) -> u32
    ensures { result ≡ value_or_zero (permitted_of step bid) }
{
    match increments::permitted_price(step, bid) {
        Ok(price) => price.value,
        Err(_) => 0,
    }
}
