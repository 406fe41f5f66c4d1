// A day in one call for host programs.
ghost use Rattle.std.specs.Prelude.{◌≡◌};
ghost use Rattle.days.specs.DayCalls.{outcome_of_stop};
ghost use Rattle.host.specs.rules.Host.{host_answer};
ghost use Rattle.host.specs.claims.PlayCalls.{HostPlayed};

use crate::calls;
use days::{Stop, play};
use engine::Refusal;

// Why playing stopped, as a number: refusal × REFUSAL_UNIT, or 0 to 2 where nothing is refused.
fn stop_number(stop: Stop) -> u32
    ensures { result ≡ host_answer (outcome_of_stop stop) }
{
    match stop {
        Stop::AllPlayed => 0,
        Stop::EndsFull => 1,
        Stop::ReportsFull => 2,
        Stop::Unreadable(refusal) => calls::refused(u32::from(refusal)),
        Stop::VenueBroken => calls::refused(u32::from(Refusal::VenueBroken)),
    }
}

// Plays the records from an offset on; progress gets the events played, the offset reached and the bytes written. Refusal 16 changes nothing.
pub fn venue_play(
    words: &mut [u32],
    records: &[u8],
    from: u64,
    reports: &mut [u8],
    ends: &mut [u64],
    progress: &mut [u64; 3],
) -> u32
    ensures { HostPlayed words.old records.now from reports.old ends.old progress.old result words.new reports.new ends.new progress.new }
{
    let played = play::play(words, records, from as usize, reports, ends);
    if played.stop != Stop::VenueBroken {
        *progress = [played.events as u64, played.at as u64, played.end as u64];
    }
    stop_number(played.stop)
}
