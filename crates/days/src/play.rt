// Playing event records: the record check once, then one event after another.
ghost use Rattle.std.specs.Prelude.{◌≡◌, [], ◌∷◌, ◌+◌, ◌≤◌, ◌<◌, T, length};
ghost use Rattle.numbers.specs.SevenBit.{bytes_of_all, Put};
ghost use Rattle.numbers.specs.Tests.{All};
ghost use Rattle.engine.specs.rules.Answers.{refusal_number};
ghost use Rattle.engine.specs.rules.Refusals.{least_buffer};
ghost use Rattle.engine.specs.rules.Layout.{sound_words};
ghost use Rattle.engine.specs.rules.Records.{record_numbers};
ghost use Rattle.engine.specs.claims.RoundTrips.{Word};
ghost use Rattle.days.specs.DayCalls.{EventPlayed, DayPlayed};

use crate::{Played, Stop};
use engine::{Event, Refusal, apply, refuse};
use numbers::write;
use records::{EventAt, record};

// Writes the two numbers of a refusal: 0, and the paper's number.
fn write_refusal(reports: &mut [u8], end: usize, refusal: Refusal) -> usize
    requires { end + least_buffer ≤ length reports.old }
    ensures { Put (bytes_of_all (0 ∷ refusal_number refusal ∷ [])) end reports.old result reports.new × (result ≤ length reports.old) }
{
    let number = u32::from(refusal);
    let numbers = [0, u64::from(number)];
    write::put_numbers(reports, end, &numbers)
}

// One event of a day: its reports, or its refusal, go to an offset of the buffer.
fn play_event(words: &mut [u32], event: Event, reports: &mut [u8], end: usize) -> usize
    requires { T (sound_words words.old) × (end + least_buffer ≤ length reports.old) × All Word (record_numbers event) }
    ensures { EventPlayed words.old event end reports.old result words.new reports.new }
{
    match apply::apply_sound(words, event, &mut reports[end..]) {
        Ok(count) => end + count,
        Err(refusal) => write_refusal(reports, end, refusal),
    }
}

// Plays the records from an offset on, of words that are known to be sound.
fn play_sound(
    words: &mut [u32],
    records: &[u8],
    from: usize,
    reports: &mut [u8],
    ends: &mut [u64],
) -> Played
    requires { T (sound_words words.old) }
    ensures { DayPlayed words.old records.now from reports.old ends.old result words.new reports.new ends.new }
{
    let mut played = Played {
        events: 0,
        at: from,
        end: 0,
        stop: Stop::AllPlayed,
    };
    // no iterator: each record says where the next one begins
    while played.at < records.len() {
        if played.events >= ends.len() {
            return Played {
                stop: Stop::EndsFull,
                ..played
            };
        }
        if reports.len() - played.end < refuse::LEAST_BUFFER {
            return Played {
                stop: Stop::ReportsFull,
                ..played
            };
        }
        match record::read_record(records, played.at) {
            Err(refusal) => {
                return Played {
                    stop: Stop::Unreadable(refusal),
                    ..played
                };
            }
            Ok(EventAt { event, end: next }) => {
                played.end = play_event(words, event, reports, played.end);
                ends[played.events] = played.end as u64;
                played.events += 1;
                played.at = next;
            }
        }
    }
    played
}

// Plays the records from an offset on. Words that are no sound venue record are refused, and nothing is changed.
pub fn play(
    words: &mut [u32],
    records: &[u8],
    from: usize,
    reports: &mut [u8],
    ends: &mut [u64],
) -> Played
    ensures { DayPlayed words.old records.now from reports.old ends.old result words.new reports.new ends.new }
{
    if !refuse::venue_sound(words) {
        return Played {
            events: 0,
            at: from,
            end: 0,
            stop: Stop::VenueBroken,
        };
    }
    play_sound(words, records, from, reports, ends)
}
