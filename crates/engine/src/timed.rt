// Timed tape prices (No. 10): what one is refused for, the pause watch, and the price kept; then all that a tape price does.
ghost use Rattle.std.specs.Prelude.{◌≡◌, ◌-◌, ◌<◌, ◌≤◌, T, length, drop};
ghost use Rattle.std.proofs.Math.Option.{none};
ghost use Rattle.prices.specs.Directions.{direction_number};
ghost use Rattle.prices.specs.Pause.{most_kept, within, keeping};
ghost use Rattle.engine.specs.declared.Event.TheVariants.{TimedTape as timed_tape};
ghost use Rattle.engine.specs.rules.Venue.{with_kept, direction_report};
ghost use Rattle.engine.specs.rules.Refusals.{refusal_of_time, refusal_of_kind};
ghost use Rattle.engine.specs.rules.Answers.{refused_with};
ghost use Rattle.engine.specs.rules.Layout.{venue_of, sound_words};
ghost use Rattle.engine.specs.steps.Memory.{KeepsOrdered};
ghost use Rattle.engine.specs.steps.Lent.{venue_in, effect_in, SameLoans, Becomes, MayAccept, NoneWritten, HasRoom, ReportedAll, HasRoomInFront, Accepts};

use crate::lent::LentVenue;
use crate::{Refusal, header, refuse};
use book::{BookView, words};
use prices::{Direction, TimedPrice, pause};

// The time of a new price: not before the last one of the day, and with at most 511 others kept.
#[tactic(auto, unfolding(crate::specs::rules::Refusals::refusal_of_time, crate::specs::rules::Refusals::refuse_unless))]
fn check_time(book: BookView, time: u32) -> Result<(), Refusal>
    requires { KeepsOrdered book.words.now }
    ensures { refused_with result ≡ refusal_of_time (venue_of book.entry.words.now).kept time }
{
    let kept = header::kept(book);
    if time < kept.last_time() {
        return Err(Refusal::TimeBeforeLast);
    }
    if kept.len() - kept.first_within(time) >= pause::MOST_KEPT {
        return Err(Refusal::KeptPricesFull);
    }
    Ok(())
}

// A timed price: the price, then its time.
pub(crate) fn check_timed_price(book: BookView, x: TimedPrice) -> Result<(), Refusal>
    requires { T (sound_words book.words.now) }
    ensures { refused_with result ≡ refusal_of_kind (venue_of book.entry.words.now) (timed_tape x) }
{
    refuse::check_price(book, x.price)?;
    check_time(book, x.time)
}

impl LentVenue<'_> {
    // Reports the direction of a price, unless there is none.
    #[tactic(auto, using(std::proofs::lemmas::Grind::common_steps, numbers::proofs::WriteLaws::put_none, crate::proofs::refinement::StepLaws::reports_one), unfolding(crate::specs::rules::Venue::direction_report, prices::specs::Directions::direction_code, numbers::specs::Tests::pick, crate::specs::rules::Records::reports_bytes))]
    fn report_pause(&mut self, direction: Option<Direction>, price: u32)
        requires { HasRoom self.old (direction_report (direction_number direction) price) }
        ensures same_loans { SameLoans self.old self.new }
        ensures reported { ReportedAll self.old self.new (direction_report (direction_number direction) price) }
    {
        match direction {
            None => {}
            Some(direction) => self.report_pause_triggered(direction.into(), price),
        }
    }

    // Keeps those of n prices from a position on, and a new one behind them.
    fn keep_price(&mut self, from: usize, n: usize, x: TimedPrice)
        requires counted { (n ≡ length (venue_in self.old).kept) × (from ≤ n) × (n ≤ most_kept) × (n - from < most_kept) }
        requires within_time { within x.time (venue_in self.old).kept ≡ drop from (venue_in self.old).kept }
        ensures same_loans { SameLoans self.old self.new }
        ensures becomes { Becomes self.old self.new (with_kept (keeping x.time x.price (venue_in self.old).kept) (venue_in self.old)) }
    {
        pause::keep(self.words, words::BOOK, from, n, x);
        self.set_kept_count((n - from + 1) as u32);
    }

    // A timed price: report 7 where its direction has one, the price kept, and then a tape price.
    pub(crate) fn new_timed_tape(&mut self, x: TimedPrice)
        requires may_accept { MayAccept self.old × (refusal_of_kind (venue_in self.old) (timed_tape x) ≡ none) }
        requires none_written { NoneWritten self.old }
        requires room { HasRoomInFront self.old (effect_in self.old (timed_tape x)).reports }
        ensures same_loans { SameLoans self.old self.new }
        ensures accepts { Accepts self.old self.new (timed_tape x) }
    {
        let kept = header::kept(self.view());
        let n = kept.len();
        let from = kept.first_within(x.time);
        let direction = kept.direction(from, x.price);
        self.keep_price(from, n, x);
        self.report_pause(direction, x.price);
        self.new_tape(x.price);
    }
}
