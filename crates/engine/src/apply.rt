// An event: the refusals in their order, then what an accepted event does.
ghost use Rattle.std.specs.Prelude.{◌≤◌, T, length};
ghost use Rattle.engine.specs.declared.Event.TheVariants.{Entry as entry, Cancel as cancel, Bid as bid, Tape as tape, DayEnd as day_end, OwnedEntry as owned_entry, TimedTape as timed_tape};
ghost use Rattle.engine.specs.rules.Refusals.{least_buffer};
ghost use Rattle.engine.specs.steps.Lent;
ghost use Rattle.engine.specs.steps.Lent.{SameLoans, MayJudge};
ghost use Rattle.engine.specs.claims.Calls.{Applied};
ghost use Rattle.engine.specs.rules.Answers.{outcome_of_answer};
ghost use Rattle.engine.specs.rules.Layout.{sound_words};

use crate::lent::LentVenue;
use crate::{Entry, Event, Refusal, header, refuse, timed};
use prices::TimedPrice;

impl LentVenue<'_> {
    fn apply_entry(&mut self, e: Entry) -> Result<usize, Refusal>
        requires { MayJudge self.old }
        ensures same_loans { SameLoans self.old self.new }
        ensures applied { Lent.Applied self.old (entry e) (outcome_of_answer result) self.new }
    {
        refuse::check_entry(self.view(), e, Ok(()))?;
        self.enter(e, 0);
        Ok(self.byte_count())
    }

    // Not one function with apply_entry: kind 1 names no owner that could be refused, and 0, which it has, is one that kind 6 may not name.
    fn apply_owned_entry(&mut self, e: Entry, owner: u32) -> Result<usize, Refusal>
        requires { MayJudge self.old }
        ensures same_loans { SameLoans self.old self.new }
        ensures applied { Lent.Applied self.old (owned_entry e owner) (outcome_of_answer result) self.new }
    {
        refuse::check_entry(self.view(), e, refuse::check_owner(owner))?;
        self.enter(e, owner);
        Ok(self.byte_count())
    }

    fn apply_cancel(&mut self, id: u32) -> Result<usize, Refusal>
        requires { MayJudge self.old }
        ensures same_loans { SameLoans self.old self.new }
        ensures applied { Lent.Applied self.old (cancel id) (outcome_of_answer result) self.new }
    {
        let i = self.view().find(id).ok_or(Refusal::NotResting)?;
        self.cancel_order(i);
        Ok(self.byte_count())
    }

    fn apply_bid(&mut self, price: u32) -> Result<usize, Refusal>
        requires { MayJudge self.old }
        ensures same_loans { SameLoans self.old self.new }
        ensures applied { Lent.Applied self.old (bid price) (outcome_of_answer result) self.new }
    {
        refuse::check_bid(self.view(), price)?;
        self.new_bid(price);
        Ok(self.byte_count())
    }

    fn apply_tape(&mut self, price: u32) -> Result<usize, Refusal>
        requires { MayJudge self.old }
        ensures same_loans { SameLoans self.old self.new }
        ensures applied { Lent.Applied self.old (tape price) (outcome_of_answer result) self.new }
    {
        refuse::check_price(self.view(), price)?;
        self.new_tape(price);
        Ok(self.byte_count())
    }

    fn apply_timed_tape(&mut self, x: TimedPrice) -> Result<usize, Refusal>
        requires { MayJudge self.old }
        ensures same_loans { SameLoans self.old self.new }
        ensures applied { Lent.Applied self.old (timed_tape x) (outcome_of_answer result) self.new }
    {
        timed::check_timed_price(self.view(), x)?;
        self.new_timed_tape(x);
        Ok(self.byte_count())
    }

    fn apply_day_end(&mut self, close: u32) -> Result<usize, Refusal>
        requires { MayJudge self.old }
        ensures same_loans { SameLoans self.old self.new }
        ensures applied { Lent.Applied self.old (day_end close) (outcome_of_answer result) self.new }
    {
        refuse::check_price(self.view(), close)?;
        self.end_day(close);
        Ok(self.byte_count())
    }

    // The kind's own refusals, then what an event of the kind does.
    fn apply_kind(&mut self, event: Event) -> Result<usize, Refusal>
        requires { MayJudge self.old }
        ensures same_loans { SameLoans self.old self.new }
        ensures applied { Lent.Applied self.old event (outcome_of_answer result) self.new }
    {
        match event {
            Event::Entry(e) => self.apply_entry(e),
            Event::Cancel(id) => self.apply_cancel(id),
            Event::Bid(price) => self.apply_bid(price),
            Event::Tape(price) => self.apply_tape(price),
            Event::DayEnd(close) => self.apply_day_end(close),
            Event::OwnedEntry(e, owner) => self.apply_owned_entry(e, owner),
            Event::TimedTape(x) => self.apply_timed_tape(x),
        }
    }
}

// An event of words that are known to be sound, with a buffer that is long enough: 16 and 1 aren't given. The words stay sound.
pub fn apply_sound(w: &mut [u32], event: Event, reports: &mut [u8]) -> Result<usize, Refusal>
    requires { T (sound_words w.old) × (least_buffer ≤ length reports.old) }
    ensures { Applied w.old event reports.old (outcome_of_answer result) w.new reports.new × T (sound_words w.new) }
{
    let mut venue = LentVenue::new(w, reports);
    if venue.view().header_word(header::ACCEPTED_EVENTS) >= refuse::MOST_EVENTS {
        return Err(Refusal::EventsSpent);
    }
    venue.apply_kind(event)
}

// An event: any words, any event, any buffer. A refusal leaves every word and every byte as it was.
pub fn apply(w: &mut [u32], event: Event, reports: &mut [u8]) -> Result<usize, Refusal>
    ensures { Applied w.old event reports.old (outcome_of_answer result) w.new reports.new }
{
    if !refuse::venue_sound(w) {
        return Err(Refusal::VenueBroken);
    }
    if reports.len() < refuse::LEAST_BUFFER {
        return Err(Refusal::BufferTooShort);
    }
    apply_sound(w, event, reports)
}
