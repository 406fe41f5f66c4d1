// The venue of document 01, with document 02 up to No. 10: events, reports, refusals and the law of demand 3. The fourth layer.
#![tactic(auto)]

pub mod apply;
pub mod copy;
mod enter;
pub mod fill;
mod header;
mod leave;
mod lent;
pub mod open;
mod quote;
pub mod refusals;
pub mod refuse;
mod report;
mod slide;
mod timed;
mod working;

use book::words;
use prices::TimedPrice;

// The close, the phase of the restriction, the national bid and the step of prices from the dollar border up. The phase stays a number: the words that
// the market is read from may hold any, and refusal 16 is given for one above 2.
#[derive(Clone, Copy, Debug, PartialEq, Eq)]
pub struct Market {
    pub close: u32,
    pub phase: u32,
    pub bid: u32,
    pub step: u32,
}

// The fields of an entry, in the order of its record. Mark, show, life and slide stay numbers: a record may hold any, and an entry is refused for those out of range.
#[derive(Clone, Copy, Debug, PartialEq, Eq)]
pub struct Entry {
    pub id: u32,
    pub mark: u32,
    pub price: u32,
    pub shares: u32,
    pub show: u32,
    pub life: u32,
    pub slide: u32,
}

#[derive(Clone, Copy, Debug, PartialEq, Eq)]
pub enum Event {
    Entry(Entry),
    // the id
    Cancel(u32),
    // the bid
    Bid(u32),
    // the price
    Tape(u32),
    // the close
    DayEnd(u32),
    // an entry and its owner (No. 7); one that is sent as `Entry` has owner 0
    OwnedEntry(Entry, u32),
    // a tape price with its time (No. 10)
    TimedTape(TimedPrice),
}

// Why a resting or a working order is cancelled, as report 3 says it.
#[derive(Clone, Copy, Debug, PartialEq, Eq, Hash)]
pub enum Cause {
    // by an event of kind 2
    AskedFor,
    // a remainder that doesn't rest
    ImmediateOrCancel,
    // an order that would be adjusted and has slide code 3
    OptOut,
    EndOfDay,
    // it would have traded with an order of its own firm (No. 7)
    SameFirm,
}

// What becomes of the remainder of a working order: there is none, it is cancelled for a cause, or it rests.
#[derive(Clone, Copy, Debug, PartialEq, Eq)]
pub enum Remainder {
    Filled,
    Cancelled(Cause),
    Rests,
}

// What the pass does with an order: leaves it, cancels it, or re-prices it, with the value of "used" that it then has.
#[derive(Clone, Copy, Debug, PartialEq, Eq)]
pub enum Move {
    Stay,
    Cancel,
    Reprice(u32, bool),
}

// The last stamp of the pass, or of a part of it, and where the next order likely stands.
#[derive(Clone, Copy, Debug, PartialEq, Eq)]
pub struct Passed {
    pub stamp: u32,
    pub next: usize,
}

// Why open, an event or a question is refused.
#[derive(Clone, Copy, Debug, PartialEq, Eq, Hash)]
pub enum Refusal {
    // the report buffer has under 16,384 bytes
    BufferTooShort,
    // 16,777,215 events were accepted
    EventsSpent,
    // a price, a close or a bid that isn't one
    PriceNotLegal,
    SharesOutOfRange,
    ShowOrLifeOutOfRange,
    // the id isn't above the last accepted one
    IdNotNew,
    // 256 orders rest, and the entry needs a place
    BookFull,
    // no order rests under the id
    NotResting,
    // the words break a condition of a venue record
    VenueBroken,
    // a step that is neither 50 nor 100
    NotStep,
    MarkOutOfRange,
    SlideOutOfRange,
    // a slide other than 0 on an order that isn't short
    SlideOnWrongMark,
    // an owner that isn't 1 to 65,535
    OwnerOutOfRange,
    // a time before the last one of the day
    TimeBeforeLast,
    // a 513th kept price
    KeptPricesFull,
}

// Why copy out fills no record.
#[derive(Clone, Copy, Debug, PartialEq, Eq, Hash)]
pub enum CopyError {
    // the run is shorter than the book
    RunTooShort,
    // the words break a condition of a venue record
    VenueBroken,
}

// What open gives: whether there is a venue, or why not, and its words, which are all 0 where there is none.
#[derive(Clone, Copy)]
pub struct Opened {
    pub answer: Result<(), Refusal>,
    pub words: [u32; words::VENUE],
}
