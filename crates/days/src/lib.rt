// A day in one call: event records played one after another. It stands on the four layers and on the records.
#![tactic(auto)]

pub mod play;

use records::ReadRefusal;

// Why playing stopped.
#[derive(Clone, Copy, Debug, PartialEq, Eq)]
pub enum Stop {
    // the records are at their end
    AllPlayed,
    // no place is left for an end
    EndsFull,
    // fewer than 16,384 bytes are left for reports
    ReportsFull,
    // the record at the offset reached can't be read
    Unreadable(ReadRefusal),
    // the words break a condition of a venue record, and nothing was played
    VenueBroken,
}

// How far playing came: the events played, the offset reached in the records, the bytes written, and why it stopped.
#[derive(Clone, Copy, Debug, PartialEq, Eq)]
pub struct Played {
    pub events: usize,
    pub at: usize,
    pub end: usize,
    pub stop: Stop,
}
