// Event records as bytes: document 01, "Read a record", "Write a record". It stands on the four layers, beside the calls for hosts.
#![tactic(auto)]

pub mod record;

ghost use Rattle.std.specs.Prelude.{◌≡◌};
ghost use Rattle.numbers.specs.SevenBit.{number_of_error};
ghost use Rattle.records.specs.ReadRefusals.{read_refusal_number};

use engine::Event;
use numbers::NumberError;

// Why no event record stands at an offset: a byte is missing, a number is bad, the kind is none, or a field is above 32 bits.
#[derive(Clone, Copy, Debug, PartialEq, Eq, Hash)]
pub enum ReadRefusal {
    MissingByte,
    BadNumber,
    UnknownKind,
    FieldTooLarge,
}

// Where no number stands, no record does: the refusal has the same number.
impl From<NumberError> for ReadRefusal {
    ghost from_gives = { λ e r. read_refusal_number r ≡ number_of_error e };

    fn from(e: NumberError) -> ReadRefusal {
        match e {
            NumberError::MissingByte => ReadRefusal::MissingByte,
            NumberError::BadNumber => ReadRefusal::BadNumber,
        }
    }
}

// Document 01's numbers of the refusals.
impl From<ReadRefusal> for u32 {
    ghost from_gives = { λ refusal number. number ≡ read_refusal_number refusal };

    fn from(refusal: ReadRefusal) -> u32 {
        match refusal {
            ReadRefusal::MissingByte => 9,
            ReadRefusal::BadNumber => 10,
            ReadRefusal::UnknownKind => 11,
            ReadRefusal::FieldTooLarge => 12,
        }
    }
}

// One field of an event record with the offset behind it.
#[derive(Clone, Copy, Debug, PartialEq, Eq)]
pub struct FieldAt {
    pub value: u32,
    pub end: usize,
}

// An event that stands at an offset of a byte slice, with the offset behind its record.
#[derive(Clone, Copy, Debug, PartialEq, Eq)]
pub struct EventAt {
    pub event: Event,
    pub end: usize,
}
