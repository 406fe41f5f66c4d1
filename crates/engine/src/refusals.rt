// The papers' numbers of the refusals.
ghost use Rattle.std.specs.Prelude.{◌≡◌};
ghost use Rattle.prices.specs.PriceErrors.{price_error_number};
ghost use Rattle.engine.specs.rules.Answers.{refusal_number};
ghost use Rattle.engine.specs.rules.Copy.{copy_error_number};

use crate::{CopyError, Refusal};
use prices::PriceError;

// A price error is the refusal with its number.
impl From<PriceError> for Refusal {
    ghost from_gives = { λ e r. refusal_number r ≡ price_error_number e };

    fn from(e: PriceError) -> Refusal {
        match e {
            PriceError::NotStep => Refusal::NotStep,
            PriceError::NotLegal => Refusal::PriceNotLegal,
        }
    }
}

// The paper's number of a refusal.
impl From<Refusal> for u32 {
    ghost from_gives = { λ refusal n. n ≡ refusal_number refusal };

    fn from(refusal: Refusal) -> u32 {
        match refusal {
            Refusal::BufferTooShort => 1,
            Refusal::EventsSpent => 2,
            Refusal::PriceNotLegal => 3,
            Refusal::SharesOutOfRange => 4,
            Refusal::ShowOrLifeOutOfRange => 5,
            Refusal::IdNotNew => 6,
            Refusal::BookFull => 7,
            Refusal::NotResting => 8,
            Refusal::VenueBroken => 16,
            Refusal::NotStep => 17,
            Refusal::MarkOutOfRange => 18,
            Refusal::SlideOutOfRange => 19,
            Refusal::SlideOnWrongMark => 20,
            Refusal::OwnerOutOfRange => 21,
            Refusal::TimeBeforeLast => 22,
            Refusal::KeptPricesFull => 23,
        }
    }
}

// The paper's number of why copy out fills no record.
impl From<CopyError> for u32 {
    ghost from_gives = { λ error n. n ≡ copy_error_number error };

    fn from(error: CopyError) -> u32 {
        match error {
            CopyError::RunTooShort => 14,
            CopyError::VenueBroken => 16,
        }
    }
}
