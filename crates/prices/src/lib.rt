// Prices, bids, the permitted price, the phases of the restriction and the pause watch: the second layer.
#![tactic(auto)]

ghost use Rattle.std.specs.Prelude.{◌≡◌};
ghost use Rattle.prices.specs.PriceErrors.{bid_error_of};
ghost use Rattle.prices.specs.Steps.{step_value, StepOf};
ghost use Rattle.prices.specs.Directions.{direction_code};

pub mod increments;
pub mod pause;
pub mod restriction;

// A price in ten-thousandths of a dollar.
#[derive(Clone, Copy, Debug, PartialEq, Eq, PartialOrd, Ord, Hash)]
pub struct Price {
    pub value: u32,
}

// Why a number taken as a price is none: the step is neither 50 nor 100, or the price isn't legal at it.
#[derive(Clone, Copy, Debug, PartialEq, Eq, Hash)]
pub enum PriceError {
    NotStep,
    NotLegal,
}

// Why a number taken as a bid has no permitted price: the step is neither 50 nor 100, or the number is no bid at it.
#[derive(Clone, Copy, Debug, PartialEq, Eq, Hash)]
pub enum BidError {
    NotStep,
    NotBid,
}

// A number is a bid just where the price above it is legal.
impl From<PriceError> for BidError {
    ghost from_gives = { λ e b. b ≡ bid_error_of e };

    fn from(e: PriceError) -> BidError {
        match e {
            PriceError::NotStep => BidError::NotStep,
            PriceError::NotLegal => BidError::NotBid,
        }
    }
}

// A step of prices from the dollar border up.
#[derive(Clone, Copy, Debug, PartialEq, Eq, Hash)]
pub enum Step {
    HalfCent,
    Cent,
}

impl TryFrom<u32> for Step {
    type Error = PriceError;

    ghost try_from_gives = { StepOf };

    #[tactic(auto, unfolding(crate::specs::Prices::is_step))]
    fn try_from(step: u32) -> Result<Self, PriceError> {
        match step {
            increments::HALF_CENT => Ok(Step::HalfCent),
            increments::CENT => Ok(Step::Cent),
            _ => Err(PriceError::NotStep),
        }
    }
}

impl From<Step> for u32 {
    ghost from_gives = { λ s n. n ≡ step_value s };

    fn from(step: Step) -> u32 {
        match step {
            Step::HalfCent => increments::HALF_CENT,
            Step::Cent => increments::CENT,
        }
    }
}

// A host's own record of a close and the phase of the restriction under it.
#[repr(C)]
#[derive(Clone, Copy, Debug, PartialEq, Eq)]
pub struct Watch {
    pub close: u32,
    pub phase: u32,
}

// A tape price with its time in whole seconds.
#[derive(Clone, Copy, Debug, PartialEq, Eq)]
pub struct TimedPrice {
    pub time: u32,
    pub price: u32,
}

// What a new price is against an earlier one: 10% or more below it, or 10% or more above it.
#[derive(Clone, Copy, Debug, PartialEq, Eq, Hash)]
pub enum Direction {
    Fall,
    Rise,
}

// Report 7's number of a direction.
impl From<Direction> for u32 {
    ghost from_gives = { λ d n. n ≡ direction_code d };

    fn from(direction: Direction) -> u32 {
        match direction {
            Direction::Fall => 1,
            Direction::Rise => 2,
        }
    }
}
