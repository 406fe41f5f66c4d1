// Legal prices, bids, and the lowest price that a restricted short sale may have (17 CFR 242.612, 242.201(b)).
ghost use Rattle.std.specs.Prelude.{◌≡◌, ◌*◌, ◌%◌, ◌≤◌, T, leb, ltb, eqb};
ghost use Rattle.prices.specs.Steps.{step_value};
ghost use Rattle.prices.specs.Prices.{highest, dollar_border, is_step, highest_bid, legal, is_bid, permitted, price_of, permitted_of, outcome_of_price, outcome_of_permitted};

use crate::{BidError, Price, PriceError, Step};

impl Price {
    // The highest price, and the price of one dollar, from which on prices are multiples of the step.
    pub const HIGHEST: u32 = 100_000_000;

    pub const DOLLAR_BORDER: u32 = 10_000;

    #[tactic(auto, using(crate::proofs::StepLaws::step_is), unfolding(crate::specs::Prices::price_of, crate::specs::Prices::at_step, crate::specs::Prices::legal, numbers::specs::Tests::pick))]
    pub fn new(step: u32, value: u32) -> Result<Price, PriceError>
        ensures { outcome_of_price result ≡ price_of step value }
    {
        let step = Step::try_from(step)?;
        if !is_legal(step, value) {
            return Err(PriceError::NotLegal);
        }
        Ok(Price { value })
    }
}

// The steps of prices from the dollar border up.
pub const CENT: u32 = 100;

pub const HALF_CENT: u32 = 50;

#[tactic(auto, unfolding(crate::specs::Prices::is_step))]
pub fn is_step(step: u32) -> bool
    ensures { result ≡ is_step step }
{
    Step::try_from(step).is_ok()
}

// The tests of the bounds: each contract holds for no other number than its bound.
fn up_to_highest(value: u32) -> bool
    ensures { result ≡ leb value highest }
{
    value <= Price::HIGHEST
}

fn up_to_highest_bid(step: Step, value: u32) -> bool
    ensures { result ≡ leb value (highest_bid (step_value step)) }
{
    value <= Price::HIGHEST - u32::from(step)
}

fn below_border(value: u32) -> bool
    ensures { result ≡ ltb value dollar_border }
{
    value < Price::DOLLAR_BORDER
}

// 2^32 by the step, rounded up: times the step it is 2^32 + 4.
fn share_of(step: Step) -> u64
    ensures { result * step_value step ≡ 4294967300 }
{
    match step {
        Step::HalfCent => 85_899_346,
        Step::Cent => 42_949_673,
    }
}

// Whether a price is a multiple of the step, by a product in place of a division: a price times the share leaves less than the share, by 2^32, just where
// nothing is left of the price by the step. A remainder by the step, and a choice between two remainders too, is a division in each test of the record walk.
#[tactic(auto, using(crate::proofs::PriceLaws::multiple_by_share, crate::proofs::PriceLaws::step_known, crate::proofs::StepLaws::step_is))]
fn is_multiple(step: Step, value: u32) -> bool
    requires { value ≤ highest }
    ensures { result ≡ eqb (value % step_value step) 0 }
{
    let share = share_of(step);
    u64::from(value) * share % 4_294_967_296 < share
}

#[tactic(auto, unfolding(crate::specs::Prices::legal))]
pub fn is_legal(step: Step, value: u32) -> bool
    ensures { result ≡ legal (step_value step) value }
{
    if !up_to_highest(value) {
        return false;
    }
    if is_multiple(step, value) {
        return value >= 1;
    }
    below_border(value)
}

// No bid, 0, is a multiple of the step too.
#[tactic(auto, unfolding(crate::specs::Prices::legal, crate::specs::Prices::is_bid))]
pub fn is_bid(step: Step, value: u32) -> bool
    ensures { result ≡ is_bid (step_value step) value }
{
    if !up_to_highest(value) {
        return false;
    }
    if is_multiple(step, value) {
        return up_to_highest_bid(step, value);
    }
    below_border(value)
}

// The lowest legal price above a bid.
#[tactic(auto, unfolding(crate::specs::Prices::permitted, numbers::specs::Tests::pick))]
pub fn price_above(step: u32, bid: u32) -> u32
    requires { bid ≤ highest_bid step }
    ensures { result ≡ permitted step bid }
{
    if bid == 0 {
        return 1;
    }
    if below_border(bid) {
        return bid + 1;
    }
    bid + step
}

// The permitted price of a bid: a number up to the highest bid is a bid just where the price above it is legal.
#[tactic(auto, using(crate::proofs::PriceLaws::permitted_taken, crate::proofs::PriceLaws::permitted_beyond, crate::proofs::PriceLaws::step_refused, crate::proofs::StepLaws::step_is), unfolding(crate::specs::Prices::permitted_of))]
pub fn permitted_price(step: u32, bid: u32) -> Result<Price, BidError>
    ensures { outcome_of_permitted result ≡ permitted_of step bid }
{
    if !up_to_highest_bid(Step::try_from(step)?, bid) {
        return Err(BidError::NotBid);
    }
    Ok(Price::new(step, price_above(step, bid))?)
}
