// The phases of the short sale restriction (17 CFR 242.201(b)).
ghost use Rattle.std.specs.Prelude.{◌≡◌};
ghost use Rattle.prices.specs.Restriction.{may_start, phase_after_tape, phase_after_day_end, restriction_on};
ghost use Rattle.prices.specs.Watch.{watched, watch_outcome, outcome_of_watch};

use crate::{Price, PriceError, Watch};

// Whether a tape price is 10% or more below the close. The products take 64 bits.
#[tactic(auto, unfolding(crate::specs::Restriction::triggers))]
fn triggers(close: u32, price: u32) -> bool
    ensures { result ≡ Rattle.prices.specs.Restriction.triggers close price }
{
    10 * u64::from(price) <= 9 * u64::from(close)
}

// Whether a fall starts a period in a phase: off, or on since yesterday.
fn may_start(phase: u32) -> bool
    ensures { result ≡ may_start phase }
{
    matches!(phase, 0 | 2)
}

#[tactic(auto, unfolding(crate::specs::Restriction::phase_after_tape, numbers::specs::Tests::pick))]
pub fn phase_after_tape(close: u32, phase: u32, price: u32) -> u32
    ensures { result ≡ phase_after_tape close phase price }
{
    if may_start(phase) && triggers(close, price) {
        1
    } else {
        phase
    }
}

#[tactic(auto, unfolding(crate::specs::Restriction::phase_after_day_end, numbers::specs::Tests::pick))]
pub fn phase_after_day_end(phase: u32) -> u32
    ensures { result ≡ phase_after_day_end phase }
{
    if phase == 1 { 2 } else { 0 }
}

#[tactic(auto, unfolding(crate::specs::Restriction::restriction_on))]
pub fn restriction_on(phase: u32) -> bool
    ensures { result ≡ restriction_on phase }
{
    matches!(phase, 1 | 2)
}

// A tape price at a step on the host's own record: any close, any phase, any step, any price.
#[tactic(auto, unfolding(crate::specs::Watch::watched, crate::specs::Watch::watched_phase, crate::specs::Watch::watch_outcome, crate::specs::Prices::price_of, crate::specs::Prices::at_step, crate::specs::Prices::legal, numbers::specs::Tests::pick))]
pub fn watch(watch: &mut Watch, step: u32, price: u32) -> Result<(), PriceError>
    ensures { (outcome_of_watch result ≡ watch_outcome step price) × (watch.new ≡ watched step watch.old price) }
{
    let price = Price::new(step, price)?;
    watch.phase = phase_after_tape(watch.close, watch.phase, price.value);
    Ok(())
}
