// Depth: the displayed shares at a price on one side, in a lent run of order records.
#![tactic(auto, using(std::proofs::lemmas::Grind::common_steps), unfolding(crate::specs::rules::Depth::on_side, crate::specs::rules::Depth::counts, crate::specs::rules::Depth::shares_shown, crate::specs::rules::Depth::depth_outcome, crate::specs::rules::Depth::depth_of, numbers::specs::Tests::pick))]

ghost use Rattle.std.specs.Prelude.{◌≡◌, ◌<◌, ◌^◌};
ghost use Rattle.book.specs.rules.Depth;
ghost use Rattle.book.specs.rules.Depth.{depth_of, outcome_of_depth};

use crate::{OrderRecord, Side, TooManyRecords};

const MOST_RECORDS: usize = 256;

fn on_side(mark: u32, side: Side) -> bool
    ensures { result ≡ Depth.on_side side mark }
{
    match side {
        Side::Buy => mark == 0,
        Side::Sell => matches!(mark, 1..=3),
    }
}

// Whether the shares of a record count.
fn counts(o: &OrderRecord, price: u32, side: Side) -> bool
    ensures { result ≡ Depth.counts price side o.now }
{
    o.show == 1 && o.price == price && on_side(o.mark, side)
}

fn shares_shown(o: &OrderRecord, price: u32, side: Side) -> u64
    ensures { (result ≡ Depth.shares_shown price side o.now) × (result < 2 ^ 32) }
{
    if counts(o, price, side) {
        return u64::from(o.shares);
    }
    0
}

// The displayed shares at a price: any run, any price. The sum takes 64 bits. A run of over 256 records is refused.
pub fn depth(run: &[OrderRecord], price: u32, side: Side) -> Result<u64, TooManyRecords>
    ensures { outcome_of_depth result ≡ depth_of run.now price side }
{
    if run.len() > MOST_RECORDS {
        return Err(TooManyRecords);
    }
    let mut sum = 0;
    for o in run {
        sum += shares_shown(o, price, side);
    }
    Ok(sum)
}
