// Watch, copy out and depth are lent a struct or a run of structs. These take the values, lend them, and give back what was made of them.
ghost use Rattle.std.specs.Prelude.{◌≡◌, replicate};
ghost use Rattle.prices.specs.Watch.{watched, watch_outcome, outcome_of_watch};
ghost use Rattle.book.specs.rules.Depth.{depth_of, outcome_of_depth};
ghost use Rattle.engine.specs.rules.Copy.{copy_outcome, copied, outcome_of_copy};

use book::{OrderRecord, Side, TooManyRecords, depth};
use engine::{CopyError, copy};
use prices::{PriceError, Watch, restriction};

// A watch after a tape price, and the answer.
pub fn watch_of(watch: Watch, step: u32, price: u32) -> (Watch, Result<(), PriceError>)
    ensures { (result.0 ≡ watched step watch price) × (outcome_of_watch result.1 ≡ watch_outcome step price) }
{
    let mut after = watch;
    let answer = restriction::watch(&mut after, step, price);
    (after, answer)
}

// The orders of words, copied to a run that holds a record four times, and the answer.
pub fn copy_of(words: &[u32], o: OrderRecord) -> ([OrderRecord; 4], Result<usize, CopyError>)
    ensures { (outcome_of_copy result.1 ≡ copy_outcome words.now 4) × (result.0 ≡ copied words.now (replicate 4 o)) }
{
    let mut run = [o; 4];
    let answer = copy::copy_out(words, &mut run);
    (run, answer)
}

pub fn depth_of<const N: usize>(
    run: [OrderRecord; N],
    price: u32,
    side: Side,
) -> Result<u64, TooManyRecords>
    ensures { outcome_of_depth result ≡ depth_of run.entry price side }
{
    depth::depth(&run, price, side)
}
