// The best order that a working order reaches, by price, then displayed before not, then lower stamp; and whether two orders are of the same owner.
ghost use Rattle.std.specs.Prelude.{◌≡◌, ◌+◌, ◌≤◌, ◌<◌, ltb, eqb, length, Some};
ghost use Rattle.numbers.specs.Tests.{pick};
ghost use Rattle.book.specs.rules.Matching;
ghost use Rattle.book.specs.rules.Words.{resting};
ghost use Rattle.book.specs.steps.Positions.{IsAt, Found, FirstReached, considered};

use crate::{BookView, Order};

// What puts a price out of reach of every other.
const OUT_OF_REACH: u64 = 4_294_967_296;

// The same where the orders aren't opposite.
fn out_of_reach(opposite: bool) -> u64
    ensures { (result ≡ pick opposite 0 4_294_967_296) × (result ≤ 4_294_967_296) }
{
    if opposite {
        return 0;
    }
    OUT_OF_REACH
}

// Whether the working order o reaches the resting order x. One comparison tests side and price: the side of the next order can't be foretold, so
// no branch goes by it. A sell reaches buys, whose mark is 0.
pub(crate) fn reaches(o: Order, x: Order) -> bool
    ensures { result ≡ Matching.reaches o x }
{
    if o.mark == 0 {
        return out_of_reach(x.mark != 0) + (x.price as u64) <= (o.price as u64);
    }
    (x.mark as u64) * OUT_OF_REACH + (o.price as u64) <= (x.price as u64)
}

// Whether, for an order of a mark, price p is better than price q.
fn better_price(mark: u32, p: u32, q: u32) -> bool
    ensures { result ≡ pick (eqb mark 0) (ltb p q) (ltb q p) }
{
    if mark == 0 {
        return p < q;
    }
    q < p
}

// Whether a is better than b for the working order o.
#[tactic(auto, using(std::proofs::lemmas::Grind::common_steps), unfolding(crate::specs::rules::Matching::better))]
fn better(o: Order, a: Order, b: Order) -> bool
    ensures { result ≡ Matching.better o a b }
{
    if better_price(o.mark, a.price, b.price) {
        return true;
    }
    a.price == b.price && (b.show, a.stamp) < (a.show, b.stamp)
}

impl<'a> BookView<'a> {
    // The position of the first order that o reaches.
    fn first_reached(self, o: Order) -> Option<usize>
        ensures { FirstReached o (resting self.entry.words.now) result }
    {
        for i in 0..self.count() {
            if reaches(o, self.order(i)) {
                return Some(i);
            }
        }
        None
    }

    // The better of the best so far, which is at position best, and the order at position i.
    fn consider(self, o: Order, best: usize, i: usize) -> usize
        requires { (best < i) × (i < length (resting self.words.now)) }
        ensures { IsAt (resting self.entry.words.now) (Some result) (i + 1) (considered o (resting self.entry.words.now) (Some best) i) }
    {
        let x = self.order(i);
        if reaches(o, x) {
            if better(o, x, self.order(best)) {
                return i;
            }
        }
        best
    }

    // The best order that o reaches.
    pub fn best(self, o: Order) -> Option<usize>
        ensures { Found (resting self.entry.words.now) result (Matching.best o (resting self.entry.words.now)) }
    {
        let mut best = self.first_reached(o)?;
        for i in best + 1..self.count() {
            best = self.consider(o, best, i);
        }
        Some(best)
    }
}

// Whether both orders are of the same owner above 0.
#[tactic(auto, using(std::proofs::lemmas::Grind::common_steps), unfolding(crate::specs::rules::Matching::same_owner))]
pub fn same_owner(o: Order, x: Order) -> bool
    ensures { result ≡ Matching.same_owner o x }
{
    o.owner > 0 && o.owner == x.owner
}
