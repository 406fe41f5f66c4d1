// The pass: where restricted orders go when the bid or the phase has changed, lowest id first.
ghost use Rattle.std.specs.Prelude.{◌≡◌, ◌+◌, ◌<◌, ◌&&◌, not, T, leb, length, get_or};
ghost use Rattle.prices.specs.Prices.{is_bid};
ghost use Rattle.book.specs.rules.Orders.{without};
ghost use Rattle.book.specs.rules.Words.{empty_order, resting};
ghost use Rattle.engine.specs.rules.Pass.{displayed_clear, move_down, slide_once, slide_down, may_slide, move_of, at_new_price, pass_over};
ghost use Rattle.engine.specs.rules.Working.{work};
ghost use Rattle.engine.specs.steps.Lent.{resting_in, SameLoans, HasRoom, Does, DoesEffect};
ghost use Rattle.engine.specs.steps.Steps.{move_in_pass, repriced_reports, turn_at, turn_of, ids_of, StartsWithIds};

use crate::lent::LentVenue;
use crate::{Cause, Market, Move, Passed, working};
use book::{BookView, Order, place};
use prices::restriction;

// Whether an order is displayed and clear.
#[tactic(auto, using(std::proofs::lemmas::Grind::common_steps), unfolding(crate::specs::rules::Pass::displayed_clear))]
fn displayed_clear(o: Order) -> bool
    ensures { result ≡ displayed_clear o }
{
    o.show == 1 && o.clear
}

// To a price, if that is lower.
#[tactic(auto, using(std::proofs::lemmas::Grind::common_steps), unfolding(crate::specs::rules::Pass::move_down, numbers::specs::Tests::pick))]
fn move_down(price: u32, used: bool, o: Order) -> Move
    ensures { result ≡ move_down price used o }
{
    if price < o.price {
        return Move::Reprice(price, used);
    }
    Move::Stay
}

// Where an adjusted order with slide once goes.
#[tactic(auto, using(std::proofs::lemmas::Grind::common_steps), unfolding(crate::specs::rules::Pass::slide_once, numbers::specs::Tests::pick))]
fn slide_once(m: Market, o: Order) -> Move
    ensures { result ≡ slide_once m o }
{
    let price = o.limit.max(o.entry_bid);
    if !o.used && m.bid < price {
        return move_down(price, true, o);
    }
    Move::Stay
}

// Where an order goes that may slide down.
#[tactic(auto, using(std::proofs::lemmas::Grind::common_steps), unfolding(crate::specs::rules::Pass::slide_down, numbers::specs::Tests::pick))]
fn slide_down(m: Market, o: Order) -> Move
    requires { T (is_bid m.step m.bid) }
    ensures { result ≡ slide_down m o }
{
    if o.slide == 0 {
        return move_down(o.limit.max(working::permitted_now(m)), o.used, o);
    }
    if o.slide == 1 {
        return slide_once(m, o);
    }
    Move::Stay
}

// Whether a restricted order must move: its price is at or below the bid, and it is not displayed or not clear.
fn must_move(m: Market, o: Order) -> bool
    ensures { result ≡ (leb o.price m.bid && not (displayed_clear o)) }
{
    o.price <= m.bid && !displayed_clear(o)
}

// Whether an order that need not move may slide down: it is adjusted, and no market short without a bid.
#[tactic(auto, using(std::proofs::lemmas::Grind::common_steps), unfolding(crate::specs::rules::Pass::may_slide))]
fn may_slide(m: Market, o: Order) -> bool
    ensures { result ≡ may_slide m o }
{
    o.adjusted && !(o.market && m.bid == 0)
}

// Where a restricted order goes.
#[tactic(auto, using(std::proofs::lemmas::Grind::common_steps), unfolding(crate::specs::rules::Pass::move_of, numbers::specs::Tests::pick))]
fn move_of(m: Market, o: Order) -> Move
    requires { T (is_bid m.step m.bid) }
    ensures { result ≡ move_of m o }
{
    if must_move(m, o) {
        if o.slide == 3 {
            return Move::Cancel;
        }
        return Move::Reprice(working::permitted_now(m), o.used);
    }
    if may_slide(m, o) {
        return slide_down(m, o);
    }
    Move::Stay
}

// Where an order of any mark goes.
#[tactic(auto, using(std::proofs::lemmas::Grind::common_steps), unfolding(numbers::specs::Tests::pick))]
fn move_in_pass(m: Market, o: Order) -> Move
    requires { T (is_bid m.step m.bid) }
    ensures { result ≡ move_in_pass m o }
{
    if working::restricted(m, o.mark) {
        return move_of(m, o);
    }
    Move::Stay
}

// The order at a new price, with a new stamp.
fn at_new_price(price: u32, stamp: u32, used: bool, o: Order) -> Order
    ensures { result ≡ at_new_price price stamp used o }
{
    Order {
        price,
        stamp,
        adjusted: true,
        used,
        clear: true,
        ..o
    }
}

// The ids of the resting orders, at the front.
fn resting_ids(book: BookView) -> [u32; 256]
    ensures { StartsWithIds result (resting book.entry.words.now) }
{
    let mut ids = [0u32; 256];
    for i in 0..book.count() {
        ids[i] = book.id_at(i);
    }
    ids
}

impl LentVenue<'_> {
    // The order at a position is taken out, reported at its new price, where it is x, and works. Not inlined: few turns come here, and
    // inlined it costs each of the others registers.
    #[inline(never)]
    fn reprice(&mut self, at: usize, x: Order)
        requires within { (at < length (resting_in self.old)) × (x.id ≡ (get_or (resting_in self.old) at empty_order).id) }
        requires room { HasRoom self.old (repriced_reports x (without x.id (resting_in self.old))) }
        ensures same_loans { SameLoans self.old self.new }
        ensures does { Does self.old self.new (work x (without x.id (resting_in self.old))).orders (repriced_reports x (without x.id (resting_in self.old))) }
    {
        place::remove(self.words, at);
        self.report_repriced(x.id, x.price, x.stamp);
        self.work(x);
    }

    // The turn of the order at position i.
    fn turn_at(&mut self, m: Market, i: usize, stamp: u32) -> Passed
        requires within { (i < length (resting_in self.old)) × T (is_bid m.step m.bid) × (stamp < 4294967295) }
        requires room { HasRoom self.old (turn_at m i (resting_in self.old) stamp).reports }
        ensures same_loans { SameLoans self.old self.new }
        ensures does { DoesEffect self.old self.new (turn_at m i (resting_in self.old) stamp) result.stamp }
    {
        let o = self.view().order(i);
        match move_in_pass(m, o) {
            Move::Stay => Passed { stamp, next: i + 1 },
            Move::Cancel => {
                place::remove(self.words, i);
                self.report_cancelled(o.id, o.shares, Cause::OptOut);
                Passed { stamp, next: i }
            },
            Move::Reprice(price, used) => {
                self.reprice(i, at_new_price(price, stamp + 1, used, o));
                Passed {
                    stamp: stamp + 1,
                    next: i + 1,
                }
            },
        }
    }

    // The turn of the order with an id, which likely stands at the next position; one that no longer rests is skipped.
    fn turn(&mut self, m: Market, id: u32, passed: Passed) -> Passed
        requires { T (is_bid m.step m.bid) × (passed.stamp < 4294967295) × HasRoom self.old (turn_of m id (resting_in self.old) passed.stamp).reports }
        ensures same_loans { SameLoans self.old self.new }
        ensures does { DoesEffect self.old self.new (turn_of m id (resting_in self.old) passed.stamp) result.stamp }
    {
        match self.view().find_near(id, passed.next) {
            Some(i) => self.turn_at(m, i, passed.stamp),
            None => passed,
        }
    }

    // The pass over the orders then resting; none is restricted while the restriction is off. The last stamp is returned.
    pub(crate) fn pass(&mut self, m: Market, stamp: u32) -> u32
        requires { T (is_bid m.step m.bid) × (stamp + 256 < 4294967296) × HasRoom self.old (pass_over m (ids_of (resting_in self.old)) (resting_in self.old) stamp).reports }
        ensures same_loans { SameLoans self.old self.new }
        ensures does { DoesEffect self.old self.new (pass_over m (ids_of (resting_in self.old)) (resting_in self.old) stamp) result }
    {
        if !restriction::restriction_on(m.phase) {
            return stamp;
        }
        let count = self.view().count();
        let ids = resting_ids(self.view());
        let mut passed = Passed { stamp, next: 0 };
        for &id in &ids[..count] {
            passed = self.turn(m, id, passed);
        }
        passed.stamp
    }
}
