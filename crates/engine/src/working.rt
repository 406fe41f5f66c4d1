// A working order: its price, its matching, and what becomes of its remainder.
ghost use Rattle.std.specs.Prelude.{◌≡◌, ◌+◌, ◌<◌, ◌≤◌, [], ◌∷◌, T, length, get_or};
ghost use Rattle.prices.specs.Prices.{is_bid};
ghost use Rattle.book.specs.rules.Matching;
ghost use Rattle.book.specs.rules.Words.{empty_order, resting};
ghost use Rattle.book.specs.steps.Positions.{Found};
ghost use Rattle.engine.specs.rules.Market.{permitted_now};
ghost use Rattle.engine.specs.rules.Reports.{executed};
ghost use Rattle.engine.specs.rules.Working;
ghost use Rattle.engine.specs.rules.Working.{limit_of, follows_bid, life_of, working_price, order_of, remainder, happened};
ghost use Rattle.engine.specs.steps.Lent.{resting_in, SameLoans, HasRoomFor, HasRoom, Reported, MayEnter, Works, Meets, Matches};
ghost use Rattle.engine.specs.steps.Steps.{matching_reports, rested_or_cancelled};

use crate::lent::LentVenue;
use crate::{Cause, Entry, Market, Remainder};
use book::{BookView, Order, place, priority, trade};
use prices::{Price, increments, restriction};

// Whether an order of a mark is restricted.
#[tactic(auto, using(std::proofs::lemmas::Grind::common_steps), unfolding(crate::specs::rules::Market::restricted))]
pub(crate) fn restricted(m: Market, mark: u32) -> bool
    ensures { result ≡ Rattle.engine.specs.rules.Market.restricted m mark }
{
    restriction::restriction_on(m.phase) && mark == 2
}

// The permitted price of the bid in force.
#[tactic(auto, using(std::proofs::lemmas::Grind::common_steps, prices::proofs::PriceLaws::bid_highest), unfolding(crate::specs::rules::Market::permitted_now))]
pub(crate) fn permitted_now(m: Market) -> u32
    requires { T (is_bid m.step m.bid) }
    ensures { result ≡ permitted_now m }
{
    increments::price_above(m.step, m.bid)
}

// What counts as the limit of an entry.
#[tactic(auto, using(std::proofs::lemmas::Grind::common_steps), unfolding(crate::specs::rules::Working::limit_of, numbers::specs::Tests::pick))]
fn limit_of(mark: u32, price: u32) -> u32
    ensures { result ≡ limit_of mark price }
{
    if price == 0 {
        if mark == 0 {
            return Price::HIGHEST;
        }
        return 1;
    }
    price
}

// Whether an entry is a market short, which follows the bid.
#[tactic(auto, using(std::proofs::lemmas::Grind::common_steps), unfolding(crate::specs::rules::Working::follows_bid))]
fn follows_bid(m: Market, mark: u32, price: u32) -> bool
    ensures { result ≡ follows_bid m mark price }
{
    price == 0 && restricted(m, mark) && 0 < m.bid
}

// What counts as the life of an entry.
#[tactic(auto, using(std::proofs::lemmas::Grind::common_steps), unfolding(crate::specs::rules::Working::life_of, numbers::specs::Tests::pick))]
pub(crate) fn life_of(m: Market, mark: u32, price: u32, life: u32) -> u32
    ensures { result ≡ life_of m mark price life }
{
    if price == 0 && !follows_bid(m, mark, price) {
        return 1;
    }
    life
}

// The price that an entry works at.
#[tactic(auto, using(std::proofs::lemmas::Grind::common_steps), unfolding(crate::specs::rules::Working::working_price, numbers::specs::Tests::pick))]
fn working_price(m: Market, mark: u32, price: u32) -> u32
    requires { T (is_bid m.step m.bid) }
    ensures { result ≡ working_price m mark price }
{
    let limit = limit_of(mark, price);
    if restricted(m, mark) {
        return limit.max(permitted_now(m));
    }
    limit
}

// The order of an entry, with its stamp and its owner.
#[tactic(auto, using(std::proofs::lemmas::Grind::common_steps), unfolding(crate::specs::rules::Working::order_of))]
pub(crate) fn order_of(m: Market, stamp: u32, owner: u32, e: Entry) -> Order
    requires { T (is_bid m.step m.bid) }
    ensures { result ≡ order_of m stamp owner e }
{
    let price = working_price(m, e.mark, e.price);
    let limit = limit_of(e.mark, e.price);
    let life = life_of(m, e.mark, e.price, e.life);
    let market = follows_bid(m, e.mark, e.price);
    Order {
        id: e.id,
        mark: e.mark,
        limit,
        shares: e.shares,
        show: e.show,
        life,
        slide: e.slide,
        stamp,
        price,
        entry_bid: m.bid,
        adjusted: limit < price,
        used: false,
        clear: m.bid < price,
        market,
        owner,
    }
}

// What becomes of a remainder.
#[tactic(auto, using(std::proofs::lemmas::Grind::common_steps), unfolding(crate::specs::rules::Working::remainder, numbers::specs::Tests::pick))]
fn remainder_of(o: Order) -> Remainder
    ensures { result ≡ remainder o }
{
    if o.shares == 0 {
        return Remainder::Filled;
    }
    if o.life == 1 {
        return Remainder::Cancelled(Cause::ImmediateOrCancel);
    }
    if o.adjusted && o.slide == 3 {
        return Remainder::Cancelled(Cause::OptOut);
    }
    Remainder::Rests
}

// Where the order stands that o meets next: nowhere once no shares remain.
#[tactic(auto, using(std::proofs::lemmas::Grind::common_steps), unfolding(book::specs::rules::Matching::counterparty, numbers::specs::Tests::pick))]
fn counterparty(book: BookView, o: Order) -> Option<usize>
    ensures { Found (resting book.entry.words.now) result (Matching.counterparty o (resting book.entry.words.now)) }
{
    if o.shares == 0 {
        return None;
    }
    book.best(o)
}

impl LentVenue<'_> {
    // Reports that the working order o traded q shares with the resting order x.
    fn report_execution(&mut self, o: Order, x: Order, q: u32)
        requires { HasRoomFor self.old (executed (Matching.execution o x q)) }
        ensures same_loans { SameLoans self.old self.new }
        ensures reported { Reported self.old self.new (executed (Matching.execution o x q)) }
    {
        if o.mark == 0 {
            self.report_executed(o.id, x.id, x.price, q);
        } else {
            self.report_executed(x.id, o.id, x.price, q);
        }
    }

    // o trades with the order at position i; what is left of o is returned.
    fn trade_with(&mut self, o: Order, i: usize) -> Order
        requires within { i < length (resting_in self.old) }
        requires room { HasRoom self.old (happened (Matching.trading o (get_or (resting_in self.old) i empty_order) (resting_in self.old)).happening ∷ []) }
        ensures same_loans { SameLoans self.old self.new }
        ensures meets { Meets self.old self.new (Matching.trading o (get_or (resting_in self.old) i empty_order) (resting_in self.old)) result }
    {
        let x = self.view().order(i);
        let q = o.shares.min(x.shares);
        trade::trade(self.words, i, q);
        self.report_execution(o, x, q);
        trade::reduce(o, q)
    }

    // The order at position i, which is of o's owner, is cancelled.
    fn withdraw(&mut self, o: Order, i: usize)
        requires within { i < length (resting_in self.old) }
        requires room { HasRoom self.old (happened (Matching.withdrawing o (get_or (resting_in self.old) i empty_order) (resting_in self.old)).happening ∷ []) }
        ensures same_loans { SameLoans self.old self.new }
        ensures meets { Meets self.old self.new (Matching.withdrawing o (get_or (resting_in self.old) i empty_order) (resting_in self.old)) o }
    {
        let x = self.view().order(i);
        place::remove(self.words, i);
        self.report_cancelled(x.id, x.shares, Cause::SameFirm);
    }

    // One meeting of o with the order at position i; what is left of o is returned.
    fn meet(&mut self, o: Order, i: usize) -> Order
        requires within { i < length (resting_in self.old) }
        requires room { HasRoom self.old (happened (Matching.meeting o (get_or (resting_in self.old) i empty_order) (resting_in self.old)).happening ∷ []) }
        ensures same_loans { SameLoans self.old self.new }
        ensures meets { Meets self.old self.new (Matching.meeting o (get_or (resting_in self.old) i empty_order) (resting_in self.old)) result }
    {
        if priority::same_owner(o, self.view().order(i)) {
            self.withdraw(o, i);
            return o;
        }
        self.trade_with(o, i)
    }

    // o meets the orders that it reaches, best first; what is left of o is returned.
    fn match_order(&mut self, o: Order) -> Order
        requires { MayEnter o self.old × HasRoom self.old (matching_reports (Matching.matching o (resting_in self.old))) }
        ensures same_loans { SameLoans self.old self.new }
        ensures matches { Matches self.old self.new o result }
    {
        let mut left = o;
        while let Some(i) = counterparty(self.view(), left) {
            left = self.meet(left, i);
        }
        left
    }

    // Cancels a remainder, or lets it rest.
    fn rest_or_cancel(&mut self, o: Order)
        requires { MayEnter o self.old × HasRoom self.old (rested_or_cancelled o (resting_in self.old)).reports }
        ensures same_loans { SameLoans self.old self.new }
        ensures works { Works self.old self.new (rested_or_cancelled o (resting_in self.old)) }
    {
        match remainder_of(o) {
            Remainder::Filled => {},
            Remainder::Cancelled(cause) => self.report_cancelled(o.id, o.shares, cause),
            Remainder::Rests => place::insert(self.words, o),
        }
    }

    // The order o works: it matches, and its remainder is cancelled or rests.
    pub(crate) fn work(&mut self, o: Order)
        requires { MayEnter o self.old × HasRoom self.old (Working.work o (resting_in self.old)).reports }
        ensures same_loans { SameLoans self.old self.new }
        ensures works { Works self.old self.new (Working.work o (resting_in self.old)) }
    {
        let left = self.match_order(o);
        self.rest_or_cancel(left);
    }
}
