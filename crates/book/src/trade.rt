// What a trade does to the resting order.
ghost use Rattle.std.specs.Prelude.{◌≡◌, ◌<◌, ◌≤◌, length, get_or};
ghost use Rattle.book.specs.rules.Orders.{reduced};
ghost use Rattle.book.specs.rules.Matching.{after_trade};
ghost use Rattle.book.specs.rules.Words.{empty_order, resting};
ghost use Rattle.book.specs.steps.BookSteps.{Book, Holds, IdsRise};

use crate::{BookView, Order, place};

// The order with q shares less.
pub fn reduce(o: Order, q: u32) -> Order
    requires { q ≤ o.shares }
    ensures { result ≡ reduced q o }
{
    Order {
        shares: o.shares - q,
        ..o
    }
}

// q shares of the order at position i have traded.
pub fn trade(w: &mut [u32], i: usize, q: u32)
    requires { Book w.old × (i < length (resting w.old)) × IdsRise w.old }
    ensures { Holds w.old w.new (after_trade (get_or (resting w.old) i empty_order) q (resting w.old)) }
{
    let o = BookView::new(w).order(i);
    if o.shares <= q {
        place::remove_at(w, i);
    } else {
        place::replace(w, i, reduce(o, q));
    }
}
