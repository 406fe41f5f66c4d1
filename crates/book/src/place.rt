// Taking orders out of the book, replacing them and putting them in, in place. These take the words, and say that they are a book.
// no type with methods, as BookView: what is behind a slice in a struct in a struct isn't known where the loan ends, so engine's steps can't make one of the
// words in LentVenue (tried: `withdraw`, goal invariant_of-self, words at the end of the loan ≡ words that the method left)
ghost use Rattle.std.specs.Prelude.{◌+◌, ◌<◌, ◌≤◌, length, get_or, set};
ghost use Rattle.book.specs.rules.Orders;
ghost use Rattle.book.specs.rules.Words.{order_width, empty_order, resting};
ghost use Rattle.book.specs.steps.BookSteps.{Book, Holds, IdsRise};
ghost use Rattle.book.specs.steps.WordSteps.{ShiftedDown, ShiftedUp};
ghost use Rattle.book.specs.steps.Positions.{remove_at, insert_at};

use crate::{BookView, Order, words};

// Moves n words, behind those of one order, down by one place. The words start at index 0, so that the compiler makes it one move.
// no copy_within: the compiler makes no move of it, and taking out the first of 250 orders then takes 2.8 times as long
fn shift_down(s: &mut [u32], n: usize)
    requires { n + order_width ≤ length s.old }
    ensures { ShiftedDown s.old s.new 0 n }
{
    for j in 0..n {
        s[j] = s[j + words::WIDTH];
    }
}

// Moves the first n words up by one place.
fn shift_up(s: &mut [u32], n: usize)
    requires { n + order_width ≤ length s.old }
    ensures { ShiftedUp s.old s.new 0 n }
{
    for j in (0..n).rev() {
        s[j + words::WIDTH] = s[j];
    }
}

// Takes the order at position i out.
pub(crate) fn remove_at(w: &mut [u32], i: usize)
    requires { Book w.old × (i < length (resting w.old)) }
    ensures { Holds w.old w.new (remove_at i (resting w.old)) }
{
    let last = BookView::new(w).count() - 1;
    let from = words::first_word(i);
    let to = words::first_word(last);
    shift_down(&mut w[from..], to - from);
    w[0] = last as u32;
}

// The same, by id: the order at position i is the one with its id.
pub fn remove(w: &mut [u32], i: usize)
    requires { Book w.old × (i < length (resting w.old)) × IdsRise w.old }
    ensures { Holds w.old w.new (Orders.without (get_or (resting w.old) i empty_order).id (resting w.old)) }
{
    remove_at(w, i);
}

// Puts an order in the place of the one at position i.
pub(crate) fn replace(w: &mut [u32], i: usize, o: Order)
    requires { Book w.old × (i < length (resting w.old)) }
    ensures { Holds w.old w.new (set (resting w.old) i o) }
{
    words::store(w, i, o);
}

// Puts an order in at a position.
fn insert_at(w: &mut [u32], at: usize, o: Order)
    requires { Book w.old × (at ≤ length (resting w.old)) × (length (resting w.old) < 256) }
    ensures { Holds w.old w.new (insert_at at o (resting w.old)) }
{
    let n = BookView::new(w).count();
    let from = words::first_word(at);
    let to = words::first_word(n);
    shift_up(&mut w[from..], to - from);
    words::store(w, at, o);
    w[0] = (n + 1) as u32;
}

// Puts an order in its place by id, behind all others where its id is above theirs.
pub fn insert(w: &mut [u32], o: Order)
    requires { Book w.old × (length (resting w.old) < 256) × IdsRise w.old }
    ensures { Holds w.old w.new (Orders.insert o (resting w.old)) }
{
    let i = BookView::new(w).rank_from_end(o.id);
    insert_at(w, i, o);
}
