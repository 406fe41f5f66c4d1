// Would an entry fill in full now: the front of the book is read, and nothing is changed.
ghost use Rattle.std.specs.Prelude.{◌≡◌, T};
ghost use Rattle.engine.specs.rules.Layout.{venue_of, sound_words};
ghost use Rattle.engine.specs.rules.Fill.{asked_order, would_fill_in, outcome_of_fill};

use crate::{Entry, Refusal, header, refuse, working};
use book::{BookView, FrontRead, Order};

// The order that is asked about.
fn asked_order(book: BookView, mark: u32, price: u32, shares: u32) -> Order
    requires { T (sound_words book.words.now) }
    ensures { result ≡ asked_order (venue_of book.entry.words.now).market mark price shares }
{
    let e = Entry {
        id: 0,
        mark,
        price,
        shares,
        show: 0,
        life: 0,
        slide: 0,
    };
    working::order_of(header::market(book), 0, 0, e)
}

// Whether an entry with a mark, a price and shares would fill in full now, and how many orders were read to tell: any words, any numbers.
pub fn would_fill(words: &[u32], mark: u32, price: u32, shares: u32) -> Result<FrontRead, Refusal>
    ensures { outcome_of_fill result ≡ would_fill_in words.now mark price shares }
{
    if !refuse::venue_sound(words) {
        return Err(Refusal::VenueBroken);
    }
    let book = BookView::new(words);
    refuse::check_question(book, mark, price, shares)?;
    Ok(book.read_front(asked_order(book, mark, price, shares)))
}
