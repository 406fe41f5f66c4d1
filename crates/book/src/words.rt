// The layout of a book in lent words: its header words, and its orders one at a time by value.
ghost use Rattle.std.specs.Prelude.{◌≡◌, ◌+◌, ◌<◌, ◌≤◌, [], length, get_or};
ghost use Rattle.book.specs.rules.Words.{header_words, book_words, order_width, venue_words, layout_word, empty_order, place_from, order_of, resting};
ghost use Rattle.numbers.specs.Lists.{tabulate};
ghost use Rattle.book.specs.steps.BookSteps.{Book, Holds, HeaderSet};
ghost use Rattle.book.specs.steps.WordSteps.{place_in, Row, Stored};

use crate::{BookView, Order};
use prices::pause;

// The words of the header and of an order, the places for orders, the words of the book's part, and those of a venue, with the kept prices.
const HEADER: usize = 16;

pub(crate) const WIDTH: usize = 15;

pub const PLACES: usize = 256;

pub const BOOK: usize = HEADER + PLACES * WIDTH;

pub const VENUE: usize = BOOK + pause::KEPT_WORDS;

// The number of this layout, and the header word that has it.
pub const LAYOUT: u32 = 5;

pub const LAYOUT_WORD: usize = 15;

// Where each field lies among the words of an order.
pub(crate) const ID: usize = 0;

pub(crate) const MARK: usize = 1;

pub(crate) const LIMIT: usize = 2;

pub(crate) const SHARES: usize = 3;

pub(crate) const SHOW: usize = 4;

pub(crate) const LIFE: usize = 5;

pub(crate) const SLIDE: usize = 6;

pub(crate) const STAMP: usize = 7;

pub(crate) const PRICE: usize = 8;

pub(crate) const ENTRY_BID: usize = 9;

pub(crate) const ADJUSTED: usize = 10;

pub(crate) const USED: usize = 11;

pub(crate) const CLEAR: usize = 12;

pub(crate) const MARKET: usize = 13;

pub(crate) const OWNER: usize = 14;

impl<'a> BookView<'a> {
    // Words that are a book.
    pub fn new(words: &'a [u32]) -> BookView<'a>
        requires { Book words.now }
        ensures { result.words.now ≡ words.now }
    {
        BookView { words }
    }

    // All words, those of the kept prices and those behind them too.
    pub fn words(self) -> &'a [u32]
        ensures { result.now ≡ self.entry.words.now }
    {
        self.words
    }

    // The number of orders.
    pub fn count(self) -> usize
        ensures { result ≡ length (resting self.entry.words.now) }
    {
        self.words[0] as usize
    }

    // The header word at an index.
    pub fn header_word(self, at: usize) -> u32
        requires { at < header_words }
        ensures { result ≡ get_or self.entry.words.now at 0 }
    {
        self.words[at]
    }

    // The order at position i.
    pub fn order(self, i: usize) -> Order
        requires { i < length (resting self.words.now) }
        ensures { result ≡ get_or (resting self.entry.words.now) i empty_order }
    {
        Order::from(&places(self.words)[i])
    }
}

// Sets a header word that is neither the count of the orders nor the number of the layout.
pub fn set_header_word(w: &mut [u32], k: usize, x: u32)
    requires { Book w.old × (0 < k) × (k < layout_word) }
    ensures { HeaderSet w.old w.new k x }
{
    w[k] = x;
}

// Takes every order out.
pub fn clear(w: &mut [u32])
    requires { Book w.old }
    ensures { Holds w.old w.new [] }
{
    w[0] = 0;
}

// The places for orders, each the words of one.
pub(crate) fn places(w: &[u32]) -> &[[u32; WIDTH]]
    requires { venue_words ≤ length w.now }
    ensures places { result.now ≡ tabulate 256 (place_in w.now) }
    ensures count { length result.now ≡ 256 }
{
    w[HEADER..BOOK].as_chunks().0
}

// The index of the first word of place i.
pub(crate) fn first_word(i: usize) -> usize
    requires { i ≤ 256 }
    ensures { result ≡ place_from i }
{
    HEADER + i * WIDTH
}

// Stores an order in place i, used or not.
pub(crate) fn store(w: &mut [u32], i: usize, o: Order)
    requires { (venue_words ≤ length w.old) × (i < 256) }
    ensures { Stored w.old w.new i o }
{
    let from = first_word(i);
    let place = <[u32; WIDTH]>::from(o);
    // no copy_from_slice: the words then go by way of the stack, and an order that is put in behind all others takes 1.8 times as long
    for (k, &x) in place.iter().enumerate() {
        w[from + k] = x;
    }
}

// Any words of a place are an order: a flag is set where its word is 1.
impl From<&[u32; WIDTH]> for Order {
    ghost from_gives = { λ place o. o ≡ order_of place.now };

    fn from(place: &[u32; WIDTH]) -> Order {
        Order {
            id: place[ID],
            mark: place[MARK],
            limit: place[LIMIT],
            shares: place[SHARES],
            show: place[SHOW],
            life: place[LIFE],
            slide: place[SLIDE],
            stamp: place[STAMP],
            price: place[PRICE],
            entry_bid: place[ENTRY_BID],
            adjusted: place[ADJUSTED] == 1,
            used: place[USED] == 1,
            clear: place[CLEAR] == 1,
            market: place[MARKET] == 1,
            owner: place[OWNER],
        }
    }
}

// The words of an order.
impl From<Order> for [u32; WIDTH] {
    ghost from_gives = { λ o place. Row place o };

    fn from(o: Order) -> [u32; WIDTH] {
        [
            o.id,
            o.mark,
            o.limit,
            o.shares,
            o.show,
            o.life,
            o.slide,
            o.stamp,
            o.price,
            o.entry_bid,
            u32::from(o.adjusted),
            u32::from(o.used),
            u32::from(o.clear),
            u32::from(o.market),
            o.owner,
        ]
    }
}
