// Orders, their priority and matching: the third layer.
#![tactic(auto)]

ghost use Rattle.book.specs.steps.BookSteps.{Book};

pub mod depth;
pub mod fill;
pub mod place;
pub mod priority;
pub mod record;
pub mod search;
pub mod sound;
pub mod trade;
pub mod words;

// An order as document 01, "Orders", and document 02, No. 1 and No. 7, have it: the fields of its entry, then what the venue adds, then the owner. `limit`
// is what counts as the limit of the entry, `price` the present price, and `shares` those left.
// no enums for mark, show, life and slide: lent words may hold any number there, and `sound_order` (refusal 16) judges orders that hold them
#[derive(Clone, Copy, Debug, PartialEq, Eq)]
pub struct Order {
    pub id: u32,
    // 0 buy, 1 long sell, 2 short, 3 short exempt
    pub mark: u32,
    pub limit: u32,
    pub shares: u32,
    // 1 displayed, 0 not
    pub show: u32,
    // 0 day, 1 immediate or cancel
    pub life: u32,
    // 0 continuous, 1 once, 2 no more, 3 opt-out
    pub slide: u32,
    pub stamp: u32,
    pub price: u32,
    // the national bid at its entry
    pub entry_bid: u32,
    // priced above its limit by the restriction at its entry, or re-priced since
    pub adjusted: bool,
    // an order with slide once that was re-priced to the larger of limit and entry bid
    pub used: bool,
    // the bid was 0 or below the present price when that price was given
    pub clear: bool,
    // a market short (No. 1): it follows the bid, and stays while there is none
    pub market: bool,
    // the firm that sent it (No. 7), 1 to 65,535; 0 where its entry named none
    pub owner: u32,
}

// An order record of the run that a host lends for copy out and depth: the same fields, one 32-bit word each, so any bytes are a record. Copy out
// writes a flag as 0 or 1.
// no enums: the C interface (include/venue.h), and a run may hold any numbers
#[repr(C)]
#[derive(Clone, Copy, Debug, PartialEq, Eq)]
pub struct OrderRecord {
    pub id: u32,
    pub mark: u32,
    pub limit: u32,
    pub shares: u32,
    pub show: u32,
    pub life: u32,
    pub slide: u32,
    pub stamp: u32,
    pub price: u32,
    pub entry_bid: u32,
    pub adjusted: u32,
    pub used: u32,
    pub clear: u32,
    pub market: u32,
    pub owner: u32,
}

// The words of a book, lent to be read: the header, the orders and behind them the kept prices.
#[derive(Clone, Copy)]
pub struct BookView<'a> {
    words: &'a [u32],
    ghost laid_out: { Book words.now },
}

// Whether an order would fill in full, and how many orders were read to tell.
// no enum: `read` means the same beside a yes and a no
#[derive(Clone, Copy, Debug, PartialEq, Eq)]
pub struct FrontRead {
    pub fills: bool,
    pub read: usize,
}

// The side of the book that depth is asked for.
#[derive(Clone, Copy, Debug, PartialEq, Eq, Hash)]
pub enum Side {
    Buy,
    Sell,
}

// Why a run of records has no depth: it has over 256 of them.
#[derive(Clone, Copy, Debug, PartialEq, Eq, Hash)]
pub struct TooManyRecords;
