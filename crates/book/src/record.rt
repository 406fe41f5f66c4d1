// The record of an order, as copy out gives it to a host.
ghost use Rattle.std.specs.Prelude.{◌≡◌, ◌<◌, length, get_or};
ghost use Rattle.book.specs.rules.Words.{empty_order, resting};
ghost use Rattle.book.specs.rules.OrderRecords.{record_of};

use crate::{BookView, Order, OrderRecord};

impl From<Order> for OrderRecord {
    ghost from_gives = { λ o r. r ≡ record_of o };

    fn from(o: Order) -> OrderRecord {
        OrderRecord {
            id: o.id,
            mark: o.mark,
            limit: o.limit,
            shares: o.shares,
            show: o.show,
            life: o.life,
            slide: o.slide,
            stamp: o.stamp,
            price: o.price,
            entry_bid: o.entry_bid,
            adjusted: u32::from(o.adjusted),
            used: u32::from(o.used),
            clear: u32::from(o.clear),
            market: u32::from(o.market),
            owner: o.owner,
        }
    }
}

impl<'a> BookView<'a> {
    // The record of the order at position i.
    pub fn record_at(self, i: usize) -> OrderRecord
        requires { i < length (resting self.words.now) }
        ensures { result ≡ record_of (get_or (resting self.entry.words.now) i empty_order) }
    {
        OrderRecord::from(self.order(i))
    }
}
