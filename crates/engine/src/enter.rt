// An entry, after all refusals.
ghost use Rattle.std.specs.Prelude.{◌≡◌, ◌+◌, ◌<◌};
ghost use Rattle.engine.specs.rules.Working.{order_of};
ghost use Rattle.engine.specs.steps.Memory;
ghost use Rattle.engine.specs.steps.Lent.{venue_in, effect_in, SameLoans, MayAccept, NoneWritten, HasRoomInFront, Accepts};
ghost use Rattle.engine.specs.rules.Layout.{venue_of};
ghost use Rattle.engine.specs.steps.Steps.{entry_by, EntryHasPlace};

use crate::lent::LentVenue;
use crate::{Entry, header, working};
use book::{BookView, Order};

// The order of an entry, with the next stamp and its owner.
fn next_order(book: BookView, e: Entry, owner: u32) -> Order
    requires { Memory.MayAccept book.words.now }
    ensures { result ≡ order_of (venue_of book.entry.words.now).market ((venue_of book.entry.words.now).last_stamp + 1) owner e }
{
    let stamp = book.header_word(header::LAST_STAMP) + 1;
    working::order_of(header::market(book), stamp, owner, e)
}

impl LentVenue<'_> {
    // An entry whose id is new and that has a place in the book or needs none; owner 0 is that of kind 1.
    pub(crate) fn enter(&mut self, e: Entry, owner: u32)
        requires may_accept { MayAccept self.old × EntryHasPlace (venue_in self.old) e × ((venue_in self.old).last_id < e.id) }
        requires none_written { NoneWritten self.old }
        requires room { HasRoomInFront self.old (effect_in self.old (entry_by e owner)).reports }
        ensures same_loans { SameLoans self.old self.new }
        ensures accepts { Accepts self.old self.new (entry_by e owner) }
    {
        let o = next_order(self.view(), e, owner);
        self.report_accepted(o.id, o.stamp, o.price);
        self.work(o);
        self.finish(o.id, o.stamp);
    }
}
