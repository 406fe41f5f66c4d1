// Events by which orders leave the book, after all refusals: a cancel, and the day end.
ghost use Rattle.std.specs.Prelude.{map, ◌≡◌, ◌<◌, length, get_or};
ghost use Rattle.book.specs.rules.Words.{empty_order};
ghost use Rattle.engine.specs.declared.Event.TheVariants.{Cancel as cancel, DayEnd as day_end};
ghost use Rattle.engine.specs.rules.Venue.{cancelled_at_end};
ghost use Rattle.engine.specs.rules.Market.{market_after};
ghost use Rattle.engine.specs.steps.Lent.{resting_in, effect_in, SameLoans, HasRoom, ReportedAll, MayAccept, NoneWritten, HasRoomInFront, Accepts};

use crate::lent::LentVenue;
use crate::{Cause, Market, header};
use book::{place, words};
use prices::restriction;

// The market after a day end.
fn market_after_day_end(m: Market, close: u32) -> Market
    ensures { result ≡ market_after (day_end close) m }
{
    Market {
        close,
        phase: restriction::phase_after_day_end(m.phase),
        bid: 0,
        ..m
    }
}

impl LentVenue<'_> {
    // Reports that the day end cancels every order, lowest id first.
    fn report_all_cancelled(&mut self)
        requires { HasRoom self.old (map cancelled_at_end (resting_in self.old)) }
        ensures same_loans { SameLoans self.old self.new }
        ensures reported { ReportedAll self.old self.new (map cancelled_at_end (resting_in self.old)) }
    {
        for i in 0..self.view().count() {
            let o = self.view().order(i);
            self.report_cancelled(o.id, o.shares, Cause::EndOfDay);
        }
    }

    // Cancels the order at position i.
    pub(crate) fn cancel_order(&mut self, i: usize)
        requires may_accept { MayAccept self.old × (i < length (resting_in self.old)) }
        requires none_written { NoneWritten self.old }
        requires room { HasRoomInFront self.old (effect_in self.old (cancel (get_or (resting_in self.old) i empty_order).id)).reports }
        ensures same_loans { SameLoans self.old self.new }
        ensures accepts { Accepts self.old self.new (cancel (get_or (resting_in self.old) i empty_order).id) }
    {
        let o = self.view().order(i);
        place::remove(self.words, i);
        self.count_event();
        self.report_cancelled(o.id, o.shares, Cause::AskedFor);
    }

    // The day end with a legal close.
    pub(crate) fn end_day(&mut self, close: u32)
        requires may_accept { MayAccept self.old }
        requires none_written { NoneWritten self.old }
        requires room { HasRoomInFront self.old (effect_in self.old (day_end close)).reports }
        ensures same_loans { SameLoans self.old self.new }
        ensures accepts { Accepts self.old self.new (day_end close) }
    {
        let m = market_after_day_end(header::market(self.view()), close);
        self.report_all_cancelled();
        self.report_day_ended(m.phase);
        words::clear(self.words);
        self.set_market(m);
        self.set_kept_count(0);
        self.count_event();
    }
}
