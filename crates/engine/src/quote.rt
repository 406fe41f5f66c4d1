// The news of the market, after all refusals: a new national bid, and a tape price.
ghost use Rattle.std.specs.Prelude.{◌≡◌, T};
ghost use Rattle.prices.specs.Prices.{is_bid};
ghost use Rattle.engine.specs.declared.Event.TheVariants.{Bid as bid_event, Tape as tape_event};
ghost use Rattle.engine.specs.rules.Venue.{restriction_report};
ghost use Rattle.engine.specs.rules.Market.{market_after};
ghost use Rattle.engine.specs.steps.Lent.{words_in, venue_in, effect_in, SameLoans, MayAccept, NoneWritten, HasRoom, ReportedAll, HasRoomInFront, AcceptsFrom, Accepts, PassesAndFinishes};
ghost use Rattle.engine.specs.steps.Steps.{pass_in};

use crate::lent::LentVenue;
use crate::{Market, header};
use prices::restriction;

// The market after a bid.
fn market_after_bid(m: Market, bid: u32) -> Market
    ensures { result ≡ market_after (bid_event bid) m }
{
    Market { bid, ..m }
}

// The market after a tape price.
fn market_after_tape(m: Market, price: u32) -> Market
    ensures { result ≡ market_after (tape_event price) m }
{
    Market {
        phase: restriction::phase_after_tape(m.close, m.phase, price),
        ..m
    }
}

impl LentVenue<'_> {
    // Reports that the restriction starts, where the phase has changed.
    #[tactic(auto, using(std::proofs::lemmas::Grind::common_steps, numbers::proofs::WriteLaws::put_none, crate::proofs::refinement::StepLaws::reports_one), unfolding(crate::specs::rules::Venue::restriction_report, numbers::specs::Tests::pick, crate::specs::rules::Records::reports_bytes))]
    fn report_restriction(&mut self, before: Market, after: Market)
        requires { HasRoom self.old (restriction_report before after) }
        ensures same_loans { SameLoans self.old self.new }
        ensures reported { ReportedAll self.old self.new (restriction_report before after) }
    {
        if before.phase != after.phase {
            self.report_restriction_starts();
        }
    }

    // The pass in the market of the words, and the end of the event.
    fn pass_and_finish(&mut self)
        requires { MayAccept self.old × HasRoom self.old (pass_in (words_in self.old)).reports }
        ensures same_loans { SameLoans self.old self.new }
        ensures passes { PassesAndFinishes self.old self.new }
    {
        let m = header::market(self.view());
        let id = self.view().header_word(header::LAST_ID);
        let stamp = self.view().header_word(header::LAST_STAMP);
        let last = self.pass(m, stamp);
        self.finish(id, last);
    }

    // A new national bid.
    pub(crate) fn new_bid(&mut self, bid: u32)
        requires may_accept { MayAccept self.old × T (is_bid (venue_in self.old).market.step bid) }
        requires none_written { NoneWritten self.old }
        requires room { HasRoomInFront self.old (effect_in self.old (bid_event bid)).reports }
        ensures same_loans { SameLoans self.old self.new }
        ensures accepts { Accepts self.old self.new (bid_event bid) }
    {
        let m = market_after_bid(header::market(self.view()), bid);
        self.set_market(m);
        self.pass_and_finish();
    }

    // A tape price, its reports written behind those before it.
    pub(crate) fn new_tape(&mut self, price: u32)
        requires { MayAccept self.old × HasRoom self.old (effect_in self.old (tape_event price)).reports }
        ensures same_loans { SameLoans self.old self.new }
        ensures accepts { AcceptsFrom self.old self.new (tape_event price) }
    {
        let before = header::market(self.view());
        let after = market_after_tape(before, price);
        self.set_market(after);
        self.report_restriction(before, after);
        self.pass_and_finish();
    }
}
