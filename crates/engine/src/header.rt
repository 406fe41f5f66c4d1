// The header of a venue: the market, and what is written at the end of an event.
ghost use Rattle.std.specs.Prelude.{◌≡◌, ◌<◌, length};
ghost use Rattle.prices.specs.KeptWords.{kept_in};
ghost use Rattle.book.specs.rules.Words.{book_words};
ghost use Rattle.engine.specs.rules.Sound.{most_events};
ghost use Rattle.engine.specs.steps.Memory.{KeepsOrdered, in_market, finished};
ghost use Rattle.engine.specs.steps.Lent.{words_in, venue_in, SameLoans, Becomes};
ghost use Rattle.engine.specs.rules.Venue.{with_kept};
ghost use Rattle.engine.specs.rules.Layout.{venue_of};

use crate::Market;
use crate::lent::LentVenue;
use book::{BookView, words};
use prices::pause::Kept;

pub(crate) const CLOSE: usize = 1;

pub(crate) const PHASE: usize = 2;

pub(crate) const BID: usize = 3;

pub(crate) const LAST_ID: usize = 4;

pub(crate) const LAST_STAMP: usize = 5;

pub(crate) const ACCEPTED_EVENTS: usize = 6;

pub(crate) const STEP: usize = 7;

pub(crate) const KEPT: usize = 8;

#[tactic(auto, using(std::proofs::lemmas::Grind::common_steps), unfolding(crate::specs::rules::Layout::venue_of))]
pub(crate) fn market(book: BookView) -> Market
    ensures { result ≡ (venue_of book.entry.words.now).market }
{
    Market {
        close: book.header_word(CLOSE),
        phase: book.header_word(PHASE),
        bid: book.header_word(BID),
        step: book.header_word(STEP),
    }
}

// The kept prices.
#[tactic(auto, using(prices::proofs::KeptWordLaws::kept_length), unfolding(crate::specs::rules::Layout::venue_of))]
pub(crate) fn kept(book: BookView) -> Kept
    requires { KeepsOrdered book.words.now }
    ensures { result ≡ (venue_of book.entry.words.now).kept }
{
    Kept::new(book.words(), words::BOOK, book.header_word(KEPT))
}

impl LentVenue<'_> {
    // A market at the step of the words, which no event changes.
    pub(crate) fn set_market(&mut self, m: Market)
        requires { m.step ≡ (venue_in self.old).market.step }
        ensures same_loans { SameLoans self.old self.new }
        ensures becomes { Becomes self.old self.new (in_market m (venue_in self.old)) }
    {
        words::set_header_word(self.words, CLOSE, m.close);
        words::set_header_word(self.words, PHASE, m.phase);
        words::set_header_word(self.words, BID, m.bid);
    }

    // Sets the count of kept prices: they are then the first so many in the words.
    pub(crate) fn set_kept_count(&mut self, count: u32)
        ensures same_loans { SameLoans self.old self.new }
        ensures becomes { Becomes self.old self.new (with_kept (kept_in (words_in self.old) book_words count) (venue_in self.old)) }
    {
        words::set_header_word(self.words, KEPT, count);
    }

    // The end of an accepted event that leaves the last id and the last stamp.
    pub(crate) fn count_event(&mut self)
        requires { (venue_in self.old).accepted_events < most_events }
        ensures same_loans { SameLoans self.old self.new }
        ensures becomes { Becomes self.old self.new (finished (venue_in self.old).last_id (venue_in self.old).last_stamp (venue_in self.old)) }
    {
        let events = self.view().header_word(ACCEPTED_EVENTS);
        words::set_header_word(self.words, ACCEPTED_EVENTS, events + 1);
    }

    // The same, of an event with a last id and a last stamp of its own.
    pub(crate) fn finish(&mut self, id: u32, stamp: u32)
        requires { (venue_in self.old).accepted_events < most_events }
        ensures same_loans { SameLoans self.old self.new }
        ensures becomes { Becomes self.old self.new (finished id stamp (venue_in self.old)) }
    {
        words::set_header_word(self.words, LAST_ID, id);
        words::set_header_word(self.words, LAST_STAMP, stamp);
        self.count_event();
    }
}
