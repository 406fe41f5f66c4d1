// The checks of an event and of a question: the conditions of a venue record, and the terms, the codes, the owner and the place of an entry.
#![tactic(auto, using(std::proofs::lemmas::Grind::common_steps), unfolding(crate::specs::rules::Refusals::refuse_unless, crate::specs::rules::Refusals::first_of, crate::specs::rules::Refusals::refusal_of_terms, crate::specs::rules::Refusals::refusal_of_codes, crate::specs::rules::Refusals::refusal_of_owner, crate::specs::rules::Refusals::refusal_of_place, crate::specs::rules::Refusals::refusal_of_asked, crate::specs::rules::Refusals::refusal_of_entry, crate::specs::rules::Layout::venue_of))]

ghost use Rattle.std.specs.Prelude.{◌≡◌, ◌≤◌, ◌||◌, eqb, length};
ghost use Rattle.std.proofs.Math.Option.{none};
ghost use Rattle.numbers.specs.Tests.{conj};
ghost use Rattle.prices.specs.Prices.{legal, is_bid};
ghost use Rattle.prices.specs.Steps.{step_value};
ghost use Rattle.book.specs.rules.Words.{venue_words};
ghost use Rattle.engine.specs.rules.Working.{is_market};
ghost use Rattle.engine.specs.rules.Sound.{header_conditions};
ghost use Rattle.engine.specs.rules.Refusals.{refuse_unless, refusal_of_terms, refusal_of_mark, refusal_of_other_codes, refusal_of_codes, refusal_of_owner, refusal_of_asked, has_place, refusal_of_place, refusal_of_entry};
ghost use Rattle.engine.specs.rules.Layout.{venue_of, sound_words};
ghost use Rattle.engine.specs.rules.Answers.{refused_with};
ghost use Rattle.engine.specs.steps.Memory.{HasStep};

use crate::{Entry, Refusal, header, working};
use book::{BookView, sound, words};
use prices::{Step, increments, pause};

pub(crate) const MOST_EVENTS: u32 = 16_777_215;

// The least length of a report buffer.
pub const LEAST_BUFFER: usize = 16_384;

// The step of the venue.
#[tactic(auto, unfolding(crate::specs::rules::Layout::venue_of, prices::specs::Prices::is_step))]
fn step(book: BookView) -> Step
    requires { HasStep book.words.now }
    ensures { step_value result ≡ (venue_of book.entry.words.now).market.step }
{
    if book.header_word(header::STEP) == increments::CENT {
        Step::Cent
    } else {
        Step::HalfCent
    }
}

// The bid of an event, at the step of the venue.
pub(crate) fn check_bid(book: BookView, bid: u32) -> Result<(), Refusal>
    requires { HasStep book.words.now }
    ensures { refused_with result ≡ refuse_unless (is_bid (venue_of book.entry.words.now).market.step bid) 3 none }
{
    if !increments::is_bid(step(book), bid) {
        return Err(Refusal::PriceNotLegal);
    }
    Ok(())
}

// Whether a number is a legal price at the step of the venue.
fn allows_price(book: BookView, price: u32) -> bool
    requires { HasStep book.words.now }
    ensures { result ≡ legal (venue_of book.entry.words.now).market.step price }
{
    increments::is_legal(step(book), price)
}

// The price or the close of an event.
pub(crate) fn check_price(book: BookView, price: u32) -> Result<(), Refusal>
    requires { HasStep book.words.now }
    ensures { refused_with result ≡ refuse_unless (legal (venue_of book.entry.words.now).market.step price) 3 none }
{
    if !allows_price(book, price) {
        return Err(Refusal::PriceNotLegal);
    }
    Ok(())
}

// Whether an entry may have a price: 0 means market.
fn price_allowed(book: BookView, price: u32) -> bool
    requires { HasStep book.words.now }
    ensures { result ≡ (is_market price || legal (venue_of book.entry.words.now).market.step price) }
{
    price == 0 || allows_price(book, price)
}

// The terms of an entry: price and shares.
fn check_terms(book: BookView, price: u32, shares: u32) -> Result<(), Refusal>
    requires { HasStep book.words.now }
    ensures { refused_with result ≡ refusal_of_terms (venue_of book.entry.words.now).market.step price shares }
{
    if !price_allowed(book, price) {
        return Err(Refusal::PriceNotLegal);
    }
    if !(1..=sound::MOST_SHARES).contains(&shares) {
        return Err(Refusal::SharesOutOfRange);
    }
    Ok(())
}

// "slide on the wrong mark" is one other than 0 on an order that isn't short; every other is on the right one.
fn slide_on_right_mark(mark: u32, slide: u32) -> bool
    ensures { result ≡ (eqb slide 0 || eqb mark 2) }
{
    slide == 0 || mark == 2
}

// The mark, which a question is refused for too.
fn check_mark(mark: u32) -> Result<(), Refusal>
    ensures { refused_with result ≡ refusal_of_mark mark none }
{
    if mark > 3 {
        return Err(Refusal::MarkOutOfRange);
    }
    Ok(())
}

// The other codes, which an entry alone has.
fn check_other_codes(e: Entry) -> Result<(), Refusal>
    ensures { refused_with result ≡ refusal_of_other_codes e }
{
    if e.show > 1 || e.life > 1 {
        return Err(Refusal::ShowOrLifeOutOfRange);
    }
    if e.slide > 3 {
        return Err(Refusal::SlideOutOfRange);
    }
    if !slide_on_right_mark(e.mark, e.slide) {
        return Err(Refusal::SlideOnWrongMark);
    }
    Ok(())
}

// The codes of an entry, "in the order mark, show, life, slide code, slide on the wrong mark".
fn check_codes(e: Entry) -> Result<(), Refusal>
    ensures { refused_with result ≡ refusal_of_codes e }
{
    check_mark(e.mark)?;
    check_other_codes(e)
}

// The owner of an entry of kind 6.
pub(crate) fn check_owner(owner: u32) -> Result<(), Refusal>
    ensures { refused_with result ≡ refusal_of_owner owner }
{
    if !(1..=sound::MOST_OWNER).contains(&owner) {
        return Err(Refusal::OwnerOutOfRange);
    }
    Ok(())
}

// Whether the book has a place for an entry, or it needs none: it is immediate or cancel, or a market order taken as one.
fn has_place(book: BookView, e: Entry) -> bool
    ensures { result ≡ has_place (venue_of book.entry.words.now) e }
{
    book.count() < words::PLACES
        || working::life_of(header::market(book), e.mark, e.price, e.life) == 1
}

// The place of an entry: its id, and a place in the book where it needs one.
fn check_place(book: BookView, e: Entry) -> Result<(), Refusal>
    ensures { refused_with result ≡ refusal_of_place (venue_of book.entry.words.now) e }
{
    if e.id <= book.header_word(header::LAST_ID) {
        return Err(Refusal::IdNotNew);
    }
    if !has_place(book, e) {
        return Err(Refusal::BookFull);
    }
    Ok(())
}

// A question, as an entry: price and shares, then the mark.
pub(crate) fn check_question(
    book: BookView,
    mark: u32,
    price: u32,
    shares: u32,
) -> Result<(), Refusal>
    requires { HasStep book.words.now }
    ensures { refused_with result ≡ refusal_of_asked (venue_of book.entry.words.now).market.step mark price shares }
{
    check_terms(book, price, shares)?;
    check_mark(mark)
}

// An entry, its parts in their order; what was found out of its owner is given.
pub(crate) fn check_entry(
    book: BookView,
    e: Entry,
    owner: Result<(), Refusal>,
) -> Result<(), Refusal>
    requires { HasStep book.words.now }
    ensures { refused_with result ≡ refusal_of_entry (venue_of book.entry.words.now) e (refused_with owner) }
{
    check_terms(book, e.price, e.shares)?;
    check_codes(e)?;
    owner?;
    check_place(book, e)
}

#[tactic(auto, using(std::proofs::lemmas::Grind::common_steps, prices::proofs::StepLaws::step_is), unfolding(crate::specs::rules::Layout::venue_of))]
fn header_sound(w: &[u32], step: Step) -> bool
    requires { (venue_words ≤ length w.now) × (step_value step ≡ (venue_of w.now).market.step) }
    ensures { result ≡ conj (header_conditions (venue_of w.now)) }
{
    w[header::PHASE] <= 2
        && increments::is_legal(step, w[header::CLOSE])
        && increments::is_bid(step, w[header::BID])
        && w[header::ACCEPTED_EVENTS] <= MOST_EVENTS
        && w[header::LAST_STAMP] <= 256 * w[header::ACCEPTED_EVENTS]
}

// Whether words are a venue that meets the conditions of refusal 16.
#[tactic(auto, using(std::proofs::lemmas::Grind::common_steps, crate::proofs::refinement::RefuseLaws::header_first, crate::proofs::refinement::RefuseLaws::short_words), unfolding(crate::specs::rules::Layout::venue_of))]
pub fn venue_sound(w: &[u32]) -> bool
    ensures { result ≡ sound_words w.now }
{
    if w.len() < words::VENUE {
        return false;
    }
    let Ok(step) = Step::try_from(w[header::STEP]) else {
        return false;
    };
    header_sound(w, step)
        && pause::kept_sound(w, words::BOOK, w[header::KEPT], step)
        && sound::is_sound(w, step, w[header::LAST_ID], w[header::LAST_STAMP])
}
