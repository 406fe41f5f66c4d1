// The conditions of refusal 16 on the orders of a record, for any words, in one walk.
ghost use Rattle.std.specs.Prelude.{◌≡◌, ◌≤◌, T, length, get_or};
ghost use Rattle.prices.specs.Steps.{step_value};
ghost use Rattle.book.specs.rules.Sound.{most_owner, sound_order};
ghost use Rattle.book.specs.rules.Words.{venue_words, order_of, header_laid_out, sound_book};
ghost use Rattle.book.specs.steps.RecordWalk.{from_one, codes_sound, prices_sound, bits_in, market_in, bucket_of, stamp_seen, last_in, Linked, sound_in};

use crate::words;
use prices::{Step, increments};

const BUCKETS: u32 = 512;

pub const MOST_SHARES: u32 = 1_000_000;

pub const MOST_OWNER: u32 = 65_535;

const HALF_OF_OWNERS: u32 = MOST_OWNER / 2 + 1;

// What the orders of a record are judged by: the venue's step, last id and last stamp.
#[derive(Clone, Copy)]
struct Limits {
    step: Step,
    last_id: u32,
    last_stamp: u32,
}

fn codes_sound(mark: u32, life: u32, slide: u32) -> bool
    ensures { result ≡ codes_sound mark life slide }
{
    if life > 0 {
        return false;
    }
    if mark == 2 {
        return slide <= 3;
    }
    if mark > 3 {
        return false;
    }
    slide == 0
}

// The present price of most orders is their limit.
fn prices_sound(step: Step, limit: u32, price: u32, entry_bid: u32) -> bool
    ensures { result ≡ prices_sound (step_value step) limit price entry_bid }
{
    if increments::is_legal(step, limit) {
        if price == limit {
            return increments::is_bid(step, entry_bid);
        }
        if increments::is_legal(step, price) {
            return increments::is_bid(step, entry_bid);
        }
    }
    false
}

// Whether a number is from 1 to the highest.
#[tactic(auto, using(std::proofs::lemmas::Grind::common_steps), unfolding(crate::specs::steps::RecordWalk::from_one))]
fn from_one(x: u32, highest: u32) -> bool
    ensures { result ≡ from_one x highest }
{
    x >= 1 && x <= highest
}

// Whether an order is sound whose show is 0 or 1, whose owner is in range and whose market flag is allowed.
#[tactic(auto, using(std::proofs::lemmas::Grind::common_steps, crate::proofs::refinement::SoundOrderLaws::place_groups))]
fn order_sound(place: &[u32; words::WIDTH], limits: Limits) -> bool
    requires { (get_or place.now 4 0 ≤ 1) × (get_or place.now 14 0 ≤ most_owner) × T (market_in place.now) }
    ensures { result ≡ sound_order (step_value limits.step) limits.last_id limits.last_stamp (order_of place.now) }
{
    place[words::ID] <= limits.last_id
        && from_one(place[words::SHARES], MOST_SHARES)
        && from_one(place[words::STAMP], limits.last_stamp)
        && codes_sound(place[words::MARK], place[words::LIFE], place[words::SLIDE])
        && prices_sound(
            limits.step,
            place[words::LIMIT],
            place[words::PRICE],
            place[words::ENTRY_BID],
        )
}

// Whether show and the flags are each 0 or 1 and the owner is in range: none of them has another bit than the lowest, the owner being divided by 32,768.
fn bits_sound(place: &[u32; words::WIDTH]) -> bool
    ensures { result ≡ bits_in place.now }
{
    let show = place[words::SHOW];
    let adjusted = place[words::ADJUSTED];
    let used = place[words::USED];
    let clear = place[words::CLEAR];
    let market = place[words::MARKET];
    let owner = place[words::OWNER];
    (show | (owner / HALF_OF_OWNERS | (adjusted | (used | (clear | market))))) <= 1
}

// Whether a market flag stands on a short with limit 1, or there is none.
#[tactic(auto, using(std::proofs::lemmas::Grind::common_steps), unfolding(crate::specs::steps::RecordWalk::market_in))]
fn market_sound(place: &[u32; words::WIDTH]) -> bool
    ensures { result ≡ market_in place.now }
{
    place[words::MARKET] != 1 || (place[words::MARK] == 2 && place[words::LIMIT] == 1)
}

// Whether a place is sound by itself and beside the id of the place before it, 0 for the first.
#[tactic(auto, using(std::proofs::lemmas::Grind::common_steps, crate::proofs::refinement::SoundOrderLaws::unsound_market, crate::proofs::refinement::SoundOrderLaws::unsound_bits), unfolding(crate::specs::steps::RecordWalk::sound_in, crate::specs::steps::RecordWalk::bits_in))]
fn place_sound(place: &[u32; words::WIDTH], before: u32, limits: Limits) -> bool
    ensures { result ≡ sound_in (step_value limits.step) limits.last_id limits.last_stamp before place.now }
{
    bits_sound(place)
        && before < place[words::ID]
        && market_sound(place)
        && order_sound(place, limits)
}

// Whether one of the first n places has the stamp, along the chain of its bucket from the last such place, counted from 1.
fn stamp_seen(w: &[u32], links: &[u16; 256], n: usize, last: u16, stamp: u32) -> bool
    requires { (venue_words ≤ length w.now) × (n ≤ 256) × Linked w.now links.now n × (last ≡ last_in w.now (bucket_of stamp) n) }
    ensures { result ≡ stamp_seen w.now stamp n }
{
    // no iterator: each step takes the place that the link names
    let mut at = last;
    while at > 0 {
        let j = (at - 1) as usize;
        if words::places(w)[j][words::STAMP] == stamp {
            return true;
        }
        at = links[j];
    }
    false
}

// Whether words are long enough for a venue, have the number of its layout, and count at most 256 orders.
#[tactic(auto, using(std::proofs::lemmas::Grind::common_steps), unfolding(crate::specs::rules::Words::header_laid_out))]
fn header_laid_out(w: &[u32]) -> bool
    ensures { result ≡ header_laid_out w.now }
{
    w.len() >= words::VENUE && w[words::LAYOUT_WORD] == words::LAYOUT && w[0] <= 256
}

// Whether the words are a book whose orders are sound at a step. A stamp is compared only with those of its bucket: `heads` has the last place
// of each bucket and `links` the one before each place in its bucket, counted from 1, 0 for none.
pub fn is_sound(w: &[u32], step: Step, last_id: u32, last_stamp: u32) -> bool
    ensures { result ≡ sound_book (step_value step) last_id last_stamp w.now }
{
    if !header_laid_out(w) {
        return false;
    }
    let limits = Limits {
        step,
        last_id,
        last_stamp,
    };
    let n = w[0] as usize;
    // no collections: fixed memory
    let mut heads = [0u16; 512];
    let mut links = [0u16; 256];
    let mut before = 0;
    for i in 0..n {
        let place = &words::places(w)[i];
        if !place_sound(place, before, limits) {
            return false;
        }
        let stamp = place[words::STAMP];
        let bucket = (stamp % BUCKETS) as usize;
        let last = heads[bucket];
        if stamp_seen(w, &links, i, last, stamp) {
            return false;
        }
        links[i] = last;
        heads[bucket] = (i + 1) as u16;
        before = place[words::ID];
    }
    true
}
