// The five-minute pause watch: timed prices kept in lent words, two words each, time and price, from an index on.
ghost use Rattle.std.specs.Prelude.{◌≡◌, ℕ, ◌+◌, ◌-◌, ◌*◌, ◌<◌, ◌≤◌, ◌&&◌, ◌||◌, ◌∷◌, T, leb, ltb, length, drop};
ghost use Rattle.numbers.specs.Tests.{pick, every};
ghost use Rattle.prices.specs.declared.TimedPrice.{TimedPrice};
ghost use Rattle.prices.specs.Prices.{highest, legal};
ghost use Rattle.prices.specs.Steps.{step_value};
ghost use Rattle.prices.specs.Directions.{direction_number};
ghost use Rattle.prices.specs.Pause;
ghost use Rattle.prices.specs.Pause.{rolling_seconds, most_kept, within, first_time, last_time, times_in_order, sound_kept};
ghost use Rattle.prices.specs.KeptWords.{kept_words, kept_in, MovedDown, KeepsNew};

use crate::{Direction, Step, TimedPrice, increments};
use std::marker::Model;

// The most prices that are kept, and their words.
pub const MOST_KEPT: usize = 512;

pub const KEPT_WORDS: usize = 2 * MOST_KEPT;

const ROLLING_SECONDS: u32 = 300;

// Kept prices: those of lent words from an index on, as many as are counted, where there is room for 512. A count of 32 bits tells the compiler that no index
// wraps, so that it takes several prices at a time.
#[derive(Drop)]
pub struct Kept<'a> {
    words: &'a [u32],
    at: usize,
    count: u32,
}

impl<'a> Model for Kept<'a> {
    ghost use Rattle.std.specs.Prelude.{◌+◌, ◌≤◌, List, length};
    ghost use Rattle.prices.specs.declared.TimedPrice.{TimedPrice};
    ghost use Rattle.prices.specs.Pause.{most_kept};
    ghost use Rattle.prices.specs.KeptWords.{kept_words, kept_in};

    ghost Value = { List TimedPrice };

    ghost view = { λ k. kept_in k.words.now k.at k.count };

    ghost invariant = { λ k. (k.at + kept_words ≤ length k.words.now) × (k.count ≤ most_kept) };
}

impl Kept<'_> {
    pub fn new(words: &[u32], at: usize, count: u32) -> Kept
        requires { (at + kept_words ≤ length words.now) × (count ≤ most_kept) }
        ensures { result ≡ kept_in words.now at count }
    {
        Kept { words, at, count }
    }

    // How many there are.
    #[tactic(auto, using(crate::proofs::KeptWordLaws::kept_length))]
    pub fn len(&self) -> usize
        ensures { (result ≡ length self.now) × (result ≤ most_kept) }
    {
        self.count as usize
    }

    // The price at a position.
    #[tactic(auto, using(crate::proofs::KeptWordLaws::kept_length, crate::proofs::KeptWordLaws::kept_next))]
    fn price(&self, i: usize) -> TimedPrice
        requires { i < length self.now }
        ensures { drop i self.now ≡ result ∷ drop (i + 1) self.now }
    {
        let word = self.at + 2 * i;
        TimedPrice {
            time: self.words[word],
            price: self.words[word + 1],
        }
    }

    // The time of the last, 0 where there is none.
    #[tactic(auto, unfolding(crate::specs::Pause::last_time))]
    pub fn last_time(&self) -> u32
        ensures { result ≡ last_time self.now }
    {
        let n = self.len();
        if n == 0 { 0 } else { self.price(n - 1).time }
    }

    // Whether each is legal and no time is before the one in front of it.
    #[tactic(auto, using(crate::proofs::PauseLaws::order_walk))]
    fn is_legal_in_order(&self, step: Step) -> bool
        ensures { result ≡ (every (λ (x : TimedPrice). legal (step_value step) x.price) self.now && times_in_order 0 self.now) }
    {
        let mut before = 0;
        for i in 0..self.len() {
            let x = self.price(i);
            if x.time < before {
                return false;
            }
            if !increments::is_legal(step, x.price) {
                return false;
            }
            before = x.time;
        }
        true
    }

    // Whether they span at most 300 seconds.
    #[tactic(auto, unfolding(crate::specs::Pause::last_time))]
    fn is_span_sound(&self) -> bool
        ensures { result ≡ leb (last_time self.now - first_time self.now) rolling_seconds }
    {
        if self.len() == 0 {
            return true;
        }
        let first = self.price(0).time;
        let last = self.last_time();
        last.saturating_sub(first) <= ROLLING_SECONDS
    }

    // The position of the first price that a new time keeps, the count where it keeps none.
    #[tactic(auto, using(crate::proofs::PauseLaws::within_walk))]
    pub fn first_within(&self, time: u32) -> usize
        requires { T (times_in_order 0 self.now) }
        ensures { (result ≤ length self.now) × (within time self.now ≡ drop result self.now) }
    {
        let least = less_rolling(time);
        let n = self.len();
        for i in 0..n {
            if self.price(i).time >= least {
                return i;
            }
        }
        n
    }

    // The direction of a new price against those from a position on: a fall, else a rise, if there is either. No price ends the look, so that the compiler
    // takes several at a time.
    #[tactic(auto, using(crate::proofs::PauseLaws::direction_walk))]
    pub fn direction(&self, from: usize, price: u32) -> Option<Direction>
        requires { (from ≤ length self.now) × (0 < price) × (price ≤ highest) }
        ensures { direction_number result ≡ Pause.direction price (drop from self.now) }
    {
        let without_fall = highest_without_fall(price);
        let with_rise = highest_with_rise(price);
        let mut falls = false;
        let mut rises = false;
        for i in from..self.len() {
            let earlier = self.price(i).price;
            falls |= earlier > without_fall;
            rises |= earlier <= with_rise;
        }
        direction_of(falls, rises)
    }
}

// Whether a count of kept prices, any number, and the prices that it counts break no condition of a venue record.
#[tactic(auto, using(crate::proofs::KeptWordLaws::kept_length), unfolding(crate::specs::Pause::sound_kept))]
pub fn kept_sound(w: &[u32], at: usize, count: u32, step: Step) -> bool
    requires { at + kept_words ≤ length w.now }
    ensures { result ≡ sound_kept (step_value step) (kept_in w.now at count) }
{
    if count as usize > MOST_KEPT {
        return false;
    }
    let kept = Kept::new(w, at, count);
    kept.is_legal_in_order(step) && kept.is_span_sound()
}

// The new time less 300, 0 where that is below 0.
fn less_rolling(time: u32) -> u32
    ensures { result ≡ time - rolling_seconds }
{
    time.saturating_sub(ROLLING_SECONDS)
}

// The highest earlier price of which a new one is no fall, and the highest of which it is a rise: 10 × p ≤ 9 × q just where q is above the one, and
// 11 × q ≤ 10 × p just where q isn't above the other. So each kept price takes two comparisons and no product.
fn highest_without_fall(price: u32) -> u32
    requires { (0 < price) × (price ≤ highest) }
    ensures { (q : ℕ) → leb (10 * price) (9 * q) ≡ ltb result q }
{
    (10 * price - 1) / 9
}

fn highest_with_rise(price: u32) -> u32
    requires { price ≤ highest }
    ensures { (q : ℕ) → leb (11 * q) (10 * price) ≡ leb q result }
{
    10 * price / 11
}

// The direction by whether there is a fall, and whether there is a rise.
#[tactic(auto, unfolding(numbers::specs::Tests::pick))]
fn direction_of(falls: bool, rises: bool) -> Option<Direction>
    ensures { direction_number result ≡ pick falls 1 (pick rises 2 0) }
{
    match (falls, rises) {
        (true, _) => Some(Direction::Fall),
        (false, true) => Some(Direction::Rise),
        (false, false) => None,
    }
}

// Moves the n words from index at + by on down to index at. By 0 words nothing is to be moved, and words copied onto themselves would be copied one by one.
fn shift_down(w: &mut [u32], at: usize, by: usize, n: usize)
    requires { at + (by + n) ≤ length w.old }
    ensures { MovedDown w.old w.new at by n }
{
    if by > 0 {
        w.copy_within(at + by..at + (by + n), at);
    }
}

// Keeps the prices from a position on and a new one behind them.
pub fn keep(w: &mut [u32], at: usize, from: usize, n: usize, new: TimedPrice)
    requires { (at + kept_words ≤ length w.old) × (from ≤ n) × (n ≤ most_kept) × (n - from < most_kept) }
    ensures { KeepsNew w.old w.new at from n new }
{
    let left = n - from;
    shift_down(w, at, 2 * from, 2 * left);
    w[at + 2 * left] = new.time;
    w[at + 2 * left + 1] = new.price;
}
