// Looking up orders by id, in a book whose ids rise.
ghost use Rattle.std.specs.Prelude.{◌≡◌, ◌<◌, length, get_or, IfOk, IfErr};
ghost use Rattle.numbers.specs.Lists.{tabulate};
ghost use Rattle.book.specs.rules.Orders;
ghost use Rattle.book.specs.rules.Words.{empty_order, resting};
ghost use Rattle.book.specs.steps.BookSteps.{IdsRise};
ghost use Rattle.book.specs.steps.WordSteps.{place_in};
ghost use Rattle.book.specs.steps.Positions.{rank_of, Found, IsIdAt, IsGapFor};

use crate::{BookView, words};
use std::cmp::Ordering;

impl<'a> BookView<'a> {
    // The id of the order at position i.
    pub fn id_at(self, i: usize) -> u32
        requires { i < length (resting self.words.now) }
        ensures { result ≡ (get_or (resting self.entry.words.now) i empty_order).id }
    {
        words::places(self.words)[i][words::ID]
    }

    // The places in use.
    fn used(self) -> &'a [[u32; words::WIDTH]]
        ensures { result.now ≡ tabulate (length (resting self.entry.words.now)) (place_in self.entry.words.now) }
    {
        &words::places(self.words)[..self.count()]
    }

    // Where the order with an id stands, or where it would go.
    fn search(self, id: u32) -> Result<usize, usize>
        requires { IdsRise self.words.now }
        ensures found { IfOk result (IsIdAt id (resting self.entry.words.now)) }
        ensures absent { IfErr result (IsGapFor id (resting self.entry.words.now)) }
    {
        // by hand: with binary_search_by_key a find among 64 orders takes 0.6 to 1.6 of plain Rust's time, by where the linker puts the loop
        let mut places = self.used();
        if places.is_empty() {
            return Err(0);
        }
        // how many orders stand before the first of places
        let mut before = 0;
        while places.len() > 1 {
            let half = places.len() / 2;
            if places[half][words::ID] <= id {
                places = &places[half..];
                before += half;
            } else {
                // as many places either way: of an odd number the middle one stays
                places = &places[..places.len() - half];
            }
        }
        match places[0][words::ID].cmp(&id) {
            Ordering::Equal => Ok(before),
            Ordering::Less => Err(before + 1),
            Ordering::Greater => Err(before),
        }
    }

    // How many orders stand before the first with a greater id, for an id that is likely above all others.
    pub(crate) fn rank_from_end(self, id: u32) -> usize
        requires { IdsRise self.words.now }
        ensures { result ≡ rank_of id (resting self.entry.words.now) }
    {
        let n = self.count();
        if n == 0 {
            return 0;
        }
        if self.id_at(n - 1) <= id {
            return n;
        }
        match self.search(id) {
            Ok(i) => i + 1,
            Err(i) => i,
        }
    }

    // The position of the order with an id.
    pub fn find(self, id: u32) -> Option<usize>
        requires { IdsRise self.words.now }
        ensures { Found (resting self.entry.words.now) result (Orders.find id (resting self.entry.words.now)) }
    {
        self.search(id).ok()
    }

    // The same, for an order that likely stands at a position.
    pub fn find_near(self, id: u32, near: usize) -> Option<usize>
        requires { IdsRise self.words.now }
        ensures { Found (resting self.entry.words.now) result (Orders.find id (resting self.entry.words.now)) }
    {
        if near < self.count() {
            if self.id_at(near) == id {
                return Some(near);
            }
        }
        self.find(id)
    }
}
