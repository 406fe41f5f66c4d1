// Would a working order fill: the book is read in id order until enough shares are found.
ghost use Rattle.std.specs.Prelude.{◌≡◌, ◌<◌};
ghost use Rattle.book.specs.rules.Fill.{front_read};
ghost use Rattle.book.specs.rules.Words.{resting};

use crate::{BookView, FrontRead, Order, priority};

impl<'a> BookView<'a> {
    // Whether o, which has shares, would fill in full, and how many orders were read to tell.
    pub fn read_front(self, o: Order) -> FrontRead
        requires { 0 < o.shares }
        ensures { result ≡ front_read o (resting self.entry.words.now) }
    {
        let n = self.count();
        let mut missing = o.shares;
        for i in 0..n {
            let x = self.order(i);
            if priority::reaches(o, x) {
                if missing <= x.shares {
                    return FrontRead {
                        fills: true,
                        read: i + 1,
                    };
                }
                missing -= x.shares;
            }
        }
        FrontRead {
            fills: false,
            read: n,
        }
    }
}
