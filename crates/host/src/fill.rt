// Would it fill, for host programs.
ghost use Rattle.std.specs.Prelude.{◌≡◌, ◌≤◌};
ghost use Rattle.host.specs.rules.Fill.{front_number, fill_number};

use crate::calls;
use book::FrontRead;
use engine::fill;

// A yes is this and the orders read, a no the orders read.
const YES: u32 = 32_768;

// The orders read, and whether the entry fills.
fn front_number(front: FrontRead) -> u32
    requires { front.read ≤ 256 }
    ensures { result ≡ front_number front }
{
    let read = front.read as u32;
    if front.fills { YES + read } else { read }
}

// Whether an entry with a mark, a price and shares would fill in full now, and how many orders were read to tell; nothing is changed.
pub fn venue_would_fill(words: &[u32], mark: u32, price: u32, shares: u32) -> u32
    ensures { result ≡ fill_number words.now mark price shares }
{
    match fill::would_fill(words, mark, price, shares) {
        Ok(front) => front_number(front),
        Err(refusal) => calls::refused(u32::from(refusal)),
    }
}
