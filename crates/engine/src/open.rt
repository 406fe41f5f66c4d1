// Open: the words of a fresh venue.
ghost use Rattle.engine.specs.claims.Calls.{Opens};

use crate::{Opened, Refusal, header};
use book::words;
use prices::{Price, PriceError};

// The words of a fresh venue at a step, or words that are all 0 and why there is none: 17 for the step, 3 for the close.
// no Result of the words alone: apply and the other calls refuse the words of a refused open with 16 (`not_opened`)
pub fn open(step: u32, close: u32) -> Opened
    ensures { Opens step close result.answer result.words }
{
    let mut words = [0u32; words::VENUE];
    match Price::new(step, close) {
        Ok(price) => {
            words[header::CLOSE] = price.value;
            words[header::STEP] = step;
            words[words::LAYOUT_WORD] = words::LAYOUT;
            Opened {
                answer: Ok(()),
                words,
            }
        },
        Err(PriceError::NotLegal) => Opened {
            answer: Err(Refusal::PriceNotLegal),
            words,
        },
        Err(PriceError::NotStep) => Opened {
            answer: Err(Refusal::NotStep),
            words,
        },
    }
}
