// Reading a number at an offset.
ghost use Rattle.std.specs.Prelude.{◌≡◌};
ghost use Rattle.numbers.specs.SevenBit.{judge, number_at, outcome_of_read};

// A number that stands at an offset of a byte slice, and the offset behind it.
#[derive(Clone, Copy, Debug, PartialEq, Eq, Hash)]
pub struct NumberAt {
    pub value: u64,
    pub end: usize,
}

// Why no number stands there.
#[derive(Clone, Copy, Debug, PartialEq, Eq, Hash)]
pub enum NumberError {
    MissingByte,
    BadNumber,
}

// What a byte is as a group of a number: one with more groups behind it, the last one, or none that is allowed there.
#[derive(Clone, Copy, Debug, PartialEq, Eq)]
pub enum Group {
    More,
    Last,
    Bad,
}

impl Group {
    // What a byte is as a group that `before` groups stand in front of.
    #[tactic(auto, unfolding(crate::specs::SevenBit::judge, crate::specs::Tests::pick))]
    fn judge(before: u32, byte: u8) -> Group
        ensures { result ≡ judge before byte }
    {
        if before == 9 {
            if byte == 1 { Group::Last } else { Group::Bad }
        } else if byte >= 128 {
            Group::More
        } else if before > 0 && byte == 0 {
            Group::Bad
        } else {
            Group::Last
        }
    }
}

// The number at an offset. `scale` is 128 to the power of the groups read so far, and `value` is what they say.
#[tactic(auto, using(crate::proofs::ReadLaws::reading_steps))]
pub fn read_number(bytes: &[u8], at: usize) -> Result<NumberAt, NumberError>
    ensures { outcome_of_read result ≡ number_at bytes.now at }
{
    let mut value: u64 = 0;
    let mut scale: u64 = 1;
    let mut before: u32 = 0;
    let mut i = at;
    loop {
        let Some(&byte) = bytes.get(i) else {
            break Err(NumberError::MissingByte);
        };
        i += 1;
        match Group::judge(before, byte) {
            Group::Bad => break Err(NumberError::BadNumber),
            Group::Last => {
                break Ok(NumberAt {
                    value: value + scale * u64::from(byte),
                    end: i,
                });
            }
            Group::More => {
                value += scale * u64::from(byte - 128);
                scale *= 128;
                before += 1;
            }
        }
    }
}
