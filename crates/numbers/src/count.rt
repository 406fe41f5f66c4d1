// Bit lengths, and how many bytes a number takes.
ghost use Rattle.std.specs.Prelude.{◌≡◌, length};
ghost use Rattle.numbers.specs.SevenBit.{BitLength, length_taken, byte_count, bytes_of_all};

// "the bit length of a number is 64 less its leading zeros"
#[tactic(auto, using(crate::proofs::CountLaws::bit_length_of))]
fn bit_length(x: u64) -> u32
    ensures { BitLength x result }
{
    64 - x.leading_zeros()
}

// No. 5: "Bit length n, taken as 1 for 0"
#[tactic(auto, unfolding(crate::specs::SevenBit::length_taken, crate::specs::Tests::pick))]
fn length_taken(n: u32) -> u32
    ensures { result ≡ length_taken n }
{
    n.max(1)
}

// "needs (n + 6) / 7 bytes, rounded down"
#[tactic(auto, using(crate::proofs::CountLaws::count_by_bits), unfolding(crate::specs::SevenBit::count_of_bits))]
fn byte_count(x: u64) -> usize
    ensures { result ≡ byte_count x }
{
    let n = length_taken(bit_length(x)) as usize;
    (n + 6) / 7
}

// How many bytes several numbers take, one after another.
#[tactic(auto, using(crate::proofs::ByteLaws::at_most_10, crate::proofs::ByteLaws::all_none), unfolding(crate::specs::SevenBit::byte_count))]
pub(crate) fn byte_counts(xs: &[u64]) -> usize
    ensures { result ≡ length (bytes_of_all xs.now) }
{
    let mut count = 0;
    for &x in xs {
        count += byte_count(x);
    }
    count
}
