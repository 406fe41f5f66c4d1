// Writing numbers at an offset.
ghost use Rattle.std.specs.Prelude.{◌≡◌, ◌+◌, ◌≤◌, length, leb};
ghost use Rattle.numbers.specs.SevenBit.{bytes_of, bytes_of_all, Put, Written, outcome_of_write};

use crate::count;

// The numbers don't fit a buffer.
#[derive(Clone, Copy, Debug, PartialEq, Eq, Hash)]
pub struct NoRoom;

// Whether `count` bytes fit into `len` from the offset on.
fn fits(len: usize, at: usize, count: usize) -> bool
    ensures { result ≡ leb (at + count) len }
{
    at <= len && count <= len - at
}

// Writes a number for which there is room, and returns the offset behind it.
fn put_number(bytes: &mut [u8], at: usize, x: u64) -> usize
    requires { at + length (bytes_of x) ≤ length bytes.old }
    ensures { Put (bytes_of x) at bytes.old result bytes.new }
{
    let mut i = at;
    let mut rest = x;
    while rest >= 128 {
        bytes[i] = (rest % 128 + 128) as u8;
        rest /= 128;
        i += 1;
    }
    bytes[i] = rest as u8;
    i + 1
}

// Writes numbers for which there is room, one after another, and returns the offset behind them.
pub fn put_numbers(bytes: &mut [u8], at: usize, xs: &[u64]) -> usize
    requires { at + length (bytes_of_all xs.now) ≤ length bytes.old }
    ensures { Put (bytes_of_all xs.now) at bytes.old result bytes.new }
{
    let mut end = at;
    for &x in xs {
        end = put_number(bytes, end, x);
    }
    end
}

// Writes all of the numbers, or nothing where they don't fit.
pub fn write_numbers(bytes: &mut [u8], at: usize, xs: &[u64]) -> Result<usize, NoRoom>
    ensures { Written (bytes_of_all xs.now) at bytes.old (outcome_of_write result) bytes.new }
{
    if !fits(bytes.len(), at, count::byte_counts(xs)) {
        return Err(NoRoom);
    }
    Ok(put_numbers(bytes, at, xs))
}
