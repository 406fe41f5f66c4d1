// Plays a stream of events, a close and then event records, and writes each report as a line of kind and fields and "0 n" for refusal n:
// document 01, "Program `venue`", and document 02, No. 2. A buffer gathers the lines, which are written in large pieces.
#![tactic(auto)]

mod line;

ghost use Rattle.std.specs.Prelude.{◌≡◌, ℕ, IfOk, IfSome, MatchResult, length, take};
ghost use Rattle.std.specs.Io.KnownBytes.{Consumes};
ghost use Rattle.std.specs.Counts.{IsPrefixLen};

use days::{Stop, play};
use engine::open;
use line::put_refusal;
use records::{FieldAt, record};
use std::io;
use std::io::{BufWriter, Read, Write};

// Fills a buffer from a reader, or up to the reader's end where it has fewer bytes. The result is how many came; after a read that fails, those before it
// stand in the buffer.
pub fn read_input<R: Read>(from: &mut R, input: &mut [u8]) -> io::Result<usize>
    ensures bound { IfOk result (λ count. IsPrefixLen count input.new) }
    ensures front { IfOk result (λ count. IfSome (R.remaining from.old) (λ bytes. take count input.new ≡ take (length input.old) bytes)) }
    ensures none_lost { MatchResult result (λ count. Consumes (R.remaining from.old) (R.remaining from.new) (take count input.new)) (λ _. (count : ℕ) × IsPrefixLen count input.new × Consumes (R.remaining from.old) (R.remaining from.new) (take count input.new)) }
{
    let mut count = 0;
    // no iterator: each read says how many bytes came
    while count < input.len() {
        let more = from.read(&mut input[count..])?;
        if more == 0 {
            return Ok(count);
        }
        count += more;
    }
    Ok(count)
}

// Plays one input and prints its lines, gathered in a buffer; where no memory is left for one, each piece is printed by itself.
pub fn print_stream(rt: &(impl Print + AllocGlobal), step: u32, input: &[u8]) -> io::Result<()> {
    match BufWriter::new(rt.alloc(), io::writer(rt)) {
        Ok(mut out) => play(step, input, &mut out),
        Err(_) => play(step, input, &mut io::writer(rt)),
    }
}

// Plays one input in a venue that is opened at a step, and writes what is left in the writer's buffer.
pub fn play<W: Write>(step: u32, input: &[u8], out: &mut W) -> io::Result<()> {
    play_close(step, input, out)?;
    out.flush()
}

// "a close as one seven-bit number (9, 10 or 12 as in a record, then 3), then records"
fn play_close<W: Write>(step: u32, input: &[u8], out: &mut W) -> io::Result<()> {
    match record::read_field(input, 0) {
        Ok(close) => play_day(step, input, close, out),
        Err(refusal) => put_refusal(out, u32::from(refusal)),
    }
}

// Opens the venue and plays the records behind the close.
fn play_day<W: Write>(step: u32, input: &[u8], close: FieldAt, out: &mut W) -> io::Result<()> {
    let mut opened = open::open(step, close.value);
    match opened.answer {
        Ok(()) => play_records(&mut opened.words, input, close.end, out),
        Err(refusal) => put_refusal(out, u32::from(refusal)),
    }
}

// "9 to 12 .. end it. An input that ends right after the close or after a record prints nothing for that end". A stop is looked at where a call plays
// nothing: the call before it has then printed the events before it.
fn play_records<W: Write>(
    words: &mut [u32],
    input: &[u8],
    from: usize,
    out: &mut W,
) -> io::Result<()> {
    let mut reports = [0u8; 65536];
    let mut ends = [0u64; 4096];
    let mut next = from;
    // no iterator: each call says how far it came
    while next < input.len() {
        let played = play::play(words, input, next, &mut reports, &mut ends);
        line::put_reports(out, &reports[..played.end])?;
        if played.at <= next {
            return put_stop(out, played.stop);
        }
        next = played.at;
    }
    Ok(())
}

// The line of a record that can't be read. There is room for an event, so nothing else stops one from being played.
fn put_stop<W: Write>(out: &mut W, stop: Stop) -> io::Result<()> {
    if let Stop::Unreadable(refusal) = stop {
        return put_refusal(out, u32::from(refusal));
    }
    Ok(())
}
