// Asks whether entries would fill (document 02, No. 4): questions, a line "mark price shares" each, of the venue after a stream. It prints "1 n" for a yes
// and "2 n" for a no, n orders being read, and "0 n" for refusal n.
ghost use Rattle.std.specs.Prelude.{◌<◌, ◌≤◌, length};

use book::FrontRead;
use engine::{apply, fill, open};
use records::{EventAt, FieldAt, record};
use std::io;
use std::io::Write;

// The line of a refusal.
fn print_refusal(out: &mut impl Write, number: u32) -> io::Result<()> {
    writeln!(out, "0 {number}")
}

// The decimal number at the front of a text, and the text behind the byte that ends it. No digit counts as 0, and a number of over 32 bits as the highest
// of them.
fn split_decimal(text: &[u8]) -> (u32, &[u8])
    ensures shorter { 0 < length text.now → length result.1.now < length text.now }
    ensures no_longer { length result.1.now ≤ length text.now }
{
    let mut value: u32 = 0;
    let mut rest = text;
    while let Some((&byte, behind)) = rest.split_first() {
        rest = behind;
        if !byte.is_ascii_digit() {
            break;
        }
        let digit = u32::from(byte - b'0');
        value = value.saturating_mul(10).saturating_add(digit);
    }
    (value, rest)
}

fn answer_question(
    words: &[u32],
    mark: u32,
    price: u32,
    shares: u32,
    out: &mut impl Write,
) -> io::Result<()> {
    match fill::would_fill(words, mark, price, shares) {
        Ok(FrontRead { fills: true, read }) => writeln!(out, "1 {read}"),
        Ok(FrontRead { fills: false, read }) => writeln!(out, "2 {read}"),
        Err(refusal) => print_refusal(out, u32::from(refusal)),
    }
}

// Each question has three numbers; those behind the end of the text are 0.
fn answer_questions(words: &[u32], questions: &[u8], out: &mut impl Write) -> io::Result<()> {
    let mut rest = questions;
    while !rest.is_empty() {
        let (mark, behind_mark) = split_decimal(rest);
        let (price, behind_price) = split_decimal(behind_mark);
        let (shares, behind_shares) = split_decimal(behind_price);
        answer_question(words, mark, price, shares, out)?;
        rest = behind_shares;
    }
    Ok(())
}

// Applies the events from an offset on, up to where no record can be read.
fn apply_records(words: &mut [u32], stream: &[u8], from: usize) {
    let mut reports = [0u8; 16384];
    let mut next = from;
    while let Ok(EventAt { event, end }) = record::read_record(stream, next) {
        let _ = apply::apply(words, event, &mut reports);
        next = end;
    }
}

fn ask_after(
    step: u32,
    stream: &[u8],
    close: FieldAt,
    questions: &[u8],
    out: &mut impl Write,
) -> io::Result<()> {
    let mut opened = open::open(step, close.value);
    match opened.answer {
        Ok(()) => {
            apply_records(&mut opened.words, stream, close.end);
            answer_questions(&opened.words, questions, out)
        }
        Err(refusal) => print_refusal(out, u32::from(refusal)),
    }
}

// All questions, of the venue at a step after a stream: a close, then records.
pub fn ask(step: u32, stream: &[u8], questions: &[u8], out: &mut impl Write) -> io::Result<()> {
    match record::read_field(stream, 0) {
        Ok(close) => ask_after(step, stream, close, questions, out),
        Err(refusal) => print_refusal(out, u32::from(refusal)),
    }
}
