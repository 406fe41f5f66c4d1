// Plays the files that its arguments name, each after a line with its name: as program `venue` plays its input, and those behind an argument `50` as
// program `venue-half` does. A name that ends in `ask` is a file of questions, about the stream whose name ends in `bin` in that place.
#![tactic(auto)]

mod questions;

ghost use Rattle.std.specs.Prelude.{IfOk};
ghost use Rattle.std.specs.Counts.{IsPrefixLen};

use prices::increments;
use std::env::FillError;
use std::io::{BufWriter, Write};
use std::rt::{Env, Files};
use std::{fs, io, str};

// A name as text, which a path of std is.
fn text_of(name: &[u8]) -> io::Result<&str> {
    str::from_utf8(name).map_err(|_| io::Error::from(io::ErrorKind::InvalidFilename))
}

// The first bytes of a file, as many as there is room for; one that can't be opened is empty. The result is how many came.
fn read_file(rt: &(impl Files + Eprint), name: &[u8], content: &mut [u8]) -> io::Result<usize>
    ensures { IfOk result (λ count. IsPrefixLen count content.new) }
{
    let name = text_of(name)?;
    match fs::open(rt, name) {
        Ok(mut file) => console::read_input(&mut file, content),
        Err(e) => {
            eprintln!(rt; "{name}: {e}")?;
            Ok(0)
        }
    }
}

fn play_file(
    rt: &(impl Files + Eprint),
    step: u32,
    name: &[u8],
    out: &mut impl Write,
) -> io::Result<()> {
    let mut input = [0u8; 65536];
    let count = read_file(rt, name, &mut input)?;
    console::play(step, &input[..count], out)
}

// The name with `bin` in the place of its last three bytes; a shorter one stays.
fn name_stream(name: &mut [u8]) {
    if let Some(at) = name.len().checked_sub(3) {
        name[at..].copy_from_slice(b"bin");
    }
}

// The questions of a file, about the stream whose name ends in `bin` in the place of `ask`; the name is made that one.
fn ask_file(
    rt: &(impl Files + Eprint),
    step: u32,
    name: &mut [u8],
    out: &mut impl Write,
) -> io::Result<()> {
    let mut questions = [0u8; 65536];
    let question_bytes = read_file(rt, name, &mut questions)?;
    name_stream(name);
    let mut stream = [0u8; 65536];
    let stream_bytes = read_file(rt, name, &mut stream)?;
    questions::ask(
        step,
        &stream[..stream_bytes],
        &questions[..question_bytes],
        out,
    )
}

// An argument: `50`, a stream to play at the step, or questions. The result is the step for the next one.
// no struct of handle, step and writer: three functions take all of them, and no contract says a fact about them
fn play_argument(
    rt: &(impl Files + Eprint),
    step: u32,
    argument: &mut [u8],
    out: &mut impl Write,
) -> io::Result<u32> {
    if matches!(&*argument, b"50") {
        return Ok(increments::HALF_CENT);
    }
    out.write_all(argument)?;
    out.write_all(b"\n")?;
    // so that what is said of a missing file stands behind its name also where both go to one place
    out.flush()?;
    if argument.ends_with(b"ask") {
        ask_file(rt, step, argument, out)?;
    } else {
        play_file(rt, step, argument, out)?;
    }
    Ok(step)
}

// An argument longer than its buffer counts as an empty one.
fn play_arguments(rt: &(impl Files + Eprint + Env), out: &mut impl Write) -> io::Result<()> {
    let mut step = increments::CENT;
    for i in 1..usize::MAX {
        let mut space = [0u8; 4096];
        let length = match rt.arg(i, &mut space) {
            Ok(n) => n,
            Err(FillError::TooLong) => 0,
            Err(FillError::NotPresent) => break,
        };
        step = play_argument(rt, step, &mut space[..length], out)?;
    }
    out.flush()
}

// The lines are gathered in a buffer; where no memory is left for one, each piece is printed by itself.
fn main(rt: HostRuntime) -> io::Result<()> {
    match BufWriter::new(rt.alloc(), io::writer(&rt)) {
        Ok(mut out) => play_arguments(&rt, &mut out),
        Err(_) => play_arguments(&rt, &mut io::writer(&rt)),
    }
}
