// Lines of numbers.
ghost use Rattle.std.specs.Prelude.{◌≤◌, IfOk};

use numbers::{NumberAt, read};
use std::io;
use std::io::Write;

// The line of a refusal: "0 n".
pub fn put_refusal<W: Write>(out: &mut W, number: u32) -> io::Result<()> {
    writeln!(out, "0 {number}")
}

// How many fields a report of a kind has. Kind 0 is a refusal: "0 n".
fn field_count(kind: u64) -> usize
    ensures { result ≤ 4 }
{
    match kind {
        1 | 3 | 4 => 3,
        2 => 4,
        7 => 2,
        0 | 6 => 1,
        _ => 0,
    }
}

// The line of the report or refusal whose kind was read: the kind, then its fields. The result is the offset behind it.
fn put_report<W: Write>(out: &mut W, reports: &[u8], kind: NumberAt) -> io::Result<usize>
    ensures { IfOk result (λ end. kind.end ≤ end) }
{
    write!(out, "{}", kind.value)?;
    let mut next = kind.end;
    for _ in 0..field_count(kind.value) {
        if let Ok(field) = read::read_number(reports, next) {
            write!(out, " {}", field.value)?;
            next = field.end;
        }
    }
    writeln!(out)?;
    Ok(next)
}

// The lines of the reports and refusals in a buffer.
pub fn put_reports<W: Write>(out: &mut W, reports: &[u8]) -> io::Result<()> {
    let mut next = 0;
    while let Ok(kind) = read::read_number(reports, next) {
        next = put_report(out, reports, kind)?;
    }
    Ok(())
}
