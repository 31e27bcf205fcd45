ghost use Rattle.std.specs.Prelude.{◌≡◌, ◌<◌, ◌≤◌, length};
ghost use Rattle.lexicon_report.specs.Marks.{mark_end, of_a_mark};

use crate::lines::{formula_of, line_at};
use refusal::Refusal;
use refusal::fault::Fault;
use std::io;
use std::io::Write;
use written::pieces::piece_end;

/// Whether a refusal is of what stands at a byte of a formula.
fn is_of_a_mark(refusal: Refusal) -> bool
    ensures { result ≡ of_a_mark refusal }
{
    matches!(
        refusal,
        Refusal::UnknownMark | Refusal::OutOfPlace | Refusal::TooDeep | Refusal::BadName
    )
}

/// Where the mark at a place ends: a connector at the next space or with the formula, `or` after two bytes, any other after its one.
fn mark_end(formula: &[u8], place: usize) -> usize
    requires { place < length formula.now }
    ensures value { result ≡ mark_end formula.now place }
    ensures within { (place ≤ result) × (result ≤ length formula.now) }
{
    match formula[place] {
        b'A'..=b'Z' => piece_end(formula, place, b' '),
        b'o' if place + 1 < formula.len() => place + 2,
        _ => place + 1,
    }
}

/// A byte as it is where it is printable ASCII, else as two hexadecimal digits.
fn write_byte(out: &mut Vec<u8>, byte: u8) -> io::Result<()> {
    match byte {
        b' '..=b'~' => out.write_all(&[byte]),
        _ => write!(out, "\\x{byte:02x}"),
    }
}

/// The mark at a place of a formula, or that the formula ends there.
fn write_mark(out: &mut Vec<u8>, formula: &[u8], place: usize) -> io::Result<()> {
    if place >= formula.len() {
        return out.write_all(b": the end of the formula");
    }
    out.write_all(b": \"")?;
    for byte in &formula[place..mark_end(formula, place)] {
        write_byte(out, *byte)?;
    }
    out.write_all(b"\"")
}

/// The line of a refusal: where it came, its number and message, and the mark that it is of.
pub(crate) fn write_refusal(out: &mut Vec<u8>, fault: Fault, text: &[u8]) -> io::Result<()> {
    let Fault {
        line,
        place,
        refusal,
    } = fault;
    let number = refusal.number();
    write!(
        out,
        "refused: line {line}, place {place}: {number}: {refusal}"
    )?;
    if line > 0 && is_of_a_mark(refusal) {
        write_mark(out, formula_of(line_at(text, line - 1)), place)?;
    }
    out.write_all(b"\n")
}
