ghost use Rattle.std.specs.Prelude.{◌<◌, IfOk};

use anyhow::{Context, anyhow};
use std::alloc::Global;
use std::str::FromStr;

/// What a case is about.
#[derive(Clone, Copy, PartialEq, Eq)]
pub enum Kind {
    /// `formula HEX`: a formula alone. The answer is `ok WAYS D` and D disjuncts, or `no NUMBER PLACE`.
    Formula,
    /// `draft CELLS`: a new draft over a table of so many cells, for the cases that follow.
    Draft,
    /// `line HEX`: a line for the draft. The answer is `ok USED WORDS D` and D disjuncts, or `no NUMBER PLACE`.
    Line,
    /// `text HEX`: a text for the draft. The answer is `ok USED WORDS` or `no NUMBER PLACE LINE USED WORDS`.
    Text,
    /// `close`: questions to the dictionary follow.
    Close,
    /// `find HEX NUMBER`: a word, and its number as the answer.
    Find,
    /// `match W D K V E M ANSWER`: whether the right connector K of disjunct D of word W matches the left connector M of
    /// disjunct E of word V, 1 or 0.
    Match,
}

/// A case: the line of the input where it stands, what is given, and the rows of the answer that is expected.
///
/// Bytes are given in hex, `-` where there are none. A disjunct is a row `dis LEFT RIGHT` of names, nearest first, parted by
/// commas, `-` where there are none.
#[derive(Drop)]
pub struct Case<'a> {
    pub line: usize,
    pub kind: Kind,
    pub given: &'a str,
    pub answer: String,
}

impl FromStr for Kind {
    type Err = anyhow::Error;

    fn from_str(word: &str) -> anyhow::Result<Kind> {
        match word {
            "formula" => Ok(Kind::Formula),
            "draft" => Ok(Kind::Draft),
            "line" => Ok(Kind::Line),
            "text" => Ok(Kind::Text),
            "close" => Ok(Kind::Close),
            "find" => Ok(Kind::Find),
            "match" => Ok(Kind::Match),
            _ => Err(anyhow!("a row begins with an unknown word")),
        }
    }
}

impl Case<'_> {
    /// A section begins with each formula and with each draft.
    pub(crate) fn begins_section(&self) -> bool {
        matches!(self.kind, Kind::Formula | Kind::Draft)
    }
}

/// What is given in a row, and the answer where it ends the same row.
fn parts<'a>(kind: Kind, rest: &'a str) -> (&'a str, &'a str) {
    match kind {
        Kind::Find | Kind::Match => rest.rsplit_once(' ').unwrap_or((rest, "")),
        _ => (rest, ""),
    }
}

/// One row more of the last case's answer.
fn add_answer(cases: &mut Vec<Case<'_>>, row: &str) -> anyhow::Result<()> {
    let case = cases.last_mut().context("an answer to nothing")?;
    if !case.answer.is_empty() {
        case.answer.push('\n')?;
    }
    case.answer.push_str(row)?;
    Ok(())
}

/// The cases of a text, in order. Empty rows and rows that begin with `#` say nothing.
pub(crate) fn cases<'a>(heap: Global, text: &'a str) -> anyhow::Result<Vec<Case<'a>>> {
    let mut cases = Vec::new(heap);
    for (i, row) in text.lines().enumerate() {
        let (word, rest) = row.split_once(' ').unwrap_or((row, ""));
        match word {
            "" | "#" => {}
            "ok" | "no" | "dis" => add_answer(&mut cases, row)?,
            _ => {
                let (line, kind) = (i.saturating_add(1), word.parse::<Kind>()?);
                let (given, last) = parts(kind, rest);
                let answer = String::from_str(heap, last)?;
                cases.push(Case {
                    line,
                    kind,
                    given,
                    answer,
                })?;
            }
        }
    }
    Ok(cases)
}

/// A digit of hex in small letters: a capital is none.
fn digit(b: u8) -> anyhow::Result<u8>
    ensures { IfOk result (λ d. d < 16) }
{
    match char::from(b).to_digit(16) {
        Some(digit) if !b.is_ascii_uppercase() => Ok(digit as u8),
        _ => Err(anyhow!("no digit")),
    }
}

/// The bytes that are written in hex.
pub(crate) fn bytes(heap: Global, hex: &str) -> anyhow::Result<Vec<u8>> {
    let mut bytes = Vec::new(heap);
    if hex == "-" {
        return Ok(bytes);
    }
    for pair in hex.as_bytes().chunks(2) {
        let [high, low] = pair else {
            return Err(anyhow!("half a byte"));
        };
        bytes.push(digit(*high)? * 16 + digit(*low)?)?;
    }
    Ok(bytes)
}

/// The numbers that are parted by single spaces.
pub(crate) fn numbers(heap: Global, text: &str) -> anyhow::Result<Vec<u16>> {
    let mut numbers = Vec::new(heap);
    for field in text.split(' ') {
        numbers.push(field.parse::<u16>()?)?;
    }
    Ok(numbers)
}
