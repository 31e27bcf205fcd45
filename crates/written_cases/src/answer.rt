use crate::case::numbers;
use anyhow::anyhow;
use formula::meaning::meaning;
use formula::read::parse;
use formula::way::{Disjuncts, Names};
use lexicon::dictionary::Dictionary;
use lexicon::side::Side;
use refusal::fault::LineFault;
use std::alloc::{AllocError, Global};
use written::closed::Written;
use written::draft::Draft;
use written::line::split;

fn refused(heap: Global, fault: LineFault) -> Result<String, AllocError> {
    let (number, place) = (fault.refusal.number(), fault.place);
    format!(in heap; "no {number} {place}")
}

/// Adds the names of a list, or `-` where there are none.
// `dictionary_tests` prints lists in its own form; a library between two programs for a few lines is no plainer.
fn add_names(out: &mut String, names: &Names) -> Result<(), AllocError> {
    if names.is_empty() {
        out.push('-')?;
    }
    for (i, name) in names.iter().enumerate() {
        if i > 0 {
            out.push(',')?;
        }
        for b in name.iter() {
            out.push(char::from(*b))?;
        }
    }
    Ok(())
}

/// Adds a row for each disjunct.
fn add_rows(out: &mut String, disjuncts: &Disjuncts) -> Result<(), AllocError> {
    for disjunct in disjuncts.iter() {
        out.push_str("\ndis ")?;
        add_names(out, &disjunct.left)?;
        out.push(' ')?;
        add_names(out, &disjunct.right)?;
    }
    Ok(())
}

/// How many ways a formula has, with repeats.
fn way_count(formula: &[u8]) -> usize {
    match parse(formula) {
        Ok(Some(ways)) => ways.len(),
        _ => 0,
    }
}

/// What a formula means, and how many ways it has.
pub(crate) fn to_formula(heap: Global, formula: &[u8]) -> Result<String, AllocError> {
    match meaning(formula) {
        Ok(disjuncts) => {
            let (ways, kept) = (way_count(formula), disjuncts.len());
            let mut answer = format!(in heap; "ok {ways} {kept}")?;
            add_rows(&mut answer, &disjuncts)?;
            Ok(answer)
        }
        Err(fault) => refused(heap, fault),
    }
}

/// What a draft says of a line that it has taken.
fn to_taken(heap: Global, draft: &Draft<'_>, line: &[u8]) -> Result<String, AllocError> {
    let Ok(parts) = split(line) else {
        return String::from_str(heap, "ok, though the line has no parts");
    };
    let Ok(disjuncts) = meaning(parts.formula) else {
        return String::from_str(heap, "ok, though the formula means nothing");
    };
    let (spent, words, kept) = (draft.spent(), draft.words(), disjuncts.len());
    let mut answer = format!(in heap; "ok {spent} {words} {kept}")?;
    add_rows(&mut answer, &disjuncts)?;
    Ok(answer)
}

/// What a draft says to a line. One that is refused leaves it as it was.
pub(crate) fn to_line(
    heap: Global,
    draft: &mut Draft<'_>,
    line: &[u8],
) -> Result<String, AllocError> {
    let (spent, words) = (draft.spent(), draft.words());
    let Err(fault) = draft.line(line) else {
        return to_taken(heap, draft, line);
    };
    if draft.spent() != spent || draft.words() != words {
        return String::from_str(heap, "no, and the draft has changed");
    }
    refused(heap, fault)
}

/// What a draft says to a text.
pub(crate) fn to_text(
    heap: Global,
    draft: &mut Draft<'_>,
    text: &[u8],
) -> Result<String, AllocError> {
    let taken = draft.text(text);
    let (spent, words) = (draft.spent(), draft.words());
    let Err(fault) = taken else {
        return format!(in heap; "ok {spent} {words}");
    };
    let (number, place, line) = (fault.refusal.number(), fault.place, fault.line);
    format!(in heap; "no {number} {place} {line} {spent} {words}")
}

/// Whether two connectors match, as their six numbers name them.
pub(crate) fn to_match(heap: Global, written: &Written<'_>, given: &str) -> anyhow::Result<String> {
    let numbers = numbers(heap, given)?;
    let [w, d, k, v, e, m] = numbers.as_slice() else {
        return Err(anyhow!("a match has six numbers"));
    };
    let right = written.connector(*w, usize::from(*d), Side::Right, usize::from(*k));
    let left = written.connector(*v, usize::from(*e), Side::Left, usize::from(*m));
    Ok(u8::from(written.matches(right, left)).to_string(heap)?)
}
