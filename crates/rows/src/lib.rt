//! The words of a sentence under work, in a plain list that holds no dictionary.
//!
//! - `edit`: the calls that change them. The rows are to hold no dictionary, so where one is needed it is lent beside them.
//! - `read`: what is asked of them.
//! - `sets`: sets of disjuncts.

#![tactic(auto)]

ghost use Rattle.std.specs.Prelude.{◌≤◌, length};
ghost use Rattle.linkage.specs.Ledgers.{most_words};

use arrayvec::ArrayVec;
use sets::DisjunctSet;

pub mod edit;
pub mod read;
mod sets;

/// The most words that a folio holds.
pub const MOST_WORDS: usize = 40;

/// A position of a sentence under work: its word, and which of the word's disjuncts are struck.
#[derive(Clone, Copy, Default, PartialEq, Eq, Debug)]
struct Entry {
    word: u16,
    struck: DisjunctSet,
}

/// The words of a sentence under work, each with the disjuncts that are struck; and those that are marked, position by position, as far as marks go and never past the words.
// Marks stand apart, since each edit takes all of them off.
#[derive(Drop)]
pub struct Rows {
    entries: ArrayVec<Entry, MOST_WORDS>,
    marked: ArrayVec<DisjunctSet, MOST_WORDS>,
    ghost few: { length entries.items ≤ most_words },
    ghost within: { length marked.items ≤ length entries.items },
}
