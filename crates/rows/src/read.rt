ghost use Rattle.std.specs.Prelude.{◌≡◌, ◌≤◌, length, slice_get, ok_or};
ghost use Rattle.refusal.specs.declared.Refusal.TheVariants.{NoPosition};
ghost use Rattle.linkage.specs.Ledgers.{most_words, row_at};
ghost use Rattle.rows.specs.Answers.{standing_of, word_of};
ghost use Rattle.rows.specs.Sets.{members};
ghost use Rattle.rows.specs.Tables.{ledger_of, marks_of};

use crate::sets::DisjunctSet;
use crate::{Entry, Rows};
use lexicon::dictionary::Dictionary;
use refusal::Refusal;

impl Rows {
    /// How many words there are.
    pub fn length(&self) -> usize
        ensures length { result ≡ length (ledger_of self.now) }
        ensures few { length (ledger_of self.now) ≤ most_words }
    {
        self.entries.len()
    }

    /// What stands at a position.
    pub(crate) fn entry(&self, position: usize) -> Result<Entry, Refusal>
        ensures { result ≡ ok_or (slice_get self.now.entries.items position) NoPosition }
    {
        self.entries
            .get(position)
            .copied()
            .ok_or(Refusal::NoPosition)
    }

    /// The word at a position.
    pub fn word(&self, position: usize) -> Result<u16, Refusal>
        ensures { result ≡ word_of (ledger_of self.now) position }
    {
        self.entries
            .get(position)
            .map(|entry| entry.word)
            .ok_or(Refusal::NoPosition)
    }

    /// Whether a disjunct at a position is struck; no past an end.
    // A position and a disjunct come as two numbers, as callers have them.
    pub fn is_struck(&self, position: usize, disjunct: usize) -> bool
        ensures { result ≡ (row_at (ledger_of self.now) position).struck disjunct }
    {
        self.entries
            .get(position)
            .is_some_and(|entry| entry.struck.contains(disjunct))
    }

    /// Which disjuncts at a position are marked.
    fn marked_at(&self, position: usize) -> DisjunctSet
        ensures { members result ≡ marks_of self.now position }
    {
        self.marked.get(position).copied().unwrap_or_default()
    }

    /// How many disjuncts of the word at a position are neither struck nor marked.
    // Lent, as the rows are to hold no dictionary.
    pub fn standing<D: Dictionary>(&self, dictionary: &D, position: usize) -> Result<usize, Refusal>
        ensures { result ≡ standing_of (D.meaning dictionary.now) (ledger_of self.now) (marks_of self.now) position }
    {
        let entry = self.entry(position)?;
        let out = entry.struck.union(self.marked_at(position));
        Ok(out.count_outside(dictionary.disjuncts(entry.word)))
    }
}
