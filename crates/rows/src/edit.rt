ghost use Rattle.std.specs.Prelude.{◌≡◌, ◌<◌, [], length, slice_set};
ghost use Rattle.lexicon.specs.Lexicon.{Lexicon};
ghost use Rattle.linkage.specs.declared.call.Call.TheVariants.{Add, Drop, Change, Strike, Allow};
ghost use Rattle.linkage.specs.Ledgers.{fresh};
ghost use Rattle.rows.specs.Answers.{added, changed, dropped, newly_allowed, newly_struck};
ghost use Rattle.rows.specs.Edits.{Edited, Finds};
ghost use Rattle.rows.specs.Tables.{ledger_of, marks_of, no_marks, row};

use crate::sets::DisjunctSet;
use crate::{Entry, Rows};
use arrayvec::ArrayVec;
use lexicon::dictionary::Dictionary;
use refusal::Refusal;

impl Entry {
    /// A word with nothing struck.
    fn fresh(word: u16) -> Entry
        ensures { row result ≡ fresh word }
    {
        Entry {
            word,
            struck: DisjunctSet::default(),
        }
    }
}

impl Rows {
    /// Rows without a word.
    pub fn new() -> Rows
        ensures ledger { ledger_of result ≡ [] }
        ensures marks { marks_of result ≡ no_marks }
    {
        Rows {
            entries: ArrayVec::new(),
            marked: ArrayVec::new(),
        }
    }

    /// Takes every mark off.
    fn clear_marks(&mut self)
        ensures ledger { ledger_of self.new ≡ ledger_of self.old }
        ensures marks { marks_of self.new ≡ no_marks }
    {
        self.marked.clear();
    }

    /// Puts another entry at a position, and takes every mark off.
    fn put(&mut self, position: usize, entry: Entry)
        requires { position < length self.old.entries.items }
        ensures ledger { ledger_of self.new ≡ slice_set (ledger_of self.old) position (row entry) }
        ensures marks { marks_of self.new ≡ no_marks }
    {
        self.entries[position] = entry;
        self.clear_marks();
    }

    /// Puts a word last, with nothing struck, and gives its position.
    pub fn add(&mut self, word: u16) -> Result<usize, Refusal>
        ensures answer { result ≡ added (ledger_of self.old) }
        ensures edit { (lex : Lexicon) → Edited lex self.old self.new (Add word) result }
    {
        if self.entries.is_full() {
            return Err(Refusal::FolioFull);
        }
        let position = self.entries.len();
        self.entries.push(Entry::fresh(word));
        self.clear_marks();
        Ok(position)
    }

    /// Takes the last word off, and gives it.
    pub fn drop(&mut self) -> Result<u16, Refusal>
        ensures answer { result ≡ dropped (ledger_of self.old) }
        ensures edit { (lex : Lexicon) → Edited lex self.old self.new Drop result }
    {
        let last = self.entries.pop().ok_or(Refusal::NoWords)?;
        // Not by `clear_marks`: a word is gone and its marks may still stand, so the rows are not whole yet.
        self.marked.clear();
        Ok(last.word)
    }

    /// Puts another word at a position, with nothing struck, and gives the old one.
    pub fn change(&mut self, position: usize, word: u16) -> Result<u16, Refusal>
        ensures answer { result ≡ changed (ledger_of self.old) position }
        ensures edit { (lex : Lexicon) → Edited lex self.old self.new (Change position word) result }
    {
        let old = self.entry(position)?;
        self.put(position, Entry::fresh(word));
        Ok(old.word)
    }

    /// What stands at a position, or why a disjunct is not found there: the position is not there, or its word does not have the disjunct.
    // The rows are to hold no dictionary, so it is lent to the three calls here that need one.
    // A position and a disjunct come as two numbers, as callers have them.
    fn find<D: Dictionary>(
        &self,
        dictionary: &D,
        position: usize,
        disjunct: usize,
    ) -> Result<Entry, Refusal>
        ensures { Finds (D.meaning dictionary.now) self.now position disjunct result }
    {
        let entry = self.entry(position)?;
        if disjunct >= dictionary.disjuncts(entry.word) {
            return Err(Refusal::NoDisjunct);
        }
        Ok(entry)
    }

    /// Strikes a disjunct, and gives how many strikes that set.
    pub fn strike<D: Dictionary>(
        &mut self,
        dictionary: &D,
        position: usize,
        disjunct: usize,
    ) -> Result<usize, Refusal>
        ensures answer { result ≡ newly_struck (D.meaning dictionary.now) (ledger_of self.old) position disjunct }
        ensures edit { Edited (D.meaning dictionary.now) self.old self.new (Strike position disjunct) result }
    {
        let mut entry = self.find(dictionary, position, disjunct)?;
        let is_new = entry.struck.insert(disjunct);
        self.put(position, entry);
        Ok(usize::from(is_new))
    }

    /// Takes the strike off a disjunct, and gives how many strikes that cleared.
    pub fn allow<D: Dictionary>(
        &mut self,
        dictionary: &D,
        position: usize,
        disjunct: usize,
    ) -> Result<usize, Refusal>
        ensures answer { result ≡ newly_allowed (D.meaning dictionary.now) (ledger_of self.old) position disjunct }
        ensures edit { Edited (D.meaning dictionary.now) self.old self.new (Allow position disjunct) result }
    {
        let mut entry = self.find(dictionary, position, disjunct)?;
        let was_there = entry.struck.remove(disjunct);
        self.put(position, entry);
        Ok(usize::from(was_there))
    }
}
