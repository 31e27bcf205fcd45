//! The folio: a sentence under work over one dictionary, and the calls on it.

#![tactic(auto)]

ghost use Rattle.std.specs.Prelude.{[], ◌≡◌, ◌≤◌, length};
ghost use Rattle.linkage.specs.declared.call.Call.TheVariants.{Add, Drop, Change, Strike, Allow};
ghost use Rattle.linkage.specs.Ledgers.{most_words};
ghost use Rattle.rows.specs.Answers.{added, changed, dropped, newly_allowed, newly_struck, standing_of, word_of};
ghost use Rattle.rows.specs.Edits.{Edited};
ghost use Rattle.rows.specs.Tables.{ledger_of, marks_of, no_marks};

use lexicon::dictionary::Dictionary;
use refusal::Refusal;
use rows::Rows;

/// A sentence under work over one dictionary.
// Callers have a position and a disjunct as two numbers, and so they give them; and each call promises for itself that the dictionary is the same, since
// a public promise stands in the contract of the call.
#[derive(Drop)]
pub struct Folio<D> {
    dictionary: D,
    rows: Rows,
}

impl<D: Dictionary> Folio<D> {
    /// A folio without a word.
    pub fn open(dictionary: D) -> Folio<D>
        ensures dictionary { result.dictionary ≡ dictionary }
        ensures ledger { ledger_of result.rows ≡ [] }
        ensures marks { marks_of result.rows ≡ no_marks }
    {
        Folio {
            dictionary,
            rows: Rows::new(),
        }
    }

    /// Gives the dictionary back.
    pub fn close(self) -> D
        ensures { result ≡ self.dictionary }
    {
        let Folio {
            dictionary,
            rows: _,
        } = self;
        dictionary
    }

    /// Puts a word last, with nothing struck, and gives its position.
    pub fn add(&mut self, word: u16) -> Result<usize, Refusal>
        ensures answer { result ≡ added (ledger_of self.old.rows) }
        ensures edit { Edited (D.meaning self.old.dictionary) self.old.rows self.new.rows (Add word) result }
        ensures dictionary { self.new.dictionary ≡ self.old.dictionary }
    {
        self.rows.add(word)
    }

    /// Takes the last word off, and gives it.
    pub fn drop(&mut self) -> Result<u16, Refusal>
        ensures answer { result ≡ dropped (ledger_of self.old.rows) }
        ensures edit { Edited (D.meaning self.old.dictionary) self.old.rows self.new.rows Drop result }
        ensures dictionary { self.new.dictionary ≡ self.old.dictionary }
    {
        self.rows.drop()
    }

    /// Puts another word at a position, with nothing struck, and gives the old one.
    pub fn change(&mut self, position: usize, word: u16) -> Result<u16, Refusal>
        ensures answer { result ≡ changed (ledger_of self.old.rows) position }
        ensures edit { Edited (D.meaning self.old.dictionary) self.old.rows self.new.rows (Change position word) result }
        ensures dictionary { self.new.dictionary ≡ self.old.dictionary }
    {
        self.rows.change(position, word)
    }

    /// Strikes a disjunct, and gives how many strikes that set.
    pub fn strike(&mut self, position: usize, disjunct: usize) -> Result<usize, Refusal>
        ensures answer { result ≡ newly_struck (D.meaning self.old.dictionary) (ledger_of self.old.rows) position disjunct }
        ensures edit { Edited (D.meaning self.old.dictionary) self.old.rows self.new.rows (Strike position disjunct) result }
        ensures dictionary { self.new.dictionary ≡ self.old.dictionary }
    {
        self.rows.strike(&self.dictionary, position, disjunct)
    }

    /// Takes the strike off a disjunct, and gives how many strikes that cleared.
    pub fn allow(&mut self, position: usize, disjunct: usize) -> Result<usize, Refusal>
        ensures answer { result ≡ newly_allowed (D.meaning self.old.dictionary) (ledger_of self.old.rows) position disjunct }
        ensures edit { Edited (D.meaning self.old.dictionary) self.old.rows self.new.rows (Allow position disjunct) result }
        ensures dictionary { self.new.dictionary ≡ self.old.dictionary }
    {
        self.rows.allow(&self.dictionary, position, disjunct)
    }

    /// How many words there are.
    pub fn length(&self) -> usize
        ensures length { result ≡ length (ledger_of self.now.rows) }
        ensures few { length (ledger_of self.now.rows) ≤ most_words }
    {
        self.rows.length()
    }

    /// The word at a position.
    pub fn word(&self, position: usize) -> Result<u16, Refusal>
        ensures { result ≡ word_of (ledger_of self.now.rows) position }
    {
        self.rows.word(position)
    }

    /// How many disjuncts of the word at a position are neither struck nor marked.
    pub fn standing(&self, position: usize) -> Result<usize, Refusal>
        ensures { result ≡ standing_of (D.meaning self.now.dictionary) (ledger_of self.now.rows) (marks_of self.now.rows) position }
    {
        self.rows.standing(&self.dictionary, position)
    }
}
