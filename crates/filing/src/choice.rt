ghost use Rattle.std.specs.Prelude.{◌≡◌, ◌≤◌, length, slice_index, slice_index_or, MatchOption};
ghost use Rattle.lexicon.specs.Lexicon.{free, side_of};
ghost use Rattle.linkage.specs.Ledgers.{most_words};
ghost use Rattle.linkage.specs.Lists.{every, range};
ghost use Rattle.linkage.specs.Sentences.{size};
ghost use Rattle.filing.specs.Filings.{allowed, choice_tests, number_of, tested, there};
ghost use Rattle.filing.specs.Given.{asked_at, choice, position, sentence};

use lexicon::dictionary::Dictionary;
use lexicon::side::Side;
use refusal::Refusal;
use rows::Rows;

/// The byte for a bare word.
// Choices are filed as one byte for each word, so the mark is of the subject and only `number` reads it.
const BARE: u8 = 255;

/// What somebody chooses for the words of a sentence, a byte for each.
#[derive(Drop)]
pub(crate) struct Choices<'a, D> {
    pub(crate) dictionary: &'a D,
    pub(crate) rows: &'a Rows,
    pub(crate) bytes: &'a [u8],
}

impl<'a, D: Dictionary> Choices<'a, D> {
    /// How many words there are.
    pub(crate) fn words(&self) -> usize
        ensures words { result ≡ size (sentence D.meaning self.now) }
        ensures few { size (sentence D.meaning self.now) ≤ most_words }
    {
        self.rows.length()
    }

    /// The number of the disjunct that is chosen at a position, if one is.
    fn number(&self, at: usize) -> Option<usize>
        ensures { result ≡ number_of (choice self.now at) }
    {
        self.bytes
            .get(at)
            .filter(|byte| **byte != BARE)
            .map(|byte| usize::from(*byte))
    }

    /// The word at a position and the number of the disjunct that is chosen there, if one is.
    fn taken(&self, at: usize) -> Option<(u16, usize)>
        ensures { let lex = D.meaning self.now.dictionary.now in
            MatchOption result
            (asked_at D.meaning self.now at ≡ free)
            (λ t. asked_at D.meaning self.now at ≡ slice_index_or (lex.disjuncts t.0) t.1 free) }
    {
        let disjunct = self.number(at)?;
        let word = self.rows.word(at).ok()?;
        Some((word, disjunct))
    }

    /// How many connectors are asked for on a side of a position.
    pub(crate) fn list_len(&self, at: usize, side: Side) -> usize
        ensures { result ≡ length (side_of (asked_at D.meaning self.now at) side) }
    {
        self.taken(at).map_or(0, |(word, disjunct)| {
            self.dictionary.list_len(word, disjunct, side)
        })
    }

    /// The connector at a place of the list that is asked for on a side of a position.
    pub(crate) fn connector(&self, at: usize, side: Side, place: usize) -> u16
        ensures { result ≡ slice_index (side_of (asked_at D.meaning self.now at) side) place }
    {
        self.taken(at).map_or(0, |(word, disjunct)| {
            self.dictionary.connector(word, disjunct, side, place)
        })
    }

    /// Whether what is chosen at a position is a disjunct of its word, or bare.
    fn is_there(&self, at: usize) -> bool
        ensures { result ≡ there (position D.meaning self.now at) (choice self.now at) }
    {
        self.number(at).is_none_or(|disjunct| {
            self.rows
                .word(at)
                .is_ok_and(|word| disjunct < self.dictionary.disjuncts(word))
        })
    }

    /// Whether what is chosen at a position is not struck.
    fn is_allowed(&self, at: usize) -> bool
        ensures { result ≡ allowed (position D.meaning self.now at) (choice self.now at) }
    {
        self.number(at)
            .is_none_or(|disjunct| !self.rows.is_struck(at, disjunct))
    }

    /// Whether each choice is a disjunct of its word, or bare.
    fn all_there(&self) -> bool
        ensures { result ≡ every (λ i. there (position D.meaning self.now i) (choice self.now i)) (range 0 (size (sentence D.meaning self.now))) }
    {
        (0..self.words()).all(|at| self.is_there(at))
    }

    /// Whether no choice is struck.
    fn all_allowed(&self) -> bool
        ensures { result ≡ every (λ i. allowed (position D.meaning self.now i) (choice self.now i)) (range 0 (size (sentence D.meaning self.now))) }
    {
        (0..self.words()).all(|at| self.is_allowed(at))
    }

    /// Refuses choices by the first test of choices alone that they fail.
    pub(crate) fn check(&self) -> Result<(), Refusal>
        ensures { result ≡ tested (choice_tests (sentence D.meaning self.now) self.now.bytes.now) }
    {
        let words = self.words();
        if words == 0 {
            return Err(Refusal::NoWords);
        }
        if self.bytes.len() != words {
            return Err(Refusal::ChoiceCount);
        }
        if !self.all_there() {
            return Err(Refusal::NoChoice);
        }
        if !self.all_allowed() {
            return Err(Refusal::StruckChoice);
        }
        Ok(())
    }
}
