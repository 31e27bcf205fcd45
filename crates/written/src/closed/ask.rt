ghost use Rattle.std.specs.Prelude.{◌≡◌, ◌+◌, ◌*◌, ◌<◌, ◌≤◌, length, ◌==◌, slice_index, slice_index_or};
ghost use Rattle.lexicon.specs.Lexicon.{free, list_of};
ghost use Rattle.written.specs.Kept.{few_words, none_past, few_disjuncts, short_lists, small_connectors};
ghost use Rattle.written.specs.Meaning.{written, written_lexicon};
ghost use Rattle.written.specs.Model.{find};
ghost use Rattle.written.specs.Pages.{Inside, row_at};
ghost use Rattle.written.specs.Store.{cell, model, numbers_at};

use crate::closed::Written;
use crate::front::{MARK, letters};
use crate::matching::names_match;
use lexicon::dictionary::Dictionary;
use lexicon::side::Side;

/// The number that no word has: what the subject gives for a word that is not there.
// `place` tells it as an Option; only the call of the subject gives the number.
const NO_WORD: u16 = 65535;

impl<'t> Written<'t> {
    /// The number of a word, or 65,535 where the dictionary does not have it.
    pub fn find(&self, word: &[u8]) -> u16
        ensures { result ≡ find (model (written self.now)) word.now }
    {
        self.place(word).map_or(NO_WORD, |k| k as u16)
    }

    /// Where the block of a word's disjuncts begins.
    fn block(&self, word: usize) -> usize
        requires { word < self.now.words }
        ensures value { result ≡ (row_at self.now.table.now word).block }
        ensures inside { result + 4 + 3 * slice_index self.now.table.now result ≤ length self.now.table.now }
    {
        usize::from(self.table[self.row(word) + 2])
    }

    /// Where the three cells of a disjunct begin.
    fn head(&self, word: usize, disjunct: usize) -> usize
        requires { disjunct < length ((written_lexicon self.now).disjuncts word) }
        ensures lists { slice_index_or ((written_lexicon self.now).disjuncts word) disjunct free ≡ numbers_at self.now.table.now result }
        ensures inside { Inside self.now.table.now result }
    {
        self.block(word) + 4 + 3 * disjunct
    }

    /// The connectors that a disjunct of a word asks for on a side.
    fn list(&self, word: u16, disjunct: usize, side: Side) -> &[u16]
        ensures { result.now ≡ list_of (written_lexicon self.now) word disjunct side }
    {
        if disjunct >= self.disjuncts(word) {
            return &self.table[..0];
        }
        let head = self.head(usize::from(word), disjunct);
        let first = usize::from(self.table[head + 2]);
        let middle = first + usize::from(self.table[head]);
        let end = middle + usize::from(self.table[head + 1]);
        match side {
            Side::Left => &self.table[first..middle],
            Side::Right => &self.table[middle..end],
        }
    }

    /// Whether a number is that of a name.
    pub(crate) fn is_name(&self, number: usize) -> bool
        ensures { result ≡ (cell (written self.now).front number == 65535) }
    {
        number < self.used && self.table[number] == MARK
    }
}

impl<'t> Dictionary for Written<'t> {
    ghost meaning = { written_lexicon };

    ghost few_words = { λ w. few_words w.table.now w.used w.words w.few };

    ghost none_past = { λ w. none_past w.table.now w.used w.words };

    ghost few_disjuncts = { λ w. few_disjuncts w.table.now w.used w.words ∣ w.whole ∣₁ };

    ghost short_lists = { λ w. short_lists w.table.now w.used w.words ∣ w.whole ∣₁ };

    ghost small_connectors = { λ w. small_connectors w.table.now w.used w.words w.roomy };

    fn words(&self) -> usize {
        self.words
    }

    fn disjuncts(&self, word: u16) -> usize {
        let word = usize::from(word);
        if word >= self.words {
            return 0;
        }
        usize::from(self.table[self.block(word)])
    }

    fn list_len(&self, word: u16, disjunct: usize, side: Side) -> usize {
        self.list(word, disjunct, side).len()
    }

    fn connector(&self, word: u16, disjunct: usize, side: Side, place: usize) -> u16 {
        self.list(word, disjunct, side)
            .get(place)
            .copied()
            .unwrap_or(0)
    }

    fn matches(&self, right: u16, left: u16) -> bool {
        let (right, left) = (usize::from(right), usize::from(left));
        if !self.is_name(right) || !self.is_name(left) {
            return false;
        }
        let front = self.front();
        names_match(letters(front, right), letters(front, left))
    }
}
