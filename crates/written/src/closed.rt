ghost use Rattle.std.specs.Prelude.{◌≤◌};
ghost use Rattle.written.specs.Pages.{limit, store, taken};
ghost use Rattle.written.specs.Store.{Whole};

use crate::front::{MARK, letters, spells};
use crate::page::{limit, row_place};

pub mod ask;

/// A dictionary that is written: it only answers. A draft is read as one, and becomes one when it is closed.
// A page has the same fields over a table that it borrows to write, and a draft the same facts of its page; no type is generic over how it borrows.
// What is in the table is told by its place, as in a page.
#[derive(Drop)]
pub struct Written<'t> {
    pub(crate) table: &'t [u16],
    pub(crate) used: usize,
    pub(crate) words: usize,
    ghost roomy: { taken used words ≤ limit table.now },
    ghost few: { words ≤ 256 },
    ghost whole: { Whole (store table.now used words) },
}

impl<'t> Written<'t> {
    ghost use Rattle.std.specs.Prelude.{◌≡◌, ◌+◌, ◌-◌, ◌*◌, ◌<◌, ◌≤◌, map, length, IfSome, position, slice_index_or, []};
    ghost use Rattle.std.specs.Option.{unwrap_or};
    ghost use Rattle.written.specs.Lines.{pieces, some_among};
    ghost use Rattle.written.specs.Matching.{same};
    ghost use Rattle.written.specs.Meaning.{spent, written};
    ghost use Rattle.written.specs.Model.{Entry, no_entry, name_of};
    ghost use Rattle.written.specs.Pages.{limit, row_place};
    ghost use Rattle.written.specs.Store.{model};

    /// The bytes of a word, one to a cell; nothing past the last word.
    pub fn word(&self, number: u16) -> &[u16]
        ensures { result.now ≡ (slice_index_or (model (written self.now)).entries number no_entry).word }
    {
        let word = usize::from(number);
        if word < self.words {
            self.bytes(word)
        } else {
            &self.table[..0]
        }
    }

    /// The letters of the name that a connector's number stands for; nothing where it stands for none.
    pub fn name(&self, number: u16) -> &[u16]
        ensures { result.now ≡ unwrap_or (name_of (model (written self.now)).names number) [] }
    {
        let at = usize::from(number);
        if self.is_name(at) {
            letters(self.front(), at)
        } else {
            &self.table[..0]
        }
    }

    /// How many names the connectors have.
    pub fn name_count(&self) -> usize
        ensures { result ≡ length (model (written self.now)).names }
    {
        self.front().iter().filter(|cell| **cell == MARK).count()
    }

    /// How many cells of the table are taken.
    pub fn cells(&self) -> usize
        ensures { result ≡ spent self.now }
    {
        self.used + 4 * self.words
    }

    /// The cells that are written from the front.
    pub(crate) fn front(&self) -> &[u16]
        ensures value { result.now ≡ (written self.now).front }
        ensures small { length result.now ≤ 65535 }
    {
        &self.table[..self.used]
    }

    /// Where the row of a word begins.
    // That there is such a word, `row`, `bytes` and `block` ask: a number below another's count would borrow what it counts in, which is no plainer.
    pub(crate) fn row(&self, word: usize) -> usize
        requires { word < self.now.words }
        ensures value { result ≡ row_place self.now.table.now word }
        ensures inside { result + 4 ≤ length self.now.table.now }
    {
        row_place(self.table.len(), word)
    }

    /// The bytes of a word, one to a cell.
    pub(crate) fn bytes(&self, word: usize) -> &[u16]
        requires { word < self.now.words }
        ensures { result.now ≡ (slice_index_or (model (written self.now)).entries word no_entry).word }
    {
        let row = self.row(word);
        let first = usize::from(self.table[row]);
        let len = usize::from(self.table[row + 1]);
        &self.table[first..first + len]
    }

    /// The place of a word among the words, if it is one of them.
    pub(crate) fn place(&self, word: &[u8]) -> Option<usize>
        ensures value { result ≡ position (λ (e : Entry). same e.word word.now) (model (written self.now)).entries }
        ensures within { IfSome result (λ k. k < 256) }
    {
        (0..self.words).position(|k| spells(self.bytes(k), word))
    }

    /// Whether one of some words is known.
    // Words stay bytes, so they are cut here as they are where they are counted.
    pub(crate) fn knows_any(&self, words: &[u8]) -> bool
        ensures { result ≡ some_among (map (λ (e : Entry). e.word) (model (written self.now)).entries) (pieces 32 words.now) }
    {
        words
            .split(|b| *b == b' ')
            .any(|word| self.place(word).is_some())
    }

    /// How many cells of the table may still be taken.
    pub(crate) fn room(&self) -> usize
        ensures { result ≡ limit self.now.table.now - spent self.now }
    {
        limit(self.table.len()) - self.cells()
    }
}
