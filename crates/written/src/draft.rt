ghost use Rattle.std.specs.Prelude.{◌≤◌};
ghost use Rattle.written.specs.Pages.{limit, store, taken};
ghost use Rattle.written.specs.Store.{Whole};

use crate::closed::Written;
use crate::cost::cost;
use crate::line::{repeats, split, unended, word_count};
use crate::note::fresh_names;
use crate::page::Page;
use formula::meaning::meaning;
use formula::way::Disjuncts;
use refusal::Refusal;
use refusal::fault::{Fault, LineFault};

/// A draft has at most so many words.
const MOST_WORDS: usize = 256;

/// A dictionary that is being written: it takes lines until it is closed.
#[derive(Drop)]
pub struct Draft<'t> {
    pub(crate) page: Page<'t>,
    ghost roomy: { taken page.used page.words ≤ limit page.table.now },
    ghost few: { page.words ≤ 256 },
    ghost whole: { Whole (store page.table.now page.used page.words) },
}

impl<'t> Draft<'t> {
    ghost use Rattle.std.specs.Prelude.{◌≡◌, length, true, List, ◌++◌};
    ghost use Rattle.std.specs.Result.{result_err};
    ghost use Rattle.formula.specs.Shown.{disjuncts_of};
    ghost use Rattle.written.specs.Drafts.{LeftBehind, OneNumber, answered, book, cells_of, drafted, empty_book, lined, texted, entered};
    ghost use Rattle.written.specs.Lines.{lines, every, good_word, pieces};
    ghost use Rattle.written.specs.Meaning.{written};
    ghost use Rattle.written.specs.Model.{Named, find, Fitting};
    ghost use Rattle.written.specs.Store.{model};

    /// A draft without lines, over a lent table of which it may use at most the first 65,535 cells.
    pub fn new(table: &'t mut [u16]) -> Draft<'t>
        ensures book { book result ≡ empty_book }
        ensures table { result.page.table.now ≡ table.old }
    {
        Draft {
            page: Page {
                table,
                used: 0,
                words: 0,
            },
        }
    }

    /// Takes a line: its words with the disjuncts of its formula, or a refusal that leaves draft and table as they were.
    pub fn line(&mut self, line: &[u8]) -> Result<(), LineFault>
        ensures answer { lined (cells_of self.old) (book self.old) line.now ≡ answered result (book self.new) }
        ensures left { LeftBehind self.old.page self.new.page result }
        ensures numbers { OneNumber (model (drafted self.new)).names }
        ensures cells { cells_of self.new ≡ cells_of self.old }
    {
        let parts = split(line)?;
        let disjuncts = meaning(parts.formula)?;
        self.enter(parts.words, &disjuncts)
    }

    /// Takes a text line by line, up to the first that is refused; the lines before it stand.
    pub fn text(&mut self, text: &[u8]) -> Result<(), Fault>
        ensures answer { texted (cells_of self.old) 1 (book self.old) (lines text.now) ≡ record { book = book self.new; fault = result_err result } }
        ensures kept { (more : List Named) × ((model (drafted self.new)).names ≡ (model (drafted self.old)).names ++ more) }
        ensures numbers { OneNumber (model (drafted self.new)).names }
        ensures cells { cells_of self.new ≡ cells_of self.old }
    {
        // No function can hand out the pieces of a slice, so whoever goes over lines cuts them.
        if text.is_empty() {
            return Ok(());
        }
        let lines = unended(text).split(|b| *b == b'\n');
        for (before, line) in lines.enumerate() {
            // Here alone a fault gets its line.
            self.line(line).map_err(|e| Fault {
                line: before + 1,
                place: e.place,
                refusal: e.refusal,
            })?;
        }
        Ok(())
    }

    /// How many words the draft has.
    pub fn words(&self) -> usize
        ensures { result ≡ length (book self.now).entries }
    {
        self.page.words
    }

    /// How many cells of the table its lines have taken.
    pub fn spent(&self) -> usize
        ensures { result ≡ (book self.now).spent }
    {
        self.read().cells()
    }

    /// The number of a word, or 65,535 where it is not defined.
    pub fn find(&self, word: &[u8]) -> u16
        ensures { result ≡ find (model (drafted self.now)) word.now }
    {
        self.read().find(word)
    }

    /// Closes the draft: what was drafted is a dictionary, which takes no more lines.
    pub fn close(self) -> Written<'t>
        ensures { written result ≡ drafted self.entry }
    {
        let Draft { page } = self;
        let Page { table, used, words } = page;
        Written { table, used, words }
    }

    /// What is drafted so far, to be read.
    pub(crate) fn read(&self) -> Written<'_>
        ensures holds { written result ≡ drafted self.now }
        ensures table { result.table.now ≡ self.now.page.table.now }
        ensures used { result.used ≡ self.now.page.used }
        ensures words { result.words ≡ self.now.page.words }
    {
        Written {
            table: self.page.table,
            used: self.page.used,
            words: self.page.words,
        }
    }

    /// Enters the words of a line, all with its disjuncts, unless one of them is known or there is no room.
    pub(crate) fn enter(&mut self, words: &[u8], disjuncts: &Disjuncts) -> Result<(), LineFault>
        requires good { every good_word (pieces 32 words.now) ≡ true }
        requires fitting { Fitting (disjuncts_of disjuncts.now) }
        ensures answer { entered (cells_of self.old) (book self.old) (pieces 32 words.now) (disjuncts_of disjuncts.now) ≡ answered result (book self.new) }
        ensures left { LeftBehind self.old.page self.new.page result }
        ensures len { length self.new.page.table.now ≡ length self.old.page.table.now }
    {
        let read = self.read();
        if read.knows_any(words) || repeats(words) {
            return Err(Refusal::WordTaken.into());
        }
        if word_count(words) > MOST_WORDS - read.words {
            return Err(Refusal::TableShort.into());
        }
        let fresh = fresh_names(read.front(), disjuncts);
        if cost(words, disjuncts, &fresh) > read.room() {
            return Err(Refusal::TableShort.into());
        }
        self.page.write_line(words, disjuncts, &fresh);
        Ok(())
    }
}
