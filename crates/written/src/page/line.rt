ghost use Rattle.std.specs.Prelude.{◌≡◌, ℕ, ◌+◌, ◌*◌, ◌≤◌, [], ◌∷◌, ◌++◌, map, length, take, slice_index_or};
ghost use Rattle.formula.specs.Shown.{disjunct_of, disjuncts_of, spellings};
ghost use Rattle.written.specs.Costs.{line_cost};
ghost use Rattle.written.specs.Lines.{pieces};
ghost use Rattle.written.specs.Model.{fresh as unmet, mentioned, number_of};
ghost use Rattle.written.specs.Pages.{Appended, Extended, HasRoom, HasRoomBehind, limit, page_store, taken};
ghost use Rattle.written.specs.Store.{all_name_cells, block_cells, connectors, heads, names_from, names_of as known_names, numbered, with_line, word_cells, word_rows};

use crate::front::number;
use crate::page::Page;
use formula::way::{Disjunct, Disjuncts, Name};

impl<'t> Page<'t> {
    /// Writes the names that were noted.
    fn write_names(&mut self, fresh: &[Name])
        requires { HasRoom self.old (length (all_name_cells (spellings fresh.now))) }
        ensures { Appended self.old self.new (all_name_cells (spellings fresh.now)) }
    {
        for name in fresh {
            self.push_name(name);
        }
    }

    /// Writes the three cells of a disjunct: the lengths of its lists, and where its connectors begin.
    fn push_head(&mut self, left: u16, right: u16, at: u16)
        requires { HasRoom self.old 3 }
        ensures { Appended self.old self.new (left ∷ right ∷ at ∷ []) }
    {
        self.push(left);
        self.push(right);
        self.push(at);
    }

    /// Writes the three cells of each disjunct, where the connectors of the first begin at a place. Of the lists only their
    /// lengths count, so the connectors may have any numbers.
    fn write_heads(&mut self, disjuncts: &[Disjunct], from: usize)
        requires room { HasRoom self.old (3 * length disjuncts.now) }
        requires small { from + length (mentioned (map disjunct_of disjuncts.now)) ≤ 65535 }
        ensures { Appended self.old self.new (heads from (numbered [] (map disjunct_of disjuncts.now))) }
    {
        let mut at = from;
        for one in disjuncts {
            let (left, right) = (one.left.len(), one.right.len());
            self.push_head(left as u16, right as u16, at as u16);
            at += left + right;
        }
    }

    /// The number of a name, looked up in the first cells; 0 where they do not have it.
    fn number_among(&self, block: usize, name: &[u8]) -> u16
        requires { block ≤ limit self.now.table.now }
        ensures { result ≡ number_of (names_from 0 (take block self.now.table.now)) name.now }
    {
        number(&self.table[..block], name).unwrap_or(0) as u16
    }

    /// Writes the number of each name of a list, looked up in the first cells.
    fn write_list(&mut self, names: &[Name], block: usize)
        requires { HasRoomBehind self.old block (length names.now) }
        ensures { Appended self.old self.new (map (number_of (names_from 0 (take block self.old.table.now))) (spellings names.now)) }
    {
        for name in names {
            let found = self.number_among(block, name);
            self.push(found);
        }
    }

    /// Writes the numbers of the connectors of each disjunct, first those of its left list.
    fn write_connectors(&mut self, disjuncts: &[Disjunct], block: usize)
        requires { HasRoomBehind self.old block (length (mentioned (map disjunct_of disjuncts.now))) }
        ensures { Appended self.old self.new (connectors (numbered (take block self.old.table.now) (map disjunct_of disjuncts.now))) }
    {
        for one in disjuncts {
            self.write_list(&one.left, block);
            self.write_list(&one.right, block);
        }
    }

    /// Writes a block of disjuncts, whose names the front has.
    fn write_block(&mut self, disjuncts: &[Disjunct])
        requires { HasRoom self.old (4 + 3 * length disjuncts.now + length (mentioned (map disjunct_of disjuncts.now))) }
        ensures { Appended self.old self.new (block_cells self.old.used (numbered (page_store self.old).front (map disjunct_of disjuncts.now))) }
    {
        let block = self.used;
        self.push_head(disjuncts.len() as u16, 0, 0);
        self.push(0);
        self.write_heads(disjuncts, block + 4 + 3 * disjuncts.len());
        self.write_connectors(disjuncts, block);
    }

    /// Writes a word and its row.
    fn write_word(&mut self, word: &[u8], block: usize)
        requires { HasRoomBehind self.old block (length word.now + 4) }
        ensures { Extended self.old self.new word.now (record { word = self.old.used; length_of = length word.now; block = block } ∷ []) }
    {
        let at = self.used;
        self.push_bytes(word);
        self.push_row(at as u16, word.len() as u16, block as u16);
    }

    /// Writes words, parted by single spaces, and their rows.
    // Words stay bytes, so they are cut here as they are where they are counted.
    fn write_words(&mut self, words: &[u8], block: usize)
        requires { HasRoomBehind self.old block (length (word_cells (pieces 32 words.now)) + 4 * length (pieces 32 words.now)) }
        ensures { Extended self.old self.new (word_cells (pieces 32 words.now)) (word_rows self.old.used block (pieces 32 words.now)) }
    {
        for word in words.split(|b| *b == b' ') {
            self.write_word(word, block);
        }
    }

    /// Writes a line: the names that it brings, the block of its disjuncts, and its words.
    // Words, disjuncts and new names come from three sources, so they go side by side.
    pub(crate) fn write_line(&mut self, words: &[u8], disjuncts: &Disjuncts, fresh: &[Name])
        requires names { spellings fresh.now ≡ unmet (known_names (page_store self.old)) (mentioned (disjuncts_of disjuncts.now)) }
        requires room { HasRoom self.old (line_cost (pieces 32 words.now) (disjuncts_of disjuncts.now) (spellings fresh.now)) }
        ensures store { page_store self.new ≡ with_line (page_store self.old) (pieces 32 words.now) (disjuncts_of disjuncts.now) }
        ensures len { length self.new.table.now ≡ length self.old.table.now }
        ensures taken { taken self.new.used self.new.words ≡ taken self.old.used self.old.words + line_cost (pieces 32 words.now) (disjuncts_of disjuncts.now) (spellings fresh.now) }
        ensures words { self.new.words ≡ self.old.words + length (pieces 32 words.now) }
    {
        self.write_names(fresh);
        let block = self.used;
        self.write_block(disjuncts);
        self.write_words(words, block);
    }
}
