ghost use Rattle.std.specs.Prelude.{◌≡◌, ◌+◌, ◌-◌, ◌*◌, ◌≤◌, min};

use crate::front::MARK;

pub mod line;

/// Of a table at most so many cells are used.
const LIMIT: usize = 65535;

/// How many cells of a table of some length are used at most.
pub(crate) fn limit(len: usize) -> usize
    ensures { result ≡ min len 65535 }
{
    len.min(LIMIT)
}

/// Where the row of a word begins in a table of some length; the rows stand at its back, the first word's last.
pub(crate) fn row_place(len: usize, word: usize) -> usize
    requires { 4 * (word + 1) ≤ min len 65535 }
    ensures { result ≡ min len 65535 - 4 * (word + 1) }
{
    limit(len) - 4 * (word + 1)
}

/// The lent table and how much of it is written: cells from the front, and a row of four cells for each word at the back.
// The table is all the memory there is, and it fills from both ends: so two counts stand beside it and no Vec,
// and what is in it is told by its place.
#[derive(Drop)]
pub struct Page<'t> {
    pub(crate) table: &'t mut [u16],
    pub(crate) used: usize,
    pub(crate) words: usize,
}

impl<'t> Page<'t> {
    ghost use Rattle.std.specs.Prelude.{[], ◌∷◌, length};
    ghost use Rattle.written.specs.Pages.{Appended, Extended, HasRoom};
    ghost use Rattle.written.specs.Store.{name_cells};

    /// Writes a cell behind the front.
    pub(crate) fn push(&mut self, cell: u16)
        requires { HasRoom self.old 1 }
        ensures { Appended self.old self.new (cell ∷ []) }
    {
        let at = self.used;
        self.table[at] = cell;
        self.used = at + 1;
    }

    /// Writes the row of a word before those of the words before it.
    pub(crate) fn push_row(&mut self, word: u16, len: u16, block: u16)
        requires { HasRoom self.old 4 }
        ensures { Extended self.old self.new [] (record { word = word; length_of = len; block = block } ∷ []) }
    {
        let words = self.words;
        let at = row_place(self.table.len(), words);
        self.table[at] = word;
        self.table[at + 1] = len;
        self.table[at + 2] = block;
        self.table[at + 3] = 0;
        self.words = words + 1;
    }

    /// Writes bytes behind the front, a cell for each.
    pub(crate) fn push_bytes(&mut self, bytes: &[u8])
        requires { HasRoom self.old (length bytes.now) }
        ensures { Appended self.old self.new bytes.now }
    {
        for b in bytes {
            self.push(u16::from(*b));
        }
    }

    /// Writes a name behind the front: a mark, its length and its bytes.
    pub(crate) fn push_name(&mut self, name: &[u8])
        requires { HasRoom self.old (2 + length name.now) }
        ensures { Appended self.old self.new (name_cells name.now) }
    {
        self.push(MARK);
        self.push(name.len() as u16);
        self.push_bytes(name);
    }
}
