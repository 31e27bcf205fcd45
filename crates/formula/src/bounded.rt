ghost use Rattle.std.specs.Prelude.{⊤, ◌≡◌, ◌+◌, ◌<◌, ◌≤◌, ◌==◌, [], ◌∷◌, ◌++◌, length};

use std::alloc::AllocError;
use std::fmt;
use std::ops::DerefSlice;

/// At most `N` items, in order, which lie in the value itself: so it is copied where they are. No longer than 255.
// A vector of the kit is never copied, and holds its length in a word.
pub struct Bounded<T, const N: usize> {
    pub cells: [T; N],
    pub len: u8,
    ghost few: { len ≤ N },
    ghost sized: { length cells ≡ N },
}

impl<T: Copy, const N: usize> Copy for Bounded<T, N> {}

impl<T: Copy, const N: usize> Clone for Bounded<T, N> {
    ghost is_clone = { λ a b. b ≡ a };

    ghost is_infallible = { λ _. ⊤ };

    fn clone(&self) -> Result<Self, AllocError> {
        Ok(*self)
    }
}

impl<T: Copy + Default, const N: usize> Bounded<T, N> {
    ghost use Rattle.formula.specs.Bounds.{held};

    /// No item.
    pub fn new() -> Self
        ensures { held result ≡ [] }
    {
        Bounded {
            cells: [T::default(); N],
            len: 0,
        }
    }
}

impl<T: Copy + Default, const N: usize> Default for Bounded<T, N> {
    ghost use Rattle.formula.specs.Bounds.{held};

    ghost is_default = { λ b. held b ≡ [] };

    fn default() -> Self {
        Self::new()
    }
}

impl<T: Copy, const N: usize> Bounded<T, N> {
    ghost use Rattle.formula.specs.Bounds.{held};

    /// How many items there are.
    pub fn len(&self) -> usize
        ensures value { result ≡ length (held self.now) }
        ensures few { result ≤ N }
    {
        usize::from(self.len)
    }

    /// Whether there is no item.
    pub fn is_empty(&self) -> bool
        ensures { result ≡ (length (held self.now) == 0) }
    {
        self.len == 0
    }

    /// The items.
    pub fn as_slice(&self) -> &[T]
        ensures value { result.now ≡ held self.now }
        ensures few { length result.now ≤ N }
    {
        &self.cells[..self.len()]
    }

    /// One item more, at the end.
    pub(crate) fn push(&mut self, item: T)
        requires room { length (held self.old) < N }
        requires small { N < 256 }
        ensures items { held self.new ≡ held self.old ++ item ∷ [] }
        ensures len { length (held self.new) ≡ length (held self.old) + 1 }
    {
        let len = self.len;
        self.cells[usize::from(len)] = item;
        self.len = len + 1;
    }

    /// Items more, at the end.
    pub(crate) fn append(&mut self, items: &[T])
        requires room { length (held self.old) + length items.now ≤ N }
        requires small { N < 256 }
        ensures { held self.new ≡ held self.old ++ items.now }
    {
        for item in items {
            self.push(*item);
        }
    }
}

impl<T: Copy, const N: usize> DerefSlice for Bounded<T, N> {
    type Elem = T;

    ghost use Rattle.formula.specs.Bounds.{held};

    ghost deref_gives = { λ b xs. (xs ≡ held b) × (length xs ≤ N) };

    fn deref(&self) -> &[T] {
        self.as_slice()
    }
}

impl<T: Copy + PartialEq, const N: usize> PartialEq for Bounded<T, N> {
    ghost use Rattle.std.specs.Cmp.{on_per};
    ghost use Rattle.std.specs.Cmp.Lexicographic.{lists_per, pointwise};
    ghost use Rattle.formula.specs.Bounds.{held};

    ghost eq = { λ a b. pointwise T.eq (held a) (held b) };

    ghost laws = { on_per held (lists_per T.laws) };

    fn eq(&self, other: &Self) -> bool {
        self.as_slice() == other.as_slice()
    }
}

impl<T: Copy + Eq, const N: usize> Eq for Bounded<T, N> {
    ghost use Rattle.std.specs.Cmp.{on_equiv};
    ghost use Rattle.std.specs.Cmp.Lexicographic.{lists_equiv};
    ghost use Rattle.formula.specs.Bounds.{held};

    ghost laws = { on_equiv held (lists_equiv T.Eq.laws) };
}

impl<T: Copy + fmt::Debug, const N: usize> fmt::Debug for Bounded<T, N> {
    fn fmt<W: fmt::Write>(&self, f: &mut fmt::Formatter<W>) -> fmt::Result {
        f.debug_list().entries(self.as_slice()).finish()
    }
}
