ghost use Rattle.std.specs.Prelude.{◌≡◌};
ghost use Rattle.linkage.specs.Links.{earlier, ends};

use std::fmt;

/// A link between two positions, the left one before the right one.
#[derive(Clone, Copy, PartialEq, Eq, PartialOrd, Ord, Debug)]
pub struct Link {
    pub left: usize,
    pub right: usize,
}

impl Link {
    /// Whether a link comes before another: by its left position, then by its right one.
    pub fn precedes(&self, other: &Link) -> bool
        ensures { result ≡ earlier (ends self.now) (ends other.now) }
    {
        self < other
    }
}

impl fmt::Display for Link {
    fn fmt<W: fmt::Write>(&self, f: &mut fmt::Formatter<W>) -> fmt::Result {
        let (left, right) = (self.left, self.right);
        write!(f, "{left}-{right}")
    }
}
