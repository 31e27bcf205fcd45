ghost use Rattle.std.specs.Prelude.{◌≡◌};
ghost use Rattle.tally.specs.Legal.{legal, is_yes, legal_tally};
ghost use Rattle.tally.specs.Kept.{legal_laws};

use crate::{Choosing, Tally};
use std::fmt;

/// Whether there is a legal linkage.
#[derive(Clone, Copy, PartialEq, Eq, Debug)]
pub enum Legal {
    No,
    Yes,
}

impl Legal {
    /// Whether it is yes.
    pub fn is_yes(&self) -> bool
        ensures { result ≡ is_yes self.now }
    {
        matches!(self, Legal::Yes)
    }
}

impl From<bool> for Legal {
    ghost from_gives = { λ answer value. value ≡ legal answer };

    /// The answer as a value.
    fn from(answer: bool) -> Legal {
        if answer { Legal::Yes } else { Legal::No }
    }
}

impl Tally for Legal {
    ghost semiring = { legal_tally };

    ghost laws = { legal_laws };

    fn nothing() -> Legal {
        Legal::No
    }

    fn single() -> Legal {
        Legal::Yes
    }

    fn gap() -> Legal {
        Legal::No
    }

    fn bare() -> Legal {
        Legal::No
    }

    fn either(self, other: Legal) -> Legal {
        match self {
            Legal::No => other,
            Legal::Yes => Legal::Yes,
        }
    }

    fn both(self, other: Legal) -> Legal {
        match self {
            Legal::No => Legal::No,
            Legal::Yes => other,
        }
    }

    fn is_nothing(&self) -> bool {
        !self.is_yes()
    }
}

impl Choosing for Legal {
    fn stands(&self, _other: &Legal) -> bool {
        self.is_yes()
    }
}

impl fmt::Display for Legal {
    fn fmt<W: fmt::Write>(&self, f: &mut fmt::Formatter<W>) -> fmt::Result {
        f.write_str(if self.is_yes() { "yes" } else { "no" })
    }
}
