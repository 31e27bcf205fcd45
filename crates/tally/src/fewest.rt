ghost use Rattle.std.specs.Prelude.{◌≡◌, ◌-◌, ◌^◌, ◌<◌};

use crate::{Choosing, Tally};
use std::fmt;

/// What a number of null links is below.
pub const LIMIT: u32 = u32::MAX;

/// A number of null links, below 2^32 - 1.
#[derive(Clone, Copy, PartialEq, Eq, Debug)]
pub struct NullLinks {
    number: u32,
    ghost small: { number < 2 ^ 32 - 1 },
}

/// The fewest null links that a linkage has, or nothing where none has so few.
#[derive(Clone, Copy, PartialEq, Eq, Debug)]
pub struct Fewest {
    links: Option<NullLinks>,
}

impl Fewest {
    ghost use Rattle.tally.specs.Fewest.{fewest, number_of};

    /// No linkage has so few.
    pub const NOTHING: Fewest = Fewest { links: None };

    /// A number as a value: nothing for 2^32 - 1.
    // A name of its own and no `From`, since one number is not kept.
    pub fn of(number: u32) -> Fewest
        ensures { result ≡ fewest number }
    {
        if number < LIMIT {
            Fewest {
                links: Some(NullLinks { number }),
            }
        } else {
            Fewest::NOTHING
        }
    }

    /// The number, if it is not nothing.
    pub fn number(&self) -> Option<u32>
        ensures { result ≡ number_of self.now }
    {
        self.links.map(|links| links.number)
    }
}

impl Tally for Fewest {
    ghost use Rattle.tally.specs.Fewest.{fewest_tally};
    ghost use Rattle.tally.specs.Kept.{fewest_laws};

    ghost semiring = { fewest_tally };

    ghost laws = { fewest_laws };

    fn nothing() -> Fewest {
        Fewest::NOTHING
    }

    fn single() -> Fewest {
        Fewest::of(0)
    }

    fn gap() -> Fewest {
        Fewest::of(1)
    }

    fn bare() -> Fewest {
        Fewest::of(0)
    }

    fn either(self, other: Fewest) -> Fewest {
        match (self.links, other.links) {
            (None, _) => other,
            (_, None) => self,
            (Some(a), Some(b)) => Fewest::of(a.number.min(b.number)),
        }
    }

    fn both(self, other: Fewest) -> Fewest {
        match (self.links, other.links) {
            (Some(a), Some(b)) => Fewest::of(a.number.saturating_add(b.number)),
            _ => Fewest::NOTHING,
        }
    }

    fn is_nothing(&self) -> bool {
        self.links.is_none()
    }
}

impl Choosing for Fewest {
    fn stands(&self, other: &Fewest) -> bool {
        match (self.links, other.links) {
            (_, None) => true,
            (None, _) => false,
            (Some(a), Some(b)) => a.number <= b.number,
        }
    }
}

impl fmt::Display for Fewest {
    fn fmt<W: fmt::Write>(&self, f: &mut fmt::Formatter<W>) -> fmt::Result {
        match self.number() {
            None => f.write_str("nothing"),
            Some(number) => fmt::Display::fmt(&number, f),
        }
    }
}
