ghost use Rattle.std.specs.Prelude.{◌≡◌, ◌-◌, ◌^◌, ◌<◌, ◌≤◌};

use crate::Tally;
use crate::fewest::LIMIT;
use std::cmp::Ordering;
use std::fmt;

/// A number of null links, below 2^32 - 1, and how many linkages have so many, counted from 1 to 2^64 - 1.
#[derive(Clone, Copy, PartialEq, Eq, Debug)]
pub struct Least {
    pub number: u32,
    pub count: u64,
    ghost small: { number < 2 ^ 32 - 1 },
    ghost some: { 1 ≤ count },
    ghost fits: { count < 2 ^ 64 },
}

/// The fewest null links that a linkage has and how many linkages have them, or nothing where none has so few.
#[derive(Clone, Copy, PartialEq, Eq, Debug)]
pub struct FewestWays {
    least: Option<Least>,
}

impl FewestWays {
    ghost use Rattle.tally.specs.FewestWays.{fewest_ways, least_of};

    /// No linkage has so few.
    pub const NOTHING: FewestWays = FewestWays { least: None };

    /// A number with its count: nothing where the number is 2^32 - 1 or the count 0.
    // A name of its own and no `From`, since not every pair is kept.
    pub fn of(number: u32, count: u64) -> FewestWays
        ensures { result ≡ fewest_ways number count }
    {
        if number < LIMIT && count > 0 {
            FewestWays {
                least: Some(Least { number, count }),
            }
        } else {
            FewestWays::NOTHING
        }
    }

    /// The number with its count, if it is not nothing.
    pub fn least(&self) -> Option<Least>
        ensures { result ≡ least_of self.now }
    {
        self.least
    }
}

impl Tally for FewestWays {
    ghost use Rattle.tally.specs.FewestWays.{fewest_ways_tally};
    ghost use Rattle.tally.specs.Kept.{fewest_ways_laws};

    ghost semiring = { fewest_ways_tally };

    ghost laws = { fewest_ways_laws };

    fn nothing() -> FewestWays {
        FewestWays::NOTHING
    }

    fn single() -> FewestWays {
        FewestWays::of(0, 1)
    }

    fn gap() -> FewestWays {
        FewestWays::of(1, 1)
    }

    fn bare() -> FewestWays {
        FewestWays::of(0, 1)
    }

    fn either(self, other: FewestWays) -> FewestWays {
        match (self.least, other.least) {
            (None, _) => other,
            (_, None) => self,
            (Some(a), Some(b)) => match a.number.cmp(&b.number) {
                Ordering::Less => self,
                Ordering::Greater => other,
                Ordering::Equal => FewestWays::of(a.number, a.count.saturating_add(b.count)),
            },
        }
    }

    fn both(self, other: FewestWays) -> FewestWays {
        match (self.least, other.least) {
            (Some(a), Some(b)) => {
                let number = a.number.saturating_add(b.number);
                let count = a.count.saturating_mul(b.count);
                FewestWays::of(number, count)
            }
            _ => FewestWays::NOTHING,
        }
    }

    fn is_nothing(&self) -> bool {
        self.least.is_none()
    }
}

impl fmt::Display for FewestWays {
    fn fmt<W: fmt::Write>(&self, f: &mut fmt::Formatter<W>) -> fmt::Result {
        match self.least {
            None => f.write_str("nothing"),
            Some(Least { number, count }) => {
                let ways = if count == 1 { "way" } else { "ways" };
                write!(f, "{number} in {count} {ways}")
            }
        }
    }
}
