ghost use Rattle.std.specs.Prelude.{◌≡◌, ◌^◌, ◌<◌};

use crate::Tally;
use std::fmt;

/// How many legal linkages there are, counted to 2^64 - 1.
#[derive(Clone, Copy, PartialEq, Eq, Debug)]
pub struct Ways {
    count: u64,
    ghost fits: { count < 2 ^ 64 },
}

impl Ways {
    /// The number.
    pub fn count(&self) -> u64
        ensures { result ≡ self.now.count }
    {
        self.count
    }
}

impl From<u64> for Ways {
    ghost use Rattle.tally.specs.Ways.{ways};

    ghost from_gives = { λ count value. value ≡ ways count };

    /// A number as a value.
    fn from(count: u64) -> Ways {
        Ways { count }
    }
}

impl Tally for Ways {
    ghost use Rattle.tally.specs.Ways.{ways_tally};
    ghost use Rattle.tally.specs.Kept.{ways_laws};

    ghost semiring = { ways_tally };

    ghost laws = { ways_laws };

    fn nothing() -> Ways {
        Ways::from(0)
    }

    fn single() -> Ways {
        Ways::from(1)
    }

    fn gap() -> Ways {
        Ways::from(0)
    }

    fn bare() -> Ways {
        Ways::from(0)
    }

    fn either(self, other: Ways) -> Ways {
        Ways::from(self.count.saturating_add(other.count))
    }

    fn both(self, other: Ways) -> Ways {
        Ways::from(self.count.saturating_mul(other.count))
    }

    fn is_nothing(&self) -> bool {
        self.count == 0
    }
}

impl fmt::Display for Ways {
    fn fmt<W: fmt::Write>(&self, f: &mut fmt::Formatter<W>) -> fmt::Result {
        fmt::Display::fmt(&self.count, f)
    }
}
