//! Tallies: what is counted over the linkages of a sentence, each a commutative semiring with proved laws.
//!
//! - `legal`, `ways`, `fewest`, `fewest_ways`: the four kinds, each with its values and how they are made, read and joined.
//!
//! Definitions that name a struct with a ghost field are imported in its `impl` blocks: the struct itself imports what stands at the
//! top of its file.

#![tactic(auto)]

ghost use Rattle.std.specs.Prelude.{◌≡◌, if◌then◌else◌};
ghost use Rattle.tally.specs.Semiring.{Semiring, Laws, Tells};

pub mod fewest;
pub mod fewest_ways;
pub mod legal;
pub mod ways;

/// A tally: values that are joined over the linkages of a sentence.
pub trait Tally: Copy {
    /// What the values and the two operations are.
    ghost semiring: { Semiring Self };

    /// What no linkage gives.
    fn nothing() -> Self
        ensures { result ≡ semiring.nothing };

    /// What a linkage gives that costs nothing.
    fn single() -> Self
        ensures { result ≡ semiring.single };

    /// What a null link weighs.
    fn gap() -> Self
        ensures { result ≡ semiring.gap };

    /// What a bare word weighs.
    fn bare() -> Self
        ensures { result ≡ semiring.bare };

    /// Joins what two linkages give that exclude each other.
    fn either(self, other: Self) -> Self
        ensures { result ≡ semiring.either self other };

    /// Joins what two parts of one linkage give.
    fn both(self, other: Self) -> Self
        ensures { result ≡ semiring.both self other };

    /// Whether a value is nothing.
    fn is_nothing(&self) -> bool
        ensures { Tells result (self.now ≡ semiring.nothing) };

    ghost laws: { Laws semiring };
}

/// A tally of which one side of `either` always stands.
pub trait Choosing: Tally {
    /// Whether, of the two, this value stands: either of them gives exactly the one that stands.
    fn stands(&self, other: &Self) -> bool
        ensures { Self.Tally.semiring.either self.now other.now ≡ (if result then self.now else other.now) };
}

/// Of two values the one that stands.
pub fn chosen<T: Choosing>(x: T, y: T) -> T
    ensures { result ≡ T.Tally.semiring.either x y }
{
    if x.stands(&y) { x } else { y }
}
