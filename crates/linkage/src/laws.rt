//! What the definitions of linkages are shown to mean. These functions do nothing: their contracts are the theorems.

ghost use Rattle.linkage.specs.Figures.{KnownFigures};
ghost use Rattle.linkage.specs.Theorems.{EachListedOnce, FewLinks, InsideIsTotal, KeptIsLargest, MarksAreFree, PartsAreClasses};

use tally::Tally;
use tally::fewest_ways::FewestWays;
use tally::ways::Ways;

/// The list of all partial linkages has exactly these, each once.
pub fn each_listed_once()
    ensures { EachListedOnce }
{}

/// The parts of a linkage are the classes of the equivalence that its links generate.
pub fn parts_are_classes()
    ensures { PartsAreClasses }
{}

/// The inside recursion gives the sum over all partial linkages, in every tally.
pub fn inside_is_total<T: Tally>()
    ensures { InsideIsTotal T.semiring }
{}

/// What trim keeps is the largest closed set, and a linkage takes nothing else.
pub fn kept_is_largest()
    ensures { KeptIsLargest }
{}

/// The sum is the same where disjuncts are left out that trim does not keep.
pub fn marks_are_free<T: Tally>()
    ensures { MarksAreFree T.semiring }
{}

/// A partial linkage has few links.
pub fn few_links()
    ensures { FewLinks }
{}

/// The figures of some known sentences, which follow from the theorem by computing the inside recursion.
pub fn known_figures()
    ensures { KnownFigures }
{
    inside_is_total::<Ways>();
    inside_is_total::<FewestWays>();
}
