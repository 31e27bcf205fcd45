ghost use Rattle.std.specs.Prelude.{◌≡◌, ◌+◌, ◌≤◌, List, [], ◌∷◌, ◌++◌, Some, map, length};
ghost use Rattle.lexicon.specs.Lexicon.{Disjunct, free};
ghost use Rattle.formula.specs.Bounds.{held};
ghost use Rattle.formula.specs.Shown.{Shows, clip, half, half_glue, clip_glue, names_of, short, shown, table};
ghost use Rattle.formula.specs.Tokens.{Name as Spelling};
ghost use Rattle.formula.specs.Ways.{asking, bracketed as in_brackets, joined as both, product as each_with_each};

use crate::token::{Bracket, Join};
use crate::way::{LONGEST_LIST, Listing, MOST_WAYS, Name, Names, Way, Ways};
use lexicon::side::Side;

/// One list, then the other, unless that is too long.
fn append(a: &Names, b: &Names) -> Option<Names>
    ensures { half result ≡ short (names_of a.now ++ names_of b.now) }
{
    if a.len() + b.len() > LONGEST_LIST {
        return None;
    }
    let mut both = *a;
    both.append(b);
    Some(both)
}

/// Two halves of one side; what is too long already does not get shorter.
fn halves(a: &Option<Names>, b: &Option<Names>) -> Option<Names>
    ensures { half result ≡ half_glue (half a.now) (half b.now) }
{
    append(a.as_ref()?, b.as_ref()?)
}

/// Both ways at once.
fn glued(x: &Way, y: &Way) -> Way
    ensures { shown result ≡ clip_glue (shown x.now) (shown y.now) }
{
    Way {
        left: halves(&x.left, &y.left),
        right: halves(&x.right, &y.right),
    }
}

/// One way joined with each of some ways.
fn spread(listing: &mut Listing, way: &Way, others: &Listing)
    requires { length (held listing.old) + length (held others.now) ≤ 64 }
    ensures { table listing.new ≡ table listing.old ++ map (clip_glue (shown way.now)) (table others.now) }
{
    for other in others.iter() {
        listing.push(glued(way, other));
    }
}

/// The ways of two items that both count: one of each, the first varying slowest.
fn product(a: &Listing, b: &Listing) -> Ways
    ensures { (ds es : List (Disjunct Spelling)) → Shows (Some a.now) ds → Shows (Some b.now) es → Shows result (each_with_each ds es) }
{
    if a.len() * b.len() > MOST_WAYS {
        return None;
    }
    let mut all = Listing::new();
    for way in a.iter() {
        spread(&mut all, way, b);
    }
    Some(all)
}

/// The ways of two items of which one counts: those of the first, then those of the second.
fn either(a: &Listing, b: &Listing) -> Ways
    ensures { (ds es : List (Disjunct Spelling)) → Shows (Some a.now) ds → Shows (Some b.now) es → Shows result (ds ++ es) }
{
    if a.len() + b.len() > MOST_WAYS {
        return None;
    }
    let mut all = *a;
    all.append(b);
    Some(all)
}

fn single(way: Way) -> Ways
    ensures { (d : Disjunct Spelling) → shown way ≡ clip d → Shows result (d ∷ []) }
{
    let mut listing = Listing::new();
    listing.push(way);
    Some(listing)
}

/// The one way of a connector.
pub(crate) fn one(name: &[u8], side: Side) -> Ways
    requires { length name.now ≤ 8 }
    ensures { Shows result (asking side name.now ∷ []) }
{
    let mut spelled = Name::new();
    spelled.append(name);
    let mut list = Names::new();
    list.push(spelled);
    let (asked, none) = (Some(list), Some(Names::new()));
    single(match side {
        Side::Left => Way {
            left: asked,
            right: none,
        },
        Side::Right => Way {
            left: none,
            right: asked,
        },
    })
}

/// The one way of an empty pair of brackets.
pub(crate) fn empty() -> Ways
    ensures { Shows result (free ∷ []) }
{
    single(Way {
        left: Some(Names::new()),
        right: Some(Names::new()),
    })
}

/// The ways of two items that are joined. What has too many ways already does not get fewer, since no item has none.
pub(crate) fn join(mark: Join, a: &Ways, b: &Ways) -> Ways
    ensures { (ds es : List (Disjunct Spelling)) → Shows a.now ds → Shows b.now es → Shows result (both mark ds es) }
{
    let (x, y) = (a.as_ref()?, b.as_ref()?);
    match mark {
        Join::And => product(x, y),
        Join::Or => either(x, y),
    }
}

/// The ways of what stands in brackets; braces add the empty one, last.
pub(crate) fn bracketed(bracket: Bracket, inside: &Ways) -> Ways
    ensures { (ds : List (Disjunct Spelling)) → Shows inside.now ds → Shows result (in_brackets bracket ds) }
{
    match bracket {
        Bracket::Round => *inside,
        Bracket::Brace => join(Join::Or, inside, &empty()),
    }
}
