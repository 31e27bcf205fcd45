ghost use Rattle.std.specs.Prelude.{◌≡◌, ◌+◌, ◌<◌, ◌≤◌, List, if◌then◌else◌, length, Some, None};
ghost use Rattle.std.specs.Option.{option_map as if_any};
ghost use Rattle.std.specs.Result.{result_map_both};
ghost use Rattle.lexicon.specs.Lexicon.{Disjunct as Asking};
ghost use Rattle.formula.specs.Bounds.{held};
ghost use Rattle.formula.specs.Shown.{Shows, clip, disjunct_of, disjuncts_of, shown};
ghost use Rattle.formula.specs.Tokens.{Name};
ghost use Rattle.formula.specs.Ways.{fitted, keep as with_one, long};

use crate::way::{Disjunct, Disjuncts, Way, Ways};
use refusal::Refusal;

/// A way as a disjunct, if none of its lists is too long.
fn whole(way: &Way) -> Option<Disjunct>
    ensures { (d : Asking Name) → shown way.now ≡ clip d → if_any disjunct_of result ≡ (if long d then None else Some d) }
{
    Some(Disjunct {
        left: way.left?,
        right: way.right?,
    })
}

/// One disjunct more, unless an equal one is kept already.
fn keep(out: &mut Disjuncts, one: &Disjunct)
    requires { length (held out.old) < 64 }
    ensures keeps { disjuncts_of out.new ≡ with_one (disjuncts_of out.old) (disjunct_of one.now) }
    ensures longer { length (held out.new) ≤ length (held out.old) + 1 }
{
    if !out.contains(one) {
        out.push(*one);
    }
}

/// The disjuncts of a formula, from its ways: of equal ones the first is kept.
pub(crate) fn disjuncts(ways: &Ways) -> Result<Disjuncts, Refusal>
    ensures { (ds : List (Asking Name)) → Shows ways.now ds → result_map_both disjuncts_of (λ e. e) result ≡ fitted ds }
{
    let listing = ways.as_ref().ok_or(Refusal::ManyWays)?;
    let mut out = Disjuncts::new();
    for way in listing.iter() {
        let one = whole(way).ok_or(Refusal::LongList)?;
        keep(&mut out, &one);
    }
    Ok(out)
}
