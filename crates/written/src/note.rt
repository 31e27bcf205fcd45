ghost use Rattle.std.specs.Prelude.{◌≡◌, ◌+◌, ◌≤◌, ◌++◌, length};
ghost use Rattle.formula.specs.Bounds.{held};
ghost use Rattle.formula.specs.Shown.{disjuncts_of, spellings};
ghost use Rattle.written.specs.Model.{among, fresh as unmet, mentioned};
ghost use Rattle.written.specs.Store.{fresh_of, known};

use crate::front::number;
use arrayvec::ArrayVec;
use formula::way::{Disjuncts, Name};

/// Names of a line that the draft has not met, in the order in which they are met.
///
/// 64 disjuncts with two lists of 8 mention at most 1,024.
pub(crate) type Fresh = ArrayVec<Name, 1024>;

/// Whether a front has a name or it was noted before.
fn met(front: &[u16], fresh: &[Name], name: &Name) -> bool
    ensures { result ≡ among (held name.now) (known front.now ++ spellings fresh.now) }
{
    number(front, name).is_some() || fresh.contains(name)
}

/// Notes the names of a list, each unless it was met.
fn note_list(front: &[u16], names: &[Name], fresh: &mut Fresh)
    requires room { length fresh.old.items + length names.now ≤ 1024 }
    ensures names { fresh_of fresh.new ≡ fresh_of fresh.old ++ unmet (known front.now ++ fresh_of fresh.old) (spellings names.now) }
    ensures longer { length fresh.new.items ≤ length fresh.old.items + length names.now }
{
    for name in names {
        if !met(front, fresh, name) {
            fresh.push(*name);
        }
    }
}

/// The names of some disjuncts that a front does not have, each once.
pub(crate) fn fresh_names(front: &[u16], disjuncts: &Disjuncts) -> Fresh
    ensures { fresh_of result ≡ unmet (known front.now) (mentioned (disjuncts_of disjuncts.now)) }
{
    let mut fresh = Fresh::new();
    for one in disjuncts.iter() {
        note_list(front, &one.left, &mut fresh);
        note_list(front, &one.right, &mut fresh);
    }
    fresh
}
