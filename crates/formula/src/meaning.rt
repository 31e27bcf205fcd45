ghost use Rattle.std.specs.Prelude.{◌≡◌, List};
ghost use Rattle.std.specs.Result.{result_map_both};
ghost use Rattle.formula.specs.Cuts.{cut, Laid};
ghost use Rattle.formula.specs.Meaning.{meaning as meant};
ghost use Rattle.formula.specs.Reading.{RightAnswer};
ghost use Rattle.formula.specs.Shown.{disjuncts_of};
ghost use Rattle.formula.specs.Ways.{Way, KeptOnce};

use crate::keep::disjuncts;
use crate::read::parse;
use crate::way::Disjuncts;
use refusal::fault::LineFault;

/// The disjuncts that a formula means, each once, or its first fault. A refusal of the ways has no place of its own.
///
/// The bytes are cut into tokens that lose none of them, and the tokens are read as the one tree whose tokens they are.
/// Of its ways equal ones are kept once, at their first place.
#[tactic(auto, using(crate::proofs::Lays::laid))]
pub fn meaning(formula: &[u8]) -> Result<Disjuncts, LineFault>
    ensures means { result_map_both disjuncts_of (λ e. e) result ≡ meant formula.now }
    ensures grammar { RightAnswer formula.now }
    ensures bytes { Laid formula.now 0 (cut formula.now) }
    ensures kept { (ds : List Way) → KeptOnce ds }
{
    let ways = parse(formula)?;
    Ok(disjuncts(&ways)?)
}
