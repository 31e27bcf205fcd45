ghost use Rattle.std.specs.Prelude.{◌≡◌, ◌<◌, ◌≤◌, length};
ghost use Rattle.formula.specs.Cuts.{name_there};

use crate::cut::name_length;

/// The capitals that stand at a place of a formula, with the small letters and stars behind them; none past its end.
pub fn name_at(formula: &[u8], place: usize) -> &[u8]
    ensures { result.now ≡ name_there formula.now place }
{
    if place >= formula.len() {
        return &[];
    }
    &formula[place..place + name_length(&formula[place..])]
}
