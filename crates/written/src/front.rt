ghost use Rattle.std.specs.Prelude.{◌≡◌, ◌<◌, ◌≤◌, ◌&&◌, length, ◌==◌};
ghost use Rattle.written.specs.Matching.{same};
ghost use Rattle.written.specs.Model.{lookup};
ghost use Rattle.written.specs.Store.{cell, name_at, names_from};

/// The first cell of a name.
pub(crate) const MARK: u16 = 65535;

/// Whether some cells hold a row of bytes.
pub(crate) fn spells(cells: &[u16], bytes: &[u8]) -> bool
    ensures { result ≡ same cells.now bytes.now }
{
    cells.len() == bytes.len()
        && cells
            .iter()
            .zip(bytes)
            .all(|(cell, byte)| *cell == u16::from(*byte))
}

/// The letters of the name whose mark stands at a place of a front.
pub(crate) fn letters(front: &[u16], at: usize) -> &[u16]
    requires { at < length front.now }
    ensures { result.now ≡ name_at front.now at }
{
    match front[at + 1..].split_first() {
        Some((len, rest)) => &rest[..usize::from(*len).min(rest.len())],
        None => &front[..0],
    }
}

/// Whether a mark stands at a place of a front and a name behind it.
fn has_name(front: &[u16], at: usize, name: &[u8]) -> bool
    requires { at < length front.now }
    ensures { result ≡ (cell front.now at == 65535 && same (name_at front.now at) name.now) }
{
    front[at] == MARK && spells(letters(front, at), name)
}

/// The number of a name, which is the place of its mark, where a front has it.
pub(crate) fn number(front: &[u16], name: &[u8]) -> Option<usize>
    ensures { result ≡ lookup (names_from 0 front.now) name.now }
{
    (0..front.len()).position(|at| has_name(front, at, name))
}
