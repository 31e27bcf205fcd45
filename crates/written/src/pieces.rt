ghost use Rattle.std.specs.Prelude.{◌≡◌, ℕ, ◌+◌, ◌<◌, ◌≤◌, ◌∷◌, length, ◌≢◌, slice_index};
ghost use Rattle.std.specs.List.{between};
ghost use Rattle.written.specs.Lines.{pieces_from};

/// Where the piece that begins at a place ends: at the next mark, or with the bytes.
pub fn piece_end(bytes: &[u8], from: usize, mark: u8) -> usize
    requires { from ≤ length bytes.now }
    ensures within { (from ≤ result) × (result ≤ length bytes.now) }
    ensures clear { (k : ℕ) → from ≤ k → k < result → slice_index bytes.now k ≢ mark }
    ensures stops { result < length bytes.now → slice_index bytes.now result ≡ mark }
    ensures cuts { pieces_from mark bytes.now from ≡ between from result bytes.now ∷ pieces_from mark bytes.now (result + 1) }
{
    for i in from..bytes.len() {
        if bytes[i] == mark {
            return i;
        }
    }
    bytes.len()
}
