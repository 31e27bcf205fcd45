ghost use Rattle.std.specs.Prelude.{◌≡◌, ℕ, ◌≤◌, true, [], length, slice_index_or};
ghost use Rattle.formula.specs.Shown.{disjuncts_of};
ghost use Rattle.written.specs.Costs.{each_takes, line_cost};
ghost use Rattle.written.specs.Lines.{every, good_word, pieces};
ghost use Rattle.written.specs.Model.{Fitting, mentioned};
ghost use Rattle.written.specs.Store.{fresh_of};

use crate::line::{word_bytes, word_count};
use crate::note::Fresh;
use formula::way::Disjuncts;

/// How many connectors some disjuncts have.
fn connector_count(disjuncts: &Disjuncts) -> usize
    requires { length (mentioned (disjuncts_of disjuncts.now)) ≤ 1024 }
    ensures value { result ≡ length (mentioned (disjuncts_of disjuncts.now)) }
    ensures bound { result ≤ 1024 }
{
    disjuncts
        .iter()
        .map(|one| one.left.len() + one.right.len())
        .sum()
}

/// How many cells some new names take.
fn name_cells(fresh: &Fresh) -> usize
    requires { (i : ℕ) → length (slice_index_or (fresh_of fresh.now) i []) ≤ 8 }
    ensures value { result ≡ each_takes 2 (fresh_of fresh.now) }
    ensures bound { result ≤ 10240 }
{
    fresh.iter().map(|name| 2 + name.len()).sum()
}

/// How many cells some words take.
fn word_cells(words: &[u8]) -> usize
    requires { each_takes 4 (pieces 32 words.now) ≤ 7168 }
    ensures value { result ≡ each_takes 4 (pieces 32 words.now) }
    ensures bound { result ≤ 7168 }
{
    4 * word_count(words) + word_bytes(words)
}

/// How many cells a line takes.
// Words, disjuncts and new names come from three sources, so they go side by side.
pub(crate) fn cost(words: &[u8], disjuncts: &Disjuncts, fresh: &Fresh) -> usize
    requires words { (every good_word (pieces 32 words.now) ≡ true) × (length (pieces 32 words.now) ≤ 256) }
    requires fitting { Fitting (disjuncts_of disjuncts.now) }
    requires short { (i : ℕ) → length (slice_index_or (fresh_of fresh.now) i []) ≤ 8 }
    ensures { result ≡ line_cost (pieces 32 words.now) (disjuncts_of disjuncts.now) (fresh_of fresh.now) }
{
    4 + word_cells(words) + 3 * disjuncts.len() + connector_count(disjuncts) + name_cells(fresh)
}
