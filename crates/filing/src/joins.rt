ghost use Rattle.std.specs.Prelude.{◌≡◌, ℕ, ◌<◌, ◌≤◌, List, [], ◌∷◌, ◌++◌, length, map, if◌then◌else◌, ◌==◌};
ghost use Rattle.arrayvec.specs.ArrayVec.{array_vec_len};
ghost use Rattle.linkage.specs.Ledgers.{most_words};
ghost use Rattle.linkage.specs.Links.{ends};
ghost use Rattle.linkage.specs.Parts.{heads};
ghost use Rattle.filing.specs.Joinings.{Holds};

use arrayvec::ArrayVec;
use linkage::link::Link;
use rows::MOST_WORDS;

/// Positions held together by links: two have the same label where links join them.
#[derive(Drop)]
pub(crate) struct Joins {
    labels: ArrayVec<usize, MOST_WORDS>,
    // Kept as links come: to count the labels that differ is a second loop with its own proof, which is no plainer.
    pub(crate) parts: usize,
}

/// Puts one label in the place of another.
fn relabel(labels: &mut [usize], old: usize, new: usize)
    ensures { labels.new ≡ map (λ l. if l == old then new else l) labels.old }
{
    for label in labels.iter_mut() {
        if *label == old {
            *label = new;
        }
    }
}

impl Joins {
    /// No links: each position is a part, with a label of its own.
    pub(crate) fn apart(count: usize) -> Joins
        requires { count ≤ most_words }
        ensures holds { Holds [] result }
        ensures count { array_vec_len result.labels ≡ count }
    {
        // To collect or extend can fail, and this cannot: an error that never comes is no plainer.
        let mut labels = ArrayVec::new();
        for label in 0..count {
            labels.push(label);
        }
        Joins {
            labels,
            parts: count,
        }
    }

    /// One link more.
    pub(crate) fn join(&mut self, link: &Link)
        requires left { link.now.left < array_vec_len self.old.labels }
        requires right { link.now.right < array_vec_len self.old.labels }
        ensures holds { (es : List (ℕ × ℕ)) → Holds es self.old → Holds (es ++ (ends link.now ∷ [])) self.new }
        ensures count { array_vec_len self.new.labels ≡ array_vec_len self.old.labels }
    {
        let old = self.labels[link.right];
        let new = self.labels[link.left];
        if old != new {
            relabel(&mut self.labels, old, new);
            // Labels that differ are those of two parts at least.
            self.parts = self.parts.saturating_sub(1);
        }
    }
}
