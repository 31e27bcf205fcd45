ghost use Rattle.std.specs.Prelude.{◌≡◌, ◌+◌, ◌<◌, ◌≤◌, MatchOption};

/// Brackets and braces are open at most so deep.
const DEEPEST: usize = 16;

/// How many brackets and braces are open.
#[derive(Clone, Copy)]
pub struct Depth {
    count: usize,
    ghost few: { count ≤ 16 },
}

impl Depth {
    /// None is open.
    // A name of its own: "default" would not say so.
    pub(crate) fn top() -> Depth
        ensures { result.count ≡ 0 }
    {
        Depth { count: 0 }
    }

    /// One more is open, unless that is too deep.
    pub(crate) fn deeper(self) -> Option<Depth>
        ensures { MatchOption result (16 ≤ self.count) (λ d. d.count ≡ self.count + 1) }
    {
        if self.count < DEEPEST {
            Some(Depth {
                count: self.count + 1,
            })
        } else {
            None
        }
    }
}
