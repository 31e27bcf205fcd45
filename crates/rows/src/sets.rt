ghost use Rattle.std.specs.Prelude.{◌≡◌, ◌<◌, not, ◌&&◌, ◌||◌, length, ◌==◌};
ghost use Rattle.linkage.specs.Lists.{filter, range};
ghost use Rattle.rows.specs.Sets.{members};

/// A set has so many bits.
const BITS: usize = 64;

/// A set of the disjuncts of a word, by their numbers.
#[derive(Clone, Copy, Default, PartialEq, Eq, Debug)]
pub(crate) struct DisjunctSet {
    bits: u64,
}

impl DisjunctSet {
    /// Puts a disjunct in, and tells whether it is new.
    pub(crate) fn insert(&mut self, disjunct: usize) -> bool
        requires { disjunct < 64 }
        ensures is_new { result ≡ not (members self.old disjunct) }
        ensures members { members self.new ≡ (λ k. (k == disjunct) || members self.old k) }
    {
        let before = *self;
        self.bits = before.bits | 1 << disjunct;
        !before.contains(disjunct)
    }

    /// Takes a disjunct out, and tells whether it was there.
    pub(crate) fn remove(&mut self, disjunct: usize) -> bool
        requires { disjunct < 64 }
        ensures was_there { result ≡ members self.old disjunct }
        ensures members { members self.new ≡ (λ k. not (k == disjunct) && members self.old k) }
    {
        let before = *self;
        self.bits = before.bits & !(1 << disjunct);
        before.contains(disjunct)
    }

    /// Whether a disjunct is in the set.
    pub(crate) fn contains(self, disjunct: usize) -> bool
        ensures { result ≡ members self disjunct }
    {
        disjunct < BITS && self.bits >> disjunct & 1 == 1
    }

    /// What is in one of two sets or in both.
    pub(crate) fn union(self, other: DisjunctSet) -> DisjunctSet
        ensures { members result ≡ (λ k. members self k || members other k) }
    {
        DisjunctSet {
            bits: self.bits | other.bits,
        }
    }

    /// How many of the first disjuncts are not in the set.
    pub(crate) fn count_outside(self, disjuncts: usize) -> usize
        ensures { result ≡ length (filter (λ k. not (members self k)) (range 0 disjuncts)) }
    {
        (0..disjuncts)
            .filter(|disjunct| !self.contains(*disjunct))
            .count()
    }
}
