ghost use Rattle.std.specs.Prelude.{◌≡◌, ◌≤◌, [], ◌∷◌, length, if◌then◌else◌};

use crate::dictionary::Dictionary;
use crate::side::Side;
use refusal::Refusal;

/// The most words that a chain has: as many as a set of followers has bits.
const LIMIT: usize = 64;

/// A dictionary that is computed from sets of words: the set of a word holds the words that may follow it.
#[derive(Clone, Copy)]
pub struct Chain<'a> {
    follow: &'a [u64],
    ghost some: { 1 ≤ length follow.now },
    ghost few: { length follow.now ≤ 64 },
}

impl<'a> Chain<'a> {
    ghost use Rattle.lexicon.specs.Chains.{Chained, chain_of};
    ghost use Rattle.lexicon.specs.Lexicon.{list_of};

    /// The chain of as many words as there are sets: bit `b` of the set of `a` says whether `b` may follow `a`.
    pub fn new(follow: &'a [u64]) -> Result<Chain<'a>, Refusal>
        ensures { Chained follow.now result }
    {
        if follow.is_empty() || follow.len() > LIMIT {
            return Err(Refusal::ChainSize);
        }
        Ok(Chain { follow })
    }

    /// Whether a disjunct of a word has a connector on a side: it is then the word itself, alone.
    fn asks(&self, word: u16, disjunct: usize, side: Side) -> bool
        ensures { list_of (chain_of self.now) word disjunct side ≡ (if result then word ∷ [] else []) }
    {
        usize::from(word) < self.words()
            && matches!(
                (disjunct, side),
                (1, Side::Right) | (2, Side::Left) | (3, _)
            )
    }
}

impl<'a> Dictionary for Chain<'a> {
    ghost use Rattle.lexicon.specs.Chains.{chain_of};
    ghost use Rattle.lexicon.specs.Kept.{few_words, none_past, few_disjuncts, short_lists, small_connectors};

    ghost meaning = { chain_of };

    ghost few_words = { λ c. few_words c.follow.now };

    ghost none_past = { λ c. none_past c.follow.now };

    ghost few_disjuncts = { λ c. few_disjuncts c.follow.now };

    ghost short_lists = { λ c. short_lists c.follow.now };

    ghost small_connectors = { λ c. small_connectors c.follow.now };

    fn words(&self) -> usize {
        self.follow.len()
    }

    fn disjuncts(&self, word: u16) -> usize {
        if usize::from(word) < self.words() {
            4
        } else {
            0
        }
    }

    fn list_len(&self, word: u16, disjunct: usize, side: Side) -> usize {
        usize::from(self.asks(word, disjunct, side))
    }

    fn connector(&self, word: u16, disjunct: usize, side: Side, place: usize) -> u16 {
        if place == 0 && self.asks(word, disjunct, side) {
            word
        } else {
            0
        }
    }

    fn matches(&self, right: u16, left: u16) -> bool {
        let (a, b) = (usize::from(right), usize::from(left));
        a < self.words() && b < self.words() && (self.follow[a] >> b) % 2 == 1
    }
}
