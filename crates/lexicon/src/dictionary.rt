ghost use Rattle.std.specs.Prelude.{◌≡◌, length, slice_index};
ghost use Rattle.lexicon.specs.Lexicon.{Lexicon, list_of};
ghost use Rattle.lexicon.specs.Limits.{FewWords, NonePast, FewDisjuncts, ShortLists, SmallConnectors};

use crate::side::Side;

/// A dictionary, by the five questions that a parser asks. Each may be asked of any number: past an end a count and a
/// connector are 0.
pub trait Dictionary {
    /// What the dictionary means, which every answer tells a part of.
    ghost meaning: { Self → Lexicon };

    // the limits, which every dictionary shows that it keeps
    ghost few_words: { (d : Self) → FewWords (meaning d) };

    ghost none_past: { (d : Self) → NonePast (meaning d) };

    ghost few_disjuncts: { (d : Self) → FewDisjuncts (meaning d) };

    ghost short_lists: { (d : Self) → ShortLists (meaning d) };

    ghost small_connectors: { (d : Self) → SmallConnectors (meaning d) };

    /// How many words there are.
    fn words(&self) -> usize
        ensures { result ≡ (meaning self.now).words };

    /// How many disjuncts a word has.
    fn disjuncts(&self, word: u16) -> usize
        ensures { result ≡ length ((meaning self.now).disjuncts word) };

    /// How many connectors a disjunct of a word has on a side.
    // A word, a disjunct and a side come one by one, as callers have them.
    fn list_len(&self, word: u16, disjunct: usize, side: Side) -> usize
        ensures { result ≡ length (list_of (meaning self.now) word disjunct side) };

    /// The connector at a place of a list, counted from the nearest, 0.
    fn connector(&self, word: u16, disjunct: usize, side: Side, place: usize) -> u16
        ensures { result ≡ slice_index (list_of (meaning self.now) word disjunct side) place };

    /// Whether a right connector of a word can link to a left connector of a later word.
    fn matches(&self, right: u16, left: u16) -> bool
        ensures { result ≡ (meaning self.now).matches right left };
}
