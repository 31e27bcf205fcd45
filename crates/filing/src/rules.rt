ghost use Rattle.std.specs.Prelude.{◌≡◌, ◌<◌};
ghost use Rattle.linkage.specs.Lists.{◌∈◌};
ghost use Rattle.linkage.specs.Linkages.{full, full_at, matched, matching, uncrossed};
ghost use Rattle.linkage.specs.Links.{ends};
ghost use Rattle.linkage.specs.Parts.{parts};
ghost use Rattle.linkage.specs.Sentences.{size};
ghost use Rattle.filing.specs.Filings.{pairs, rule_tests, tested};
ghost use Rattle.filing.specs.Given.{linkage, sentence};

use crate::apart::none_cross;
use crate::joins::Joins;
use crate::linked::Filing;
use lexicon::dictionary::Dictionary;
use lexicon::side::Side;
use linkage::link::Link;
use refusal::Refusal;

impl<'a, D: Dictionary> Filing<'a, D> {
    /// Whether no two links cross.
    fn is_uncrossed(&self) -> bool
        ensures { result ≡ uncrossed (linkage D.meaning self.now) }
    {
        none_cross(self.links)
    }

    /// Whether a word has as many links to each side as it asks for.
    fn is_full(&self, at: usize) -> bool
        requires { at < size (sentence D.meaning self.now.choices) }
        ensures { result ≡ full_at (sentence D.meaning self.now.choices) (linkage D.meaning self.now) at }
    {
        let rights = self.links.iter().filter(|link| link.left == at).count();
        let lefts = self.links.iter().filter(|link| link.right == at).count();
        rights == self.choices.list_len(at, Side::Right)
            && lefts == self.choices.list_len(at, Side::Left)
    }

    /// Whether each word has as many links as it asks for.
    fn all_full(&self) -> bool
        ensures { result ≡ full (sentence D.meaning self.now.choices) (linkage D.meaning self.now) }
    {
        (0..self.choices.words()).all(|at| self.is_full(at))
    }

    /// Whether the connectors of a link match. Each is found by how many links of its word are nearer.
    fn is_match(&self, link: &Link) -> bool
        requires { ends link.now ∈ pairs self.now.links.now }
        ensures { result ≡ matched (sentence D.meaning self.now.choices) (linkage D.meaning self.now) (ends link.now) }
    {
        let nearer = self
            .links
            .iter()
            .filter(|other| other.left == link.left && other.right < link.right)
            .count();
        let right = self.choices.connector(link.left, Side::Right, nearer);
        let nearer = self
            .links
            .iter()
            .filter(|other| other.right == link.right && link.left < other.left)
            .count();
        let left = self.choices.connector(link.right, Side::Left, nearer);
        self.choices.dictionary.matches(right, left)
    }

    /// Whether the connectors of each link match.
    fn all_match(&self) -> bool
        ensures { result ≡ matching (sentence D.meaning self.now.choices) (linkage D.meaning self.now) }
    {
        self.links.iter().all(|link| self.is_match(link))
    }

    /// Refuses a filing by the first rule of linkages that it breaks.
    pub(crate) fn check(&self) -> Result<(), Refusal>
        ensures { result ≡ tested (rule_tests (sentence D.meaning self.now.choices) (linkage D.meaning self.now)) }
    {
        if !self.is_uncrossed() {
            return Err(Refusal::Crossing);
        }
        if !self.all_full() {
            return Err(Refusal::LinkCount);
        }
        if !self.all_match() {
            return Err(Refusal::NoMatch);
        }
        Ok(())
    }

    /// How many parts there are.
    pub(crate) fn parts(&self) -> usize
        ensures { result ≡ parts (linkage D.meaning self.now) }
    {
        let mut joins = Joins::apart(self.choices.words());
        for link in self.links {
            joins.join(link);
        }
        joins.parts
    }
}
