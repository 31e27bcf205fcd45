ghost use Rattle.std.specs.Prelude.{◌≡◌, true, length, Err, IfErr, IfOk};
ghost use Rattle.linkage.specs.Lists.{every};
ghost use Rattle.rows.specs.Tables.{ledger_of};
ghost use Rattle.filing.specs.Filings.{link_tests, ordered, pairs, rises, tested};

use crate::apart::{all_rise, in_order};
use crate::choice::Choices;
use linkage::link::Link;
use refusal::Refusal;

/// Choices for the words of a sentence, and links that rise within the words and stand in order, each once.
#[derive(Drop)]
pub(crate) struct Filing<'a, D> {
    pub(crate) choices: Choices<'a, D>,
    pub(crate) links: &'a [Link],
    ghost rising: { every (rises (length (ledger_of choices.rows.now))) (pairs links.now) ≡ true },
    ghost in_order: { ordered (pairs links.now) ≡ true },
}

impl<'a, D> Filing<'a, D> {
    /// Takes links, or refuses them by the first test of links alone that they fail.
    pub(crate) fn new(choices: Choices<'a, D>, links: &'a [Link]) -> Result<Filing<'a, D>, Refusal>
        ensures ok { IfOk result (λ f. (f.choices ≡ choices.entry) × (f.links.now ≡ links.now)) }
        ensures err { IfErr result (λ e. tested (link_tests (length (ledger_of choices.entry.rows.now)) (pairs links.now)) ≡ Err e) }
    {
        if !all_rise(links, choices.rows.length()) {
            return Err(Refusal::LinkEnds);
        }
        if !in_order(links) {
            return Err(Refusal::LinkOrder);
        }
        Ok(Filing { choices, links })
    }
}
