ghost use Rattle.std.specs.Prelude.{◌≡◌};
ghost use Rattle.rows.specs.Tables.{sentence_of};
ghost use Rattle.filing.specs.Filings.{JudgedRight, checked, pairs};
ghost use Rattle.filing.specs.Given.{sentence};

use crate::choice::Choices;
use crate::linked::Filing;
use lexicon::dictionary::Dictionary;
use linkage::link::Link;
use refusal::Refusal;
use rows::Rows;

/// How many parts choices and links make, or the refusal of the first test that they fail.
fn judge<D: Dictionary>(choices: Choices<D>, links: &[Link]) -> Result<usize, Refusal>
    ensures { result ≡ checked (sentence D.meaning choices.entry) choices.entry.bytes.now (pairs links.now) }
{
    choices.check()?;
    let filing = Filing::new(choices, links)?;
    filing.check()?;
    Ok(filing.parts())
}

/// How many parts a filing has, or the refusal of the first test that it fails.
// What callers hold is given as it is; within, it is `Choices` at once.
pub fn check<D: Dictionary>(
    dictionary: &D,
    rows: &Rows,
    choices: &[u8],
    links: &[Link],
) -> Result<usize, Refusal>
    ensures answer { result ≡ checked (sentence_of (D.meaning dictionary.now) rows.now) choices.now (pairs links.now) }
    ensures right { JudgedRight (sentence_of (D.meaning dictionary.now) rows.now) choices.now (pairs links.now) }
{
    let choices = Choices {
        dictionary,
        rows,
        bytes: choices,
    };
    judge(choices, links)
}
