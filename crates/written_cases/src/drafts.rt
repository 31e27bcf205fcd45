ghost use Rattle.std.specs.Prelude.{◌≤◌, length};

use crate::answer;
use crate::case::{Case, Kind, bytes};
use crate::judge::Judge;
use crate::kept::{Given, compare_kept};
use anyhow::anyhow;
use lexicon::dictionary::Dictionary;
use written::closed::Written;
use written::draft::Draft;

/// How many cases stand before the closing of the draft.
fn closing(cases: &[Case]) -> usize
    ensures { result ≤ length cases.now }
{
    cases
        .iter()
        .position(|case| case.kind == Kind::Close)
        .unwrap_or(cases.len())
}

/// Gives a draft a line or a text.
fn give(judge: &mut Judge<'_>, draft: &mut Draft<'_>, case: &Case) -> anyhow::Result<()> {
    let given = bytes(judge.heap(), case.given)?;
    let came = match case.kind {
        Kind::Line => answer::to_line(judge.heap(), draft, given.as_slice())?,
        Kind::Text => answer::to_text(judge.heap(), draft, given.as_slice())?,
        _ => return Err(anyhow!("a question to a draft that is not closed")),
    };
    judge.judge(case, came.as_str())
}

/// Asks a draft for a word that its dictionary is asked for later.
fn ask_early(judge: &mut Judge<'_>, draft: &Draft<'_>, case: &Case) -> anyhow::Result<()> {
    if case.kind != Kind::Find {
        return Ok(());
    }
    let word = bytes(judge.heap(), case.given)?;
    let came = draft.find(word.as_slice()).to_string(judge.heap())?;
    judge.compare(case, came.as_str())
}

/// Asks a dictionary.
fn ask(judge: &mut Judge<'_>, written: &Written<'_>, case: &Case) -> anyhow::Result<()> {
    let came = match case.kind {
        Kind::Close => return Ok(()),
        Kind::Match => answer::to_match(judge.heap(), written, case.given)?,
        Kind::Find => {
            let word = bytes(judge.heap(), case.given)?;
            written.find(word.as_slice()).to_string(judge.heap())?
        }
        _ => return Err(anyhow!("something for a draft that is closed")),
    };
    judge.judge(case, came.as_str())
}

/// Runs the cases of a draft.
pub(crate) fn run(judge: &mut Judge<'_>, first: &Case, cases: &[Case]) -> anyhow::Result<()> {
    let cells = first.given.parse::<usize>()?;
    let mut table = vec![in judge.heap(); 0u16; cells]?;
    let mut draft = Draft::new(table.as_mut_slice());
    let mut given = Vec::new(judge.heap());
    let (lines, questions) = cases.split_at(closing(cases));
    for case in lines {
        give(judge, &mut draft, case)?;
        let words = draft.words();
        given.push(Given { case, words })?;
    }
    for case in questions {
        ask_early(judge, &draft, case)?;
    }
    let words = draft.words();
    let written = draft.close();
    if written.words() != words {
        judge.tell(first, "a dictionary with other words than its draft")?;
    }
    for case in questions {
        ask(judge, &written, case)?;
    }
    compare_kept(judge, &written, given.as_slice())
}
