//! Runs the cases of the standard input through the library, and tells which answers differ from those that stand there.
//!
//! - `case`: the cases and how they are written.
//! - `judge`: compares answers, and counts.
//! - `answer`: answers as the input writes them.
//! - `drafts`: the cases of one draft, and of the dictionary that closing makes of it.
//! - `kept`: what the dictionary keeps of each line.

#![tactic(auto)]

mod answer;
mod case;
mod drafts;
mod judge;
mod kept;

use anyhow::anyhow;
use case::{Case, Kind, bytes, cases};
use judge::Judge;
use std::io;

/// Runs the case of a formula, or the cases of a draft.
fn run_section(judge: &mut Judge<'_>, section: &[Case]) -> anyhow::Result<()> {
    let Some((first, rest)) = section.split_first() else {
        return Ok(());
    };
    match first.kind {
        Kind::Draft => drafts::run(judge, first, rest),
        Kind::Formula if rest.is_empty() => {
            let formula = bytes(judge.heap(), first.given)?;
            let came = answer::to_formula(judge.heap(), formula.as_slice())?;
            judge.judge(first, came.as_str())
        }
        _ => Err(anyhow!("a case without a draft")),
    }
}

/// Runs all cases of the standard input, and prints the tally. A section begins with each formula and with each draft.
fn run(rt: &HostRuntime) -> anyhow::Result<()> {
    let text = io::read_to_string(rt.alloc(), rt.stdin())?;
    let cases = cases(rt.alloc(), text.as_str())?;
    let mut judge = Judge::new(rt);
    for section in cases.chunk_by(|_, case| !case.begins_section()) {
        run_section(&mut judge, section)?;
    }
    let tally = judge.tally();
    println!(rt; "{tally}")?;
    Ok(())
}

fn main(rt: HostRuntime) -> anyhow::Result<()> {
    run(&rt)
}
