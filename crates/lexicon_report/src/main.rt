//! Reads the text of a dictionary on standard input and prints what the dictionary holds, or the first refusal.
//!
//! - `report`: from a text to its report.
//! - `render`: the words of a dictionary with their disjuncts, and what it counts.
//! - `refuse`: the line of a refusal.
//! - `lines`: the lines of a text and their formulas.

#![tactic(auto)]

use std::io;
use std::io::{Read, Write};

mod lines;
mod refuse;
mod render;
mod report;
#[cfg(test)]
mod tests;

fn main(rt: HostRuntime) -> io::Result<()> {
    let mut text = Vec::new(rt.alloc());
    rt.stdin().read_to_end(&mut text)?;
    let report = report::report(rt.alloc(), text.as_slice())?;
    rt.stdout().write_all(report.as_slice())
}
