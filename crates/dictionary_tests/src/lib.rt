//! Tests of refusals, chains, formulas, names, lines and written dictionaries on worked examples.
//!
//! - `shown`: a formula's disjuncts, and a draft's answer to a line, as text.
//! - `refusals`, `chains`, `formulas`, `names`, `lines`: the examples.

#![tactic(auto)]

#[cfg(test)]
mod chains;
#[cfg(test)]
mod formulas;
#[cfg(test)]
mod lines;
#[cfg(test)]
mod names;
#[cfg(test)]
mod refusals;
#[cfg(test)]
mod shown;
