//! Worked examples of a folio over a chain, as tests.

#![tactic(auto)]

#[cfg(test)]
mod calls;
