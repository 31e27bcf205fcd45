//! Formulas: from the bytes that a curator writes to the disjuncts that they mean, or to the first fault.
//!
//! - `token`: the tokens, each a part of the formula.
//! - `rest`: what is left of a formula while it is read.
//! - `cut`: the next token.
//! - `name`: the name that stands at a place of the formula.
//! - `bounded`: lists of a few items that lie in the value itself.
//! - `way`: the ways of a formula and its disjuncts, in such lists as long as a line may fill.
//! - `make`: the ways of each kind of item, and of items that are joined.
//! - `depth`: how many brackets are open.
//! - `read`: formula and item readers, which call each other.
//! - `keep`: from the ways to the disjuncts, each kept once.
//! - `meaning`: all of it, from bytes to disjuncts.

#![tactic(auto)]

pub mod bounded;
pub mod cut;
pub mod depth;
pub mod keep;
pub mod make;
pub mod meaning;
pub mod name;
pub mod read;
pub mod rest;
pub mod token;
pub mod way;
