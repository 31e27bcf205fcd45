//! Filings: choices and links that somebody gives for a sentence are judged, and their parts counted.
//!
//! - `choice`: what is chosen at a position, what it asks for, and the tests of choices alone.
//! - `apart`: the tests of links alone.
//! - `linked`: choices with links that rise and stand in order.
//! - `rules`: whether they keep the rules of linkages.
//! - `joins`: which positions links hold together, and how many parts they make.
//! - `check`: the judge of filings.

#![tactic(auto)]

mod apart;
pub mod check;
mod choice;
mod joins;
mod linked;
mod rules;
