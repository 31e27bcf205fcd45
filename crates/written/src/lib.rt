//! Written dictionaries: lines are taken into a draft over lent memory, and closing makes it a dictionary.
//!
//! - `pieces`: where a piece of a text ends.
//! - `line`: a line's words and its formula.
//! - `page`: the lent table, and writing to it.
//! - `front`: the names that the front of a table has.
//! - `note`: the names that a line brings.
//! - `cost`: how many cells a line takes.
//! - `matching`: which names of connectors match.
//! - `draft`, `closed`: a draft, and the dictionary that closing makes of it.

#![tactic(auto)]

pub mod closed;
mod cost;
pub mod draft;
mod front;
pub mod line;
pub mod matching;
mod note;
pub mod page;
pub mod pieces;
