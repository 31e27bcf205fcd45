//! What a dictionary means, the five questions that tell it, and the chain.
//!
//! - `side`: the two sides of a word.
//! - `dictionary`: the questions.
//! - `chain`: a dictionary that is computed from the sets of words that may follow each word.

#![tactic(auto)]

pub mod chain;
pub mod dictionary;
pub mod side;
