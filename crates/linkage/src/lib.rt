//! What partial linkages are, what is summed over them, and the theorem that makes the sum computable.
//!
//! - `call`: a call on the sentence under work.
//! - `link`: a link between two positions.
//! - `laws`: what the definitions are shown to mean.

#![tactic(auto)]

pub mod call;
pub mod laws;
pub mod link;
