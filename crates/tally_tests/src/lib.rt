//! Tests of the four tallies on worked examples: one module for each, and `shown`, their values as text.

#![tactic(auto)]

#[cfg(test)]
mod fewest;
#[cfg(test)]
mod fewest_ways;
#[cfg(test)]
mod legal;
#[cfg(test)]
mod shown;
#[cfg(test)]
mod ways;
