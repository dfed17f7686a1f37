//! Lists in memory that a caller lends.
#![tactic(auto)]

pub mod lent;
mod moves;
pub mod sieve;
#[cfg(test)]
mod tests;
