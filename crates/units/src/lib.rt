//! Kinds of unit: what a load is, and what may be put on it.
#![tactic(auto)]

pub mod crew;
pub mod kind;
pub mod stock;
