//! Runs a call sheet on a crew board.
#![tactic(auto)]

pub mod entry;
pub mod run;
