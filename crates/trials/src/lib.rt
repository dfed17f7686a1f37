//! Many sheets, and what they must be answered.
#![tactic(auto)]

#[cfg(test)]
mod boards;
#[cfg(test)]
mod sheets;
