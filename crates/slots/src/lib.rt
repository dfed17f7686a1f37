//! Values over the minutes, as a list of records in lent memory.
#![tactic(auto)]

pub mod change;
pub mod list;
pub mod loose;
mod reads;
mod settling;
pub mod slot;
pub mod span;
#[cfg(test)]
mod tests;
pub mod theorems;
pub mod value;
