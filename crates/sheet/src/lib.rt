//! The call sheet: its lines, the orders on them, and the text of the answers.
#![tactic(auto)]

pub mod answer;
mod bytes;
mod field;
pub mod item;
pub mod line;
pub mod order;
pub mod reader;
#[cfg(test)]
mod tests;
pub mod theorems;
