//! The booking board: rows and slot list in lent memory, and the calls on them.
#![tactic(auto)]

mod add;
pub mod board;
pub mod changes;
pub mod grant;
pub mod hold;
pub mod load;
pub mod moves;
pub mod reads;
mod reset;
mod rows;
pub mod save;
pub mod setup;
pub mod theory;
pub mod token;
