//! Bookings, the rows that hold them, what may become of a row, and the loads and slot list that bookings make.
#![tactic(auto)]

pub mod booking;
pub mod event;
pub mod load;
pub mod refusal;
pub mod row;
pub mod theory;
