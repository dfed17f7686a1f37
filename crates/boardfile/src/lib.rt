//! The board file: its header and its rows, read with faults and written. No board is in it.
#![tactic(auto)]

pub mod filed;
pub mod header;
pub mod read;
pub mod write;
