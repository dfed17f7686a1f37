//! Finds where a request can start beside what is booked, and which start a policy grants it.
#![tactic(auto)]

pub mod find;
pub mod found;
pub mod measure;
pub mod policy;
pub mod rectangle;
pub mod request;
#[cfg(test)]
mod tests;
pub mod theory;
pub mod walk;
