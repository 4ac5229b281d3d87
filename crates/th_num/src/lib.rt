//! Numbers with their recursion and order, doubling and path codes, proved by tables from the base definitions and the first library.
#![tactic(auto)]

mod building;
pub mod facts;
mod tables;

pub use building::build;
