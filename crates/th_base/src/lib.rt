//! The first library: logic, choice, the conditional, unit, products and sums, proved by tables from the base definitions.
#![tactic(auto)]

mod building;
pub mod facts;
mod tables;

pub use building::build;
