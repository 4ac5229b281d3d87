//! Countable sets, and the functor laws of their type, proved by tables from the base definitions and the libraries before.
#![tactic(auto)]

mod building;
pub mod facts;
mod tables;

pub use building::build;
