//! Facts, each stated by a text over the base definitions.
#![tactic(auto)]

mod fact;

pub use fact::{Fact, fact_stmt};
