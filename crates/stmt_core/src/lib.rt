//! What statements are made of: the connectives over terms, and the base definitions.
#![tactic(auto)]

mod base;
pub mod connectives;
mod defined;
mod tables;

pub use base::base_def;
