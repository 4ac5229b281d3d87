//! Signatures over the tables of `flat_terms`, words of canonical text, and types read strictly from it.
#![tactic(auto)]

pub mod constants;
pub mod entries;
pub mod names;
pub mod over;
pub mod signature;
pub mod types;
pub mod variables;
pub mod words;
