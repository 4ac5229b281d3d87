//! Walks over the tables of `flat_terms`: each gives the number of a plain result, and visits each entry at most once for each depth.
#![tactic(auto)]

pub mod bind;
pub mod occurs;
pub mod open;
