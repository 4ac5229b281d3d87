//! Instances and the order of entries, over the tables of `flat_terms`. Each instance is the number of a plain result, and its walk
//! visits each entry at most once.
#![tactic(auto)]

pub mod compare;
pub mod instance;
pub mod retype;
pub mod types;
