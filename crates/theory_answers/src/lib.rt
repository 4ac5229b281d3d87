//! What a theory text comes to over the base definitions: the output of `check`, and the proof log.
#![tactic(auto)]

pub mod output;
pub mod theory;
pub mod verdict;
