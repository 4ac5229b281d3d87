//! Laws of proof logs: what a log reports is sound.
#![tactic(auto)]

pub mod laws;
