//! Samples of what declarations give.
#![tactic(auto)]

pub mod laws;
