//! Terms of higher order logic from static tables.
#![tactic(auto)]

pub mod build;
