//! The text of one command of the theory language.
#![tactic(auto)]

pub mod command;
pub mod laws;
mod limits;
mod written;
