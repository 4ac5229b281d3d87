//! The calls of the program `hbnf`, from words and bytes to lines and a status.
#![tactic(auto)]

mod base;
mod input;
mod top;

pub use top::{Status, hbnf};
