//! Types, terms, signatures and definitions of higher order logic (HOL Light), and, in `specs/`, what every claim of this
//! repository rests on: well-typedness, the rules, derivability, the base definitions, canonical text and sound outputs.
#![tactic(auto)]

pub mod defs;
pub mod laws;
pub mod names;
mod replace;
pub mod sig;
mod sig_types;
pub mod terms;
pub mod types;
