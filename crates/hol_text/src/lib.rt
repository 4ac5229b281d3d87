//! Types and terms as text: printed in canonical form, and read.
#![tactic(auto)]

pub mod laws;
pub mod lexer;
pub mod meaning;
pub mod print;
pub mod read;
pub mod samples;
pub mod scope;
pub mod terms;
pub mod tokens;
pub mod types;
