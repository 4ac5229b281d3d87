//! Canonical text of types and terms over the tables of `flat_terms`. The definitions of the text are those of `hol_terms`; none of its
//! code is called.
#![tactic(auto)]

mod forms;
pub mod lines;
pub mod terms;
pub mod types;
