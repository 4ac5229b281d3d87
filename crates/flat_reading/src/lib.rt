//! Terms read strictly from canonical text, over the tables of `flat_terms` and a signature over them.
#![tactic(auto)]

pub mod applying;
pub mod atoms;
pub mod shapes;
pub mod signs;
pub mod terms;
