//! Lines of a proof log, read strictly into numbers of the tables of `flat_terms`.
#![tactic(auto)]

pub mod ends;
pub mod lines;
pub mod numbers;
pub mod pairs;
pub mod steps;
pub mod words;
