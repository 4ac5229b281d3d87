//! Canonical text of types and terms, read strictly from front to back: the reading, and the laws that it is right.
#![tactic(auto)]

pub mod laws;
