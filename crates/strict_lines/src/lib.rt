//! Lines of a proof log, read strictly from front to back: the reading, and the laws that it is right.
#![tactic(auto)]

pub mod laws;
