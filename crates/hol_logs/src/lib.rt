//! What a proof log is, as definitions. As laws: how some short logs come out.
#![tactic(auto)]

pub mod laws;
