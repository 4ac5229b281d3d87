//! What a datatype or codatatype command declares, and, in `specs/`, which facts it gives (as Isabelle's package does).
#![tactic(auto)]

pub mod declarations;
pub mod facts;
