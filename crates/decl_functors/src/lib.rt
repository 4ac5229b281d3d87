//! Type expressions as functors: which parameters are live, and which names occur in a type.
#![tactic(auto)]

pub mod liveness;
pub mod lives;
pub mod names;
