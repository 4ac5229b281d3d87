//! How many of the base definitions are in force.
#![tactic(auto)]

/// How many base definitions, from the first, are in force: those that `check` and `log` begin with, and that stand before the base
/// line of a proof log.
pub const BASE_DEFINITIONS: usize = 33;
