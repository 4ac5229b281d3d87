//! Conversions: theorems `t = u` that compute u from t (HOL Light's conversions).
#![tactic(auto)]

pub mod beta;
pub mod eta;
mod fresh;
pub mod rewrite;
