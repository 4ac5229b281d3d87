//! Replaying proof logs: from the bytes of a log to its report on a sink, and to whether it is good.
#![tactic(auto)]

pub mod message;
pub mod replay;
