//! The writer of proof logs: the steps of a kernel, with what was said of them.
#![tactic(auto)]

pub mod laws;
pub mod lines;
pub mod marks;
pub mod segments;
pub mod write;

pub use marks::{End, Mark, MarkKind};
pub use write::{LogError, write_log};
