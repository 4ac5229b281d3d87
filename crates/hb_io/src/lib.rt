//! Objects that bytes are read from and written to, each of which counts its faults.
#![tactic(auto)]

mod input;
mod memory;
mod output;
mod plan;
mod standard;
#[cfg(test)]
mod tests;

pub use input::Source;
pub use memory::{MemSink, MemSource, SureSource};
pub use output::{Sink, write_all};
pub use standard::{StdSink, StdSource};
use thiserror::Error;

/// The object failed. What it had, it still has.
#[derive(Debug, Drop, Error)]
#[error("the object failed")]
pub struct Failed;
