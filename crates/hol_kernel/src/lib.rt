//! The kernel: theorems that only the rules and the definition principles make (HOL Light).
#![tactic(auto)]

mod axioms;
mod define;
mod history;
mod hypotheses;
mod kernel;
pub mod laws;
mod new_type;
mod room;
mod rules;
pub mod step;
mod theorem;

pub use kernel::{Kernel, Thm, Unfit};
pub use step::Step;
