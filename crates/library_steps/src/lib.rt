//! The steps in which a library is built: base definitions are made one after another, and facts are proved between them by tables.
#![tactic(auto)]

mod building;
mod closed;
mod define;
mod step;

pub use building::take_steps;
pub use step::Step;
