//! Tests of the terms, the kernel and the statements: that calls succeed where there is memory, and what no clause says. They stand
//! over the built libraries, because a crate's own tests prove the crate a second time. A sample is made by a function without
//! the runtime, and one test goes through a table of samples: so each function is short, and cheap to prove.
#![tactic(auto)]

#[cfg(test)]
mod definitions;
#[cfg(test)]
mod rules;
#[cfg(test)]
mod samples;
#[cfg(test)]
mod statements;
#[cfg(test)]
mod tables;
#[cfg(test)]
mod terms;
#[cfg(test)]
mod types;
