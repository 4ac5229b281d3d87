//! Tests of the facts of declarations, over the built libraries.
#![tactic(auto)]

#[cfg(test)]
mod samples;
