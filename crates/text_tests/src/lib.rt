//! Tests of printing and reading, over the built libraries.
#![tactic(auto)]

#[cfg(test)]
mod lists;
#[cfg(test)]
mod printing;
#[cfg(test)]
mod reading;
#[cfg(test)]
mod signatures;
