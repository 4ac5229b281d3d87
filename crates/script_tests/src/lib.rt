//! Tests of the proof tables and of the shelf (`script_core`), and with them of the derived rules and the conversions: each kind of
//! line in tables over the first ten base definitions and over a type of lists, and its sequent as text. They stand in a crate of
//! their own, since a crate is proved once more with its tests.
#![tactic(auto)]

#[cfg(test)]
mod closed;
#[cfg(test)]
mod contractions;
#[cfg(test)]
mod conversions;
#[cfg(test)]
mod corners;
#[cfg(test)]
mod derived_rules;
#[cfg(test)]
mod exchange;
#[cfg(test)]
mod given;
#[cfg(test)]
mod kernel_rules;
#[cfg(test)]
mod lists;
#[cfg(test)]
mod new_type;
#[cfg(test)]
mod shelf;
