//! Derivations as text: tables of lines over proved facts, each line a term, a type or a theorem by one rule, and the shelf of the
//! facts that were proved.
#![tactic(auto)]

mod by_term;
mod by_thm;
mod conversions;
mod entries;
mod pairs;
mod rule;
mod run;
mod shelf;
mod steps;
mod words;

pub use rule::{DefRule, LineKind, Rule, TermRule, TermThmRule, ThmRule, TwoThmRule};
pub use run::{Given, run_table};
pub use shelf::Shelf;
