//! The ten rules and the sequents of definitions, over the tables of `flat_terms`: each answer stands for what the partial function of
//! the rule gives. The definitions of the rules are those of `hol_terms`; none of its code is called.
#![tactic(auto)]

pub mod definitions;
pub mod equations;
pub mod hypotheses;
mod pairs;
pub mod rules;
pub mod sequent;
pub mod variables;
