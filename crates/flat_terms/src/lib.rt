//! Types and terms of higher order logic as flat tables of numbers: each plain tree has one number, so that two trees are equal exactly
//! where their numbers are. The definitions of types and terms are those of `hol_terms`; none of its code is called.
#![tactic(auto)]

pub mod nodes;
pub mod tables;
