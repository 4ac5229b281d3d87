//! The checker of proof logs, line by line, over flat tables of numbers. It shares no code with the kernel: of `hol_terms` and `hol_logs`
//! it uses the definitions alone.
#![tactic(auto)]

pub mod base_texts;
mod bases;
pub mod checker;
mod definitions;
mod position;
mod reports;
mod steps;
mod walks;
pub mod why;
