//! Builders of the facts that declarations give. Each gives exactly what the definitions of `decl_core` say.
#![tactic(auto)]

mod case_functions;
mod constructors;
mod formulas;
pub mod free_constructors;
mod parts;
mod selectors;
mod terms;
