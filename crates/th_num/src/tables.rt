//! The tables of proofs, and the steps of each part.

pub(crate) mod doubling;
pub(crate) mod graphs;
pub(crate) mod numbers;
pub(crate) mod order;
pub(crate) mod paths;
pub(crate) mod recursion;
