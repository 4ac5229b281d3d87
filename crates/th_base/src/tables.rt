//! The tables of proofs, and the steps of each part.

pub(crate) mod logic;
pub(crate) mod products;
pub(crate) mod sums;
