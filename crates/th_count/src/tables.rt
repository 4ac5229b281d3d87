//! The tables of proofs, and the steps of each part.

pub(crate) mod compositions;
pub(crate) mod countable;
pub(crate) mod csets;
pub(crate) mod pairs;
pub(crate) mod relators;
pub(crate) mod unions;
