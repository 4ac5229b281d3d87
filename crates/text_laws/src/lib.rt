//! Laws of the signatures that definitions give: what is read over them and printed from them meets the laws of reading.
#![tactic(auto)]

pub mod laws;
