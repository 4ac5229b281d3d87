//! Tests of the library (`th_base`, `th_num`, `th_count`). They stand in a crate of their own, since a crate is proved once more with its tests:
//! here over libraries that are proved already.
#![tactic(auto)]

#[cfg(test)]
mod library;
