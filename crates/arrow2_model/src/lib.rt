//! The meaning of the layer's contracts: lists of booleans, their parts, numbers, words and bytes.
//!
//! `specs/` has the definitions, and `proofs/` has the lemmas that the crates above cite.
#![tactic(auto)]

pub mod laws;
