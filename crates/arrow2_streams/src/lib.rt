//! Reads a reader to its end, and writes all bytes of a slice. Failed calls are counted by numbers that only contracts
//! see.
#![tactic(auto)]

pub mod fault;
pub mod streams;
pub mod watched;
