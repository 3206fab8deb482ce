//! Native types that are made of several numbers: intervals, and integers of 256 bits.
#![tactic(auto)]

mod interval;
pub mod laws;
mod wide;

pub use interval::{days_ms, months_days_ns};
pub use wide::i256;
