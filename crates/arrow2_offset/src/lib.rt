//! Offsets, growing and shared: `n + 1` numbers for the `n` values of a binary, text or list array. Value `i` goes from
//! offset `i` up to offset `i + 1`.
#![tactic(auto)]

mod append_lengths;
mod check;
mod convert;
mod immutable;
mod iterator;
pub mod laws;
mod mutable;
pub mod slices;
mod slot;
pub mod widths;

pub use check::{BrokenRule, broken_rule};
pub use immutable::OffsetsBuffer;
pub use iterator::Lengths;
pub use mutable::Offsets;
