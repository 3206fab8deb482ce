//! Functions on whole arrays of numbers: comparisons, sums, the least and the greatest item, casts. Which value a
//! result stores under a null is not specified, except by `comparison::compare_each`. `MaskedBlocks` yields values in
//! blocks of 64, and with each block a word: the items of a mask for its values.
#![tactic(auto)]

pub mod aggregate;
pub mod cast;
pub mod comparison;
mod masked_blocks;

pub use masked_blocks::MaskedBlocks;
