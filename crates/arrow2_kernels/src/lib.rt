//! The loops that apply word functions to lists of booleans. They work on bytes and words alone.
#![tactic(auto)]

pub mod assign;
pub mod map;
mod rows;
mod simd;
pub mod simd_assign;
pub mod simd_map;
pub mod truth_tables;

pub use rows::{NoList, OneList, Pair, WordRows, ZipRows};
