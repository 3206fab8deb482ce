//! Word functions and truth tables of three and of four bitmaps.
#![tactic(auto)]

pub mod bitmap_ops;
