//! Bitmaps: lists of booleans kept as bits, shared ones and ones that grow.
#![tactic(auto)]

pub mod assign_ops;
pub mod bitmap_ops;
mod check;
mod immutable;
mod iterator;
pub mod laws;
mod mutable;

pub use immutable::Bitmap;
pub use iterator::IntoIter;
pub use mutable::MutableBitmap;
