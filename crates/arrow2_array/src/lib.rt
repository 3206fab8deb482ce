//! Boolean arrays: bitmaps of values together with their validity, shared ones and ones that grow.
#![tactic(auto)]

mod boolean;
mod fmt;
mod iterator;
pub mod kleene;
mod mutable;

pub use boolean::BooleanArray;
pub use iterator::BooleanIter;
pub use mutable::MutableBooleanArray;
