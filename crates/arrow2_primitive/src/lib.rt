//! Arrays of nullable native values: shared ones, and ones that grow.
#![tactic(auto)]

mod array;
mod equal;
mod fmt;
mod iterator;
mod mutable;
mod type_text;

pub use array::PrimitiveArray;
pub use iterator::PrimitiveIter;
pub use mutable::MutablePrimitiveArray;
