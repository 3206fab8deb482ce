//! Memory that several arrays share: lists that are cloned and sliced without a copy.
#![tactic(auto)]

mod bytes;
mod collect;
mod immutable;
mod iterator;
pub mod laws;

pub use bytes::Bytes;
pub use immutable::Buffer;
pub use iterator::IntoIter;
