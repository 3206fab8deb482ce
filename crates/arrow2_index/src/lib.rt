//! Index and offset types: numbers that are indices into buffers.
#![tactic(auto)]

mod index;
mod offset;

pub use index::{Index, IndexRange};
pub use offset::{Offset, OffsetNumber};
