//! The types of the values in buffers, of indices, and of words of bits.

pub use arrow2_chunk::{BitChunk, BitChunkIter, BitChunkOnes};
pub use arrow2_composite::{days_ms, i256, months_days_ns};
pub use arrow2_index::{Index, IndexRange, Offset, OffsetNumber};
pub use arrow2_types::{NativeType, PrimitiveType};
