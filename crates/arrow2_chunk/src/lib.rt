//! Chunks: words as lists of bits, and iterators over their bits.
#![tactic(auto)]

mod bit_chunk;
mod bit_chunk_iter;

pub use bit_chunk::BitChunk;
pub use bit_chunk_iter::{BitChunkIter, BitChunkOnes};
