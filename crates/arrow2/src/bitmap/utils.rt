//! Calls on the bits of bytes: they read, write, count, print and iterate, also by words, and count the bytes that they
//! read. Iterators over runs, and over values zipped with their validity.

pub use arrow2_bits::fmt::fmt;
pub use arrow2_bits::{
    BitChunkIterExact, BitChunks, BitChunksExact, BitChunksExactMut, BitmapIter, Reads, Stored,
    bytes_for, count_zeros, count_zeros_counted, get_bit, get_bit_from, is_set, recount, set,
    set_bit,
};
pub use arrow2_chunk::BitChunk;
pub use arrow2_walks::{SlicesIterator, ZipValidity, ZipValidityIter};
