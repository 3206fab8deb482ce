//! Packs booleans into bytes, 64 at a time, and appends them to bits that may end inside a byte. Works on bytes and
//! words alone.
#![tactic(auto)]

pub mod from_fn;
mod packed_bits;
pub mod packing;

pub use packed_bits::PackedBits;
