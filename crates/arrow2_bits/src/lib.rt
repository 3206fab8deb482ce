//! Bits of bytes: reading, writing, counting and iterating, the lowest bit of a byte first.
#![tactic(auto)]

ghost use Rattle.std.specs.Prelude.{◌≡◌, ◌+◌, ◌*◌, ◌/◌, ◌<◌, ◌≤◌, length, false, slice_set, slice_index_or};
ghost use Rattle.arrow2_model.specs.Lists.{bit, unnum, bits};

mod chunk_iterator;
mod chunks;
mod chunks_exact;
mod chunks_exact_mut;
mod counts;
mod equal;
pub mod fmt;
mod iterator;
mod popcount;
mod reads;
mod stored;

pub use chunk_iterator::{BitChunkIterExact, BitChunks};
pub use chunks::word_from;
pub use chunks_exact::BitChunksExact;
pub use chunks_exact_mut::BitChunksExactMut;
pub use counts::{count_zeros, count_zeros_counted, recount};
pub use equal::same_bits;
pub use iterator::BitmapIter;
pub use reads::Reads;
pub use stored::Stored;

/// The masks of `set`, in one table, so that a loop over bits has one address to compute. At index i: the byte with bit
/// i clear and every other bit set. At index 8 + i: zero, which is written for false. At index 16 + i: the byte with
/// bit i set and every other bit clear, which is written for true.
const MASKS: [u8; 24] = [
    254, 253, 251, 247, 239, 223, 191, 127, 0, 0, 0, 0, 0, 0, 0, 0, 1, 2, 4, 8, 16, 32, 64, 128,
];

/// Returns whether bit `i` of the byte is set. Requires that `i` is below 8.
pub fn is_set(byte: u8, i: usize) -> bool
    requires { i < 8 }
    ensures { result ≡ bit byte i }
{
    // Shifts a number of 64 bits: in a loop over bits the compiler then keeps one counter. With a shorter number it
    // keeps two.
    (u64::from(byte) >> i) & 1 == 1
}

/// Returns the byte with bit `i` set to `value` and every other bit as it was. Requires that `i` is below 8.
pub fn set(byte: u8, i: usize, value: bool) -> u8
    requires { i < 8 }
    ensures { unnum 8 result ≡ slice_set (unnum 8 byte) i value }
{
    (byte & MASKS[i]) | MASKS[8 + 8 * usize::from(value) + i]
}

/// Returns bit `i` of the bytes. Requires that `i` is below eight times the number of bytes.
pub fn get_bit(bytes: &[u8], i: usize) -> bool
    requires { i < 8 * length bytes.now }
    ensures { result ≡ slice_index_or (bits bytes.now) i false }
{
    is_set(bytes[i / 8], i % 8)
}

/// Returns bit `offset + i` of the bytes. Requires that `offset + i` is below eight times the number of bytes. The sum
/// need not fit a `usize`.
pub fn get_bit_from(bytes: &[u8], offset: usize, i: usize) -> bool
    requires { offset + i < 8 * length bytes.now }
    ensures { result ≡ slice_index_or (bits bytes.now) (offset + i) false }
{
    let within = offset % 8 + i % 8;
    is_set(bytes[offset / 8 + i / 8 + within / 8], within % 8)
}

/// Writes bit `i` of the bytes, and leaves every other bit as it was. Requires that `i` is below eight times the number
/// of bytes. arrow2's documentation requires `i` below an eighth of the number of bytes.
pub fn set_bit(bytes: &mut [u8], i: usize, value: bool)
    requires { i < 8 * length bytes.old }
    ensures { bits bytes.new ≡ slice_set (bits bytes.old) i value }
{
    bytes[i / 8] = set(bytes[i / 8], i % 8, value);
}

/// Returns the number of bytes that `bits` bits need: `bits / 8`, rounded up. The result is exact for every number of
/// bits; arrow2's is 1 too low from `usize::MAX - 6` on.
pub fn bytes_for(bits: usize) -> usize
    ensures { result ≡ (bits + 7) / 8 }
{
    bits.div_ceil(8)
}
