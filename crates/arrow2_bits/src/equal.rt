//! Whether bits are the same.
ghost use Rattle.std.specs.Prelude.{◌≡◌, ◌+◌, ◌*◌, ◌≤◌, ◌↔◌, length, IsTrue};
ghost use Rattle.arrow2_model.specs.Lists.{bits, part};

use crate::chunk_iterator::BitChunks;
use arrow2_chunk::BitChunk;

/// Returns whether the `len` bits of `left` from bit `left_offset` on equal the `len` bits of `right` from bit
/// `right_offset` on. Compares 64 bits at a time. Requires that the bits are inside `left` and `right`.
///
/// arrow2 does this inside `==` of bitmaps.
pub fn same_bits(
    left: &[u8],
    left_offset: usize,
    right: &[u8],
    right_offset: usize,
    len: usize,
) -> bool
    requires left { left_offset + len ≤ 8 * length left.now }
    requires right { right_offset + len ≤ 8 * length right.now }
    ensures { IsTrue result ↔
        (part (bits left.now) left_offset len ≡ part (bits right.now) right_offset len) }
{
    let mut words = BitChunks::<u64>::new(left, left_offset, len);
    let mut others = BitChunks::<u64>::new(right, right_offset, len);
    while let Some(word) = words.next() {
        let Some(other) = others.next() else {
            return false;
        };
        if word != other {
            return false;
        }
    }
    let following = words.remainder_len();
    BitChunk::masked(words.remainder(), following)
        == BitChunk::masked(others.remainder(), following)
}
