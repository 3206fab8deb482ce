//! Words read from bytes at a bit offset.
ghost use Rattle.std.specs.Prelude.{◌≡◌, ℕ, ◌+◌, ◌*◌, ◌<◌, ◌≤◌, ◌^◌, get_or, false, length};
ghost use Rattle.arrow2_model.specs.Lists.{bit, bits, unnum, num, part};

use arrow2_chunk::BitChunk;

/// Returns the word of the bits from bit `shift` on. Requires that the bits are inside the bytes, and that `shift` is
/// below 8.
///
/// Takes one load where `shift` is 0, else two loads that overlap, two shifts and an or.
pub(crate) fn chunk_at<T: BitChunk>(bytes: &[u8], shift: usize) -> T
    requires position { shift < 8 }
    requires within { shift + T.WIDTH ≤ 8 * length bytes.now }
    ensures bits { unnum T.WIDTH (T.number result)
        ≡ part (bits bytes.now) shift T.WIDTH }
    ensures fits { T.number result < 2 ^ T.WIDTH }
{
    let low = T::from_ne_slice(&bytes[..T::SIZE]);
    if shift == 0 {
        return low;
    }
    let high = T::from_ne_slice(&bytes[1..1 + T::SIZE]);
    low.down(shift).bit_or(high.up(8 - shift))
}

/// Returns the word of the bits from bit `shift` on, where bits past the bytes count as false. Requires that `shift` is
/// below 8.
pub(crate) fn padded_chunk_at<T: BitChunk>(bytes: &[u8], shift: usize) -> T
    requires { shift < 8 }
    ensures number { T.number result ≡ num (part (bits bytes.now) shift T.WIDTH) }
    ensures fits { T.number result < 2 ^ T.WIDTH }
{
    if bytes.len() > T::SIZE {
        return chunk_at(bytes, shift);
    }
    let mut padded = [0u8; 16];
    padded[..bytes.len()].copy_from_slice(bytes);
    chunk_at(&padded, shift)
}

/// Returns the word of the bits from bit `offset + position` on, where bits past the bytes count as false. The sum need
/// not fit a `usize`. Requires that the first bit is inside the bytes.
pub fn word_from(bytes: &[u8], offset: usize, position: usize) -> u64
    requires { offset + position < 8 * length bytes.now }
    ensures { (i : ℕ) → i < 64 →
        bit result i ≡ get_or (bits bytes.now) (offset + (position + i)) false }
{
    let within = offset % 8 + position % 8;
    let first = offset / 8 + position / 8 + within / 8;
    padded_chunk_at(&bytes[first..], within % 8)
}
