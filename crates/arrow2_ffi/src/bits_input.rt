//! Bits, given by their bytes and the number of the first bit; tests of such bits and of slices.
ghost use Rattle.std.specs.Prelude.{◌≡◌, ◌*◌, ◌<◌, ◌↔◌, IsTrue, length};
ghost use Rattle.arrow2_ffi.specs.Ranges.{HasBits, HasBytesForBits};

use arrow2_bits::bytes_for;

/// The bits of some bytes from one bit on: the bytes, and the number of that bit.
#[derive(Clone, Copy)]
pub(crate) struct Bits<'a>(pub(crate) &'a [u8], pub(crate) usize);

/// Returns whether the first `len` bits are inside the bytes.
pub(crate) fn are_inside(bits: Bits<'_>, len: usize) -> bool
    ensures { IsTrue result ↔ HasBits bits.entry len }
{
    bits.1 as u128 + len as u128 <= 8 * bits.0.len() as u128
}

/// Returns whether the first `len` bits of both are inside their bytes.
pub(crate) fn are_both_inside(first: Bits<'_>, second: Bits<'_>, len: usize) -> bool
    ensures { IsTrue result ↔ (HasBits first.entry len × HasBits second.entry len) }
{
    are_inside(first, len) && are_inside(second, len)
}

/// Returns whether the number of bytes is exactly what `len` bits need.
pub(crate) fn hold(bytes: &[u8], len: usize) -> bool
    ensures { IsTrue result ↔ HasBytesForBits bytes.now len }
{
    bytes.len() == bytes_for(len)
}

/// Returns whether bit `index` is inside the bytes.
pub(crate) fn has_bit(bytes: &[u8], index: usize) -> bool
    ensures { IsTrue result ↔ (index < 8 * length bytes.now) }
{
    index / 8 < bytes.len()
}
