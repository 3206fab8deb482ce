//! Checks that buffers have the bits and bytes that an array needs, and that a validity has the declared number of
//! nulls.
ghost use Rattle.std.specs.Prelude.{◌≡◌, ◌≢◌, ◌+◌, ◌*◌, ◌≤◌, ◌↔◌, ◌⊎◌, pos, negsuc};
ghost use Rattle.arrow2_model.specs.Lists.{bits, part, falses};
ghost use Rattle.arrow2_ffi.specs.Ranges.{IsInside};

use crate::bits_input::{Bits, are_inside};
use crate::codes::{ARROW2_NULLS, ARROW2_OK, ARROW2_RANGE};

/// Checks that the `length` bits from bit `offset` on are inside the bytes, and that exactly `null_count` of them are
/// not set. If `null_count` is -1, it is not checked. The call does not accept a missing validity: an empty slice has
/// no bits, so it gives `ARROW2_RANGE` where `offset + length` is above 0. An array of the null type (format `n`) has
/// no validity bitmap and counts all its items as null, so its `null_count` must not be passed to this call.
///
/// Returns `ARROW2_RANGE` exactly where these bits are not inside the bytes, else `ARROW2_NULLS` exactly where
/// `null_count` is neither -1 nor the number of zeros.
#[unsafe(no_mangle)]
pub extern "C" fn arrow2_validity_check(
    bytes: &[u8],
    offset: usize,
    length: usize,
    null_count: i64,
) -> u32
    ensures range { result ≡ ARROW2_RANGE ↔ ¬ IsInside bytes.now offset length }
    // `negsuc 0` is -1.
    ensures nulls { result ≡ ARROW2_NULLS ↔ ((result ≢ ARROW2_RANGE) × (null_count ≢ negsuc 0)
        × (null_count ≢ pos (falses (part (bits bytes.now) offset length)))) }
    ensures only { (result ≡ ARROW2_OK) ⊎ (result ≡ ARROW2_RANGE) ⊎ (result ≡ ARROW2_NULLS) }
{
    if !are_inside(Bits(bytes, offset), length) {
        return ARROW2_RANGE;
    }
    let zeros = arrow2_bits::count_zeros(bytes, offset, length);
    if null_count != -1 && i128::from(null_count) != zeros as i128 {
        return ARROW2_NULLS;
    }
    ARROW2_OK
}

/// Checks that the `length` bits from bit `offset` on are inside `bytes` bytes.
///
/// Returns `ARROW2_RANGE` exactly where they are not.
#[unsafe(no_mangle)]
pub extern "C" fn arrow2_bits_check(bytes: usize, offset: usize, length: usize) -> u32
    ensures ok { result ≡ ARROW2_OK ↔ (offset + length ≤ 8 * bytes) }
    ensures only { (result ≡ ARROW2_OK) ⊎ (result ≡ ARROW2_RANGE) }
{
    if offset as u128 + length as u128 > 8 * bytes as u128 {
        return ARROW2_RANGE;
    }
    ARROW2_OK
}

/// Checks that the `length` values from value `offset` on, of `width` bytes each, are inside `bytes` bytes:
/// `(offset + length) * width`, computed exactly, is at most `bytes`, also where `length` is 0. Values of width 0
/// always are.
///
/// Returns `ARROW2_RANGE` exactly where they are not.
#[unsafe(no_mangle)]
pub extern "C" fn arrow2_values_check(
    bytes: usize,
    width: usize,
    offset: usize,
    length: usize,
) -> u32
    ensures ok { result ≡ ARROW2_OK ↔ ((offset + length) * width ≤ bytes) }
    ensures only { (result ≡ ARROW2_OK) ⊎ (result ≡ ARROW2_RANGE) }
{
    if width > 0 && offset as u128 + length as u128 > (bytes / width) as u128 {
        return ARROW2_RANGE;
    }
    ARROW2_OK
}
