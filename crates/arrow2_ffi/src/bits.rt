//! Bits of bytes: counting, comparing, reading, writing and copying them. Bit `i` is bit `i % 8` of byte `i / 8`, the
//! lowest first.
ghost use Rattle.std.specs.Prelude.{◌≡◌, ◌*◌, ◌<◌, false, length, slice_index_or, slice_set};
ghost use Rattle.arrow2_model.specs.Lists.{bits, part, falses};
ghost use Rattle.arrow2_ffi.specs.Ranges.{IsInside, HasBytesForBits};
ghost use Rattle.arrow2_ffi.specs.Writes.{ComparesBits, Stores, Writes, WritesIf};

use crate::bits_input::{Bits, are_both_inside, are_inside, has_bit, hold};
use crate::codes::{ARROW2_LENGTH, ARROW2_OK, ARROW2_RANGE};
use crate::in_place::copy;

/// Writes to `zeros` how many of the `length` bits from bit `offset` on are not set.
///
/// Returns `ARROW2_RANGE` exactly where these bits are not inside the bytes.
#[unsafe(no_mangle)]
pub extern "C" fn arrow2_count_zeros(
    bytes: &[u8],
    offset: usize,
    length: usize,
    zeros: &mut usize,
) -> u32
    ensures { WritesIf result (IsInside bytes.now offset length) ARROW2_RANGE
        (zeros.new ≡ falses (part (bits bytes.now) offset length)) (zeros.new ≡ zeros.old) }
{
    if !are_inside(Bits(bytes, offset), length) {
        return ARROW2_RANGE;
    }
    *zeros = arrow2_bits::count_zeros(bytes, offset, length);
    ARROW2_OK
}

/// Writes to `equal` whether the `length` bits of `left` from bit `left_offset` on equal the `length` bits of `right`
/// from bit `right_offset` on.
///
/// Returns `ARROW2_RANGE` exactly where the bits of `left` or of `right` are not inside their bytes.
#[unsafe(no_mangle)]
pub extern "C" fn arrow2_equal_bits(
    left: &[u8],
    left_offset: usize,
    right: &[u8],
    right_offset: usize,
    length: usize,
    equal: &mut bool,
) -> u32
    ensures { ComparesBits result length (left.now, left_offset) (right.now, right_offset)
        equal.old equal.new }
{
    if !are_both_inside(Bits(left, left_offset), Bits(right, right_offset), length) {
        return ARROW2_RANGE;
    }
    *equal = arrow2_bits::same_bits(left, left_offset, right, right_offset, length);
    ARROW2_OK
}

/// Writes to `value` whether bit `index` is set.
///
/// Returns `ARROW2_RANGE` exactly where the bit is not inside the bytes.
#[unsafe(no_mangle)]
pub extern "C" fn arrow2_get_bit(bytes: &[u8], index: usize, value: &mut bool) -> u32
    ensures { WritesIf result (index < 8 * length bytes.now) ARROW2_RANGE
        (value.new ≡ slice_index_or (bits bytes.now) index false) (value.new ≡ value.old) }
{
    if !has_bit(bytes, index) {
        return ARROW2_RANGE;
    }
    *value = arrow2_bits::get_bit(bytes, index);
    ARROW2_OK
}

/// Writes `value` to bit `index`, and leaves every other bit as it was.
///
/// Returns `ARROW2_RANGE` exactly where the bit is not inside the bytes.
#[unsafe(no_mangle)]
pub extern "C" fn arrow2_set_bit(bytes: &mut [u8], index: usize, value: bool) -> u32
    ensures { WritesIf result (index < 8 * length bytes.old) ARROW2_RANGE
        (bits bytes.new ≡ slice_set (bits bytes.old) index value) (bytes.new ≡ bytes.old) }
{
    if !has_bit(bytes, index) {
        return ARROW2_RANGE;
    }
    arrow2_bits::set_bit(bytes, index, value);
    ARROW2_OK
}

/// Copies the `length` bits that begin at bit `offset` to `out`, from bit 0 on. `out` must have exactly the number of
/// bytes that `length` bits need from bit 0 on, whatever `offset` is. Its padding bits become 0.
///
/// Returns `ARROW2_RANGE` exactly where the bits are not inside the bytes, else `ARROW2_LENGTH` exactly where `out` has
/// another number of bytes.
#[unsafe(no_mangle)]
pub extern "C" fn arrow2_copy_bits(
    bytes: &[u8],
    offset: usize,
    length: usize,
    out: &mut [u8],
) -> u32
    ensures { Writes result (IsInside bytes.now offset length) (HasBytesForBits out.old length)
        (Stores out.new length (part (bits bytes.now) offset length)) (out.new ≡ out.old) }
{
    let items = Bits(bytes, offset);
    if !are_inside(items, length) {
        return ARROW2_RANGE;
    }
    if !hold(out, length) {
        return ARROW2_LENGTH;
    }
    copy(items, length, out);
    ARROW2_OK
}
