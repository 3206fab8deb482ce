//! Checks of offsets together with what they index: items, or bytes that must be UTF-8.
ghost use Rattle.std.specs.Prelude.{length};
ghost use Rattle.arrow2_ffi.specs.Cuts.{ChecksOffsets, ChecksTexts};

use crate::inside::{check_inside, check_texts};

/// Checks that the numbers are offsets of 32 bits, and none is above `items`.
///
/// Returns the code of `arrow2_offsets32_check` where the numbers are not offsets, else `ARROW2_PAST` exactly where the
/// last one is above `items`. With `ARROW2_SPEC_FALLING` writes to `index` the index of the first number that is below
/// the one before it, with `ARROW2_PAST` the index of the first number above `items`. With any other code `index` stays
/// as it was.
#[unsafe(no_mangle)]
pub extern "C" fn arrow2_offsets32_check_inside(
    offsets: &[i32],
    items: usize,
    index: &mut usize,
) -> u32
    ensures { ChecksOffsets result offsets.now items index.old index.new }
{
    check_inside(offsets, items, index)
}

/// Does what `arrow2_offsets32_check_inside` does, for offsets of 64 bits and with the codes of
/// `arrow2_offsets64_check`.
#[unsafe(no_mangle)]
pub extern "C" fn arrow2_offsets64_check_inside(
    offsets: &[i64],
    items: usize,
    index: &mut usize,
) -> u32
    ensures { ChecksOffsets result offsets.now items index.old index.new }
{
    check_inside(offsets, items, index)
}

/// Checks that the numbers are offsets of 32 bits, none is above the number of bytes in `values`, and the bytes of each
/// slot, from its offset to the next, are UTF-8.
///
/// First checks the offsets as `arrow2_offsets32_check_inside` does, where `items` is the number of bytes in `values`.
/// If that check fails, returns its code, and writes to `index` what it writes.
///
/// Else returns `ARROW2_UTF8` exactly where the bytes of a slot are not UTF-8, and writes the index of the first such
/// slot to `index`. With `ARROW2_OK`, `ARROW2_SPEC_EMPTY` and `ARROW2_SPEC_NEGATIVE`, `index` stays as it was.
#[unsafe(no_mangle)]
pub extern "C" fn arrow2_texts32_check(offsets: &[i32], values: &[u8], index: &mut usize) -> u32
    ensures { ChecksTexts result offsets.now values.now index.old index.new }
{
    check_texts(offsets, values, index)
}

/// Does what `arrow2_texts32_check` does, for offsets of 64 bits.
#[unsafe(no_mangle)]
pub extern "C" fn arrow2_texts64_check(offsets: &[i64], values: &[u8], index: &mut usize) -> u32
    ensures { ChecksTexts result offsets.now values.now index.old index.new }
{
    check_texts(offsets, values, index)
}
