//! Checks of offsets of either width together with what they index: that none is above the number of items, and that
//! the bytes of each slot are UTF-8.
ghost use Rattle.std.specs.Prelude.{◌≡◌, ◌+◌, ◌-◌, ◌<◌, ◌≤◌, ◌<ℤ◌, ◌≤ℤ◌, ℕ, pos, map, length, slice_index_or};
ghost use Rattle.arrow2_offset.specs.Offsets.{AreOffsets, last_of};
ghost use Rattle.arrow2_ffi.specs.Cuts.{IsFirstFalling, IsFirstPast, ChecksOffsets, ChecksTexts};

use crate::codes::{ARROW2_OK, ARROW2_PAST, ARROW2_SPEC_FALLING, ARROW2_UTF8};
use crate::offsets::calls::error_code;
use arrow2_index::OffsetNumber;
use arrow2_offset::slices::last;
use arrow2_utf8::{BrokenTextArray, BrokenTexts, try_check_offsets_and_utf8};

/// Checks that the numbers are offsets, and none is above `items`. Returns the code of the first rule that they break,
/// else `ARROW2_PAST` exactly where the last one is above `items`. With `ARROW2_SPEC_FALLING` writes the index of the
/// first number that is below the one before it, with `ARROW2_PAST` the index of the first number above `items`. With
/// any other code writes nothing.
pub(crate) fn check_inside<O: OffsetNumber>(offsets: &[O], items: usize, index: &mut usize) -> u32
    ensures { ChecksOffsets result (map O.value offsets.now) items index.old index.new }
{
    if let Some(code) = error_code(offsets) {
        if code == ARROW2_SPEC_FALLING {
            *index = first_falling(offsets);
        }
        return code;
    }
    if last(offsets) > items {
        *index = first_past(offsets, items);
        return ARROW2_PAST;
    }
    ARROW2_OK
}

/// Checks that the numbers are offsets, none is above the number of bytes in `values`, and the bytes of each slot are
/// UTF-8. Where the code of `check_inside` is not `ARROW2_OK`, returns this code, and writes what that call writes.
/// Else returns `ARROW2_UTF8` exactly where a slot is not UTF-8, and writes the first such slot. With `ARROW2_OK`
/// writes nothing.
pub(crate) fn check_texts<O: OffsetNumber>(offsets: &[O], values: &[u8], index: &mut usize) -> u32
    ensures { ChecksTexts result (map O.value offsets.now) values.now index.old index.new }
{
    match try_check_offsets_and_utf8(offsets, values) {
        Ok(()) => ARROW2_OK,
        Err(BrokenTextArray::Texts(BrokenTexts::NotUtf8(slot))) => {
            *index = slot;
            ARROW2_UTF8
        }
        Err(BrokenTextArray::Offsets(_)) => check_inside(offsets, values.len(), index),
        Err(BrokenTextArray::Texts(BrokenTexts::PastTheValues)) => {
            check_inside(offsets, values.len(), index)
        }
    }
}

/// Returns the index of the first number that is below the one before it, or the length of `offsets` if there is none.
fn first_falling<O: OffsetNumber>(offsets: &[O]) -> usize
    // `before`: no number at an index below the result is below the one before it. `found`: if the result is an index,
    // the number there is the first that is below the one before it. So without such a number the result is the length.
    ensures before { (k : ℕ) → k + 1 < result → slice_index_or (map O.value offsets.now) k (pos 0)
        ≤ℤ slice_index_or (map O.value offsets.now) (k + 1) (pos 0) }
    ensures found { result < length offsets.now → IsFirstFalling (map O.value offsets.now) result }
    ensures within { result ≤ length offsets.now }
{
    for index in 1..offsets.len() {
        if offsets[index] < offsets[index - 1] {
            return index;
        }
    }
    offsets.len()
}

/// Returns the index of the first offset that is above `items`. Requires that the numbers are offsets, and that the
/// last one is above `items`.
fn first_past<O: OffsetNumber>(offsets: &[O], items: usize) -> usize
    requires valid { AreOffsets (map O.value offsets.now) }
    requires past { items < last_of (map O.value offsets.now) }
    ensures { IsFirstPast (map O.value offsets.now) items result }
{
    for index in 0..offsets.len() - 1 {
        if offsets[index].as_usize() > items {
            return index;
        }
    }
    offsets.len() - 1
}
