//! Offsets of 32 bits as offsets of 64 bits, and back.
ghost use Rattle.std.specs.Prelude.{◌≡◌, ◌≤◌, length};
ghost use Rattle.arrow2_offset.specs.Offsets.{AreOffsets, last_of};
ghost use Rattle.arrow2_ffi.specs.OffsetWrites.{WritesFromOffsets, WritesFromOffsetsOr};

use crate::codes::{ARROW2_LENGTH, ARROW2_OK, ARROW2_OVERFLOW};
use crate::offsets::calls::error_code;
use arrow2_offset::slices::last;
use arrow2_offset::widths::{write_narrow, write_wide};

/// Writes the offsets to `out`, in 64 bits each.
///
/// Returns the code of `arrow2_offsets32_check` where the numbers are not offsets, else `ARROW2_LENGTH` exactly where
/// `out` has more or fewer items than `offsets`.
#[unsafe(no_mangle)]
pub extern "C" fn arrow2_offsets_widen(offsets: &[i32], out: &mut [i64]) -> u32
    ensures { WritesFromOffsets result offsets.now (length out.old ≡ length offsets.now)
        (out.new ≡ offsets.now) (out.new ≡ out.old) }
{
    if let Some(code) = error_code(offsets) {
        return code;
    }
    if out.len() != offsets.len() {
        return ARROW2_LENGTH;
    }
    write_wide(offsets, out);
    ARROW2_OK
}

/// Writes the offsets to `out`, in 32 bits each.
///
/// Returns the code of `arrow2_offsets64_check` where the numbers are not offsets, else `ARROW2_LENGTH` exactly where
/// `out` has more or fewer items than `offsets`, else `ARROW2_OVERFLOW` exactly where the last number is above
/// 2147483647.
#[unsafe(no_mangle)]
pub extern "C" fn arrow2_offsets_narrow(offsets: &[i64], out: &mut [i32]) -> u32
    // The tests in the order of their codes: offsets, equal lengths, last offset. Then what `ARROW2_OK` writes, and
    // that any other code writes nothing.
    ensures { WritesFromOffsetsOr result offsets.now (length out.old ≡ length offsets.now)
        (last_of offsets.now ≤ 2147483647) ARROW2_OVERFLOW
        (out.new ≡ offsets.now) (out.new ≡ out.old) }
{
    if let Some(code) = error_code(offsets) {
        return code;
    }
    if out.len() != offsets.len() {
        return ARROW2_LENGTH;
    }
    if last(offsets) > i32::MAX as usize {
        return ARROW2_OVERFLOW;
    }
    write_narrow(offsets, out);
    ARROW2_OK
}
