//! Offsets of 32 and of 64 bits: where the value of each slot begins. There is one more offset than there are slots. No
//! offset is negative, and none is below the one before it.
ghost use Rattle.std.specs.Prelude.{◌≡◌, ◌≢◌, ◌+◌, ◌<◌, ◌↔◌, ◌⊎◌, pos, map, length};
ghost use Rattle.arrow2_offset.specs.Offsets.{AreOffsets, last_offset, offsets_list};
ghost use Rattle.arrow2_offset.specs.Failures.{first_broken_rule};
ghost use Rattle.arrow2_ffi.specs.OffsetWrites.{WritesLengths, WritesRebased};
ghost use Rattle.arrow2_ffi.specs.Rules.{rule_code};

pub(crate) mod calls;
pub mod widths;

use crate::codes::{ARROW2_LENGTH, ARROW2_OK, ARROW2_OVERFLOW, ARROW2_RANGE};
use crate::offsets::calls::{check, lengths, lengths_unchecked, rebase, rebase_unchecked, sums};

/// Checks whether the numbers are offsets of 32 bits.
///
/// `ARROW2_OK`: the numbers are offsets. `ARROW2_SPEC_EMPTY`: there is no number. `ARROW2_SPEC_NEGATIVE`: the first
/// number is negative. `ARROW2_SPEC_FALLING`: the first number is not negative, and some number is below the one before
/// it.
#[unsafe(no_mangle)]
pub extern "C" fn arrow2_offsets32_check(offsets: &[i32]) -> u32
    ensures ok { result ≡ ARROW2_OK ↔ AreOffsets offsets.now }
    ensures broken { result ≢ ARROW2_OK → result ≡ rule_code (first_broken_rule offsets.now) }
{
    check(offsets)
}

/// Writes the length of each slot to `out`: the next offset minus its own. Offsets have 32 bits.
///
/// Returns the code of `arrow2_offsets32_check` where the numbers are not offsets, else `ARROW2_LENGTH` exactly where
/// the number of items of `out` is not that of `offsets` minus 1.
#[unsafe(no_mangle)]
pub extern "C" fn arrow2_offsets32_lengths(offsets: &[i32], out: &mut [usize]) -> u32
    ensures { WritesLengths result offsets.now out.old out.new }
{
    lengths(offsets, out)
}

/// Writes the length of each slot to `out`, as `arrow2_offsets32_lengths` does, and tests no offset. Requires that
/// `arrow2_offsets32_check` returns `ARROW2_OK` for the numbers, so there is at least one. With other numbers the
/// behaviour is undefined: memory outside `offsets` may be read.
///
/// Returns `ARROW2_LENGTH` exactly where the number of items of `out` is not that of `offsets` minus 1.
#[unsafe(no_mangle)]
pub extern "C" fn arrow2_offsets32_lengths_unchecked(offsets: &[i32], out: &mut [usize]) -> u32
    requires valid { AreOffsets offsets.now }
    ensures { WritesLengths result offsets.now out.old out.new }
{
    lengths_unchecked(offsets, out)
}

/// Writes offsets of 32 bits to `out`: first `start`, then for each length the sum of `start` and all lengths up to and
/// including this one.
///
/// Returns `ARROW2_LENGTH` exactly where the number of items of `out` is not that of `lengths` plus 1, else
/// `ARROW2_OVERFLOW` exactly where the exact sum of `start` and all lengths is above 2147483647.
#[unsafe(no_mangle)]
pub extern "C" fn arrow2_offsets32_from_lengths(
    start: usize,
    lengths: &[usize],
    out: &mut [i32],
) -> u32
    ensures length { result ≡ ARROW2_LENGTH ↔ (length out.old ≢ length lengths.now + 1) }
    ensures overflow { result ≡ ARROW2_OVERFLOW ↔
        ((result ≢ ARROW2_LENGTH) × (2147483647 < last_offset start lengths.now)) }
    ensures only { (result ≡ ARROW2_OK) ⊎ (result ≡ ARROW2_LENGTH) ⊎ (result ≡ ARROW2_OVERFLOW) }
    ensures ok { result ≡ ARROW2_OK → out.new ≡ map pos (offsets_list start lengths.now) }
    ensures rejected { result ≢ ARROW2_OK → out.new ≡ out.old }
{
    sums(start, lengths, out)
}

/// Sets `out[i]` to `offsets[from + i] - offsets[from]` for each index `i` of `out`. So the written offsets begin at 0,
/// and each slot keeps its length. Offsets have 32 bits.
///
/// Returns the code of `arrow2_offsets32_check` where the numbers are not offsets, else `ARROW2_LENGTH` exactly where
/// `out` has no item, else `ARROW2_RANGE` exactly where `from` plus the number of items of `out` is above that of
/// `offsets`.
#[unsafe(no_mangle)]
pub extern "C" fn arrow2_offsets32_rebase(offsets: &[i32], from: usize, out: &mut [i32]) -> u32
    ensures { WritesRebased result offsets.now from out.old out.new }
{
    rebase(offsets, from, out)
}

/// Fills `out` with offsets of 32 bits, as `arrow2_offsets32_rebase` does, and tests no offset. Requires that
/// `arrow2_offsets32_check` returns `ARROW2_OK` for the numbers, so there is at least one. With other numbers the
/// behaviour is undefined: memory outside `offsets` may be read.
///
/// Returns `ARROW2_LENGTH` exactly where `out` has no item, else `ARROW2_RANGE` exactly where `from` plus the number of
/// items of `out` is above that of `offsets`.
#[unsafe(no_mangle)]
pub extern "C" fn arrow2_offsets32_rebase_unchecked(
    offsets: &[i32],
    from: usize,
    out: &mut [i32],
) -> u32
    requires valid { AreOffsets offsets.now }
    ensures { WritesRebased result offsets.now from out.old out.new }
{
    rebase_unchecked(offsets, from, out)
}

/// Checks whether the numbers are offsets of 64 bits.
///
/// `ARROW2_OK`: the numbers are offsets. `ARROW2_SPEC_EMPTY`: there is no number. `ARROW2_SPEC_NEGATIVE`: the first
/// number is negative. `ARROW2_SPEC_FALLING`: the first number is not negative, and some number is below the one before
/// it.
#[unsafe(no_mangle)]
pub extern "C" fn arrow2_offsets64_check(offsets: &[i64]) -> u32
    ensures ok { result ≡ ARROW2_OK ↔ AreOffsets offsets.now }
    ensures broken { result ≢ ARROW2_OK → result ≡ rule_code (first_broken_rule offsets.now) }
{
    check(offsets)
}

/// Writes the length of each slot to `out`: the next offset minus its own. Offsets have 64 bits.
///
/// Returns the code of `arrow2_offsets64_check` where the numbers are not offsets, else `ARROW2_LENGTH` exactly where
/// the number of items of `out` is not that of `offsets` minus 1.
#[unsafe(no_mangle)]
pub extern "C" fn arrow2_offsets64_lengths(offsets: &[i64], out: &mut [usize]) -> u32
    ensures { WritesLengths result offsets.now out.old out.new }
{
    lengths(offsets, out)
}

/// Writes the length of each slot to `out`, as `arrow2_offsets64_lengths` does, and tests no offset. Requires that
/// `arrow2_offsets64_check` returns `ARROW2_OK` for the numbers, so there is at least one. With other numbers the
/// behaviour is undefined: memory outside `offsets` may be read.
///
/// Returns `ARROW2_LENGTH` exactly where the number of items of `out` is not that of `offsets` minus 1.
#[unsafe(no_mangle)]
pub extern "C" fn arrow2_offsets64_lengths_unchecked(offsets: &[i64], out: &mut [usize]) -> u32
    requires valid { AreOffsets offsets.now }
    ensures { WritesLengths result offsets.now out.old out.new }
{
    lengths_unchecked(offsets, out)
}

/// Writes offsets of 64 bits to `out`: first `start`, then for each length the sum of `start` and all lengths up to and
/// including this one.
///
/// Returns `ARROW2_LENGTH` exactly where the number of items of `out` is not that of `lengths` plus 1, else
/// `ARROW2_OVERFLOW` exactly where the exact sum of `start` and all lengths is above 9223372036854775807.
#[unsafe(no_mangle)]
pub extern "C" fn arrow2_offsets64_from_lengths(
    start: usize,
    lengths: &[usize],
    out: &mut [i64],
) -> u32
    ensures length { result ≡ ARROW2_LENGTH ↔ (length out.old ≢ length lengths.now + 1) }
    ensures overflow { result ≡ ARROW2_OVERFLOW ↔
        ((result ≢ ARROW2_LENGTH) × (9223372036854775807 < last_offset start lengths.now)) }
    ensures only { (result ≡ ARROW2_OK) ⊎ (result ≡ ARROW2_LENGTH) ⊎ (result ≡ ARROW2_OVERFLOW) }
    ensures ok { result ≡ ARROW2_OK → out.new ≡ map pos (offsets_list start lengths.now) }
    ensures rejected { result ≢ ARROW2_OK → out.new ≡ out.old }
{
    sums(start, lengths, out)
}

/// Sets `out[i]` to `offsets[from + i] - offsets[from]` for each index `i` of `out`. So the written offsets begin at 0,
/// and each slot keeps its length. Offsets have 64 bits.
///
/// Returns the code of `arrow2_offsets64_check` where the numbers are not offsets, else `ARROW2_LENGTH` exactly where
/// `out` has no item, else `ARROW2_RANGE` exactly where `from` plus the number of items of `out` is above that of
/// `offsets`.
#[unsafe(no_mangle)]
pub extern "C" fn arrow2_offsets64_rebase(offsets: &[i64], from: usize, out: &mut [i64]) -> u32
    ensures { WritesRebased result offsets.now from out.old out.new }
{
    rebase(offsets, from, out)
}

/// Fills `out` with offsets of 64 bits, as `arrow2_offsets64_rebase` does, and tests no offset. Requires that
/// `arrow2_offsets64_check` returns `ARROW2_OK` for the numbers, so there is at least one. With other numbers the
/// behaviour is undefined: memory outside `offsets` may be read.
///
/// Returns `ARROW2_LENGTH` exactly where `out` has no item, else `ARROW2_RANGE` exactly where `from` plus the number of
/// items of `out` is above that of `offsets`.
#[unsafe(no_mangle)]
pub extern "C" fn arrow2_offsets64_rebase_unchecked(
    offsets: &[i64],
    from: usize,
    out: &mut [i64],
) -> u32
    requires valid { AreOffsets offsets.now }
    ensures { WritesRebased result offsets.now from out.old out.new }
{
    rebase_unchecked(offsets, from, out)
}
