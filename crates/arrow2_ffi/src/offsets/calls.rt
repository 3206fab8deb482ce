//! The bodies of the exports on offsets, for either width.
ghost use Rattle.std.specs.Prelude.{◌≡◌, ◌≢◌, ◌+◌, ◌-◌, ◌<◌, ◌↔◌, ◌⊎◌, pos, map, length, IfNone, IfSome};
ghost use Rattle.arrow2_offset.specs.Offsets.{AreOffsets, AreOffsetsUpTo, last_offset, lengths_of, offsets_list};
ghost use Rattle.arrow2_model.specs.Lists.{part};
ghost use Rattle.arrow2_offset.specs.Failures.{first_broken_rule};
ghost use Rattle.arrow2_ffi.specs.OffsetWrites.{RebasesTo, WritesFromOffsets};
ghost use Rattle.arrow2_ffi.specs.Rules.{rule_code, ReportsBrokenRule};

use crate::codes::{
    ARROW2_LENGTH, ARROW2_OK, ARROW2_OVERFLOW, ARROW2_RANGE, ARROW2_SPEC_EMPTY,
    ARROW2_SPEC_FALLING, ARROW2_SPEC_NEGATIVE,
};
use arrow2_index::OffsetNumber;
use arrow2_offset::slices::{fits, last, write_lengths, write_part, write_sums};
use arrow2_offset::{BrokenRule, broken_rule};

/// Returns the code of the first rule that the numbers break, or `None` where they are offsets.
pub(crate) fn error_code<O: OffsetNumber>(offsets: &[O]) -> Option<u32>
    ensures none { IfNone result (AreOffsetsUpTo O.MAX (map O.value offsets.now)) }
    ensures some { IfSome result (λ code. ReportsBrokenRule code (map O.value offsets.now)) }
{
    match broken_rule(offsets) {
        None => None,
        Some(BrokenRule::Empty) => Some(ARROW2_SPEC_EMPTY),
        Some(BrokenRule::Negative) => Some(ARROW2_SPEC_NEGATIVE),
        Some(BrokenRule::Falling) => Some(ARROW2_SPEC_FALLING),
    }
}

/// Returns `ARROW2_OK` where the numbers are offsets, else the code of the first rule that they break.
pub(crate) fn check<O: OffsetNumber>(offsets: &[O]) -> u32
    ensures ok { result ≡ ARROW2_OK ↔ AreOffsets (map O.value offsets.now) }
    ensures broken { result ≢ ARROW2_OK →
        result ≡ rule_code (first_broken_rule (map O.value offsets.now)) }
{
    error_code(offsets).unwrap_or(ARROW2_OK)
}

/// Writes the length of each slot: the next offset minus its own.
///
/// Returns the code of `check` where the numbers are not offsets, else `ARROW2_LENGTH` exactly where the number of
/// items of `lengths` is not that of `offsets` minus 1. Writes nothing but with `ARROW2_OK`.
pub(crate) fn lengths<O: OffsetNumber>(offsets: &[O], lengths: &mut [usize]) -> u32
    ensures { WritesFromOffsets result (map O.value offsets.now)
        (length offsets.now ≡ length lengths.old + 1)
        (lengths.new ≡ lengths_of (map O.value offsets.now)) (lengths.new ≡ lengths.old) }
{
    match error_code(offsets) {
        Some(code) => code,
        None => lengths_unchecked(offsets, lengths),
    }
}

/// Writes the length of each slot, and tests no offset. Requires that the numbers are offsets.
///
/// Returns `ARROW2_LENGTH` exactly where the number of items of `lengths` is not that of `offsets` minus 1. Writes
/// nothing but with `ARROW2_OK`.
pub(crate) fn lengths_unchecked<O: OffsetNumber>(offsets: &[O], lengths: &mut [usize]) -> u32
    requires valid { AreOffsets (map O.value offsets.now) }
    ensures { WritesFromOffsets result (map O.value offsets.now)
        (length offsets.now ≡ length lengths.old + 1)
        (lengths.new ≡ lengths_of (map O.value offsets.now)) (lengths.new ≡ lengths.old) }
{
    if offsets.len() - 1 != lengths.len() {
        return ARROW2_LENGTH;
    }
    write_lengths(offsets, lengths);
    ARROW2_OK
}

/// Writes `start`, then for each length the number written last plus this length.
///
/// Returns `ARROW2_LENGTH` exactly where the number of items of `offsets` is not that of `lengths` plus 1, else
/// `ARROW2_OVERFLOW` exactly where `start` and all lengths, added up exactly, are above `O::MAX`. Writes nothing but
/// with `ARROW2_OK`.
pub(crate) fn sums<O: OffsetNumber>(start: usize, lengths: &[usize], offsets: &mut [O]) -> u32
    ensures length { result ≡ ARROW2_LENGTH ↔ (length offsets.old ≢ length lengths.now + 1) }
    ensures overflow { result ≡ ARROW2_OVERFLOW ↔
        ((result ≢ ARROW2_LENGTH) × (O.MAX < last_offset start lengths.now)) }
    ensures only { (result ≡ ARROW2_OK) ⊎ (result ≡ ARROW2_LENGTH) ⊎ (result ≡ ARROW2_OVERFLOW) }
    ensures ok { result ≡ ARROW2_OK → map O.value offsets.new
        ≡ map pos (offsets_list start lengths.now) }
    ensures rejected { result ≢ ARROW2_OK → offsets.new ≡ offsets.old }
{
    if offsets.is_empty() || offsets.len() - 1 != lengths.len() {
        return ARROW2_LENGTH;
    }
    if !fits::<O>(start, lengths) {
        return ARROW2_OVERFLOW;
    }
    write_sums(start, lengths, offsets);
    ARROW2_OK
}

/// Sets `out[i]` to `offsets[from + i] - offsets[from]`, for each index `i` of `out`.
///
/// Returns the code of `check` where the numbers are not offsets, else `ARROW2_LENGTH` exactly where `out` has no item,
/// else `ARROW2_RANGE` exactly where `from` plus the number of items of `out` is above that of `offsets`. Writes
/// nothing but with `ARROW2_OK`.
pub(crate) fn rebase<O: OffsetNumber>(offsets: &[O], from: usize, out: &mut [O]) -> u32
    ensures { RebasesTo result (map O.value offsets.now) from (length out.old)
        (map O.value out.new) (out.new ≡ out.old) }
{
    match error_code(offsets) {
        Some(code) => code,
        None => rebase_unchecked(offsets, from, out),
    }
}

/// Sets `out[i]` to `offsets[from + i] - offsets[from]`, for each index `i` of `out`, and tests no offset. Requires that
/// the numbers are offsets.
///
/// Returns `ARROW2_LENGTH` exactly where `out` has no item, else `ARROW2_RANGE` exactly where `from` plus the number of
/// items of `out` is above that of `offsets`. Writes nothing but with `ARROW2_OK`.
pub(crate) fn rebase_unchecked<O: OffsetNumber>(offsets: &[O], from: usize, out: &mut [O]) -> u32
    requires valid { AreOffsets (map O.value offsets.now) }
    ensures { RebasesTo result (map O.value offsets.now) from (length out.old)
        (map O.value out.new) (out.new ≡ out.old) }
{
    if out.is_empty() {
        return ARROW2_LENGTH;
    }
    if from > offsets.len() || out.len() > offsets.len() - from {
        return ARROW2_RANGE;
    }
    // For the proof alone: a number that is read is in the range of its type, so no offset is above `O::MAX`.
    let _last = last(offsets);
    write_part(offsets, from, out);
    ARROW2_OK
}
