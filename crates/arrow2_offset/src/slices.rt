//! Reads and writes offsets and lengths in slices of the caller. Does not allocate.
//!
//! arrow2 has these loops only inside its offsets.
ghost use Rattle.std.specs.Prelude.{◌≡◌, ◌+◌, ◌-◌, ◌*◌, ◌<◌, ◌≤◌, ◌↔◌, pos, map, length, sum, IsTrue};
ghost use Rattle.arrow2_model.specs.Lists.{part};
ghost use Rattle.arrow2_offset.specs.Offsets.{AreOffsets, AreOffsetsUpTo, last_of, last_offset, lengths_of, offsets_list};

use arrow2_index::OffsetNumber;

/// Returns the last of the offsets. Requires that the numbers are offsets.
pub fn last<O: OffsetNumber>(offsets: &[O]) -> usize
    requires valid { AreOffsets (map O.value offsets.now) }
    ensures value { result ≡ last_of (map O.value offsets.now) }
    ensures bound { result ≤ O.MAX }
{
    offsets[offsets.len() - 1].as_usize()
}

/// Sets `lengths[i]` to `offsets[i + 1] - offsets[i]`. Requires that the numbers are offsets, and that `lengths` has
/// one item fewer than `offsets`.
pub fn write_lengths<O: OffsetNumber>(offsets: &[O], lengths: &mut [usize])
    requires valid { AreOffsets (map O.value offsets.now) }
    requires exact { length offsets.now ≡ length lengths.old + 1 }
    ensures { lengths.new ≡ lengths_of (map O.value offsets.now) }
{
    for i in 0..lengths.len() {
        lengths[i] = offsets[i].distance(offsets[i + 1]);
    }
}

/// Returns whether the exact sum of the start and all lengths is at most `O::MAX`.
pub fn fits<O: OffsetNumber>(start: usize, lengths: &[usize]) -> bool
    ensures { IsTrue result ↔ (last_offset start lengths.now ≤ O.MAX) }
{
    let most = start as u128 + lengths.len() as u128 * all_bits(lengths) as u128;
    most <= O::MAX as u128 || total(start, lengths) <= O::MAX as u128
}

/// Returns the bitwise or of all lengths. No length exceeds it, so their sum is at most their number times the result,
/// which is all that the clause states. It is found faster than their sum.
fn all_bits(lengths: &[usize]) -> usize
    ensures { sum lengths.now ≤ length lengths.now * result }
{
    let mut bits = 0;
    for length in lengths {
        bits |= *length;
    }
    bits
}

/// Returns the start and all lengths, added up exactly.
fn total(start: usize, lengths: &[usize]) -> u128
    ensures { result ≡ last_offset start lengths.now }
{
    let mut sum = start as u128;
    for length in lengths {
        sum += *length as u128;
    }
    sum
}

/// Sets `offsets[i]` to `start` plus the first `i` lengths. Requires that `offsets` has one item more than `lengths`,
/// and that `start` plus all lengths is at most `O::MAX`.
pub fn write_sums<O: OffsetNumber>(start: usize, lengths: &[usize], offsets: &mut [O])
    requires exact { length offsets.old ≡ length lengths.now + 1 }
    requires fits { last_offset start lengths.now ≤ O.MAX }
    ensures { map O.value offsets.new ≡ map pos (offsets_list start lengths.now) }
{
    let mut sum = start;
    offsets[0] = O::usize_as(sum);
    for i in 0..lengths.len() {
        sum += lengths[i];
        offsets[i + 1] = O::usize_as(sum);
    }
}

/// Sets each `out[i]` to `offsets[from + i] - offsets[from]`, so `out` begins at 0, and its lengths are those of the
/// `out.len() - 1` slots from slot `from` on. Requires that the numbers are offsets, that `out` is not empty, and that
/// `from + out.len()` is at most `offsets.len()`. The clause `valid` also requires that no offset is above `O::MAX`.
/// This holds for every number of type `O`, but a caller must prove it, for example by a clause of [`last`] or of
/// `broken_rule`.
pub fn write_part<O: OffsetNumber>(offsets: &[O], from: usize, out: &mut [O])
    requires valid { AreOffsetsUpTo O.MAX (map O.value offsets.now) }
    requires some { 0 < length out.old }
    requires inside { from + length out.old ≤ length offsets.now }
    ensures { map O.value out.new
        ≡ map pos (offsets_list 0
        (part (lengths_of (map O.value offsets.now)) from (length out.old - 1))) }
{
    let first = offsets[from];
    for i in 0..out.len() {
        out[i] = O::usize_as(first.distance(offsets[from + i]));
    }
}
