//! The test that the bytes between offsets are texts: of all bytes at once, and slot by slot where that fails.
ghost use Rattle.std.specs.Prelude.{◌≡◌, ℕ, ◌<◌, ◌≤◌, ◌↔◌, All, [], length, map, sum, take, slice_index_or, IfErr, IsOk, IsTrue, IsUtf8, MatchOption, IsCharBoundary};
ghost use Rattle.arrow2_model.specs.Lists.{buffer_items};
ghost use Rattle.arrow2_offset.specs.Offsets.{AreOffsets, offset_at, start_of, lengths_of, last_of};
ghost use Rattle.arrow2_utf8.specs.Texts.{slot_values, AreTexts, IsFirstNonUtf8, ReportsBrokenTexts, ReportsBrokenArray};

use arrow2_index::OffsetNumber;
use arrow2_offset::{BrokenRule, OffsetsBuffer, broken_rule};
use std::str;

/// Why the bytes between offsets are not all texts.
#[derive(Clone, Copy, Debug, PartialEq, Eq)]
pub enum BrokenTexts {
    /// The last offset is past the values.
    PastTheValues,
    /// The values of this slot are not UTF-8, and those of each slot before it are.
    NotUtf8(usize),
}

/// Why numbers are not offsets, or why the bytes between them are not all texts.
#[derive(Clone, Copy, Debug, PartialEq, Eq)]
pub enum BrokenTextArray {
    /// The numbers are not offsets. Holds the first rule that they break.
    Offsets(BrokenRule),
    /// The numbers are offsets, and the bytes between them are not all texts.
    Texts(BrokenTexts),
}

/// Tests that no offset is above `values_len`. Does not allocate.
///
/// Differs from arrow2, whose error has a text.
///
/// # Errors
///
/// `PastTheValues` exactly where the last offset is above `values_len`.
pub fn try_check_offsets_bounds<O: OffsetNumber>(
    offsets: &OffsetsBuffer<O>,
    values_len: usize,
) -> Result<(), BrokenTexts>
    ensures accepted { IsOk result ↔ (last_of (buffer_items offsets.now) ≤ values_len) }
    ensures only { IfErr result (λ broken. broken ≡ BrokenTexts.PastTheValues) }
{
    if offsets.last().as_usize() > values_len {
        return Err(BrokenTexts::PastTheValues);
    }
    Ok(())
}

/// Tests that the values of each slot, from its offset to the next, are UTF-8. Does not allocate.
///
/// Does not test values outside the offsets. First tests all values between the first offset and the last at once.
/// Then, unless all of them are ASCII, tests that no offset splits a character. If one of the two tests fails, tests
/// the values again, slot by slot, up to the first slot that is not UTF-8.
///
/// Differs from arrow2, whose error has a text, and names no slot.
///
/// # Errors
///
/// `PastTheValues` exactly where the last offset is above the number of bytes in `values`. Otherwise `NotUtf8`, with
/// the first slot whose values are not UTF-8, exactly where there is such a slot.
pub fn try_check_utf8<O: OffsetNumber>(
    offsets: &OffsetsBuffer<O>,
    values: &[u8],
) -> Result<(), BrokenTexts>
    ensures accepted { IsOk result ↔ AreTexts (buffer_items offsets.now) values.now }
    ensures broken { IfErr result (λ broken.
        ReportsBrokenTexts (buffer_items offsets.now) values.now broken) }
{
    try_check_slots(offsets.as_slice(), values)
}

/// Tests that numbers are offsets, and that the values of each slot, from its offset to the next, are UTF-8. Does not
/// allocate.
///
/// arrow2 has no such call: it tests offsets apart from the bytes between them.
///
/// # Errors
///
/// `Offsets`, with the first rule that the numbers break, exactly where they are not offsets. Otherwise `Texts`, with
/// the error of [`try_check_utf8`], exactly where that call returns one.
pub fn try_check_offsets_and_utf8<O: OffsetNumber>(
    offsets: &[O],
    values: &[u8],
) -> Result<(), BrokenTextArray>
    ensures accepted { IsOk result ↔ (AreOffsets (map O.value offsets.now)
        × AreTexts (map O.value offsets.now) values.now) }
    ensures broken { IfErr result (λ broken.
        ReportsBrokenArray (map O.value offsets.now) values.now broken) }
{
    if let Some(rule) = broken_rule(offsets) {
        return Err(BrokenTextArray::Offsets(rule));
    }
    match try_check_slots(offsets, values) {
        Ok(()) => Ok(()),
        Err(broken) => Err(BrokenTextArray::Texts(broken)),
    }
}

/// Returns the text of slot `slot`. Does not allocate.
///
/// Requires offsets and values that [`try_check_utf8`] accepts, and that `slot` is below [`OffsetsBuffer::len_proxy`].
/// arrow2 has no such call.
pub fn text_at<'a, O: OffsetNumber>(
    offsets: &OffsetsBuffer<O>,
    values: &'a [u8],
    slot: usize,
) -> &'a str
    requires texts { AreTexts (buffer_items offsets.now) values.now }
    requires below { slot < length (lengths_of (buffer_items offsets.now)) }
    ensures { result.now ≡ slice_index_or (slot_values (buffer_items offsets.now) values.now) slot
        [] }
{
    let bytes = slot_of(offsets.as_slice(), values, slot);
    unsafe { str::from_utf8_unchecked(bytes) }
}

/// Checks the values between numbers that are known to be offsets.
#[tactic(auto, using(crate::proofs::Between::positions))]
fn try_check_slots<O: OffsetNumber>(offsets: &[O], values: &[u8]) -> Result<(), BrokenTexts>
    requires valid { AreOffsets (map O.value offsets.now) }
    ensures accepted { IsOk result ↔ AreTexts (map O.value offsets.now) values.now }
    ensures broken { IfErr result (λ broken.
        ReportsBrokenTexts (map O.value offsets.now) values.now broken) }
{
    if last_position(offsets) > values.len() {
        return Err(BrokenTexts::PastTheValues);
    }
    if are_texts_at_once(offsets, values) {
        return Ok(());
    }
    match first_broken_slot(offsets, values) {
        None => Ok(()),
        Some(slot) => Err(BrokenTexts::NotUtf8(slot)),
    }
}

/// Returns whether the values between the offsets are one text, and each offset stands between its characters.
#[tactic(auto, using(crate::proofs::Between::positions))]
fn are_texts_at_once<O: OffsetNumber>(offsets: &[O], values: &[u8]) -> bool
    requires valid { AreOffsets (map O.value offsets.now) }
    requires inside { last_of (map O.value offsets.now) ≤ length values.now }
    ensures { IsTrue result ↔ All IsUtf8 (slot_values (map O.value offsets.now) values.now) }
{
    let bytes = &values[position(offsets, 0)..last_position(offsets)];
    bytes.is_ascii() || (is_text(bytes) && stand_between(offsets, bytes))
}

/// Returns whether no offset splits a character of `bytes`, which are those from the first offset to the last. Reads
/// all offsets, without a branch.
#[tactic(auto, using(crate::proofs::Between::positions))]
fn stand_between<O: OffsetNumber>(offsets: &[O], bytes: &[u8]) -> bool
    requires valid { AreOffsets (map O.value offsets.now) }
    requires spanned { length bytes.now ≡ sum (lengths_of (map O.value offsets.now)) }
    ensures { IsTrue result ↔ ((k : ℕ) → k < length offsets.now
        → IsCharBoundary bytes.now (sum (take k (lengths_of (map O.value offsets.now))))) }
{
    if bytes.is_empty() {
        return true;
    }
    let start = position(offsets, 0);
    let mut between = true;
    for index in 0..offsets.len() {
        between &= is_boundary(bytes, position(offsets, index) - start);
    }
    between
}

/// Returns whether a character may begin at an index, or the bytes end there. Has no branch.
fn is_boundary(bytes: &[u8], position: usize) -> bool
    requires some { 0 < length bytes.now }
    requires inside { position ≤ length bytes.now }
    ensures { IsTrue result ↔ IsCharBoundary bytes.now position }
{
    let last = bytes.len() - 1;
    let byte = bytes[position.min(last)];
    (last < position) | (byte < 0x80) | (0xC0 <= byte)
}

/// Returns the first slot whose values are not UTF-8.
#[tactic(auto, using(crate::proofs::Between::positions))]
fn first_broken_slot<O: OffsetNumber>(offsets: &[O], values: &[u8]) -> Option<usize>
    requires valid { AreOffsets (map O.value offsets.now) }
    requires inside { last_of (map O.value offsets.now) ≤ length values.now }
    ensures { MatchOption result (All IsUtf8 (slot_values (map O.value offsets.now) values.now))
        (λ slot. IsFirstNonUtf8 (slot_values (map O.value offsets.now) values.now) slot) }
{
    for slot in 0..offsets.len() - 1 {
        if !is_text(slot_of(offsets, values, slot)) {
            return Some(slot);
        }
    }
    None
}

/// Returns the values of a slot.
#[tactic(auto, using(crate::proofs::Between::positions))]
fn slot_of<'a, O: OffsetNumber>(offsets: &[O], values: &'a [u8], slot: usize) -> &'a [u8]
    requires valid { AreOffsets (map O.value offsets.now) }
    requires inside { last_of (map O.value offsets.now) ≤ length values.now }
    requires below { slot < length (lengths_of (map O.value offsets.now)) }
    ensures { result.now ≡ slice_index_or (slot_values (map O.value offsets.now) values.now) slot
        [] }
{
    &values[position(offsets, slot)..position(offsets, slot + 1)]
}

/// Returns whether the bytes are UTF-8.
fn is_text(bytes: &[u8]) -> bool
    ensures { IsTrue result ↔ IsUtf8 bytes.now }
{
    simdutf8::basic::from_utf8(bytes).is_ok()
}

/// Returns the last offset.
fn last_position<O: OffsetNumber>(offsets: &[O]) -> usize
    requires { AreOffsets (map O.value offsets.now) }
    ensures { result ≡ last_of (map O.value offsets.now) }
{
    offsets[offsets.len() - 1].as_usize()
}

/// Returns the offset at an index.
fn position<O: OffsetNumber>(offsets: &[O], index: usize) -> usize
    requires valid { AreOffsets (map O.value offsets.now) }
    requires below { index < length offsets.now }
    ensures { result ≡ offset_at (start_of (map O.value offsets.now))
        (lengths_of (map O.value offsets.now)) index }
{
    offsets[index].as_usize()
}
