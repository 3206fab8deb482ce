//! The test that numbers are offsets.
ghost use Rattle.std.specs.Prelude.{◌≡◌, ℕ, ◌+◌, ◌<◌, ◌≤ℤ◌, ◌↔◌, pos, length, map, slice_index_or, OnOk, IsOk, IfErr, IfSome, IfNone, IsNone, IsTrue};
ghost use Rattle.arrow2_offset.specs.Offsets.{AreOffsets, AreOffsetsUpTo};
ghost use Rattle.arrow2_offset.specs.Failures.{IsOutOfSpecOrOutOfMemory, first_broken_rule, rule_words, not_offsets_message};

use arrow2_index::OffsetNumber;
use arrow2_types::{Error, Result};
use std::alloc::{AllocError, Global};

/// The first rule of offsets that a list breaks. The rules are tested in the order of the variants. A variant has the
/// name of the fault, not of the rule.
#[derive(Clone, Copy, Debug, PartialEq, Eq)]
pub enum BrokenRule {
    /// There is no offset at all. `OutOfSpec` reports it as `offsets must have at least one element`.
    Empty,
    /// The first offset is negative. `OutOfSpec` reports it as `offsets must be larger than 0`, although 0 is allowed.
    Negative,
    /// An offset is below the one before it. `OutOfSpec` reports it as `offsets must be monotonically increasing`,
    /// although equal neighbours are allowed.
    Falling,
}

/// Returns the first rule that the numbers break, or `None` where they are offsets. Does not allocate.
///
/// In arrow2 the test is private, and returns an error with a text.
pub fn broken_rule<O: OffsetNumber>(offsets: &[O]) -> Option<BrokenRule>
    // `O.MAX` adds nothing: no number of the type is above it.
    ensures none { IfNone result (AreOffsetsUpTo O.MAX (map O.value offsets.now)) }
    ensures accepted { AreOffsets (map O.value offsets.now) → IsNone result }
    ensures broken { IfSome result (λ rule. rule ≡ first_broken_rule (map O.value offsets.now)) }
{
    if offsets.is_empty() {
        return Some(BrokenRule::Empty);
    }
    if offsets[0] < O::usize_as(0) {
        return Some(BrokenRule::Negative);
    }
    if !is_rising(offsets) {
        return Some(BrokenRule::Falling);
    }
    // For the proof alone: reading the last number brings the fact that it is at most `O::MAX`.
    let _last = offsets[offsets.len() - 1].as_usize();
    None
}

/// Returns an error exactly where the items are not offsets: `OutOfSpec` with the text of the first rule that they
/// break, or `OutOfMemory`.
pub(crate) fn try_check_offsets<O: OffsetNumber>(alloc: Global, offsets: &[O]) -> Result<()>
    ensures ok { OnOk result (AreOffsetsUpTo O.MAX (map O.value offsets.now)) }
    ensures accepted { AreOffsets (map O.value offsets.now) → IsOk result }
    ensures rejected { IfErr result (λ e.
        IsOutOfSpecOrOutOfMemory e (not_offsets_message (map O.value offsets.now))) }
{
    match broken_rule(offsets) {
        None => Ok(()),
        Some(rule) => Err(out_of_spec(alloc, words_of(rule))),
    }
}

/// Returns arrow2's message for a list that breaks this rule.
fn words_of(rule: BrokenRule) -> &'static str
    ensures { result.now ≡ rule_words rule }
{
    match rule {
        BrokenRule::Empty => "offsets must have at least one element",
        BrokenRule::Negative => "offsets must be larger than 0",
        BrokenRule::Falling => "offsets must be monotonically increasing",
    }
}

/// Returns the error with this text, or `OutOfMemory` where the allocation of the text fails.
fn out_of_spec(alloc: Global, text: &str) -> Error
    ensures { IsOutOfSpecOrOutOfMemory result text.now }
{
    match String::from_str(alloc, text) {
        Ok(text) => Error::OutOfSpec(text),
        Err(AllocError) => Error::OutOfMemory,
    }
}

/// Returns whether no item is below the one before it. Reads all items, without a branch.
fn is_rising<O: OffsetNumber>(offsets: &[O]) -> bool
    ensures { IsTrue result ↔ ((k : ℕ) → k + 1 < length offsets.now →
        slice_index_or (map O.value offsets.now) k (pos 0) ≤ℤ slice_index_or
        (map O.value offsets.now) (k + 1) (pos 0)) }
{
    let mut rising = true;
    for i in 1..offsets.len() {
        rising &= offsets[i - 1] <= offsets[i];
    }
    rising
}
