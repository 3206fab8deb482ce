//! The items that a mask selects.
ghost use Rattle.std.specs.Prelude.{◌≡◌, ◌+◌, ◌<◌, ◌≤◌, ◌^◌, ◌++◌, length, map, sum, IfOk, IfSome, OnOk, ◌↔◌, IsNone};
ghost use Rattle.arrow2_array.specs.Items.{boolean_items};
ghost use Rattle.arrow2_bitmap.specs.PackedBitmaps.{IsPacked};
ghost use Rattle.arrow2_compute.specs.Masks.{is_true};
ghost use Rattle.arrow2_model.specs.Lists.{unnum, buffer_items, falses, items_of};
ghost use Rattle.arrow2_offset.specs.Offsets.{lengths_of};
ghost use Rattle.arrow2_primitive.specs.Primitive.{primitive_items};
ghost use Rattle.arrow2_text.specs.Binary.{IsCompact, binary_items};
ghost use Rattle.arrow2_types.specs.Failures.{OnlyOutOfMemory};
ghost use Rattle.arrow2_validity.specs.OptionalValidity.{valid_items};
ghost use Rattle.arrow2_walks.specs.Selections.{selection};

use crate::binary::{count, like, without_validity};
use arrow2_array::BooleanArray;
use arrow2_bitmap::bitmap_ops::and;
use arrow2_bitmap::{Bitmap, MutableBitmap};
use arrow2_buffer::Buffer;
use arrow2_chunk::{BitChunk, BitChunkOnes};
use arrow2_index::OffsetNumber;
use arrow2_numeric::MaskedBlocks;
use arrow2_primitive::PrimitiveArray;
use arrow2_text::{ByteArrayType, GenericByteArray};
use arrow2_types::{NativeType, Result};
use arrow2_validity::Validity;
use arrow2_walks::{SlicesIterator, laws};
use std::alloc::AllocError;
use std::convert::TryFrom;

/// Returns the items at whose index the mask is true. The result has the logical type of `array`, and a validity bitmap
/// exactly if `array` has one. Requires that `array` and `mask` have equal lengths.
///
/// Differs from arrow2: the mask is a bitmap, which has no nulls.
///
/// # Errors
///
/// Only `OutOfMemory`.
pub fn filter<T: NativeType>(array: &PrimitiveArray<T>, mask: &Bitmap) -> Result<PrimitiveArray<T>>
    requires same_length { length (items_of mask.now) ≡ length (primitive_items array.now) }
    ensures items { IfOk result (λ a.
        primitive_items a ≡ selection (primitive_items array.now) (items_of mask.now)) }
    ensures data_type { IfOk result (λ a. a.data_type ≡ array.now.data_type) }
    ensures bitmap { IfOk result (λ a. IsNone a.validity.bitmap ↔ IsNone array.now.validity.bitmap) }
    ensures only { OnlyOutOfMemory result }
{
    let data_type = array.data_type().clone()?;
    let values = Buffer::try_from(selected_values(array.values().as_slice(), mask)?)?;
    let validity = selected_validity(array.optional_validity(), mask)?;
    Ok(PrimitiveArray::new(data_type, values, validity.into_bitmap()))
}

/// Returns the values at whose index the mask is true, word by word of the mask. Requires that both have equal lengths.
fn selected_values<T: NativeType>(
    values: &[T],
    mask: &Bitmap,
) -> std::result::Result<Vec<T>, AllocError>
    requires same_length { length (items_of mask.now) ≡ length values.now }
    ensures { IfOk result (λ kept. kept.items ≡ selection values.now (items_of mask.now)) }
{
    let mut kept = Vec::with_capacity(mask.allocator(), mask.len() - mask.unset_bits())?;
    let mut blocks = MaskedBlocks::new(values, mask);
    while let Some((block, word)) = blocks.next_block() {
        push_values(&mut kept, block, word)?;
    }
    Ok(kept)
}

/// Appends the values at whose index the bit of the word is set. Requires at most 64 values.
#[tactic(auto, using(arrow2_numeric::proofs::Selecting::selecting))]
fn push_values<T: NativeType>(
    kept: &mut Vec<T>,
    values: &[T],
    word: u64,
) -> std::result::Result<(), AllocError>
    requires few { length values.now ≤ 64 }
    ensures { OnOk result (kept.new.items ≡ kept.old.items ++ selection values.now (unnum 64 word)) }
{
    if word == u64::MAX {
        return kept.extend_from_slice(values);
    }
    for position in BitChunkOnes::new(word) {
        if let Some(value) = values.get(position) {
            kept.push(*value)?;
        }
    }
    Ok(())
}

/// Returns the validity of the items at whose index the mask is true. Requires that both have equal lengths.
fn selected_validity(validity: &Validity, mask: &Bitmap) -> Result<Validity>
    requires same_length { length (items_of mask.now) ≡ length (valid_items validity.now) }
    ensures items { IfOk result (λ v. valid_items v
        ≡ selection (valid_items validity.now) (items_of mask.now)) }
    ensures len { IfOk result (λ v. v.len + falses (items_of mask.now) ≡ length (items_of mask.now)) }
    ensures bitmap { IfOk result (λ v. IsNone v.bitmap ↔ IsNone validity.now.bitmap) }
    ensures packed { IfOk result (λ v. IfSome v.bitmap (λ b. IsPacked b)) }
    ensures only { OnlyOutOfMemory result }
{
    let count = mask.len() - mask.unset_bits();
    let Some(bitmap) = validity.bitmap() else {
        return Ok(Validity::all_valid(count));
    };
    Ok(Validity::new(count, Some(selected_bits(bitmap, mask)?)))
}

/// Returns the items of a bitmap at whose index the mask is true, word by word of both. Requires that both have equal
/// lengths.
fn selected_bits(bitmap: &Bitmap, mask: &Bitmap) -> Result<Bitmap>
    requires same_length { length (items_of mask.now) ≡ length (items_of bitmap.now) }
    ensures items { IfOk result (λ b. items_of b ≡ selection (items_of bitmap.now) (items_of mask.now)) }
    ensures packed { IfOk result (λ b. IsPacked b) }
    ensures only { OnlyOutOfMemory result }
{
    let mut kept = MutableBitmap::with_capacity(mask.allocator(), mask.len() - mask.unset_bits())?;
    let mut words = mask.chunks::<u64>();
    let mut blocks = bitmap.chunks::<u64>();
    while let Some(word) = words.next() {
        let block = blocks.next().unwrap_or(0);
        push_bits(&mut kept, block, word)?;
    }
    let last = BitChunk::masked(words.remainder(), words.remainder_len());
    push_bits(&mut kept, blocks.remainder(), last)?;
    Bitmap::try_from(kept)
}

/// Appends the bits of `block` at whose index the bit of `word` is set. Requires that the new length does not pass
/// `usize::MAX`.
#[tactic(auto, using(arrow2_numeric::proofs::Selecting::selecting))]
fn push_bits(kept: &mut MutableBitmap, block: u64, word: u64) -> Result<()>
    requires fits { length kept.old.items + length (selection (unnum 64 block) (unnum 64 word)) < 2 ^ 64 }
    ensures ok { OnOk result (kept.new.items ≡ kept.old.items ++ selection (unnum 64 block) (unnum 64 word)) }
    ensures only { OnlyOutOfMemory result }
{
    if word == u64::MAX {
        return kept.extend_from_slice(&BitChunk::to_ne_bytes(block), 0, 64);
    }
    for position in BitChunkOnes::new(word) {
        kept.push(BitChunk::bit(block, position))?;
    }
    Ok(())
}

/// Returns the items at whose index the mask is `Some(true)`: a null of the mask counts as false. The result has the
/// logical type of `array`, and a validity bitmap exactly if `array` has one. Requires that `array` and `mask` have
/// equal lengths.
///
/// In arrow2 it is `filter`.
///
/// # Errors
///
/// Only `OutOfMemory`.
pub fn filter_by_array<T: NativeType>(
    array: &PrimitiveArray<T>,
    mask: &BooleanArray,
) -> Result<PrimitiveArray<T>>
    requires same_length { length (boolean_items mask.now) ≡ length (primitive_items array.now) }
    ensures items { IfOk result (λ a. primitive_items a
        ≡ selection (primitive_items array.now) (map is_true (boolean_items mask.now))) }
    ensures data_type { IfOk result (λ a. a.data_type ≡ array.now.data_type) }
    ensures bitmap { IfOk result (λ a. IsNone a.validity.bitmap ↔ IsNone array.now.validity.bitmap) }
    ensures only { OnlyOutOfMemory result }
{
    filter(array, &true_items(mask)?)
}

/// Returns, for each item of the mask, whether it is true and not null.
fn true_items(mask: &BooleanArray) -> Result<Bitmap>
    ensures items { IfOk result (λ b. items_of b ≡ map is_true (boolean_items mask.now)) }
    ensures only { OnlyOutOfMemory result }
{
    match mask.optional_validity().bitmap() {
        Some(bitmap) => and(mask.values(), bitmap),
        None => Ok(mask.values().clone()?),
    }
}

/// Returns the byte strings or texts at whose index the mask is true. The result has the logical type of `array`, and a
/// validity bitmap exactly if an item of it is null. It stores no bytes outside its slots. Copies the bytes under nulls
/// too; the contract states only their number. Requires that `array` and `mask` have equal lengths.
///
/// In arrow2 it is `filter`, whose mask is a boolean array.
///
/// # Errors
///
/// Only `OutOfMemory`.
pub fn filter_binary<T: ByteArrayType, O: OffsetNumber>(
    array: &GenericByteArray<T, O>,
    mask: &Bitmap,
) -> Result<GenericByteArray<T, O>>
    requires same_length { length (items_of mask.now) ≡ length (binary_items array.now) }
    ensures items { IfOk result (λ a. binary_items a
        ≡ selection (binary_items array.now) (items_of mask.now)) }
    ensures data_type { IfOk result (λ a. a.data_type ≡ array.now.data_type) }
    ensures compact { IfOk result (λ a. IsCompact a) }
    // The number of bytes of the selected slots, of null slots too.
    ensures bytes { IfOk result (λ a. length (buffer_items a.values) ≡ sum (selection
        (lengths_of (buffer_items array.now.offsets)) (items_of mask.now))) }
    ensures only { OnlyOutOfMemory result }
{
    let validity = selected_validity(array.optional_validity(), mask)?;
    let kept = selected_slots(&without_validity(array)?, mask)?;
    // For the proof alone: reading the validity brings the fact that it has an item for each slot.
    let _ = kept.optional_validity();
    Ok(kept.with_validity(validity.into_null_bitmap()))
}

/// Returns the byte strings or texts at whose index the mask is `Some(true)`: a null of the mask counts as false. The
/// result has the logical type of `array`, and a validity bitmap exactly if an item of it is null. It stores no bytes
/// outside its slots. Copies the bytes under nulls too; the contract states only their number. Requires that `array`
/// and `mask` have equal lengths.
///
/// In arrow2 it is `filter`.
///
/// # Errors
///
/// Only `OutOfMemory`.
pub fn filter_binary_by_array<T: ByteArrayType, O: OffsetNumber>(
    array: &GenericByteArray<T, O>,
    mask: &BooleanArray,
) -> Result<GenericByteArray<T, O>>
    requires same_length { length (boolean_items mask.now) ≡ length (binary_items array.now) }
    ensures items { IfOk result (λ a. binary_items a
        ≡ selection (binary_items array.now) (map is_true (boolean_items mask.now))) }
    ensures data_type { IfOk result (λ a. a.data_type ≡ array.now.data_type) }
    ensures compact { IfOk result (λ a. IsCompact a) }
    // The number of bytes of the selected slots, of null slots too.
    ensures bytes { IfOk result (λ a. length (buffer_items a.values) ≡ sum (selection
        (lengths_of (buffer_items array.now.offsets)) (map is_true (boolean_items mask.now)))) }
    ensures only { OnlyOutOfMemory result }
{
    filter_binary(array, &true_items(mask)?)
}

/// Returns the items at whose index the mask is true, copied run by run. Requires that both have equal lengths.
fn selected_slots<T: ByteArrayType, O: OffsetNumber>(
    array: &GenericByteArray<T, O>,
    mask: &Bitmap,
) -> Result<GenericByteArray<T, O>>
    requires same_length { length (items_of mask.now) ≡ length (binary_items array.now) }
    ensures items { IfOk result (λ a. binary_items a
        ≡ selection (binary_items array.now) (items_of mask.now)) }
    ensures data_type { IfOk result (λ a. a.data_type ≡ array.now.data_type) }
    ensures compact { IfOk result (λ a. IsCompact a) }
    ensures bytes { IfOk result (λ a. length (buffer_items a.values) ≡ sum (selection
        (lengths_of (buffer_items array.now.offsets)) (items_of mask.now))) }
    ensures only { OnlyOutOfMemory result }
{
    laws::runs_lie_inside();
    let len = count(array);
    prove!(mask.len() == len);
    let mut kept = like(array, mask.len() - mask.unset_bits())?;
    for (start, len) in SlicesIterator::new(mask) {
        kept.extend_from_array(array, start, len)?;
    }
    kept.freeze()
}

/// Returns the booleans at whose index the mask is true. The result has a validity bitmap exactly if `array` has one.
/// Requires that `array` and `mask` have equal lengths.
///
/// In arrow2 it is `filter`, whose mask is a boolean array.
///
/// # Errors
///
/// Only `OutOfMemory`.
pub fn filter_boolean(array: &BooleanArray, mask: &Bitmap) -> Result<BooleanArray>
    requires same_length { length (items_of mask.now) ≡ length (boolean_items array.now) }
    ensures items { IfOk result (λ a.
        boolean_items a ≡ selection (boolean_items array.now) (items_of mask.now)) }
    ensures bitmap { IfOk result (λ a. IsNone a.validity.bitmap ↔ IsNone array.now.validity.bitmap) }
    ensures only { OnlyOutOfMemory result }
{
    let values = selected_bits(array.values(), mask)?;
    let validity = selected_validity(array.optional_validity(), mask)?;
    Ok(BooleanArray::from_parts(values, validity))
}

/// Returns the booleans at whose index the mask is `Some(true)`: a null of the mask counts as false. The result has a
/// validity bitmap exactly if `array` has one. Requires that `array` and `mask` have equal lengths.
///
/// In arrow2 it is `filter`.
///
/// # Errors
///
/// Only `OutOfMemory`.
pub fn filter_boolean_by_array(array: &BooleanArray, mask: &BooleanArray) -> Result<BooleanArray>
    requires same_length { length (boolean_items mask.now) ≡ length (boolean_items array.now) }
    ensures items { IfOk result (λ a. boolean_items a
        ≡ selection (boolean_items array.now) (map is_true (boolean_items mask.now))) }
    ensures bitmap { IfOk result (λ a. IsNone a.validity.bitmap ↔ IsNone array.now.validity.bitmap) }
    ensures only { OnlyOutOfMemory result }
{
    filter_boolean(array, &true_items(mask)?)
}
