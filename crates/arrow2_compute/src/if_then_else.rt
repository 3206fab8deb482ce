//! Chooses, index by index, the item of one array or that of another.
ghost use Rattle.std.specs.Prelude.{◌≡◌, ◌<◌, ◌≤◌, [], None, length, sum_by, if◌then◌else◌, IfOk, IsErrOf, OnOk, ◌↔◌, IsNone, Some};
ghost use Rattle.arrow2_array.specs.Items.{boolean_items};
ghost use Rattle.arrow2_model.specs.Lists.{buffer_items, items_of};
ghost use Rattle.arrow2_compute.specs.Sizes.{AppendsItem, binary_item, item_bytes};
ghost use Rattle.arrow2_primitive.specs.Primitive.{primitive_items};
ghost use Rattle.arrow2_text.specs.Binary.{IsCompact, binary_items};
ghost use Rattle.arrow2_validity.specs.OptionalValidity.{valid_items};
ghost use Rattle.arrow2_walks.specs.Selections.{choice};
ghost use Rattle.arrow2_types.specs.Failures.{OnlyOutOfMemory, OnlyOverflowOrOutOfMemory};

use crate::binary::{like, push_item};
use arrow2_array::BooleanArray;
use arrow2_bitmap::Bitmap;
use arrow2_bitmap::bitmap_ops::{and, binary_table, or};
use arrow2_buffer::Buffer;
use arrow2_index::OffsetNumber;
use arrow2_primitive::PrimitiveArray;
use arrow2_text::{ByteArrayType, GenericByteArray, MutableGenericByteArray};
use arrow2_types::{Error, NativeType, Result};
use arrow2_validity::Validity;
use std::alloc::AllocError;
use std::convert::TryFrom;

/// Returns, index by index, the item of `lhs` where the mask is true, and that of `rhs` elsewhere, with the logical
/// type of `lhs`. The result has a validity bitmap exactly if `lhs` or `rhs` has one. Requires that all three have
/// equal lengths.
///
/// Differs from arrow2: the mask is a bitmap, which has no nulls, and the logical types are not compared.
///
/// # Errors
///
/// Only `OutOfMemory`.
pub fn if_then_else<T: NativeType>(
    mask: &Bitmap,
    lhs: &PrimitiveArray<T>,
    rhs: &PrimitiveArray<T>,
) -> Result<PrimitiveArray<T>>
    requires left { length (items_of mask.now) ≡ length (primitive_items lhs.now) }
    requires right { length (items_of mask.now) ≡ length (primitive_items rhs.now) }
    ensures items { IfOk result (λ a. primitive_items a
        ≡ choice (items_of mask.now) (primitive_items lhs.now) (primitive_items rhs.now)) }
    ensures data_type { IfOk result (λ a. a.data_type ≡ lhs.now.data_type) }
    ensures bitmap { IfOk result (λ a.
        IsNone a.validity.bitmap ↔ (IsNone lhs.now.validity.bitmap × IsNone rhs.now.validity.bitmap)) }
    ensures only { OnlyOutOfMemory result }
{
    let data_type = lhs.data_type().clone()?;
    let values = chosen_values(mask, lhs.values().as_slice(), rhs.values().as_slice())?;
    let values = Buffer::try_from(values)?;
    let validity = chosen_validity(mask, lhs.optional_validity(), rhs.optional_validity())?;
    Ok(PrimitiveArray::new(data_type, values, validity.into_bitmap()))
}

/// Returns, index by index, the value of `lhs` where the mask is true, and that of `rhs` elsewhere. Requires that all
/// three have equal lengths.
fn chosen_values<T: NativeType>(
    mask: &Bitmap,
    lhs: &[T],
    rhs: &[T],
) -> std::result::Result<Vec<T>, AllocError>
    requires left { length (items_of mask.now) ≡ length lhs.now }
    requires right { length (items_of mask.now) ≡ length rhs.now }
    ensures { IfOk result (λ v. v.items ≡ choice (items_of mask.now) lhs.now rhs.now) }
{
    let mut values = Vec::with_capacity(mask.allocator(), mask.len())?;
    for position in 0..mask.len() {
        let (left, right) = (lhs[position], rhs[position]);
        values.push_reserved(either(mask.get_bit(position), left, right));
    }
    Ok(values)
}

/// Returns `left` if `is_left`, else `right`.
fn either<T: NativeType>(is_left: bool, left: T, right: T) -> T
    ensures { result ≡ if is_left then left else right }
{
    if is_left { left } else { right }
}

/// Returns, index by index, the validity of the item of `lhs` where the mask is true, and of the item of `rhs`
/// elsewhere. Requires that all three have equal lengths.
fn chosen_validity(mask: &Bitmap, lhs: &Validity, rhs: &Validity) -> Result<Validity>
    requires left { length (items_of mask.now) ≡ length (valid_items lhs.now) }
    requires right { length (items_of mask.now) ≡ length (valid_items rhs.now) }
    ensures items { IfOk result (λ v. valid_items v
        ≡ choice (items_of mask.now) (valid_items lhs.now) (valid_items rhs.now)) }
    ensures len { IfOk result (λ v. v.len ≡ length (items_of mask.now)) }
    ensures bitmap { IfOk result (λ v.
        IsNone v.bitmap ↔ (IsNone lhs.now.bitmap × IsNone rhs.now.bitmap)) }
    ensures only { OnlyOutOfMemory result }
{
    match (lhs.bitmap(), rhs.bitmap()) {
        (Some(left), Some(right)) => Ok(by_bits(chosen_bits(mask, left, right)?)),
        (Some(left), None) => Ok(by_bits(binary_table(mask, left, 0b1101)?)),
        (None, Some(right)) => Ok(by_bits(or(mask, right)?)),
        (None, None) => Ok(Validity::all_valid(mask.len())),
    }
}

/// Returns the validity that has these bits as its bitmap.
fn by_bits(bits: Bitmap) -> Validity
    ensures items { valid_items result ≡ items_of bits }
    ensures len { result.len ≡ length (items_of bits) }
    ensures bitmap { result.bitmap ≡ Some bits }
{
    Validity::new(bits.len(), Some(bits))
}

/// Returns, index by index, the item of `lhs` where the mask is true, and that of `rhs` elsewhere, by truth tables.
/// Requires that all three have equal lengths.
fn chosen_bits(mask: &Bitmap, lhs: &Bitmap, rhs: &Bitmap) -> Result<Bitmap>
    requires left { length (items_of mask.now) ≡ length (items_of lhs.now) }
    requires right { length (items_of mask.now) ≡ length (items_of rhs.now) }
    ensures items { IfOk result (λ b.
        items_of b ≡ choice (items_of mask.now) (items_of lhs.now) (items_of rhs.now)) }
    ensures len { IfOk result (λ b. length (items_of b) ≡ length (items_of mask.now)) }
    ensures only { OnlyOutOfMemory result }
{
    let left = and(mask, lhs)?;
    let right = binary_table(mask, rhs, 0b0100)?;
    or(&left, &right)
}

/// Returns, index by index, the byte string or text of `lhs` where the mask is true, and that of `rhs` elsewhere, with
/// the logical type of `lhs`. The result has a validity bitmap exactly if an item of it is null. It stores no bytes
/// outside its slots, and its null slots are empty. Requires that all three have equal lengths.
///
/// In arrow2 it is `if_then_else`, whose mask is a boolean array. Here the logical types are not compared.
///
/// # Errors
///
/// If the chosen items together have more bytes than an offset of the arrays can count, it fails with `Overflow` or
/// `OutOfMemory`. Otherwise the only error is `OutOfMemory`.
#[tactic(auto, using(crate::proofs::ByteCounts::weighed))]
pub fn if_then_else_binary<T: ByteArrayType, O: OffsetNumber>(
    mask: &Bitmap,
    lhs: &GenericByteArray<T, O>,
    rhs: &GenericByteArray<T, O>,
) -> Result<GenericByteArray<T, O>>
    // Both arrays have the length of the mask.
    requires left { length (items_of mask.now) ≡ length (binary_items lhs.now) }
    requires right { length (items_of mask.now) ≡ length (binary_items rhs.now) }
    // The chosen items, the logical type of `lhs`, and how the items are stored.
    ensures items { IfOk result (λ a. binary_items a ≡ choice (items_of mask.now)
        (binary_items lhs.now) (binary_items rhs.now)) }
    ensures data_type { IfOk result (λ a. a.data_type ≡ lhs.now.data_type) }
    ensures compact { IfOk result (λ a. IsCompact a) }
    ensures bytes { IfOk result (λ a. length (buffer_items a.values) ≡ sum_by item_bytes
        (choice (items_of mask.now) (binary_items lhs.now) (binary_items rhs.now))) }
    // When it fails since an offset cannot count their bytes, and which errors can come.
    ensures overflow { IsErrOf result Error.Overflow → O.MAX < sum_by item_bytes
        (choice (items_of mask.now) (binary_items lhs.now) (binary_items rhs.now)) }
    ensures fits { OnOk result (sum_by item_bytes (choice (items_of mask.now)
        (binary_items lhs.now) (binary_items rhs.now)) ≤ O.MAX) }
    ensures only { OnlyOverflowOrOutOfMemory result }
{
    let mut items = like(lhs, mask.len())?;
    for position in 0..mask.len() {
        push_either(&mut items, mask.get_bit(position), lhs, rhs, position)?;
    }
    items.freeze()
}

/// Appends item `position` of `lhs` where `is_left`, else item `position` of `rhs`. Requires that `position` is below
/// the length of both.
fn push_either<T: ByteArrayType, O: OffsetNumber>(
    grown: &mut MutableGenericByteArray<T, O>,
    is_left: bool,
    lhs: &GenericByteArray<T, O>,
    rhs: &GenericByteArray<T, O>,
    position: usize,
) -> Result<()>
    requires left { position < length (binary_items lhs.now) }
    requires right { position < length (binary_items rhs.now) }
    ensures { AppendsItem O.MAX result grown.old grown.new
        (if is_left then binary_item lhs.now position else binary_item rhs.now position) }
{
    if is_left {
        push_item(grown, lhs, position)
    } else {
        push_item(grown, rhs, position)
    }
}

/// Returns, index by index, the boolean of `lhs` where the mask is true, and that of `rhs` elsewhere. The result has a
/// validity bitmap exactly if `lhs` or `rhs` has one. Requires that all three have equal lengths.
///
/// In arrow2 it is `if_then_else`, whose mask is a boolean array.
///
/// # Errors
///
/// Only `OutOfMemory`.
pub fn if_then_else_boolean(
    mask: &Bitmap,
    lhs: &BooleanArray,
    rhs: &BooleanArray,
) -> Result<BooleanArray>
    requires left { length (items_of mask.now) ≡ length (boolean_items lhs.now) }
    requires right { length (items_of mask.now) ≡ length (boolean_items rhs.now) }
    ensures items { IfOk result (λ a. boolean_items a
        ≡ choice (items_of mask.now) (boolean_items lhs.now) (boolean_items rhs.now)) }
    ensures bitmap { IfOk result (λ a.
        IsNone a.validity.bitmap ↔ (IsNone lhs.now.validity.bitmap × IsNone rhs.now.validity.bitmap)) }
    ensures only { OnlyOutOfMemory result }
{
    let values = chosen_bits(mask, lhs.values(), rhs.values())?;
    let validity = chosen_validity(mask, lhs.optional_validity(), rhs.optional_validity())?;
    Ok(BooleanArray::from_parts(values, validity))
}
