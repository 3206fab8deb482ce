//! The items at given indices.
ghost use Rattle.std.specs.Prelude.{◌≡◌, ◌<◌, ◌≤◌, All, Bool, None, Option, count_by, false, is_some, length, map, slice_index_or, sum_by, IfOk, IsErrOf, OnOk, ◌↔◌, IsNone, is_none};
ghost use Rattle.std.specs.List.{AllZip};
ghost use Rattle.arrow2_array.specs.Items.{boolean_items};
ghost use Rattle.arrow2_compute.specs.Take.{IsInBoundsOrNull, IsItemAt, ReturnsAlways, item_at, items_by_index};
ghost use Rattle.arrow2_compute.specs.Sizes.{AppendsItem, binary_item, item_bytes};
ghost use Rattle.arrow2_model.specs.Lists.{buffer_items, items_of};
ghost use Rattle.arrow2_primitive.specs.Primitive.{primitive_items};
ghost use Rattle.arrow2_text.specs.Binary.{IsCompact, binary_items};
ghost use Rattle.arrow2_validity.specs.OptionalValidity.{valid_items};
ghost use Rattle.arrow2_walks.specs.Zipped.{zipped};
ghost use Rattle.arrow2_types.specs.Failures.{OnlyOutOfMemory, OnlyOverflowOrOutOfMemory};

use crate::binary::{count, like, push_item};
use arrow2_array::BooleanArray;
use arrow2_bitmap::Bitmap;
use arrow2_buffer::Buffer;
use arrow2_index::{Index, OffsetNumber};
use arrow2_primitive::PrimitiveArray;
use arrow2_text::{ByteArrayType, GenericByteArray, MutableGenericByteArray};
use arrow2_types::{Error, NativeType, Result};
use arrow2_validity::Validity;
use std::alloc::AllocError;
use std::convert::TryFrom;

/// Returns the items at these indices, in the order of the indices. The result has the logical type of `array`, and a
/// validity bitmap exactly if `array` has one. Requires that each index is below the length of `array`.
///
/// Differs from arrow2: the indices are a slice of numbers, which has no nulls.
///
/// # Errors
///
/// Only `OutOfMemory`.
pub fn take<T: NativeType>(
    array: &PrimitiveArray<T>,
    indices: &[usize],
) -> Result<PrimitiveArray<T>>
    requires inside { All (λ index. index < length (primitive_items array.now)) indices.now }
    ensures items { IfOk result (λ a. primitive_items a
        ≡ map (λ index. slice_index_or (primitive_items array.now) index None) indices.now) }
    ensures data_type { IfOk result (λ a. a.data_type ≡ array.now.data_type) }
    ensures bitmap { IfOk result (λ a. IsNone a.validity.bitmap ↔ IsNone array.now.validity.bitmap) }
    ensures only { OnlyOutOfMemory result }
{
    let data_type = array.data_type().clone()?;
    let values = Buffer::try_from(values_at(array.values(), indices)?)?;
    let validity = validity_at(array.optional_validity(), indices)?;
    Ok(PrimitiveArray::new(data_type, values, validity.into_bitmap()))
}

/// Returns the stored values at these indices, those under nulls too. Requires that each index is below the length.
fn values_at<T: NativeType>(
    values: &Buffer<T>,
    indices: &[usize],
) -> std::result::Result<Vec<T>, AllocError>
    requires inside { All (λ index. index < length (buffer_items values.now)) indices.now }
    ensures { IfOk result (λ taken. AllZip (IsItemAt (buffer_items values.now)) indices.now taken.items) }
{
    let mut taken = Vec::with_capacity(values.allocator(), indices.len())?;
    let slots = values.as_slice();
    for index in indices {
        taken.push_reserved(slots[*index]);
    }
    Ok(taken)
}

/// Returns the validity of the items at these indices. Requires that each index is below the length.
fn validity_at(validity: &Validity, indices: &[usize]) -> Result<Validity>
    requires inside { All (λ index. index < length (valid_items validity.now)) indices.now }
    ensures items { IfOk result (λ v. valid_items v
        ≡ map (λ index. slice_index_or (valid_items validity.now) index false) indices.now) }
    ensures len { IfOk result (λ v. v.len ≡ length indices.now) }
    ensures bitmap { IfOk result (λ v. IsNone v.bitmap ↔ IsNone validity.now.bitmap) }
    ensures only { OnlyOutOfMemory result }
{
    let Some(bitmap) = validity.bitmap() else {
        return Ok(Validity::all_valid(indices.len()));
    };
    Ok(Validity::new(indices.len(), Some(bits_at(bitmap, indices)?)))
}

/// Returns the items of a bitmap at these indices. Requires that each index is below the length.
fn bits_at(bitmap: &Bitmap, indices: &[usize]) -> Result<Bitmap>
    requires inside { All (λ index. index < length (items_of bitmap.now)) indices.now }
    ensures items { IfOk result (λ b. items_of b
        ≡ map (λ index. slice_index_or (items_of bitmap.now) index false) indices.now) }
    ensures len { IfOk result (λ b. length (items_of b) ≡ length indices.now) }
    ensures only { OnlyOutOfMemory result }
{
    Bitmap::from_slice_with(
        bitmap.allocator(),
        indices,
        |index|
            requires { index.now < length (items_of bitmap.now) }
            ensures { result ≡ slice_index_or (items_of bitmap.entry.now) index.now false }
        { bitmap.get_bit(*index) },
    )
}

/// Returns, for each index in `indices`, the item at this index, and null where the index is null. The result has the
/// logical type of `array`, and a validity bitmap exactly if an item of it is null. The number stored under a null
/// index has no effect on the items. Requires that each index is null, or at least 0 and below the length of `array`.
///
/// In arrow2 it is `take`.
///
/// # Errors
///
/// Only `OutOfMemory`.
pub fn take_by_array<T: NativeType, I: Index>(
    array: &PrimitiveArray<T>,
    indices: &PrimitiveArray<I>,
) -> Result<PrimitiveArray<T>>
    requires inside { All (IsInBoundsOrNull I.value (length (primitive_items array.now))) (primitive_items indices.now) }
    ensures items { IfOk result (λ a. primitive_items a
        ≡ items_by_index I.value (primitive_items array.now) (primitive_items indices.now)) }
    ensures data_type { IfOk result (λ a. a.data_type ≡ array.now.data_type) }
    ensures bitmap { IfOk result (λ a.
        IsNone a.validity.bitmap ↔ (count_by is_none (primitive_items a) ≡ 0)) }
    ensures only { OnlyOutOfMemory result }
{
    let data_type = array.data_type().clone()?;
    let values = Buffer::try_from(values_by_array(array, indices)?)?;
    let validity = bits_by_array(array, indices)?.into_validity();
    Ok(PrimitiveArray::new(data_type, values, validity))
}

/// Returns, for each index in `indices`, the value of the item at this index. Where the index or the item is null, the
/// value is not specified. Requires that each index is null, or at least 0 and below the length.
fn values_by_array<T: NativeType, I: Index>(
    array: &PrimitiveArray<T>,
    indices: &PrimitiveArray<I>,
) -> std::result::Result<Vec<T>, AllocError>
    requires inside { All (IsInBoundsOrNull I.value (length (primitive_items array.now))) (primitive_items indices.now) }
    ensures items { let items = items_by_index I.value (primitive_items array.now) (primitive_items indices.now) in
        IfOk result (λ v. zipped v.items (map is_some items) ≡ items) }
    ensures len { IfOk result (λ v. length v.items ≡ length (primitive_items indices.now)) }
{
    let mut taken = Vec::with_capacity(array.values().allocator(), indices.len())?;
    for position in 0..indices.len() {
        let item = item_at(array, indices.get(position));
        taken.push_reserved(item.unwrap_or(T::default()));
    }
    Ok(taken)
}

/// Returns, for each index in `indices`, whether the item at this index is not null, and false where the index is null.
/// Requires that each index is null, or at least 0 and below the length.
fn bits_by_array<T: NativeType, I: Index>(
    array: &PrimitiveArray<T>,
    indices: &PrimitiveArray<I>,
) -> Result<Bitmap>
    requires inside { All (IsInBoundsOrNull I.value (length (primitive_items array.now))) (primitive_items indices.now) }
    ensures items { IfOk result (λ b. items_of b
        ≡ map is_some (items_by_index I.value (primitive_items array.now) (primitive_items indices.now))) }
    ensures only { OnlyOutOfMemory result }
{
    Bitmap::try_from_fn(
        array.values().allocator(),
        indices.len(),
        |position|
            requires below { position < length (primitive_items indices.now) }
            requires inside { All (IsInBoundsOrNull I.value (length (primitive_items array.now))) (primitive_items indices.now) }
            ensures { result ≡ is_some (item_at I.value (primitive_items array.entry.now)
                (slice_index_or (primitive_items indices.entry.now) position None)) }
        { item_at(array, indices.get(position)).is_some() },
    )
}

/// Returns the item at an index, or null where the index is null. Requires that the index is null, or at least 0 and
/// below the length.
fn item_at<T: NativeType, I: Index>(array: &PrimitiveArray<T>, index: Option<I>) -> Option<T>
    requires inside { IsInBoundsOrNull I.value (length (primitive_items array.now)) index }
    ensures { result ≡ item_at I.value (primitive_items array.now) index }
{
    match index {
        Some(index) => array.get(index.to_usize()),
        None => None,
    }
}

/// Returns the byte strings or texts at these indices, in the order of the indices. The result has the logical type of
/// `array`, and a validity bitmap exactly if an item of it is null. It stores no bytes outside its slots, and its null
/// slots are empty. Requires that each index is below the length of `array`.
///
/// In arrow2 it is `take`, whose indices are an array.
///
/// # Errors
///
/// If the taken items together have more bytes than an offset of the array can count, it fails with `Overflow` or
/// `OutOfMemory`. Otherwise the only error is `OutOfMemory`.
#[tactic(auto, using(crate::proofs::ByteCounts::weighed))]
pub fn take_binary<T: ByteArrayType, O: OffsetNumber>(
    array: &GenericByteArray<T, O>,
    indices: &[usize],
) -> Result<GenericByteArray<T, O>>
    requires inside { All (λ index. index < length (binary_items array.now)) indices.now }
    // The items at the indices, the logical type, and how the items are stored.
    ensures items { IfOk result (λ a. binary_items a
        ≡ map (λ index. binary_item array.now index) indices.now) }
    ensures data_type { IfOk result (λ a. a.data_type ≡ array.now.data_type) }
    ensures compact { IfOk result (λ a. IsCompact a) }
    ensures bytes { IfOk result (λ a. length (buffer_items a.values) ≡ sum_by item_bytes
        (map (λ index. binary_item array.now index) indices.now)) }
    // When it fails since an offset cannot count their bytes, and which errors can come.
    ensures overflow { IsErrOf result Error.Overflow → O.MAX < sum_by item_bytes
        (map (λ index. binary_item array.now index) indices.now) }
    ensures fits { OnOk result (sum_by item_bytes
        (map (λ index. binary_item array.now index) indices.now) ≤ O.MAX) }
    ensures only { OnlyOverflowOrOutOfMemory result }
{
    let mut taken = like(array, indices.len().min(count(array)))?;
    for index in indices {
        push_item(&mut taken, array, *index)?;
    }
    taken.freeze()
}

/// Returns, for each index in `indices`, the byte string or text at this index, and null where the index is null. The
/// result has the logical type of `array`, and a validity bitmap exactly if an item of it is null. It stores no bytes
/// outside its slots, and its null slots are empty. The number stored under a null index has no effect on the items.
/// Requires that each index is null, or at least 0 and below the length of `array`.
///
/// In arrow2 it is `take`.
///
/// # Errors
///
/// If the taken items together have more bytes than an offset of the array can count, it fails with `Overflow` or
/// `OutOfMemory`. Otherwise the only error is `OutOfMemory`.
#[tactic(auto, using(crate::proofs::ByteCounts::weighed))]
pub fn take_binary_by_array<T: ByteArrayType, O: OffsetNumber, I: Index>(
    array: &GenericByteArray<T, O>,
    indices: &PrimitiveArray<I>,
) -> Result<GenericByteArray<T, O>>
    requires inside { All (IsInBoundsOrNull I.value (length (binary_items array.now))) (primitive_items indices.now) }
    // The items at the indices, the logical type, and how the items are stored.
    ensures items { IfOk result (λ a. binary_items a
        ≡ items_by_index I.value (binary_items array.now) (primitive_items indices.now)) }
    ensures data_type { IfOk result (λ a. a.data_type ≡ array.now.data_type) }
    ensures compact { IfOk result (λ a. IsCompact a) }
    ensures bytes { IfOk result (λ a. length (buffer_items a.values) ≡ sum_by item_bytes
        (items_by_index I.value (binary_items array.now) (primitive_items indices.now))) }
    // When it fails since an offset cannot count their bytes, and which errors can come.
    ensures overflow { IsErrOf result Error.Overflow → O.MAX < sum_by item_bytes
        (items_by_index I.value (binary_items array.now) (primitive_items indices.now)) }
    ensures fits { OnOk result (sum_by item_bytes
        (items_by_index I.value (binary_items array.now) (primitive_items indices.now)) ≤ O.MAX) }
    ensures only { OnlyOverflowOrOutOfMemory result }
{
    let mut taken = like(array, indices.len().min(count(array)))?;
    for position in 0..indices.len() {
        push_item_or_null(&mut taken, array, indices.get(position))?;
    }
    taken.freeze()
}

/// Appends the item of `array` at an index, or a null where the index is null. Requires that the index is null, or at
/// least 0 and below the length.
fn push_item_or_null<T: ByteArrayType, O: OffsetNumber, I: Index>(
    grown: &mut MutableGenericByteArray<T, O>,
    array: &GenericByteArray<T, O>,
    index: Option<I>,
) -> Result<()>
    requires inside { IsInBoundsOrNull I.value (length (binary_items array.now)) index }
    ensures { AppendsItem O.MAX result grown.old grown.new
        (item_at I.value (binary_items array.now) index) }
{
    match index {
        Some(index) => push_item(grown, array, index.to_usize()),
        None => grown.push_null(),
    }
}

/// Returns the booleans at these indices, in the order of the indices. The result has a validity bitmap exactly if
/// `array` has one. Requires that each index is below the length of `array`.
///
/// In arrow2 it is `take`, whose indices are an array.
///
/// # Errors
///
/// Only `OutOfMemory`.
pub fn take_boolean(array: &BooleanArray, indices: &[usize]) -> Result<BooleanArray>
    requires inside { All (λ index. index < length (boolean_items array.now)) indices.now }
    ensures items { IfOk result (λ a. boolean_items a
        ≡ map (λ index. slice_index_or (boolean_items array.now) index None) indices.now) }
    ensures bitmap { IfOk result (λ a. IsNone a.validity.bitmap ↔ IsNone array.now.validity.bitmap) }
    ensures only { OnlyOutOfMemory result }
{
    let values = bits_at(array.values(), indices)?;
    let validity = validity_at(array.optional_validity(), indices)?;
    Ok(BooleanArray::from_parts(values, validity))
}

/// Returns, for each index in `indices`, the boolean at this index, and null where the index is null. The result has a
/// validity bitmap exactly if an item of it is null. The number stored under a null index has no effect on the items.
/// Requires that each index is null, or at least 0 and below the length of `array`.
///
/// In arrow2 it is `take`.
///
/// # Errors
///
/// Only `OutOfMemory`.
pub fn take_boolean_by_array<I: Index>(
    array: &BooleanArray,
    indices: &PrimitiveArray<I>,
) -> Result<BooleanArray>
    requires inside { All (IsInBoundsOrNull I.value (length (boolean_items array.now))) (primitive_items indices.now) }
    ensures items { IfOk result (λ a. boolean_items a
        ≡ items_by_index I.value (boolean_items array.now) (primitive_items indices.now)) }
    ensures bitmap { IfOk result (λ a.
        IsNone a.validity.bitmap ↔ (count_by is_none (boolean_items a) ≡ 0)) }
    ensures only { OnlyOutOfMemory result }
{
    let values = tested_by_array(array, indices, |item| item.unwrap_or(false))?;
    let known = tested_by_array(array, indices, |item| item.is_some())?;
    let validity = Validity::new(indices.len(), Some(known)).into_null_bitmap();
    Ok(BooleanArray::new(values, validity))
}

/// Returns, for each index in `indices`, the result of `test` for the boolean at this index, and for a null where the
/// index is null. The contract states this where the contract of `test` fixes its result for every item. Requires that
/// each index is null, or at least 0 and below the length, and that `test` may be called with any item.
fn tested_by_array<I: Index, F: Fn(Option<bool>) -> bool>(
    array: &BooleanArray,
    indices: &PrimitiveArray<I>,
    test: F,
) -> Result<Bitmap>
    requires inside { All (IsInBoundsOrNull I.value (length (boolean_items array.now))) (primitive_items indices.now) }
    requires callable { F.IsAlwaysCallable test }
    ensures items { (outcome : Option Bool → Bool) → ReturnsAlways (F.post test) outcome →
        IfOk result (λ b. items_of b
        ≡ map outcome (items_by_index I.value (boolean_items array.now) (primitive_items indices.now))) }
    ensures len { IfOk result (λ b. length (items_of b) ≡ length (primitive_items indices.now)) }
    ensures only { OnlyOutOfMemory result }
{
    Bitmap::try_from_fn(
        array.values().allocator(),
        indices.len(),
        |position|
            requires below { position < length (primitive_items indices.now) }
            requires inside { All (IsInBoundsOrNull I.value (length (boolean_items array.now))) (primitive_items indices.now) }
            requires callable { F.IsAlwaysCallable test }
            ensures { F.post test (item_at I.value (boolean_items array.entry.now)
                (slice_index_or (primitive_items indices.entry.now) position None)) result }
        { test(boolean_at(array, indices.get(position))) },
    )
}

/// Returns the boolean at an index, or null where the index is null. Requires that the index is null, or at least 0 and
/// below the length.
fn boolean_at<I: Index>(array: &BooleanArray, index: Option<I>) -> Option<bool>
    requires inside { IsInBoundsOrNull I.value (length (boolean_items array.now)) index }
    ensures { result ≡ item_at I.value (boolean_items array.now) index }
{
    match index {
        Some(index) => array.get(index.to_usize()),
        None => None,
    }
}
