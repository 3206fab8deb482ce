//! Comparisons of numbers. An item of the result is null where an input item is null. The result has a validity bitmap
//! exactly if an input has one.
ghost use Rattle.std.specs.Prelude.{◌≡◌, ◌<◌, [], Bool, length, map, not, option_map, IfOk, ℕ, false, slice_index_or, ◌↔◌, IsNone};
ghost use Rattle.std.specs.Ordering.{partial_lt, partial_le, partial_gt, partial_ge};
ghost use Rattle.std.specs.Simd.Lanes.{zip2};
ghost use Rattle.arrow2_array.specs.Items.{boolean_items};
ghost use Rattle.arrow2_bitmap.specs.Predicates.{IsCallableWithEach, ReturnsOnEach, IsResultAt};
ghost use Rattle.arrow2_numeric.specs.Pairs.{IsTestedAt, AlwaysReturns, of_both};
ghost use Rattle.arrow2_model.specs.Lists.{buffer_items, items_of};
ghost use Rattle.arrow2_primitive.specs.Primitive.{primitive_items};
ghost use Rattle.arrow2_types.specs.Failures.{OnlyOutOfMemory};

use arrow2_array::BooleanArray;
use arrow2_bitmap::Bitmap;
use arrow2_primitive::PrimitiveArray;
use arrow2_types::{NativeType, Result};

/// Returns, item by item, the result of `test` for the value, and null where the item is null. If the contract of
/// `test` fixes its result for each value, the clause `items` states exactly this. The other clauses hold for any
/// `test`: they state the length, the validity, and that each stored boolean is one that `test` may return. Requires
/// that `test` may be called with each stored value, also under a null.
///
/// # Errors
///
/// Only `OutOfMemory`.
pub fn compare_each<T: NativeType, F: Fn(&T) -> bool>(
    array: &PrimitiveArray<T>,
    test: F,
) -> Result<BooleanArray>
    requires callable { IsCallableWithEach (buffer_items array.now.values) (F.pre test) }
    ensures items { (outcome : T → Bool) →
        ReturnsOnEach (buffer_items array.now.values) (F.post test) outcome →
        IfOk result (λ a. boolean_items a ≡ map (option_map outcome) (primitive_items array.now)) }
    // For any `test`: the boolean stored at an index is one that `test` may return for the value there.
    ensures results { IfOk result (λ a. (index : ℕ) → index < length (buffer_items array.now.values) →
        IsResultAt (buffer_items array.now.values) (F.post test) index (slice_index_or (items_of a.values) index false)) }
    ensures len { IfOk result (λ a. length (items_of a.values) ≡ length (buffer_items array.now.values)) }
    ensures validity { IfOk result (λ a. a.validity ≡ array.now.validity) }
    ensures only { OnlyOutOfMemory result }
{
    let values = array.values();
    let validity = array.optional_validity();
    let tested = Bitmap::from_slice_with(values.allocator(), values.as_slice(), test)?;
    Ok(BooleanArray::from_parts(tested, validity.clone()?))
}

/// Returns, item by item, whether the value equals the scalar, and null where the item is null.
///
/// # Errors
///
/// Only `OutOfMemory`.
pub fn eq_scalar<T: NativeType>(array: &PrimitiveArray<T>, scalar: T) -> Result<BooleanArray>
    ensures items { IfOk result (λ a. boolean_items a
        ≡ map (option_map (λ value. T.PartialEq.eq value scalar)) (primitive_items array.now)) }
    ensures validity { IfOk result (λ a. a.validity ≡ array.now.validity) }
    ensures only { OnlyOutOfMemory result }
{
    compare_each(array, |value| *value == scalar)
}

/// Returns, item by item, whether the value differs from the scalar, and null where the item is null.
///
/// # Errors
///
/// Only `OutOfMemory`.
pub fn neq_scalar<T: NativeType>(array: &PrimitiveArray<T>, scalar: T) -> Result<BooleanArray>
    ensures items { IfOk result (λ a. boolean_items a
        ≡ map (option_map (λ value. not (T.PartialEq.eq value scalar))) (primitive_items array.now)) }
    ensures validity { IfOk result (λ a. a.validity ≡ array.now.validity) }
    ensures only { OnlyOutOfMemory result }
{
    compare_each(array, |value| *value != scalar)
}

/// Returns, item by item, whether the value is below the scalar, and null where the item is null.
///
/// # Errors
///
/// Only `OutOfMemory`.
pub fn lt_scalar<T: NativeType + PartialOrd>(
    array: &PrimitiveArray<T>,
    scalar: T,
) -> Result<BooleanArray>
    ensures items { IfOk result (λ a. boolean_items a
        ≡ map (option_map (λ value. partial_lt T.PartialOrd.partial_cmp value scalar)) (primitive_items array.now)) }
    ensures validity { IfOk result (λ a. a.validity ≡ array.now.validity) }
    ensures only { OnlyOutOfMemory result }
{
    compare_each(array, |value| *value < scalar)
}

/// Returns, item by item, whether the value is at most the scalar, and null where the item is null.
///
/// # Errors
///
/// Only `OutOfMemory`.
pub fn lt_eq_scalar<T: NativeType + PartialOrd>(
    array: &PrimitiveArray<T>,
    scalar: T,
) -> Result<BooleanArray>
    ensures items { IfOk result (λ a. boolean_items a
        ≡ map (option_map (λ value. partial_le T.PartialOrd.partial_cmp value scalar)) (primitive_items array.now)) }
    ensures validity { IfOk result (λ a. a.validity ≡ array.now.validity) }
    ensures only { OnlyOutOfMemory result }
{
    compare_each(array, |value| *value <= scalar)
}

/// Returns, item by item, whether the value is above the scalar, and null where the item is null.
///
/// # Errors
///
/// Only `OutOfMemory`.
pub fn gt_scalar<T: NativeType + PartialOrd>(
    array: &PrimitiveArray<T>,
    scalar: T,
) -> Result<BooleanArray>
    ensures items { IfOk result (λ a. boolean_items a
        ≡ map (option_map (λ value. partial_gt T.PartialOrd.partial_cmp value scalar)) (primitive_items array.now)) }
    ensures validity { IfOk result (λ a. a.validity ≡ array.now.validity) }
    ensures only { OnlyOutOfMemory result }
{
    compare_each(array, |value| *value > scalar)
}

/// Returns, item by item, whether the value is at least the scalar, and null where the item is null.
///
/// # Errors
///
/// Only `OutOfMemory`.
pub fn gt_eq_scalar<T: NativeType + PartialOrd>(
    array: &PrimitiveArray<T>,
    scalar: T,
) -> Result<BooleanArray>
    ensures items { IfOk result (λ a. boolean_items a
        ≡ map (option_map (λ value. partial_ge T.PartialOrd.partial_cmp value scalar)) (primitive_items array.now)) }
    ensures validity { IfOk result (λ a. a.validity ≡ array.now.validity) }
    ensures only { OnlyOutOfMemory result }
{
    compare_each(array, |value| *value >= scalar)
}

/// Returns, index by index, the result of `test` for the values of both arrays, and null where either item is null. The
/// contract states this where the contract of `test` fixes its result for every two values. Requires that both have
/// equal lengths, and that `test` may be called with any two values.
///
/// # Errors
///
/// Only `OutOfMemory`.
fn compare_pairs<T: NativeType, F: Fn(T, T) -> bool>(
    lhs: &PrimitiveArray<T>,
    rhs: &PrimitiveArray<T>,
    test: F,
) -> Result<BooleanArray>
    requires same_length { length (primitive_items lhs.now) ≡ length (primitive_items rhs.now) }
    requires callable { (left right : T) → F.pre test left right }
    ensures items { (outcome : T → T → Bool) →
        AlwaysReturns (F.post test) outcome →
        IfOk result (λ a. boolean_items a
        ≡ zip2 (of_both outcome) (primitive_items lhs.now) (primitive_items rhs.now)) }
    ensures bitmap { IfOk result (λ a.
        IsNone a.validity.bitmap ↔ (IsNone lhs.now.validity.bitmap × IsNone rhs.now.validity.bitmap)) }
    ensures only { OnlyOutOfMemory result }
{
    let values = lhs.values();
    let left = values.as_slice();
    let right = rhs.values().as_slice();
    let tested = Bitmap::try_from_fn(
        values.allocator(),
        left.len(),
        |index|
            requires inside { (index < length left.now) × (index < length right.now) }
            requires callable { (x y : T) → F.pre test x y }
            ensures { IsTestedAt left.entry.now right.entry.now (F.post test) index result }
        { test(left[index], right[index]) },
    )?;
    let validity = lhs.optional_validity().both(rhs.optional_validity())?;
    Ok(BooleanArray::from_parts(tested, validity))
}

/// Returns, index by index, whether the item of `lhs` equals that of `rhs`, and null where either is null. Requires
/// that both have equal lengths.
///
/// # Errors
///
/// Only `OutOfMemory`.
pub fn eq<T: NativeType>(lhs: &PrimitiveArray<T>, rhs: &PrimitiveArray<T>) -> Result<BooleanArray>
    requires same_length { length (primitive_items lhs.now) ≡ length (primitive_items rhs.now) }
    ensures items { IfOk result (λ a. boolean_items a
        ≡ zip2 (of_both T.PartialEq.eq) (primitive_items lhs.now) (primitive_items rhs.now)) }
    ensures bitmap { IfOk result (λ a.
        IsNone a.validity.bitmap ↔ (IsNone lhs.now.validity.bitmap × IsNone rhs.now.validity.bitmap)) }
    ensures only { OnlyOutOfMemory result }
{
    compare_pairs(lhs, rhs, |left, right| left == right)
}

/// Returns, index by index, whether the item of `lhs` differs from that of `rhs`, and null where either is null.
/// Requires that both have equal lengths.
///
/// # Errors
///
/// Only `OutOfMemory`.
pub fn neq<T: NativeType>(lhs: &PrimitiveArray<T>, rhs: &PrimitiveArray<T>) -> Result<BooleanArray>
    requires same_length { length (primitive_items lhs.now) ≡ length (primitive_items rhs.now) }
    ensures items { IfOk result (λ a. boolean_items a
        ≡ zip2 (of_both (λ left right. not (T.PartialEq.eq left right))) (primitive_items lhs.now) (primitive_items rhs.now)) }
    ensures bitmap { IfOk result (λ a.
        IsNone a.validity.bitmap ↔ (IsNone lhs.now.validity.bitmap × IsNone rhs.now.validity.bitmap)) }
    ensures only { OnlyOutOfMemory result }
{
    compare_pairs(lhs, rhs, |left, right| left != right)
}

/// Returns, index by index, whether the item of `lhs` is below that of `rhs`, and null where either is null. Requires
/// that both have equal lengths.
///
/// # Errors
///
/// Only `OutOfMemory`.
pub fn lt<T: NativeType + PartialOrd>(
    lhs: &PrimitiveArray<T>,
    rhs: &PrimitiveArray<T>,
) -> Result<BooleanArray>
    requires same_length { length (primitive_items lhs.now) ≡ length (primitive_items rhs.now) }
    ensures items { IfOk result (λ a. boolean_items a
        ≡ zip2 (of_both (partial_lt T.PartialOrd.partial_cmp)) (primitive_items lhs.now) (primitive_items rhs.now)) }
    ensures bitmap { IfOk result (λ a.
        IsNone a.validity.bitmap ↔ (IsNone lhs.now.validity.bitmap × IsNone rhs.now.validity.bitmap)) }
    ensures only { OnlyOutOfMemory result }
{
    compare_pairs(lhs, rhs, |left, right| left < right)
}

/// Returns, index by index, whether the item of `lhs` is at most that of `rhs`, and null where either is null. Requires
/// that both have equal lengths.
///
/// # Errors
///
/// Only `OutOfMemory`.
pub fn lt_eq<T: NativeType + PartialOrd>(
    lhs: &PrimitiveArray<T>,
    rhs: &PrimitiveArray<T>,
) -> Result<BooleanArray>
    requires same_length { length (primitive_items lhs.now) ≡ length (primitive_items rhs.now) }
    ensures items { IfOk result (λ a. boolean_items a
        ≡ zip2 (of_both (partial_le T.PartialOrd.partial_cmp)) (primitive_items lhs.now) (primitive_items rhs.now)) }
    ensures bitmap { IfOk result (λ a.
        IsNone a.validity.bitmap ↔ (IsNone lhs.now.validity.bitmap × IsNone rhs.now.validity.bitmap)) }
    ensures only { OnlyOutOfMemory result }
{
    compare_pairs(lhs, rhs, |left, right| left <= right)
}

/// Returns, index by index, whether the item of `lhs` is above that of `rhs`, and null where either is null. Requires
/// that both have equal lengths.
///
/// # Errors
///
/// Only `OutOfMemory`.
pub fn gt<T: NativeType + PartialOrd>(
    lhs: &PrimitiveArray<T>,
    rhs: &PrimitiveArray<T>,
) -> Result<BooleanArray>
    requires same_length { length (primitive_items lhs.now) ≡ length (primitive_items rhs.now) }
    ensures items { IfOk result (λ a. boolean_items a
        ≡ zip2 (of_both (partial_gt T.PartialOrd.partial_cmp)) (primitive_items lhs.now) (primitive_items rhs.now)) }
    ensures bitmap { IfOk result (λ a.
        IsNone a.validity.bitmap ↔ (IsNone lhs.now.validity.bitmap × IsNone rhs.now.validity.bitmap)) }
    ensures only { OnlyOutOfMemory result }
{
    compare_pairs(lhs, rhs, |left, right| left > right)
}

/// Returns, index by index, whether the item of `lhs` is at least that of `rhs`, and null where either is null.
/// Requires that both have equal lengths.
///
/// # Errors
///
/// Only `OutOfMemory`.
pub fn gt_eq<T: NativeType + PartialOrd>(
    lhs: &PrimitiveArray<T>,
    rhs: &PrimitiveArray<T>,
) -> Result<BooleanArray>
    requires same_length { length (primitive_items lhs.now) ≡ length (primitive_items rhs.now) }
    ensures items { IfOk result (λ a. boolean_items a
        ≡ zip2 (of_both (partial_ge T.PartialOrd.partial_cmp)) (primitive_items lhs.now) (primitive_items rhs.now)) }
    ensures bitmap { IfOk result (λ a.
        IsNone a.validity.bitmap ↔ (IsNone lhs.now.validity.bitmap × IsNone rhs.now.validity.bitmap)) }
    ensures only { OnlyOutOfMemory result }
{
    compare_pairs(lhs, rhs, |left, right| left >= right)
}
