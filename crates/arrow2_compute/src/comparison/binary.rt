//! Comparisons of byte strings and of texts, in lexicographic order of their bytes: the first bytes that differ decide.
//! If none differ, the shorter one is below the longer one. An item of the result is null where an input item is null.
//! The result has a validity bitmap exactly if an input has one.
//!
//! Differs from arrow2: these calls compare texts too, for which arrow2 has `comparison::utf8`, and the scalar for
//! texts is a slice of bytes. arrow2 has no call `compare_each`.
ghost use Rattle.std.specs.Prelude.{◌≡◌, ◌<◌, ◌↔◌, Bool, List, false, length, map, not, option_map, slice_index_or, IfOk, IsNone, ℕ};
ghost use Rattle.std.specs.Ordering.{partial_ge, partial_gt, partial_le, partial_lt};
ghost use Rattle.arrow2_array.specs.Items.{boolean_items};
ghost use Rattle.arrow2_bitmap.specs.Predicates.{IsCallableWithEach, IsCallableWithPairs, IsPairResultAt, IsResultAt, ReturnsOnEach, ReturnsOnPairs};
ghost use Rattle.arrow2_compute.specs.Comparisons.{bytes_cmp, bytes_eq, compared};
ghost use Rattle.arrow2_model.specs.Lists.{items_of};
ghost use Rattle.arrow2_text.specs.Binary.{binary_items, binary_values};
ghost use Rattle.arrow2_types.specs.Failures.{OnlyOutOfMemory};

use arrow2_array::BooleanArray;
use arrow2_bitmap::Bitmap;
use arrow2_index::OffsetNumber;
use arrow2_text::{ByteArrayType, GenericByteArray};
use arrow2_types::Result;

/// Returns, item by item, the result of `test` for the bytes, and null where the item is null. If the contract of
/// `test` fixes its result for each byte string, the clause `items` states exactly this. The other clauses hold for any
/// `test`: they state the length, the validity, and that each stored boolean is one that `test` may return. Requires
/// that `test` may be called with the bytes of each slot, also under a null.
///
/// # Errors
///
/// Only `OutOfMemory`.
pub fn compare_each<T: ByteArrayType, O: OffsetNumber, F: Fn(&[u8]) -> bool>(
    array: &GenericByteArray<T, O>,
    test: F,
) -> Result<BooleanArray>
    requires callable { IsCallableWithEach (binary_values array.now) (F.pre test) }
    ensures items { (outcome : List ℕ → Bool) →
        ReturnsOnEach (binary_values array.now) (F.post test) outcome →
        IfOk result (λ a. boolean_items a ≡ map (option_map outcome) (binary_items array.now)) }
    // For any `test`: the boolean stored at an index is one that `test` may return for the bytes there.
    ensures results { let values = binary_values array.now in
        IfOk result (λ a. (index : ℕ) → index < length values →
        IsResultAt values (F.post test) index (slice_index_or (items_of a.values) index false)) }
    ensures len { IfOk result (λ a. length (items_of a.values) ≡ length (binary_values array.now)) }
    ensures validity { IfOk result (λ a. a.validity ≡ array.now.validity) }
    ensures only { OnlyOutOfMemory result }
{
    let tested = Bitmap::try_from_fn(
        array.values().allocator(),
        array.len(),
        |index|
            requires below { (index < length (binary_items array.now))
                × (index < length (binary_values array.now)) }
            requires callable { IsCallableWithEach (binary_values array.now) (F.pre test) }
            ensures { IsResultAt (binary_values array.entry.now) (F.post test) index result }
        { test(array.value_bytes(index)) },
    )?;
    Ok(BooleanArray::from_parts(tested, array.optional_validity().clone()?))
}

/// Returns, item by item, whether the bytes equal the scalar, and null where the item is null.
///
/// # Errors
///
/// Only `OutOfMemory`.
pub fn eq_scalar<T: ByteArrayType, O: OffsetNumber>(
    array: &GenericByteArray<T, O>,
    scalar: &[u8],
) -> Result<BooleanArray>
    ensures items { IfOk result (λ a. boolean_items a
        ≡ map (option_map (λ value. bytes_eq value scalar.now)) (binary_items array.now)) }
    ensures validity { IfOk result (λ a. a.validity ≡ array.now.validity) }
    ensures only { OnlyOutOfMemory result }
{
    compare_each(array, |value| value == scalar)
}

/// Returns, item by item, whether the bytes differ from the scalar, and null where the item is null.
///
/// # Errors
///
/// Only `OutOfMemory`.
pub fn neq_scalar<T: ByteArrayType, O: OffsetNumber>(
    array: &GenericByteArray<T, O>,
    scalar: &[u8],
) -> Result<BooleanArray>
    ensures items { IfOk result (λ a. boolean_items a
        ≡ map (option_map (λ value. not (bytes_eq value scalar.now))) (binary_items array.now)) }
    ensures validity { IfOk result (λ a. a.validity ≡ array.now.validity) }
    ensures only { OnlyOutOfMemory result }
{
    compare_each(array, |value| value != scalar)
}

/// Returns, item by item, whether the bytes are below the scalar, and null where the item is null.
///
/// # Errors
///
/// Only `OutOfMemory`.
pub fn lt_scalar<T: ByteArrayType, O: OffsetNumber>(
    array: &GenericByteArray<T, O>,
    scalar: &[u8],
) -> Result<BooleanArray>
    ensures items { IfOk result (λ a. boolean_items a
        ≡ map (option_map (λ value. partial_lt bytes_cmp value scalar.now)) (binary_items array.now)) }
    ensures validity { IfOk result (λ a. a.validity ≡ array.now.validity) }
    ensures only { OnlyOutOfMemory result }
{
    compare_each(array, |value| value < scalar)
}

/// Returns, item by item, whether the bytes are at most the scalar, and null where the item is null.
///
/// # Errors
///
/// Only `OutOfMemory`.
pub fn lt_eq_scalar<T: ByteArrayType, O: OffsetNumber>(
    array: &GenericByteArray<T, O>,
    scalar: &[u8],
) -> Result<BooleanArray>
    ensures items { IfOk result (λ a. boolean_items a
        ≡ map (option_map (λ value. partial_le bytes_cmp value scalar.now)) (binary_items array.now)) }
    ensures validity { IfOk result (λ a. a.validity ≡ array.now.validity) }
    ensures only { OnlyOutOfMemory result }
{
    compare_each(array, |value| value <= scalar)
}

/// Returns, item by item, whether the bytes are above the scalar, and null where the item is null.
///
/// # Errors
///
/// Only `OutOfMemory`.
pub fn gt_scalar<T: ByteArrayType, O: OffsetNumber>(
    array: &GenericByteArray<T, O>,
    scalar: &[u8],
) -> Result<BooleanArray>
    ensures items { IfOk result (λ a. boolean_items a
        ≡ map (option_map (λ value. partial_gt bytes_cmp value scalar.now)) (binary_items array.now)) }
    ensures validity { IfOk result (λ a. a.validity ≡ array.now.validity) }
    ensures only { OnlyOutOfMemory result }
{
    compare_each(array, |value| value > scalar)
}

/// Returns, item by item, whether the bytes are at least the scalar, and null where the item is null.
///
/// # Errors
///
/// Only `OutOfMemory`.
pub fn gt_eq_scalar<T: ByteArrayType, O: OffsetNumber>(
    array: &GenericByteArray<T, O>,
    scalar: &[u8],
) -> Result<BooleanArray>
    ensures items { IfOk result (λ a. boolean_items a
        ≡ map (option_map (λ value. partial_ge bytes_cmp value scalar.now)) (binary_items array.now)) }
    ensures validity { IfOk result (λ a. a.validity ≡ array.now.validity) }
    ensures only { OnlyOutOfMemory result }
{
    compare_each(array, |value| value >= scalar)
}

/// Returns, index by index, the result of `test` for the bytes of both arrays, and null where either item is null. The
/// contract states this where the contract of `test` fixes its result for every two byte strings. Requires that both
/// have equal lengths, and that `test` may be called with the bytes of both slots at each index, also under a null.
///
/// # Errors
///
/// Only `OutOfMemory`.
fn compare_pairs<T: ByteArrayType, O: OffsetNumber, F: Fn(&[u8], &[u8]) -> bool>(
    lhs: &GenericByteArray<T, O>,
    rhs: &GenericByteArray<T, O>,
    test: F,
) -> Result<BooleanArray>
    requires same_length { length (binary_items lhs.now) ≡ length (binary_items rhs.now) }
    requires callable { IsCallableWithPairs (binary_values lhs.now) (binary_values rhs.now) (F.pre test) }
    ensures items { (outcome : List ℕ → List ℕ → Bool) →
        ReturnsOnPairs (binary_values lhs.now) (binary_values rhs.now) (F.post test) outcome →
        IfOk result (λ a. boolean_items a ≡ compared outcome lhs.now rhs.now) }
    ensures bitmap { IfOk result (λ a. IsNone a.validity.bitmap
        ↔ (IsNone lhs.now.validity.bitmap × IsNone rhs.now.validity.bitmap)) }
    ensures only { OnlyOutOfMemory result }
{
    let (count, other) = (lhs.len(), rhs.len());
    prove!(count == other);
    let tested = Bitmap::try_from_fn(
        lhs.values().allocator(),
        count,
        |index|
            requires left { (index < length (binary_items lhs.now))
                × (index < length (binary_values lhs.now)) }
            requires right { (index < length (binary_items rhs.now))
                × (index < length (binary_values rhs.now)) }
            requires callable { IsCallableWithPairs (binary_values lhs.now)
                (binary_values rhs.now) (F.pre test) }
            ensures { IsPairResultAt (binary_values lhs.entry.now)
                (binary_values rhs.entry.now) (F.post test) index result }
        { test(lhs.value_bytes(index), rhs.value_bytes(index)) },
    )?;
    let validity = lhs.optional_validity().both(rhs.optional_validity())?;
    Ok(BooleanArray::from_parts(tested, validity))
}

/// Returns, index by index, whether the item of `lhs` equals that of `rhs`, and null where either is null. Requires
/// that both have equal lengths.
///
/// # Errors
///
/// Only `OutOfMemory`.
pub fn eq<T: ByteArrayType, O: OffsetNumber>(
    lhs: &GenericByteArray<T, O>,
    rhs: &GenericByteArray<T, O>,
) -> Result<BooleanArray>
    requires same_length { length (binary_items lhs.now) ≡ length (binary_items rhs.now) }
    ensures items { IfOk result (λ a. boolean_items a ≡ compared bytes_eq lhs.now rhs.now) }
    ensures bitmap { IfOk result (λ a. IsNone a.validity.bitmap
        ↔ (IsNone lhs.now.validity.bitmap × IsNone rhs.now.validity.bitmap)) }
    ensures only { OnlyOutOfMemory result }
{
    compare_pairs(lhs, rhs, |left, right| left == right)
}

/// Returns, index by index, whether the item of `lhs` differs from that of `rhs`, and null where either is null.
/// Requires that both have equal lengths.
///
/// # Errors
///
/// Only `OutOfMemory`.
pub fn neq<T: ByteArrayType, O: OffsetNumber>(
    lhs: &GenericByteArray<T, O>,
    rhs: &GenericByteArray<T, O>,
) -> Result<BooleanArray>
    requires same_length { length (binary_items lhs.now) ≡ length (binary_items rhs.now) }
    ensures items { IfOk result (λ a. boolean_items a
        ≡ compared (λ left right. not (bytes_eq left right)) lhs.now rhs.now) }
    ensures bitmap { IfOk result (λ a. IsNone a.validity.bitmap
        ↔ (IsNone lhs.now.validity.bitmap × IsNone rhs.now.validity.bitmap)) }
    ensures only { OnlyOutOfMemory result }
{
    compare_pairs(lhs, rhs, |left, right| left != right)
}

/// Returns, index by index, whether the item of `lhs` is below that of `rhs`, and null where either is null. Requires
/// that both have equal lengths.
///
/// # Errors
///
/// Only `OutOfMemory`.
pub fn lt<T: ByteArrayType, O: OffsetNumber>(
    lhs: &GenericByteArray<T, O>,
    rhs: &GenericByteArray<T, O>,
) -> Result<BooleanArray>
    requires same_length { length (binary_items lhs.now) ≡ length (binary_items rhs.now) }
    ensures items { IfOk result (λ a. boolean_items a ≡ compared (partial_lt bytes_cmp) lhs.now rhs.now) }
    ensures bitmap { IfOk result (λ a. IsNone a.validity.bitmap
        ↔ (IsNone lhs.now.validity.bitmap × IsNone rhs.now.validity.bitmap)) }
    ensures only { OnlyOutOfMemory result }
{
    compare_pairs(lhs, rhs, |left, right| left < right)
}

/// Returns, index by index, whether the item of `lhs` is at most that of `rhs`, and null where either is null. Requires
/// that both have equal lengths.
///
/// # Errors
///
/// Only `OutOfMemory`.
pub fn lt_eq<T: ByteArrayType, O: OffsetNumber>(
    lhs: &GenericByteArray<T, O>,
    rhs: &GenericByteArray<T, O>,
) -> Result<BooleanArray>
    requires same_length { length (binary_items lhs.now) ≡ length (binary_items rhs.now) }
    ensures items { IfOk result (λ a. boolean_items a ≡ compared (partial_le bytes_cmp) lhs.now rhs.now) }
    ensures bitmap { IfOk result (λ a. IsNone a.validity.bitmap
        ↔ (IsNone lhs.now.validity.bitmap × IsNone rhs.now.validity.bitmap)) }
    ensures only { OnlyOutOfMemory result }
{
    compare_pairs(lhs, rhs, |left, right| left <= right)
}

/// Returns, index by index, whether the item of `lhs` is above that of `rhs`, and null where either is null. Requires
/// that both have equal lengths.
///
/// # Errors
///
/// Only `OutOfMemory`.
pub fn gt<T: ByteArrayType, O: OffsetNumber>(
    lhs: &GenericByteArray<T, O>,
    rhs: &GenericByteArray<T, O>,
) -> Result<BooleanArray>
    requires same_length { length (binary_items lhs.now) ≡ length (binary_items rhs.now) }
    ensures items { IfOk result (λ a. boolean_items a ≡ compared (partial_gt bytes_cmp) lhs.now rhs.now) }
    ensures bitmap { IfOk result (λ a. IsNone a.validity.bitmap
        ↔ (IsNone lhs.now.validity.bitmap × IsNone rhs.now.validity.bitmap)) }
    ensures only { OnlyOutOfMemory result }
{
    compare_pairs(lhs, rhs, |left, right| left > right)
}

/// Returns, index by index, whether the item of `lhs` is at least that of `rhs`, and null where either is null.
/// Requires that both have equal lengths.
///
/// # Errors
///
/// Only `OutOfMemory`.
pub fn gt_eq<T: ByteArrayType, O: OffsetNumber>(
    lhs: &GenericByteArray<T, O>,
    rhs: &GenericByteArray<T, O>,
) -> Result<BooleanArray>
    requires same_length { length (binary_items lhs.now) ≡ length (binary_items rhs.now) }
    ensures items { IfOk result (λ a. boolean_items a ≡ compared (partial_ge bytes_cmp) lhs.now rhs.now) }
    ensures bitmap { IfOk result (λ a. IsNone a.validity.bitmap
        ↔ (IsNone lhs.now.validity.bitmap × IsNone rhs.now.validity.bitmap)) }
    ensures only { OnlyOutOfMemory result }
{
    compare_pairs(lhs, rhs, |left, right| left >= right)
}
