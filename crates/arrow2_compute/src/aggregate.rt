//! The least and the greatest item of an array of byte strings, of texts or of booleans.
ghost use Rattle.std.specs.Prelude.{◌≡◌, List, None, ℕ, IsTrue, option_copied};
ghost use Rattle.std.specs.Cmp.Lexicographic.{slice_cmp};
ghost use Rattle.std.specs.Ordering.{nat_cmp, ord_max, ord_min, partial_ge, partial_le};
ghost use Rattle.arrow2_array.specs.Items.{boolean_items};
ghost use Rattle.arrow2_compute.specs.Comparisons.{bool_le, bytes_cmp};
ghost use Rattle.arrow2_compute.specs.Extremes.{IsFirstChoice};
ghost use Rattle.arrow2_numeric.specs.Aggregates.{best_from, IsExtremum};
ghost use Rattle.arrow2_text.specs.Binary.{binary_items};
ghost use Rattle.arrow2_walks.specs.Selections.{non_null_values};

use arrow2_array::BooleanArray;
use arrow2_index::OffsetNumber;
use arrow2_text::{ByteArrayType, GenericByteArray};

/// Returns the bytes of the least of the items that are not null, or `None` where each item is null. The order is that
/// of [`crate::comparison::binary`]: the first bytes that differ decide, else the lengths. Does not allocate.
///
/// Stands for arrow2's `min_binary` and `min_string`.
pub fn min_binary<T: ByteArrayType, O: OffsetNumber>(
    array: &GenericByteArray<T, O>,
) -> Option<&[u8]>
    ensures { IsExtremum (λ x y. IsTrue (partial_le bytes_cmp x y)) (binary_items array.now)
        (option_copied result) }
{
    best_item::<T, O, Lesser>(array)
}

/// Returns the bytes of the greatest of the items that are not null, or `None` where each item is null. The order is
/// that of [`crate::comparison::binary`]: the first bytes that differ decide, else the lengths. Does not allocate.
///
/// Stands for arrow2's `max_binary` and `max_string`.
pub fn max_binary<T: ByteArrayType, O: OffsetNumber>(
    array: &GenericByteArray<T, O>,
) -> Option<&[u8]>
    ensures { IsExtremum (λ x y. IsTrue (partial_ge bytes_cmp x y)) (binary_items array.now)
        (option_copied result) }
{
    best_item::<T, O, Greater>(array)
}

/// Combines the items that are not null by `C::of_two`, from the first to the last. Returns `None` where each item is
/// null.
fn best_item<T: ByteArrayType, O: OffsetNumber, C: Choice>(
    array: &GenericByteArray<T, O>,
) -> Option<&[u8]>
    ensures { option_copied result
        ≡ best_from C.kept None (non_null_values (binary_items array.now)) }
{
    let mut best = None;
    for index in 0..array.len() {
        if let Some(value) = array.get_bytes(index) {
            best = Some(match best {
                Some(best) => C::of_two(best, value),
                None => value,
            });
        }
    }
    best
}

/// Which of two byte strings is kept.
trait Choice {
    // The bytes of the one that is kept.
    ghost kept: { List ℕ → List ℕ → List ℕ };

    /// Returns the byte string that is kept.
    fn of_two<'a>(first: &'a [u8], second: &'a [u8]) -> &'a [u8]
        ensures { result.now ≡ kept first.now second.now };
}

/// Keeps the lesser one.
struct Lesser;

impl Choice for Lesser {
    ghost kept = { ord_min (slice_cmp nat_cmp) };

    fn of_two<'a>(first: &'a [u8], second: &'a [u8]) -> &'a [u8] {
        first.min(second)
    }
}

/// Keeps the greater one.
struct Greater;

impl Choice for Greater {
    ghost kept = { ord_max (slice_cmp nat_cmp) };

    fn of_two<'a>(first: &'a [u8], second: &'a [u8]) -> &'a [u8] {
        first.max(second)
    }
}

/// Returns the least of the items that are not null, where `false` is below `true`, or `None` where each item is null.
/// Reads the items up to the first `false`. Does not allocate.
pub fn min_boolean(array: &BooleanArray) -> Option<bool>
    ensures { IsExtremum (λ x y. IsTrue (bool_le x y)) (boolean_items array.now) result }
{
    wanted_or_other(array, false)
}

/// Returns the greatest of the items that are not null, where `false` is below `true`, or `None` where each item is
/// null. Reads the items up to the first `true`. Does not allocate.
pub fn max_boolean(array: &BooleanArray) -> Option<bool>
    ensures { IsExtremum (λ x y. IsTrue (bool_le y x)) (boolean_items array.now) result }
{
    wanted_or_other(array, true)
}

/// Returns `wanted` if it is an item, else the other boolean if that is an item, else `None`.
fn wanted_or_other(array: &BooleanArray, wanted: bool) -> Option<bool>
    ensures { IsFirstChoice wanted (non_null_values (boolean_items array.now)) result }
{
    if array.null_count() == array.len() {
        return None;
    }
    for index in 0..array.len() {
        if array.get(index) == Some(wanted) {
            return Some(wanted);
        }
    }
    Some(!wanted)
}
