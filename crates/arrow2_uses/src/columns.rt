//! Columns of numbers: built, filled, selected, taken, joined, and two that grow as one.
ghost use Rattle.std.specs.Prelude.{◌≡◌, ◌<◌, ◌++◌, [], ◌∷◌, All, None, Some, pos, length, map, slice_index_or, option_map, unwrap_or, IfOk, OnOk, OnErr, flat_map, option_copied};
ghost use Rattle.std.specs.Ordering.{partial_gt};
ghost use Rattle.arrow2.specs.Aggregates.{sum_of_non_null};
ghost use Rattle.arrow2.specs.Binary.{binary_items};
ghost use Rattle.arrow2.specs.Failures.{OnlyOutOfMemory, OnlyOverflowOrOutOfMemory};
ghost use Rattle.arrow2.specs.Masks.{is_true};
ghost use Rattle.arrow2.specs.Primitive.{primitive_items};
ghost use Rattle.arrow2.specs.Selections.{selection};
ghost use Rattle.arrow2.specs.Lists.{items_of};

use arrow2::array::{MutablePrimitiveArray, MutableUtf8Array, PrimitiveArray, Utf8Array};
use arrow2::bitmap::Bitmap;
use arrow2::compute::aggregate::sum;
use arrow2::compute::comparison::gt_scalar;
use arrow2::compute::filter::{filter, filter_by_array};
use arrow2::compute::take::take;
use arrow2::error::Result;
use arrow2::types::NativeType;
use std::alloc::Global;

/// Returns three prices. The second one is null.
///
/// # Errors
///
/// `Overflow` or `OutOfMemory`.
pub fn prices(alloc: Global) -> Result<PrimitiveArray<i64>>
    ensures ok { IfOk result (λ a.
        primitive_items a ≡ Some (pos 30) ∷ None ∷ Some (pos 50) ∷ []) }
    ensures only { OnlyOverflowOrOutOfMemory result }
{
    let mut prices = MutablePrimitiveArray::<i64>::new(alloc)?;
    prices.push(Some(30))?;
    prices.push(None)?;
    prices.push(Some(50))?;
    prices.freeze()
}

/// Returns the column with `value` in place of each null.
///
/// # Errors
///
/// `Overflow` or `OutOfMemory`.
pub fn fill_null<T: NativeType>(column: &PrimitiveArray<T>, value: T) -> Result<PrimitiveArray<T>>
    ensures ok { IfOk result (λ c. primitive_items c
        ≡ map (λ item. Some (unwrap_or item value)) (primitive_items column.now)) }
    ensures only { OnlyOverflowOrOutOfMemory result }
{
    let mut filled = MutablePrimitiveArray::like(column)?;
    filled.reserve(column.len())?;
    for item in column.iter() {
        filled.push(Some(item.unwrap_or(value)))?;
    }
    filled.freeze()
}

/// Returns the sum of the items that a mask selects. Requires that column and mask have equal lengths.
///
/// # Errors
///
/// Only `OutOfMemory`.
pub fn selected_sum(column: &PrimitiveArray<i64>, mask: &Bitmap) -> Result<i128>
    requires same_length { length (items_of mask.now) ≡ length (primitive_items column.now) }
    ensures ok { IfOk result (λ total.
        total ≡ sum_of_non_null (λ x. x) (selection (primitive_items column.now) (items_of mask.now))) }
    ensures only { OnlyOutOfMemory result }
{
    let selection = filter(column, mask)?;
    Ok(sum(&selection))
}

/// Returns the items above a bound. A null is not above it.
///
/// # Errors
///
/// Only `OutOfMemory`.
pub fn above<T: NativeType + PartialOrd>(
    column: &PrimitiveArray<T>,
    bound: T,
) -> Result<PrimitiveArray<T>>
    ensures ok { IfOk result (λ c. primitive_items c ≡ selection (primitive_items column.now)
        (map is_true (map (option_map (λ value. partial_gt T.PartialOrd.partial_cmp value bound))
        (primitive_items column.now)))) }
    ensures only { OnlyOutOfMemory result }
{
    let is_above = gt_scalar(column, bound)?;
    filter_by_array(column, &is_above)
}

/// Returns the sum of the items at these indices. Requires that each index is below the length.
///
/// # Errors
///
/// Only `OutOfMemory`.
pub fn sum_at(column: &PrimitiveArray<i64>, indices: &[usize]) -> Result<i128>
    requires inside { All (λ index. index < length (primitive_items column.now)) indices.now }
    ensures ok { IfOk result (λ total. total ≡ sum_of_non_null (λ x. x)
        (map (λ index. slice_index_or (primitive_items column.now) index None) indices.now)) }
    ensures only { OnlyOutOfMemory result }
{
    let taken = take(column, indices)?;
    Ok(sum(&taken))
}

/// Returns the items of these columns, one after the other.
///
/// # Errors
///
/// `Overflow` or `OutOfMemory`.
pub fn concat<T: NativeType>(
    alloc: Global,
    columns: &[PrimitiveArray<T>],
) -> Result<PrimitiveArray<T>>
    ensures ok { IfOk result (λ c. primitive_items c
        ≡ flat_map (λ column. primitive_items column) columns.now) }
    ensures only { OnlyOverflowOrOutOfMemory result }
{
    let mut joined = MutablePrimitiveArray::new(alloc)?;
    for column in columns {
        joined.extend_from_array(column, 0, column.len())?;
    }
    Ok(joined.freeze()?)
}

/// Appends a row to two columns, which grow as one: after an error both hold the items that they held.
///
/// # Errors
///
/// `Overflow` or `OutOfMemory`.
pub fn push_row(
    names: &mut MutableUtf8Array<i32>,
    prices: &mut MutablePrimitiveArray<i64>,
    name: Option<&str>,
    price: Option<i64>,
) -> Result<()>
    ensures names { OnOk result (names.new.items ≡ names.old.items ++ option_copied name.entry ∷ []) }
    ensures prices { OnOk result (prices.new.items ≡ prices.old.items ++ price ∷ []) }
    ensures err { OnErr result ((names.new.items ≡ names.old.items) × (prices.new.items ≡ prices.old.items)) }
    ensures only { OnlyOverflowOrOutOfMemory result }
{
    prices.reserve(1)?;
    names.push(name)?;
    prices.push(price)
}

/// Appends all rows of two other columns to two columns. After an error, both columns hold the items that they held.
/// Does not test that the other columns have equal lengths.
///
/// # Errors
///
/// `Overflow` or `OutOfMemory`.
pub fn append_rows(
    names: &mut MutableUtf8Array<i32>,
    prices: &mut MutablePrimitiveArray<i64>,
    more_names: &Utf8Array<i32>,
    more_prices: &PrimitiveArray<i64>,
) -> Result<()>
    ensures names { OnOk result (names.new.items ≡ names.old.items ++ binary_items more_names.now) }
    ensures prices { OnOk result (prices.new.items ≡ prices.old.items ++ primitive_items more_prices.now) }
    ensures err { OnErr result ((names.new.items ≡ names.old.items) × (prices.new.items ≡ prices.old.items)) }
    ensures only { OnlyOverflowOrOutOfMemory result }
{
    prices.reserve(more_prices.len())?;
    names.extend_from_array(more_names, 0, more_names.len())?;
    prices.extend_from_array(more_prices, 0, more_prices.len())
}
