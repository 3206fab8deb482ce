//! Comparisons of booleans, where `false` is below `true`. An item of the result is null where an input item is null.
//! The result has a validity bitmap exactly if an input has one.
ghost use Rattle.std.specs.Prelude.{◌≡◌, ◌↔◌, ◌∷◌, [], Bool, length, map, not, option_map, IfOk, IsNone};
ghost use Rattle.std.specs.Simd.Lanes.{zip2};
ghost use Rattle.arrow2_array.specs.Items.{boolean_items};
ghost use Rattle.arrow2_compute.specs.Comparisons.{bool_eq, bool_le, bool_lt};
ghost use Rattle.arrow2_model.specs.Tables.{answer};
ghost use Rattle.arrow2_numeric.specs.Pairs.{of_both};
ghost use Rattle.arrow2_types.specs.Failures.{OnlyOutOfMemory};

use arrow2_array::BooleanArray;
use arrow2_bitmap::bitmap_ops::{binary_table, unary_table};
use arrow2_types::Result;

// The truth tables of the comparisons: bit `left + 2 * right` is the result for these two items as 0 or 1.
const EQ: u8 = 0b1001;

const NEQ: u8 = 0b0110;

const LT: u8 = 0b0100;

const LT_EQ: u8 = 0b1101;

const GT: u8 = 0b0010;

const GT_EQ: u8 = 0b1011;

/// Returns, item by item, the output of the truth table for the item and the scalar, and null where the item is null.
fn compare_each(array: &BooleanArray, scalar: bool, table: u8) -> Result<BooleanArray>
    ensures items { IfOk result (λ a. boolean_items a
        ≡ map (option_map (λ value. answer table (value ∷ scalar ∷ []))) (boolean_items array.now)) }
    ensures validity { IfOk result (λ a. a.validity ≡ array.now.validity) }
    ensures only { OnlyOutOfMemory result }
{
    let tested = unary_table(array.values(), outputs_beside(scalar, table))?;
    Ok(BooleanArray::from_parts(tested, array.optional_validity().clone()?))
}

/// Returns a truth table of one input: the outputs of `table`, a truth table of two inputs, where the second is
/// `scalar`.
fn outputs_beside(scalar: bool, table: u8) -> u8
    ensures { (value : Bool) → answer result (value ∷ []) ≡ answer table (value ∷ scalar ∷ []) }
{
    if scalar { table / 4 } else { table % 4 }
}

/// Returns, item by item, whether the value equals the scalar, and null where the item is null.
///
/// # Errors
///
/// Only `OutOfMemory`.
pub fn eq_scalar(array: &BooleanArray, scalar: bool) -> Result<BooleanArray>
    ensures items { IfOk result (λ a. boolean_items a
        ≡ map (option_map (λ value. bool_eq value scalar)) (boolean_items array.now)) }
    ensures validity { IfOk result (λ a. a.validity ≡ array.now.validity) }
    ensures only { OnlyOutOfMemory result }
{
    compare_each(array, scalar, EQ)
}

/// Returns, item by item, whether the value differs from the scalar, and null where the item is null.
///
/// # Errors
///
/// Only `OutOfMemory`.
pub fn neq_scalar(array: &BooleanArray, scalar: bool) -> Result<BooleanArray>
    ensures items { IfOk result (λ a. boolean_items a
        ≡ map (option_map (λ value. not (bool_eq value scalar))) (boolean_items array.now)) }
    ensures validity { IfOk result (λ a. a.validity ≡ array.now.validity) }
    ensures only { OnlyOutOfMemory result }
{
    compare_each(array, scalar, NEQ)
}

/// Returns, item by item, whether the value is below the scalar, and null where the item is null.
///
/// # Errors
///
/// Only `OutOfMemory`.
pub fn lt_scalar(array: &BooleanArray, scalar: bool) -> Result<BooleanArray>
    ensures items { IfOk result (λ a. boolean_items a
        ≡ map (option_map (λ value. bool_lt value scalar)) (boolean_items array.now)) }
    ensures validity { IfOk result (λ a. a.validity ≡ array.now.validity) }
    ensures only { OnlyOutOfMemory result }
{
    compare_each(array, scalar, LT)
}

/// Returns, item by item, whether the value is at most the scalar, and null where the item is null.
///
/// # Errors
///
/// Only `OutOfMemory`.
pub fn lt_eq_scalar(array: &BooleanArray, scalar: bool) -> Result<BooleanArray>
    ensures items { IfOk result (λ a. boolean_items a
        ≡ map (option_map (λ value. bool_le value scalar)) (boolean_items array.now)) }
    ensures validity { IfOk result (λ a. a.validity ≡ array.now.validity) }
    ensures only { OnlyOutOfMemory result }
{
    compare_each(array, scalar, LT_EQ)
}

/// Returns, item by item, whether the value is above the scalar, and null where the item is null.
///
/// # Errors
///
/// Only `OutOfMemory`.
pub fn gt_scalar(array: &BooleanArray, scalar: bool) -> Result<BooleanArray>
    ensures items { IfOk result (λ a. boolean_items a
        ≡ map (option_map (λ value. bool_lt scalar value)) (boolean_items array.now)) }
    ensures validity { IfOk result (λ a. a.validity ≡ array.now.validity) }
    ensures only { OnlyOutOfMemory result }
{
    compare_each(array, scalar, GT)
}

/// Returns, item by item, whether the value is at least the scalar, and null where the item is null.
///
/// # Errors
///
/// Only `OutOfMemory`.
pub fn gt_eq_scalar(array: &BooleanArray, scalar: bool) -> Result<BooleanArray>
    ensures items { IfOk result (λ a. boolean_items a
        ≡ map (option_map (λ value. bool_le scalar value)) (boolean_items array.now)) }
    ensures validity { IfOk result (λ a. a.validity ≡ array.now.validity) }
    ensures only { OnlyOutOfMemory result }
{
    compare_each(array, scalar, GT_EQ)
}

/// Returns, index by index, the output of the truth table for the items of both arrays, and null where either item is
/// null. Requires that both have equal lengths.
fn compare_pairs(lhs: &BooleanArray, rhs: &BooleanArray, table: u8) -> Result<BooleanArray>
    requires same_length { length (boolean_items lhs.now) ≡ length (boolean_items rhs.now) }
    ensures items { IfOk result (λ a. boolean_items a ≡ zip2 (of_both (λ left right.
        answer table (left ∷ right ∷ []))) (boolean_items lhs.now) (boolean_items rhs.now)) }
    ensures bitmap { IfOk result (λ a.
        IsNone a.validity.bitmap ↔ (IsNone lhs.now.validity.bitmap × IsNone rhs.now.validity.bitmap)) }
    ensures only { OnlyOutOfMemory result }
{
    let tested = binary_table(lhs.values(), rhs.values(), table)?;
    let validity = lhs.optional_validity().both(rhs.optional_validity())?;
    Ok(BooleanArray::from_parts(tested, validity))
}

/// Returns, index by index, whether the item of `lhs` equals that of `rhs`, and null where either is null. Requires
/// that both have equal lengths.
///
/// # Errors
///
/// Only `OutOfMemory`.
pub fn eq(lhs: &BooleanArray, rhs: &BooleanArray) -> Result<BooleanArray>
    requires same_length { length (boolean_items lhs.now) ≡ length (boolean_items rhs.now) }
    ensures items { IfOk result (λ a. boolean_items a
        ≡ zip2 (of_both bool_eq) (boolean_items lhs.now) (boolean_items rhs.now)) }
    ensures bitmap { IfOk result (λ a.
        IsNone a.validity.bitmap ↔ (IsNone lhs.now.validity.bitmap × IsNone rhs.now.validity.bitmap)) }
    ensures only { OnlyOutOfMemory result }
{
    compare_pairs(lhs, rhs, EQ)
}

/// Returns, index by index, whether the item of `lhs` differs from that of `rhs`, and null where either is null.
/// Requires that both have equal lengths.
///
/// # Errors
///
/// Only `OutOfMemory`.
pub fn neq(lhs: &BooleanArray, rhs: &BooleanArray) -> Result<BooleanArray>
    requires same_length { length (boolean_items lhs.now) ≡ length (boolean_items rhs.now) }
    ensures items { IfOk result (λ a. boolean_items a
        ≡ zip2 (of_both (λ left right. not (bool_eq left right))) (boolean_items lhs.now) (boolean_items rhs.now)) }
    ensures bitmap { IfOk result (λ a.
        IsNone a.validity.bitmap ↔ (IsNone lhs.now.validity.bitmap × IsNone rhs.now.validity.bitmap)) }
    ensures only { OnlyOutOfMemory result }
{
    compare_pairs(lhs, rhs, NEQ)
}

/// Returns, index by index, whether the item of `lhs` is below that of `rhs`, and null where either is null. Requires
/// that both have equal lengths.
///
/// # Errors
///
/// Only `OutOfMemory`.
pub fn lt(lhs: &BooleanArray, rhs: &BooleanArray) -> Result<BooleanArray>
    requires same_length { length (boolean_items lhs.now) ≡ length (boolean_items rhs.now) }
    ensures items { IfOk result (λ a. boolean_items a
        ≡ zip2 (of_both bool_lt) (boolean_items lhs.now) (boolean_items rhs.now)) }
    ensures bitmap { IfOk result (λ a.
        IsNone a.validity.bitmap ↔ (IsNone lhs.now.validity.bitmap × IsNone rhs.now.validity.bitmap)) }
    ensures only { OnlyOutOfMemory result }
{
    compare_pairs(lhs, rhs, LT)
}

/// Returns, index by index, whether the item of `lhs` is at most that of `rhs`, and null where either is null. Requires
/// that both have equal lengths.
///
/// # Errors
///
/// Only `OutOfMemory`.
pub fn lt_eq(lhs: &BooleanArray, rhs: &BooleanArray) -> Result<BooleanArray>
    requires same_length { length (boolean_items lhs.now) ≡ length (boolean_items rhs.now) }
    ensures items { IfOk result (λ a. boolean_items a
        ≡ zip2 (of_both bool_le) (boolean_items lhs.now) (boolean_items rhs.now)) }
    ensures bitmap { IfOk result (λ a.
        IsNone a.validity.bitmap ↔ (IsNone lhs.now.validity.bitmap × IsNone rhs.now.validity.bitmap)) }
    ensures only { OnlyOutOfMemory result }
{
    compare_pairs(lhs, rhs, LT_EQ)
}

/// Returns, index by index, whether the item of `lhs` is above that of `rhs`, and null where either is null. Requires
/// that both have equal lengths.
///
/// # Errors
///
/// Only `OutOfMemory`.
pub fn gt(lhs: &BooleanArray, rhs: &BooleanArray) -> Result<BooleanArray>
    requires same_length { length (boolean_items lhs.now) ≡ length (boolean_items rhs.now) }
    ensures items { IfOk result (λ a. boolean_items a
        ≡ zip2 (of_both (λ left right. bool_lt right left)) (boolean_items lhs.now) (boolean_items rhs.now)) }
    ensures bitmap { IfOk result (λ a.
        IsNone a.validity.bitmap ↔ (IsNone lhs.now.validity.bitmap × IsNone rhs.now.validity.bitmap)) }
    ensures only { OnlyOutOfMemory result }
{
    compare_pairs(lhs, rhs, GT)
}

/// Returns, index by index, whether the item of `lhs` is at least that of `rhs`, and null where either is null.
/// Requires that both have equal lengths.
///
/// # Errors
///
/// Only `OutOfMemory`.
pub fn gt_eq(lhs: &BooleanArray, rhs: &BooleanArray) -> Result<BooleanArray>
    requires same_length { length (boolean_items lhs.now) ≡ length (boolean_items rhs.now) }
    ensures items { IfOk result (λ a. boolean_items a
        ≡ zip2 (of_both (λ left right. bool_le right left)) (boolean_items lhs.now) (boolean_items rhs.now)) }
    ensures bitmap { IfOk result (λ a.
        IsNone a.validity.bitmap ↔ (IsNone lhs.now.validity.bitmap × IsNone rhs.now.validity.bitmap)) }
    ensures only { OnlyOutOfMemory result }
{
    compare_pairs(lhs, rhs, GT_EQ)
}
