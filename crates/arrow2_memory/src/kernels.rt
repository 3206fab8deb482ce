//! Kernels over arrays of three items.
ghost use Rattle.std.specs.Prelude.{◌≡◌, ◌∷◌, [], None, length, IfOk};
ghost use Rattle.arrow2_array.specs.Items.{boolean_items};
ghost use Rattle.arrow2_model.specs.Lists.{items_of};
ghost use Rattle.arrow2_primitive.specs.Primitive.{primitive_items};
ghost use Rattle.arrow2_text.specs.Binary.{binary_items};

use crate::calls::{Row, input, show_results};
use arrow2_array::BooleanArray;
use arrow2_bitmap::Bitmap;
use arrow2_compute::boolean::{is_not_null, is_null};
use arrow2_compute::comparison::{binary, boolean};
use arrow2_compute::concatenate::{concatenate, concatenate_binary, concatenate_boolean};
use arrow2_compute::filter::{
    filter, filter_binary, filter_binary_by_array, filter_boolean, filter_boolean_by_array,
    filter_by_array,
};
use arrow2_compute::if_then_else::{if_then_else, if_then_else_binary, if_then_else_boolean};
use arrow2_compute::take::{
    take, take_binary, take_binary_by_array, take_boolean, take_boolean_by_array, take_by_array,
};
use arrow2_datatypes::DataType;
use arrow2_numeric::cast::{primitive_to_primitive, try_primitive_to_primitive};
use arrow2_numeric::comparison::{
    compare_each, eq, eq_scalar, gt, gt_eq, gt_eq_scalar, gt_scalar, lt, lt_eq, lt_eq_scalar,
    lt_scalar, neq, neq_scalar,
};
use arrow2_primitive::PrimitiveArray;
use arrow2_text::Utf8Array;
use arrow2_types::{Error, Result};
use std::alloc::Global;
use std::io::{Eprint, Print};
use std::rc::Rc;

/// The array of three numbers, with one null.
fn numbers(alloc: Global) -> Result<PrimitiveArray<i32>> {
    input(PrimitiveArray::from_options(alloc, &[Some(1), None, Some(3)]))
}

/// The array of three numbers, without a null.
fn valid_numbers(alloc: Global) -> Result<PrimitiveArray<i32>> {
    input(PrimitiveArray::from_slice(alloc, &[1, 2, 3]))
}

/// The array of three texts, with one null.
fn texts(alloc: Global) -> Result<Utf8Array<i32>> {
    input(Utf8Array::from_options(alloc, &[Some("first"), None, Some("third")]))
}

/// The array of three booleans, with one null.
fn booleans(alloc: Global) -> Result<BooleanArray> {
    input(BooleanArray::from_options(alloc, &[Some(true), None, Some(true)]))
}

/// A mask of three items.
fn mask(alloc: Global) -> Result<Bitmap> {
    input(Bitmap::from_bools(alloc, &[true, true, false]))
}

/// Comparisons with a number.
fn comparisons_with_number(array: &PrimitiveArray<i32>) -> [Row<BooleanArray>; 7] {
    [
        ("eq_scalar", eq_scalar(array, 2)),
        ("neq_scalar", neq_scalar(array, 2)),
        ("lt_scalar", lt_scalar(array, 2)),
        ("lt_eq_scalar", lt_eq_scalar(array, 2)),
        ("gt_scalar", gt_scalar(array, 2)),
        ("gt_eq_scalar", gt_eq_scalar(array, 2)),
        ("compare_each", compare_each(array, |value| *value == 3)),
    ]
}

/// Comparisons of an array with itself.
fn comparisons(array: &PrimitiveArray<i32>) -> [Row<BooleanArray>; 6] {
    [
        ("eq", eq(array, array)),
        ("neq", neq(array, array)),
        ("lt", lt(array, array)),
        ("lt_eq", lt_eq(array, array)),
        ("gt", gt(array, array)),
        ("gt_eq", gt_eq(array, array)),
    ]
}

/// Comparisons with a text.
fn comparisons_with_text(array: &Utf8Array<i32>) -> [Row<BooleanArray>; 7] {
    let text = "second".as_bytes();
    [
        ("binary::eq_scalar", binary::eq_scalar(array, text)),
        ("binary::neq_scalar", binary::neq_scalar(array, text)),
        ("binary::lt_scalar", binary::lt_scalar(array, text)),
        ("binary::lt_eq_scalar", binary::lt_eq_scalar(array, text)),
        ("binary::gt_scalar", binary::gt_scalar(array, text)),
        ("binary::gt_eq_scalar", binary::gt_eq_scalar(array, text)),
        (
            "binary::compare_each",
            binary::compare_each(array, |bytes| bytes.len() == 5),
        ),
    ]
}

/// Comparisons of an array of texts with itself.
fn comparisons_of_texts(array: &Utf8Array<i32>) -> [Row<BooleanArray>; 6] {
    [
        ("binary::eq", binary::eq(array, array)),
        ("binary::neq", binary::neq(array, array)),
        ("binary::lt", binary::lt(array, array)),
        ("binary::lt_eq", binary::lt_eq(array, array)),
        ("binary::gt", binary::gt(array, array)),
        ("binary::gt_eq", binary::gt_eq(array, array)),
    ]
}

/// Comparisons with a boolean.
fn comparisons_with_boolean(array: &BooleanArray) -> [Row<BooleanArray>; 6] {
    [
        ("boolean::eq_scalar", boolean::eq_scalar(array, true)),
        ("boolean::neq_scalar", boolean::neq_scalar(array, true)),
        ("boolean::lt_scalar", boolean::lt_scalar(array, true)),
        ("boolean::lt_eq_scalar", boolean::lt_eq_scalar(array, true)),
        ("boolean::gt_scalar", boolean::gt_scalar(array, false)),
        ("boolean::gt_eq_scalar", boolean::gt_eq_scalar(array, false)),
    ]
}

/// Comparisons of an array of booleans with itself.
fn comparisons_of_booleans(array: &BooleanArray) -> [Row<BooleanArray>; 6] {
    [
        ("boolean::eq", boolean::eq(array, array)),
        ("boolean::neq", boolean::neq(array, array)),
        ("boolean::lt", boolean::lt(array, array)),
        ("boolean::lt_eq", boolean::lt_eq(array, array)),
        ("boolean::gt", boolean::gt(array, array)),
        ("boolean::gt_eq", boolean::gt_eq(array, array)),
    ]
}

/// Which items of an array are null. Where the array has no validity, one is made.
fn nulls(array: &PrimitiveArray<i32>) -> [Row<BooleanArray>; 2] {
    [
        ("is_null", is_null(array)),
        ("is_not_null", is_not_null(array)),
    ]
}

/// Two indices that are null.
fn null_indices(alloc: Global) -> Result<PrimitiveArray<u8>>
    ensures { IfOk result (λ a. primitive_items a ≡ None ∷ None ∷ []) }
{
    let Ok(indices) = PrimitiveArray::from_options(alloc, &[None, None]) else {
        return Err(Error::Overflow);
    };
    Ok(indices)
}

/// Two nulls, taken by an array of indices.
fn taken_by_array(array: &PrimitiveArray<i32>, alloc: Global) -> Result<PrimitiveArray<i32>> {
    take_by_array(array, &null_indices(alloc)?)
}

/// Two nulls of an array of texts, taken by an array of indices.
fn texts_by_array(array: &Utf8Array<i32>, alloc: Global) -> Result<Utf8Array<i32>> {
    take_binary_by_array(array, &null_indices(alloc)?)
}

/// Two nulls of an array of booleans, taken by an array of indices.
fn booleans_by_array(array: &BooleanArray, alloc: Global) -> Result<BooleanArray> {
    take_boolean_by_array(array, &null_indices(alloc)?)
}

/// Numbers that are chosen. Requires three of each.
fn chosen_numbers(
    array: &PrimitiveArray<i32>,
    booleans: &BooleanArray,
    mask: &Bitmap,
) -> [Row<PrimitiveArray<i32>>; 5]
    requires numbers { length (primitive_items array.now) ≡ 3 }
    requires booleans { length (boolean_items booleans.now) ≡ 3 }
    requires mask { length (items_of mask.now) ≡ 3 }
{
    [
        ("filter", filter(array, mask)),
        ("filter_by_array", filter_by_array(array, booleans)),
        ("take", take(array, &[2, 0])),
        ("concatenate", concatenate(array, &[array])),
        ("if_then_else", if_then_else(mask, array, array)),
    ]
}

/// Booleans that are chosen. Requires three of each.
fn chosen_booleans(array: &BooleanArray, mask: &Bitmap) -> [Row<BooleanArray>; 5]
    requires booleans { length (boolean_items array.now) ≡ 3 }
    requires mask { length (items_of mask.now) ≡ 3 }
{
    [
        ("filter_boolean", filter_boolean(array, mask)),
        (
            "filter_boolean_by_array",
            filter_boolean_by_array(array, array),
        ),
        ("take_boolean", take_boolean(array, &[2, 0])),
        ("concatenate_boolean", concatenate_boolean(array, &[array])),
        (
            "if_then_else_boolean",
            if_then_else_boolean(mask, array, array),
        ),
    ]
}

/// Texts that are chosen. Requires three of each.
fn chosen_texts(
    array: &Utf8Array<i32>,
    booleans: &BooleanArray,
    mask: &Bitmap,
) -> [Row<Utf8Array<i32>>; 5]
    requires texts { length (binary_items array.now) ≡ 3 }
    requires booleans { length (boolean_items booleans.now) ≡ 3 }
    requires mask { length (items_of mask.now) ≡ 3 }
{
    [
        ("filter_binary", filter_binary(array, mask)),
        (
            "filter_binary_by_array",
            filter_binary_by_array(array, booleans),
        ),
        ("take_binary", take_binary(array, &[2, 0])),
        ("concatenate_binary", concatenate_binary(array, &[array])),
        (
            "if_then_else_binary",
            if_then_else_binary(mask, array, array),
        ),
    ]
}

/// Numbers of another type.
fn cast(array: &PrimitiveArray<i32>, alloc: Global) -> Result<PrimitiveArray<u8>> {
    let Ok(data_type) = Rc::new(alloc, DataType::UInt8) else {
        return Err(Error::Overflow);
    };
    primitive_to_primitive(array, data_type)
}

/// Numbers of another type, which all fit.
fn cast_all(array: &PrimitiveArray<i32>, alloc: Global) -> Result<PrimitiveArray<u8>> {
    let Ok(data_type) = Rc::new(alloc, DataType::UInt8) else {
        return Err(Error::Overflow);
    };
    try_primitive_to_primitive(array, data_type)
}

/// Two nulls of an array, by an array of indices.
fn items_by_array(array: &PrimitiveArray<i32>, alloc: Global) -> [Row<PrimitiveArray<i32>>; 1] {
    [("take_by_array", taken_by_array(array, alloc))]
}

/// Casts.
fn casts(array: &PrimitiveArray<i32>, alloc: Global) -> [Row<PrimitiveArray<u8>>; 2] {
    [
        ("primitive_to_primitive", cast(array, alloc)),
        ("try_primitive_to_primitive", cast_all(array, alloc)),
    ]
}

/// Makes the calls on an array of numbers alone.
fn on_numbers<R: Print + Eprint>(rt: &R, array: &PrimitiveArray<i32>, alloc: Global) {
    show_results(
        rt,
        &comparisons_with_number(array),
        &comparisons_with_number(array),
    );
    show_results(rt, &comparisons(array), &comparisons(array));
    show_results(rt, &casts(array, alloc), &casts(array, alloc));
    show_results(
        rt,
        &items_by_array(array, alloc),
        &items_by_array(array, alloc),
    );
}

/// Makes the calls on an array without a validity.
fn on_valid_numbers<R: Print + Eprint>(rt: &R, alloc: Global) -> Result<()> {
    let array = valid_numbers(alloc).or(valid_numbers(alloc))?;
    show_results(rt, &nulls(&array), &nulls(&array));
    Ok(())
}

/// Makes the calls on numbers, a boolean array and a mask.
fn on_masked_numbers<R: Print + Eprint>(
    rt: &R,
    array: &PrimitiveArray<i32>,
    booleans: &BooleanArray,
    mask: &Bitmap,
) {
    if array.len() == 3 && booleans.len() == 3 && mask.len() == 3 {
        show_results(
            rt,
            &chosen_numbers(array, booleans, mask),
            &chosen_numbers(array, booleans, mask),
        );
    }
}

/// Two nulls of booleans, by an array of indices.
fn booleans_at_nulls(array: &BooleanArray, alloc: Global) -> [Row<BooleanArray>; 1] {
    [("take_boolean_by_array", booleans_by_array(array, alloc))]
}

/// Two nulls of texts, by an array of indices.
fn texts_at_nulls(array: &Utf8Array<i32>, alloc: Global) -> [Row<Utf8Array<i32>>; 1] {
    [("take_binary_by_array", texts_by_array(array, alloc))]
}

/// Makes the calls on an array of booleans alone.
fn on_booleans<R: Print + Eprint>(rt: &R, array: &BooleanArray, alloc: Global) {
    show_results(
        rt,
        &comparisons_with_boolean(array),
        &comparisons_with_boolean(array),
    );
    show_results(
        rt,
        &comparisons_of_booleans(array),
        &comparisons_of_booleans(array),
    );
    show_results(
        rt,
        &booleans_at_nulls(array, alloc),
        &booleans_at_nulls(array, alloc),
    );
}

/// Makes the calls on an array of texts alone.
fn on_texts<R: Print + Eprint>(rt: &R, array: &Utf8Array<i32>, alloc: Global) {
    show_results(
        rt,
        &comparisons_with_text(array),
        &comparisons_with_text(array),
    );
    show_results(
        rt,
        &comparisons_of_texts(array),
        &comparisons_of_texts(array),
    );
    show_results(
        rt,
        &texts_at_nulls(array, alloc),
        &texts_at_nulls(array, alloc),
    );
}

/// Makes the calls on booleans and a mask.
fn on_masked_booleans<R: Print + Eprint>(rt: &R, array: &BooleanArray, mask: &Bitmap) {
    if array.len() == 3 && mask.len() == 3 {
        show_results(
            rt,
            &chosen_booleans(array, mask),
            &chosen_booleans(array, mask),
        );
    }
}

/// Makes the calls on texts, a boolean array and a mask.
fn on_masked_texts<R: Print + Eprint>(
    rt: &R,
    array: &Utf8Array<i32>,
    booleans: &BooleanArray,
    mask: &Bitmap,
) {
    if array.len() == 3 && booleans.len() == 3 && mask.len() == 3 {
        show_results(
            rt,
            &chosen_texts(array, booleans, mask),
            &chosen_texts(array, booleans, mask),
        );
    }
}

/// Makes the calls on arrays and a mask.
fn on_mask<R: Print + Eprint>(
    rt: &R,
    alloc: Global,
    numbers: &PrimitiveArray<i32>,
    mask: &Bitmap,
) -> Result<()> {
    let booleans = booleans(alloc).or(booleans(alloc))?;
    on_masked_numbers(rt, numbers, &booleans, mask);
    on_booleans(rt, &booleans, alloc);
    on_masked_booleans(rt, &booleans, mask);
    let texts = texts(alloc).or(texts(alloc))?;
    on_texts(rt, &texts, alloc);
    on_masked_texts(rt, &texts, &booleans, mask);
    Ok(())
}

/// Makes each of these calls.
pub(crate) fn all<R: Print + Eprint>(rt: &R, alloc: Global) -> Result<()> {
    let numbers = numbers(alloc).or(numbers(alloc))?;
    on_numbers(rt, &numbers, alloc);
    on_valid_numbers(rt, alloc)?;
    let mask = mask(alloc).or(mask(alloc))?;
    on_mask(rt, alloc, &numbers, &mask)
}
