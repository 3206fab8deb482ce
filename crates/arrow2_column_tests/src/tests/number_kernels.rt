//! Kernels of numbers at each length up to 300, and on a million items, compared with plain code over lists.
ghost use Rattle.std.specs.Prelude.{◌≡◌, length};

use super::checks::{assert_array, assert_list, assert_text, assert_that, ok};
use super::comparisons::{is_compared, orders};
use super::kernels::{
    are_in_bounds, array_of, at_indices, concatenation, either, flags_of, indices_below, keep,
    keyed, mask_of, masked, numbers_below, text_of_cast,
};
use arrow2::compute::aggregate::sum;
use arrow2::compute::cast::{primitive_to_primitive, try_primitive_to_primitive};
use arrow2::compute::comparison::{
    compare_each, eq_scalar, gt_eq_scalar, gt_scalar, lt_eq_scalar, lt_scalar, neq_scalar,
};
use arrow2::compute::concatenate::concatenate;
use arrow2::compute::filter::{filter, filter_by_array};
use arrow2::compute::if_then_else::if_then_else;
use arrow2::compute::take::{take, take_by_array};
use arrow2::datatypes;
use std::alloc::Global;
use std::convert::TryFrom;
use std::process::Abort;
use std::rc::Rc;

/// Selects by a mask, chooses between two arrays, and joins them.
fn are_combined(
    rt: &impl Abort,
    alloc: Global,
    flags: &[bool],
    left: &[Option<i64>],
    right: &[Option<i64>],
)
    requires left { length flags.now ≡ length left.now }
    requires right { length flags.now ≡ length right.now }
{
    let (a, b) = (array_of(rt, alloc, left, 5), array_of(rt, alloc, right, 66));
    let mask = mask_of(rt, alloc, flags);
    let list = keep(rt, alloc, flags, left);
    assert_array(rt, alloc, filter(&a, &mask), list.as_slice());
    let list = either(rt, alloc, flags, left, right);
    assert_array(rt, alloc, if_then_else(&mask, &a, &b), list.as_slice());
    let list = concatenation(rt, alloc, left, right);
    assert_array(rt, alloc, concatenate(&a, &[&b]), list.as_slice());
}

/// Selects by booleans, of which every fifth is null.
fn are_selected_by_booleans(rt: &impl Abort, alloc: Global, flags: &[bool], items: &[Option<i64>]) {
    let array = array_of(rt, alloc, items, 2);
    let (mask, kept) = masked(rt, alloc, flags, items);
    assert_that(rt, mask.len() == array.len());
    assert_array(rt, alloc, filter_by_array(&array, &mask), kept.as_slice());
}

/// Takes the items at these indices.
fn are_taken(rt: &impl Abort, alloc: Global, items: &[Option<i64>], indices: &[usize]) {
    let array = array_of(rt, alloc, items, 9);
    let list = at_indices(rt, alloc, items, indices);
    assert_that(rt, !indices.iter().any(|index| *index >= array.len()));
    assert_array(rt, alloc, take(&array, indices), list.as_slice());
}

/// Takes the items at these indices, of which every fourth is null.
fn are_taken_by_keys(rt: &impl Abort, alloc: Global, items: &[Option<i64>], indices: &[usize]) {
    let array = array_of(rt, alloc, items, 1);
    let (keys, list) = keyed(rt, alloc, items, indices);
    assert_that(rt, are_in_bounds(&keys, array.len()));
    assert_array(rt, alloc, take_by_array(&array, &keys), list.as_slice());
}

/// Compares each item with 1.
fn are_compared_with_one(rt: &impl Abort, alloc: Global, items: &[Option<i64>]) {
    let a = array_of(rt, alloc, items, 4);
    let ones = ok(rt, vec![in alloc; Some(1i64); items.len()]);
    let list = orders(rt, alloc, items, ones.as_slice());
    let orders = list.as_slice();
    is_compared(rt, alloc, eq_scalar(&a, 1), orders, (false, true, false));
    is_compared(rt, alloc, neq_scalar(&a, 1), orders, (true, false, true));
    is_compared(rt, alloc, lt_scalar(&a, 1), orders, (true, false, false));
    is_compared(rt, alloc, lt_eq_scalar(&a, 1), orders, (true, true, false));
    is_compared(rt, alloc, gt_scalar(&a, 1), orders, (false, false, true));
    is_compared(rt, alloc, gt_eq_scalar(&a, 1), orders, (false, true, true));
    let equal = compare_each(&a, |value| *value == 1);
    is_compared(rt, alloc, equal, orders, (false, true, false));
}

/// Casts to bytes: a negative number does not fit.
fn are_cast(rt: &impl Abort, alloc: Global, items: &[Option<i64>]) {
    let mut list = Vec::new(alloc);
    for item in items {
        let byte = match item {
            Some(number) => u8::try_from(*number).ok(),
            None => None,
        };
        ok(rt, list.push(byte));
    }
    let array = array_of(rt, alloc, items, 1);
    let data_type = ok(rt, Rc::new(alloc, datatypes::DataType::UInt8));
    let copy = ok(rt, data_type.clone());
    let cast = ok(rt, primitive_to_primitive::<i64, u8>(&array, data_type));
    assert_list(rt, cast.iter().collect(alloc), list.as_slice());
    let text = match items
        .iter()
        .position(|item| item.is_some_and(|number| number < 0))
    {
        Some(index) => {
            format!(in alloc; "Invalid argument error: item {index} does not fit the type")
        }
        None => format!(in alloc; "{} items", items.len()),
    };
    let cast = try_primitive_to_primitive::<i64, u8>(&array, copy);
    assert_text(rt, text_of_cast(alloc, cast), ok(rt, text).as_str());
}

/// Adds up the items that are not null.
fn are_added_up(rt: &impl Abort, alloc: Global, items: &[Option<i64>]) {
    let mut total = 0i128;
    for item in items {
        total = total.wrapping_add(i128::from(item.unwrap_or(0)));
    }
    assert_that(rt, sum(&array_of(rt, alloc, items, 3)) == total);
}

/// Checks the kernels at a length.
fn kernels_agree(rt: &impl Abort, alloc: Global, len: usize, nulls: usize, others: usize) {
    let left = numbers_below(rt, alloc, len, 3, nulls);
    let right = numbers_below(rt, alloc, len, 4, others);
    let (flags, indices) = (flags_of(rt, alloc, len), indices_below(rt, alloc, len));
    let (left, flags, indices) = (left.as_slice(), flags.as_slice(), indices.as_slice());
    are_combined(rt, alloc, flags, left, right.as_slice());
    are_selected_by_booleans(rt, alloc, flags, left);
    are_taken(rt, alloc, left, indices);
    are_taken_by_keys(rt, alloc, left, indices);
    are_compared_with_one(rt, alloc, left);
    are_cast(rt, alloc, left);
    are_added_up(rt, alloc, left);
}

#[test]
fn kernels_of_numbers_agree_with_lists(rt: HostRuntime) {
    let alloc = rt.alloc();
    for len in 0..=300 {
        for (nulls, others) in [(0, 0), (3, 0), (0, 5), (3, 5)] {
            kernels_agree(&rt, alloc, len, nulls, others);
        }
    }
    kernels_agree(&rt, alloc, 1_000_000, 3, 0);
    kernels_agree(&rt, alloc, 1_000_000, 0, 5);
}
