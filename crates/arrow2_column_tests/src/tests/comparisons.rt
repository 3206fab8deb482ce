//! Comparisons of two arrays of numbers, texts and booleans, and of byte strings and booleans with a scalar, at each
//! length up to 300, and on a million items, compared with plain code over lists.

use super::checks::{assert_booleans, assert_that, ok};
use super::kernels::{array_of, booleans, booleans_below, numbers_below, texts, texts_below};
use arrow2::array::{BinaryArray, BooleanArray, PrimitiveArray, Utf8Array};
use arrow2::compute::comparison::{binary, boolean, eq, gt, gt_eq, lt, lt_eq, neq};
use arrow2::error::Result;
use std::alloc::Global;
use std::cmp::Ordering;
use std::process::Abort;

/// Returns how the items of two lists compare, index by index: `None` where an item is null.
pub(super) fn orders<T: Ord>(
    rt: &impl Abort,
    alloc: Global,
    left: &[Option<T>],
    right: &[Option<T>],
) -> Vec<Option<Ordering>> {
    let mut orders = Vec::new(alloc);
    for (left, right) in left.iter().zip(right) {
        let order = match (left, right) {
            (Some(left), Some(right)) => Some(left.cmp(right)),
            _ => None,
        };
        ok(rt, orders.push(order));
    }
    orders
}

/// The results of a comparison where the left item is below, equal to and above the right one.
pub(super) type Results = (bool, bool, bool);

/// Checks that a comparison of two arrays, whose items compare so, has these results.
pub(super) fn is_compared(
    rt: &impl Abort,
    alloc: Global,
    call: Result<BooleanArray>,
    orders: &[Option<Ordering>],
    (below, equal, above): Results,
) {
    let mut list = Vec::new(alloc);
    for order in orders {
        let item = match order {
            None => None,
            Some(Ordering::Less) => Some(below),
            Some(Ordering::Equal) => Some(equal),
            Some(Ordering::Greater) => Some(above),
        };
        ok(rt, list.push(item));
    }
    assert_booleans(rt, alloc, call, list.as_slice());
}

/// Checks the six comparisons of two lists of equal length.
fn numbers_compare(rt: &impl Abort, alloc: Global, left: &[Option<i64>], right: &[Option<i64>]) {
    let (a, b) = (array_of(rt, alloc, left, 5), array_of(rt, alloc, right, 66));
    compares_numbers(rt, alloc, (&a, left), (&b, right));
}

/// An array of numbers, and the list that it is to be.
type Of<'a, 'b> = (&'a PrimitiveArray<i64>, &'b [Option<i64>]);

/// Checks the six comparisons of two arrays.
fn compares_numbers(rt: &impl Abort, alloc: Global, (a, left): Of, (b, right): Of) {
    assert_that(rt, a.len() == b.len());
    let list = orders(rt, alloc, left, right);
    let orders = list.as_slice();
    is_compared(rt, alloc, eq(a, b), orders, (false, true, false));
    is_compared(rt, alloc, neq(a, b), orders, (true, false, true));
    is_compared(rt, alloc, lt(a, b), orders, (true, false, false));
    is_compared(rt, alloc, lt_eq(a, b), orders, (true, true, false));
    is_compared(rt, alloc, gt(a, b), orders, (false, false, true));
    is_compared(rt, alloc, gt_eq(a, b), orders, (false, true, true));
}

#[test]
fn comparisons_of_numbers_agree_with_lists(rt: HostRuntime) {
    let alloc = rt.alloc();
    for len in 0..=300 {
        for (nulls, others) in [(0, 0), (3, 0), (0, 5), (3, 5)] {
            let left = numbers_below(&rt, alloc, len, 3, nulls);
            let right = numbers_below(&rt, alloc, len, 4, others);
            numbers_compare(&rt, alloc, left.as_slice(), right.as_slice());
        }
    }
    let left = numbers_below(&rt, alloc, 1_000_000, 3, 3);
    let right = numbers_below(&rt, alloc, 1_000_000, 4, 5);
    numbers_compare(&rt, alloc, left.as_slice(), right.as_slice());
}

/// Checks the six comparisons of two arrays of texts, whose items compare so.
fn compares_texts(
    rt: &impl Abort,
    alloc: Global,
    a: &Utf8Array<i32>,
    b: &Utf8Array<i32>,
    orders: &[Option<Ordering>],
) {
    assert_that(rt, a.len() == b.len());
    is_compared(rt, alloc, binary::eq(a, b), orders, (false, true, false));
    is_compared(rt, alloc, binary::neq(a, b), orders, (true, false, true));
    is_compared(rt, alloc, binary::lt(a, b), orders, (true, false, false));
    is_compared(rt, alloc, binary::lt_eq(a, b), orders, (true, true, false));
    is_compared(rt, alloc, binary::gt(a, b), orders, (false, false, true));
    is_compared(rt, alloc, binary::gt_eq(a, b), orders, (false, true, true));
}

/// Checks the comparisons of byte strings with one. `orders` lists how the items compare with it.
fn compares_with_bytes(
    rt: &impl Abort,
    alloc: Global,
    a: &BinaryArray<i32>,
    bytes: &[u8],
    orders: &[Option<Ordering>],
) {
    let call = binary::eq_scalar(a, bytes);
    is_compared(rt, alloc, call, orders, (false, true, false));
    let call = binary::neq_scalar(a, bytes);
    is_compared(rt, alloc, call, orders, (true, false, true));
    let call = binary::lt_scalar(a, bytes);
    is_compared(rt, alloc, call, orders, (true, false, false));
    let call = binary::lt_eq_scalar(a, bytes);
    is_compared(rt, alloc, call, orders, (true, true, false));
    let call = binary::gt_scalar(a, bytes);
    is_compared(rt, alloc, call, orders, (false, false, true));
    let call = binary::gt_eq_scalar(a, bytes);
    is_compared(rt, alloc, call, orders, (false, true, true));
    let call = binary::compare_each(a, |value| value == bytes);
    is_compared(rt, alloc, call, orders, (false, true, false));
}

/// Checks the comparisons of texts of two lists of equal length, and of byte strings with one.
fn texts_compare(rt: &impl Abort, alloc: Global, left: &[Option<&str>], right: &[Option<&str>]) {
    let (a, b) = (texts(rt, alloc, left), texts(rt, alloc, right));
    let list = orders(rt, alloc, left, right);
    compares_texts(rt, alloc, &a, &b, list.as_slice());
    let four = ok(rt, vec![in alloc; Some("four"); left.len()]);
    let list = orders(rt, alloc, left, four.as_slice());
    let bytes = ok(rt, a.into_binary());
    compares_with_bytes(rt, alloc, &bytes, "four".as_bytes(), list.as_slice());
}

/// Checks the comparisons of texts and of byte strings at a length.
fn texts_compare_at(rt: &impl Abort, alloc: Global, len: usize, nulls: usize, others: usize) {
    let left = texts_below(rt, alloc, len, 1, nulls);
    let right = texts_below(rt, alloc, len, 3, others);
    texts_compare(rt, alloc, left.as_slice(), right.as_slice());
}

#[test]
fn comparisons_of_texts_agree_with_lists(rt: HostRuntime) {
    let alloc = rt.alloc();
    for len in 0..=300 {
        for (nulls, others) in [(0, 0), (3, 0), (0, 4), (2, 3)] {
            texts_compare_at(&rt, alloc, len, nulls, others);
        }
    }
    texts_compare_at(&rt, alloc, 1_000_000, 3, 4);
}

/// Checks the comparisons of each item with a boolean.
fn compares_with_boolean(
    rt: &impl Abort,
    alloc: Global,
    a: &BooleanArray,
    items: &[Option<bool>],
    scalar: bool,
) {
    let scalars = ok(rt, vec![in alloc; Some(scalar); items.len()]);
    let list = orders(rt, alloc, items, scalars.as_slice());
    let orders = list.as_slice();
    let call = boolean::eq_scalar(a, scalar);
    is_compared(rt, alloc, call, orders, (false, true, false));
    let call = boolean::neq_scalar(a, scalar);
    is_compared(rt, alloc, call, orders, (true, false, true));
    let call = boolean::lt_scalar(a, scalar);
    is_compared(rt, alloc, call, orders, (true, false, false));
    let call = boolean::lt_eq_scalar(a, scalar);
    is_compared(rt, alloc, call, orders, (true, true, false));
    let call = boolean::gt_scalar(a, scalar);
    is_compared(rt, alloc, call, orders, (false, false, true));
    let call = boolean::gt_eq_scalar(a, scalar);
    is_compared(rt, alloc, call, orders, (false, true, true));
}

/// Checks the comparisons of booleans of two lists of equal length.
fn booleans_compare(rt: &impl Abort, alloc: Global, left: &[Option<bool>], right: &[Option<bool>]) {
    let a = booleans(rt, alloc, left);
    let b = ok(rt, BooleanArray::from_options(alloc, right));
    assert_that(rt, a.len() == b.len());
    let list = orders(rt, alloc, left, right);
    let orders = list.as_slice();
    is_compared(rt, alloc, boolean::eq(&a, &b), orders, (false, true, false));
    is_compared(rt, alloc, boolean::neq(&a, &b), orders, (true, false, true));
    is_compared(rt, alloc, boolean::lt(&a, &b), orders, (true, false, false));
    let call = boolean::lt_eq(&a, &b);
    is_compared(rt, alloc, call, orders, (true, true, false));
    is_compared(rt, alloc, boolean::gt(&a, &b), orders, (false, false, true));
    let call = boolean::gt_eq(&a, &b);
    is_compared(rt, alloc, call, orders, (false, true, true));
    compares_with_boolean(rt, alloc, &a, left, false);
    compares_with_boolean(rt, alloc, &a, left, true);
    compares_with_boolean(rt, alloc, &b, right, false);
    compares_with_boolean(rt, alloc, &b, right, true);
}

/// Checks the comparisons of booleans at a length.
fn booleans_compare_at(rt: &impl Abort, alloc: Global, len: usize, nulls: usize, others: usize) {
    let left = booleans_below(rt, alloc, len, 3, nulls);
    let right = booleans_below(rt, alloc, len, 2, others);
    booleans_compare(rt, alloc, left.as_slice(), right.as_slice());
}

#[test]
fn comparisons_of_booleans_agree_with_lists(rt: HostRuntime) {
    let alloc = rt.alloc();
    for len in 0..=300 {
        for (nulls, others) in [(0, 0), (5, 0), (0, 7), (5, 7)] {
            booleans_compare_at(&rt, alloc, len, nulls, others);
        }
    }
    booleans_compare_at(&rt, alloc, 1_000_000, 5, 7);
}
