//! Kernels of texts, of byte strings and of booleans, at each length up to 300 and on a million items, and some kernels
//! of numbers. Most are compared with plain code over lists.
ghost use Rattle.std.specs.Prelude.{◌≡◌, ◌↔◌, ◌<◌, All, IsTrue, length, pos};
ghost use Rattle.arrow2.specs.Binary.{binary_items};
ghost use Rattle.arrow2.specs.Items.{boolean_items};
ghost use Rattle.arrow2.specs.Primitive.{primitive_items};
ghost use Rattle.arrow2.specs.Lists.{items_of};
ghost use Rattle.arrow2.specs.Take.{IsInBoundsOrNull};

use super::checks::{assert_array, assert_booleans, assert_list, assert_text, assert_that, ok};
use arrow2::array::{
    BinaryArray, BooleanArray, MutableBooleanArray, MutablePrimitiveArray, MutableUtf8Array,
    PrimitiveArray, Utf8Array,
};
use arrow2::bitmap::{Bitmap, MutableBitmap};
use arrow2::compute::aggregate::{max, min, sum};
use arrow2::compute::boolean::{is_not_null, is_null};
use arrow2::compute::cast::{primitive_to_primitive, try_primitive_to_primitive};
use arrow2::compute::concatenate::{concatenate_binary, concatenate_boolean};
use arrow2::compute::filter::{
    filter_binary, filter_binary_by_array, filter_boolean, filter_boolean_by_array, filter_by_array,
};
use arrow2::compute::if_then_else::{if_then_else_binary, if_then_else_boolean};
use arrow2::compute::take::{
    take_binary, take_binary_by_array, take_boolean, take_boolean_by_array, take_by_array,
};
use arrow2::datatypes;
use arrow2::error::Result;
use std::alloc::{AllocError, Global};
use std::convert::TryFrom;
use std::process::Abort;
use std::rc::Rc;

/// Returns the item at an index of the lists that the kernels are tried on, null at each index that `nulls` divides;
/// with 0, none is null.
fn item_at(position: usize, salt: usize, nulls: usize) -> Option<i64> {
    if nulls > 0 && position.wrapping_add(salt) % nulls == 0 {
        return None;
    }
    Some((position.wrapping_mul(salt) % 13) as i64 - 6)
}

/// Returns the items at the indices below `len`.
pub(super) fn numbers_below(
    rt: &impl Abort,
    alloc: Global,
    len: usize,
    salt: usize,
    nulls: usize,
) -> Vec<Option<i64>>
    ensures { length result.items ≡ len }
{
    let mut items = Vec::new(alloc);
    for position in 0..len {
        ok(rt, items.push(item_at(position, salt, nulls)));
    }
    assert_that(rt, items.len() == len);
    items
}

/// Returns the array of these items, a slice of a slice that begins after `skipped` others.
pub(super) fn array_of(
    rt: &impl Abort,
    alloc: Global,
    items: &[Option<i64>],
    skipped: usize,
) -> PrimitiveArray<i64>
    ensures { length (primitive_items result) ≡ length items.now }
{
    let mut array = ok(rt, MutablePrimitiveArray::<i64>::new(alloc));
    ok(rt, array.extend_constant(skipped, Some(7)));
    ok(rt, array.extend_from_options(items));
    last_items(rt, ok(rt, array.freeze()), skipped, items.len())
}

/// Returns the `len` items after `skipped` others, as a slice of a slice. They must be all other items.
fn last_items(
    rt: &impl Abort,
    array: PrimitiveArray<i64>,
    skipped: usize,
    len: usize,
) -> PrimitiveArray<i64>
    ensures { length (primitive_items result) ≡ len }
{
    let array = without_first(rt, without_first(rt, array, 1), skipped.saturating_sub(1));
    assert_that(rt, array.len() == len);
    array
}

/// Returns the items after the first `count`, which must be there.
fn without_first(rt: &impl Abort, array: PrimitiveArray<i64>, count: usize) -> PrimitiveArray<i64> {
    let len = array.len();
    assert_that(rt, count <= len);
    array.sliced(count, len - count)
}

/// Checks which items of a list are null.
fn nulls_agree(rt: &impl Abort, alloc: Global, items: &[Option<i64>]) {
    let array = array_of(rt, alloc, items, 3);
    assert_booleans(
        rt,
        alloc,
        is_null(&array),
        nulls_of(rt, alloc, items, true).as_slice(),
    );
    assert_booleans(
        rt,
        alloc,
        is_not_null(&array),
        nulls_of(rt, alloc, items, false).as_slice(),
    );
    assert_that(
        rt,
        min(&array) == items.iter().filter_map(|item| *item).min(),
    );
    assert_that(
        rt,
        max(&array) == items.iter().filter_map(|item| *item).max(),
    );
}

/// Returns for each item `null` where it is null, and else the other boolean.
fn nulls_of<T>(
    rt: &impl Abort,
    alloc: Global,
    items: &[Option<T>],
    null: bool,
) -> Vec<Option<bool>> {
    let mut nulls = Vec::new(alloc);
    for item in items {
        ok(rt, nulls.push(Some(item.is_none() == null)));
    }
    nulls
}

#[test]
fn nulls_and_the_least_and_greatest_items_are_those_of_lists(rt: HostRuntime) {
    let alloc = rt.alloc();
    for len in 0..=300 {
        for nulls in [0, 1, 2, 64] {
            let items = numbers_below(&rt, alloc, len, 5, nulls);
            nulls_agree(&rt, alloc, items.as_slice());
        }
    }
    let items = numbers_below(&rt, alloc, 1_000_000, 5, 3);
    nulls_agree(&rt, alloc, items.as_slice());
}

#[test]
fn a_null_index_gives_a_null(rt: HostRuntime) {
    let alloc = rt.alloc();
    let array = array_of(&rt, alloc, &[Some(4), None, Some(6)], 2);
    let positions = [Some(2), None, Some(0), Some(1), Some(2)];
    let mut indices = ok(&rt, MutablePrimitiveArray::<u8>::new(alloc));
    ok(&rt, indices.extend_from_options(&positions));
    let taken = take_by_array(&array, &ok(&rt, indices.freeze()));
    assert_array(&rt, alloc, taken, &[Some(6), None, Some(4), None, Some(6)]);
}

#[test]
fn a_null_in_a_mask_drops_the_item(rt: HostRuntime) {
    let alloc = rt.alloc();
    let array = array_of(&rt, alloc, &[Some(4), None, Some(6), Some(8)], 2);
    let (yes, no) = (Some(true), Some(false));
    let mask = ok(
        &rt,
        BooleanArray::from_options(alloc, &[yes, yes, None, no]),
    );
    assert_array(&rt, alloc, filter_by_array(&array, &mask), &[Some(4), None]);
    let mask = ok(&rt, BooleanArray::from_options(alloc, &[no, yes, yes, no]));
    assert_array(&rt, alloc, filter_by_array(&array, &mask), &[None, Some(6)]);
}

/// Returns how many numbers were cast, or the text of the error.
pub(super) fn text_of_cast(
    alloc: Global,
    cast: Result<PrimitiveArray<u8>>,
) -> std::result::Result<String, AllocError> {
    match cast {
        Ok(array) => format!(in alloc; "{} items", array.len()),
        Err(error) => format!(in alloc; "{error}"),
    }
}

/// Checks that numbers are cast to these, or rejected with this text.
fn is_cast(rt: &impl Abort, alloc: Global, from: &[Option<i64>], to: &[Option<u8>], text: &str) {
    let array = array_of(rt, alloc, from, 1);
    let data_type = ok(rt, Rc::new(alloc, datatypes::DataType::UInt8));
    let copy = ok(rt, data_type.clone());
    let cast = ok(rt, primitive_to_primitive::<i64, u8>(&array, data_type));
    assert_list(rt, cast.iter().collect(alloc), to);
    let cast = try_primitive_to_primitive::<i64, u8>(&array, copy);
    assert_text(rt, text_of_cast(alloc, cast), text);
}

#[test]
fn numbers_are_cast_where_they_fit(rt: HostRuntime) {
    let alloc = rt.alloc();
    is_cast(
        &rt,
        alloc,
        &[Some(0), None, Some(255)],
        &[Some(0), None, Some(255)],
        "3 items",
    );
    is_cast(
        &rt,
        alloc,
        &[None, Some(1), Some(256), Some(-1)],
        &[None, Some(1), None, None],
        "Invalid argument error: item 2 does not fit the type",
    );
    is_cast(&rt, alloc, &[], &[], "0 items");
}

#[test]
fn a_sum_of_the_greatest_numbers_is_exact(rt: HostRuntime) {
    let alloc = rt.alloc();
    let mut items = ok(&rt, MutablePrimitiveArray::<u64>::new(alloc));
    let greatest = [Some(u64::MAX), None, Some(u64::MAX)];
    ok(&rt, items.extend_from_options(&greatest));
    let array = ok(&rt, items.freeze());
    assert_that(&rt, sum(&array) == 36_893_488_147_419_103_230);
}

/// Returns whether a mask is true at the indices below `len`.
pub(super) fn flags_of(rt: &impl Abort, alloc: Global, len: usize) -> Vec<bool>
    ensures { length result.items ≡ len }
{
    let mut flags = Vec::new(alloc);
    for index in 0..len {
        ok(rt, flags.push(index % 5 < 2 || index % 7 == 3));
    }
    assert_that(rt, flags.len() == len);
    flags
}

/// Returns the mask of these flags, from bit 3 of its bytes on.
pub(super) fn mask_of(rt: &impl Abort, alloc: Global, flags: &[bool]) -> Bitmap
    ensures { length (items_of result) ≡ length flags.now }
{
    let mut mask = MutableBitmap::new(alloc);
    ok(rt, mask.extend_constant(3, true));
    for flag in flags {
        ok(rt, mask.push(*flag));
    }
    last_bits(rt, ok(rt, Bitmap::try_from(mask)), flags.len())
}

/// Returns the `len` bits after three others, which must be all.
fn last_bits(rt: &impl Abort, mask: Bitmap, len: usize) -> Bitmap
    ensures { length (items_of result) ≡ len }
{
    assert!(rt; 3 <= mask.len() && mask.len() - 3 == len);
    mask.sliced(3, len)
}

/// Returns the items of a list where the flags are true.
pub(super) fn keep<T: Copy>(rt: &impl Abort, alloc: Global, flags: &[bool], items: &[T]) -> Vec<T> {
    let mut kept = Vec::new(alloc);
    for (flag, item) in flags.iter().zip(items) {
        if *flag {
            ok(rt, kept.push(*item));
        }
    }
    kept
}

/// Returns the items of one list where the flags are true, and those of the other elsewhere.
pub(super) fn either<T: Copy>(
    rt: &impl Abort,
    alloc: Global,
    flags: &[bool],
    left: &[T],
    right: &[T],
) -> Vec<T> {
    let mut items = Vec::new(alloc);
    for (flag, (left, right)) in flags.iter().zip(left.iter().zip(right)) {
        ok(rt, items.push(if *flag { *left } else { *right }));
    }
    items
}

/// Returns indices below `len`, as many, in another order.
pub(super) fn indices_below(rt: &impl Abort, alloc: Global, len: usize) -> Vec<usize> {
    let mut indices = Vec::new(alloc);
    for step in 0..len {
        ok(rt, indices.push(step.wrapping_mul(7).wrapping_add(3) % len));
    }
    indices
}

/// Returns the items of a list at these indices.
pub(super) fn at_indices<T: Copy>(
    rt: &impl Abort,
    alloc: Global,
    items: &[T],
    indices: &[usize],
) -> Vec<T> {
    let mut taken = Vec::new(alloc);
    for index in indices {
        assert_that(rt, *index < items.len());
        ok(rt, taken.push(items[*index]));
    }
    taken
}

/// Returns the flags as booleans, of which every fifth is null, whatever its flag is, and the items of a list where a
/// boolean is true.
pub(super) fn masked<T: Copy>(
    rt: &impl Abort,
    alloc: Global,
    flags: &[bool],
    items: &[T],
) -> (BooleanArray, Vec<T>) {
    let (mut known, mut kept) = (Vec::new(alloc), Vec::new(alloc));
    for (index, (flag, item)) in flags.iter().zip(items).enumerate() {
        ok(rt, known.push(index % 5 != 3));
        if index % 5 != 3 && *flag {
            ok(rt, kept.push(*item));
        }
    }
    let validity = mask_of(rt, alloc, known.as_slice());
    let mask = BooleanArray::try_new(mask_of(rt, alloc, flags), Some(validity));
    (ok(rt, mask), kept)
}

/// Returns these indices of which every fourth is null, and the items of a list there.
pub(super) fn keyed<T: Copy>(
    rt: &impl Abort,
    alloc: Global,
    items: &[Option<T>],
    indices: &[usize],
) -> (PrimitiveArray<u32>, Vec<Option<T>>) {
    let mut keys = ok(rt, MutablePrimitiveArray::<u32>::new(alloc));
    let mut list = at_indices(rt, alloc, items, indices);
    for (position, (index, item)) in indices.iter().zip(list.as_mut_slice()).enumerate() {
        if position % 4 == 1 {
            ok(rt, keys.push_null());
            *item = None;
        } else {
            ok(rt, keys.push(u32::try_from(*index).ok()));
        }
    }
    (ok(rt, keys.freeze()), list)
}

/// Returns whether each key is null or below `len`.
pub(super) fn are_in_bounds(keys: &PrimitiveArray<u32>, len: usize) -> bool
    ensures { IsTrue result ↔ All (IsInBoundsOrNull (λ key. pos key) len) (primitive_items keys.now) }
{
    keys.iter().all(|key| is_in_bounds(key, len))
}

/// Returns whether a key is null or below `len`.
fn is_in_bounds(key: Option<u32>, len: usize) -> bool
    ensures { IsTrue result ↔ IsInBoundsOrNull (λ key. pos key) len key }
{
    match key {
        Some(key) => (key as usize) < len,
        None => true,
    }
}

/// Returns the items of two lists, one after the other.
pub(super) fn concatenation<T: Copy>(
    rt: &impl Abort,
    alloc: Global,
    left: &[T],
    right: &[T],
) -> Vec<T> {
    let mut items = ok(rt, left.to_vec(alloc));
    ok(rt, items.extend_from_slice(right));
    items
}

/// Returns the texts at the indices below `len`, each `times` times in a row, null at each index that `nulls` divides.
/// With 0 none is null.
pub(super) fn texts_below(
    rt: &impl Abort,
    alloc: Global,
    len: usize,
    times: usize,
    nulls: usize,
) -> Vec<Option<&'static str>>
    requires { 0 < times }
    ensures { length result.items ≡ len }
{
    let texts = ["", "f", "dé", "four", "\u{1f600}", "fifteen letters", "0"];
    let mut items = Vec::new(alloc);
    for index in 0..len {
        let text = texts[index / times % 7];
        let item = if nulls > 0 && index % nulls == 0 {
            None
        } else {
            Some(text)
        };
        ok(rt, items.push(item));
    }
    assert_that(rt, items.len() == len);
    items
}

/// Returns the array of these texts, a slice of a slice that begins after two others.
pub(super) fn texts(rt: &impl Abort, alloc: Global, items: &[Option<&str>]) -> Utf8Array<i32>
    ensures { length (binary_items result) ≡ length items.now }
{
    let mut array = ok(rt, MutableUtf8Array::<i32>::new(alloc));
    ok(rt, array.push(Some("before")));
    ok(rt, array.push(None));
    for item in items {
        ok(rt, array.push(*item));
    }
    last_texts(rt, ok(rt, array.freeze()), items.len())
}

/// Returns the `len` texts after two others, which must be all: a slice of a slice.
fn last_texts(rt: &impl Abort, array: Utf8Array<i32>, len: usize) -> Utf8Array<i32>
    ensures { length (binary_items result) ≡ len }
{
    let array = without_first_text(rt, without_first_text(rt, array));
    assert_that(rt, array.len() == len);
    array
}

/// Returns the texts after the first, which must be there.
fn without_first_text(rt: &impl Abort, array: Utf8Array<i32>) -> Utf8Array<i32> {
    let len = array.len();
    assert_that(rt, 1 <= len);
    array.sliced(1, len - 1)
}

/// Checks that an array was made, of these texts.
fn has_texts(rt: &impl Abort, call: Result<Utf8Array<i32>>, items: &[Option<&str>]) {
    are_texts(rt, &ok(rt, call), items);
}

/// Checks that an array has these texts.
fn are_texts(rt: &impl Abort, array: &Utf8Array<i32>, items: &[Option<&str>]) {
    assert_that(rt, array.len() == items.len());
    for (index, item) in items.iter().enumerate() {
        assert!(rt; index < array.len() && array.get(index) == *item);
    }
}

/// Checks that an array of byte strings was made, whose bytes are those of these texts.
fn has_bytes(rt: &impl Abort, call: Result<BinaryArray<i32>>, items: &[Option<&str>]) {
    let array = ok(rt, call);
    assert_that(rt, array.len() == items.len());
    for (index, item) in items.iter().enumerate() {
        let bytes = item.map(|text| text.as_bytes());
        assert!(rt; index < array.len() && array.get(index) == bytes);
    }
}

/// Selects texts and byte strings by a mask.
fn texts_are_filtered(rt: &impl Abort, alloc: Global, flags: &[bool], items: &[Option<&str>]) {
    let (a, mask) = (texts(rt, alloc, items), mask_of(rt, alloc, flags));
    assert_that(rt, mask.len() == a.len());
    let list = keep(rt, alloc, flags, items);
    has_texts(rt, filter_binary(&a, &mask), list.as_slice());
    let bytes = ok(rt, a.into_binary());
    assert_that(rt, mask.len() == bytes.len());
    has_bytes(rt, filter_binary(&bytes, &mask), list.as_slice());
}

/// Chooses between two lists of texts, and of byte strings.
fn texts_are_chosen(
    rt: &impl Abort,
    alloc: Global,
    flags: &[bool],
    left: &[Option<&str>],
    right: &[Option<&str>],
) {
    let (a, b) = (texts(rt, alloc, left), texts(rt, alloc, right));
    let mask = mask_of(rt, alloc, flags);
    assert_that(rt, mask.len() == a.len() && mask.len() == b.len());
    let list = either(rt, alloc, flags, left, right);
    has_texts(rt, if_then_else_binary(&mask, &a, &b), list.as_slice());
    let (a, b) = (ok(rt, a.into_binary()), ok(rt, b.into_binary()));
    assert_that(rt, mask.len() == a.len() && mask.len() == b.len());
    has_bytes(rt, if_then_else_binary(&mask, &a, &b), list.as_slice());
}

/// Joins two lists of texts, and of byte strings.
fn texts_are_joined(rt: &impl Abort, alloc: Global, left: &[Option<&str>], right: &[Option<&str>]) {
    let (a, b) = (texts(rt, alloc, left), texts(rt, alloc, right));
    let list = concatenation(rt, alloc, left, right);
    has_texts(rt, concatenate_binary(&a, &[&b]), list.as_slice());
    let (a, b) = (ok(rt, a.into_binary()), ok(rt, b.into_binary()));
    has_bytes(rt, concatenate_binary(&a, &[&b]), list.as_slice());
}

/// Takes texts and byte strings at indices.
fn texts_are_taken(rt: &impl Abort, alloc: Global, items: &[Option<&str>], indices: &[usize]) {
    let a = texts(rt, alloc, items);
    assert_that(rt, !indices.iter().any(|index| *index >= a.len()));
    let list = at_indices(rt, alloc, items, indices);
    has_texts(rt, take_binary(&a, indices), list.as_slice());
    let bytes = ok(rt, a.to_binary());
    assert_that(rt, bytes.len() == a.len());
    has_bytes(rt, take_binary(&bytes, indices), list.as_slice());
}

/// Tells which texts are null, and which byte strings are not.
fn nulls_of_texts_agree(rt: &impl Abort, alloc: Global, items: &[Option<&str>]) {
    let a = texts(rt, alloc, items);
    let nulls = nulls_of(rt, alloc, items, true);
    assert_booleans(rt, alloc, is_null(&a), nulls.as_slice());
    let nulls = nulls_of(rt, alloc, items, false);
    let bytes = ok(rt, a.into_binary());
    assert_booleans(rt, alloc, is_not_null(&bytes), nulls.as_slice());
}

/// Selects texts and byte strings by booleans, of which some are null.
fn texts_are_selected(rt: &impl Abort, alloc: Global, flags: &[bool], items: &[Option<&str>]) {
    let a = texts(rt, alloc, items);
    let (mask, list) = masked(rt, alloc, flags, items);
    assert_that(rt, mask.len() == a.len());
    has_texts(rt, filter_binary_by_array(&a, &mask), list.as_slice());
    let bytes = ok(rt, a.into_binary());
    assert_that(rt, mask.len() == bytes.len());
    has_bytes(rt, filter_binary_by_array(&bytes, &mask), list.as_slice());
}

/// Takes texts and byte strings at indices, of which some are null.
fn texts_are_taken_by_keys(
    rt: &impl Abort,
    alloc: Global,
    items: &[Option<&str>],
    indices: &[usize],
) {
    let a = texts(rt, alloc, items);
    let (keys, list) = keyed(rt, alloc, items, indices);
    assert_that(rt, are_in_bounds(&keys, a.len()));
    has_texts(rt, take_binary_by_array(&a, &keys), list.as_slice());
    let bytes = ok(rt, a.to_binary());
    assert_that(rt, bytes.len() == a.len());
    has_bytes(rt, take_binary_by_array(&bytes, &keys), list.as_slice());
}

/// Checks the kernels of texts at a length.
fn text_kernels_agree_at(rt: &impl Abort, alloc: Global, len: usize, nulls: usize, others: usize) {
    let left = texts_below(rt, alloc, len, 1, nulls);
    let right = texts_below(rt, alloc, len, 3, others);
    let (flags, indices) = (flags_of(rt, alloc, len), indices_below(rt, alloc, len));
    let (left, flags, indices) = (left.as_slice(), flags.as_slice(), indices.as_slice());
    texts_are_filtered(rt, alloc, flags, left);
    texts_are_chosen(rt, alloc, flags, left, right.as_slice());
    texts_are_joined(rt, alloc, left, right.as_slice());
    texts_are_taken(rt, alloc, left, indices);
    nulls_of_texts_agree(rt, alloc, left);
    texts_are_selected(rt, alloc, flags, left);
    texts_are_taken_by_keys(rt, alloc, left, indices);
}

#[test]
fn kernels_of_texts_agree_with_lists(rt: HostRuntime) {
    let alloc = rt.alloc();
    for len in 0..=300 {
        for (nulls, others) in [(0, 0), (3, 0), (0, 4), (2, 3)] {
            text_kernels_agree_at(&rt, alloc, len, nulls, others);
        }
    }
    text_kernels_agree_at(&rt, alloc, 1_000_000, 3, 0);
    text_kernels_agree_at(&rt, alloc, 1_000_000, 0, 4);
}

/// Returns the booleans at the indices below `len`, of which about one in `period` is true, null at each index that
/// `nulls` divides. With 0 none is null. Requires that `period` is above 1.
pub(super) fn booleans_below(
    rt: &impl Abort,
    alloc: Global,
    len: usize,
    period: usize,
    nulls: usize,
) -> Vec<Option<bool>>
    requires { 1 < period }
    ensures { length result.items ≡ len }
{
    let mut items = Vec::new(alloc);
    for index in 0..len {
        let item = if nulls > 0 && index % nulls == 0 {
            None
        } else {
            Some(index % period == 1)
        };
        ok(rt, items.push(item));
    }
    assert_that(rt, items.len() == len);
    items
}

/// Returns the array of these booleans, a slice of a slice that begins after seven others.
pub(super) fn booleans(rt: &impl Abort, alloc: Global, items: &[Option<bool>]) -> BooleanArray
    ensures { length (boolean_items result) ≡ length items.now }
{
    let mut array = MutableBooleanArray::new(alloc);
    ok(rt, array.extend_constant(7, Some(true)));
    for item in items {
        ok(rt, array.push(*item));
    }
    last_booleans(rt, ok(rt, array.freeze()), items.len())
}

/// Returns the `len` booleans after seven others, which must be all: a slice of a slice.
fn last_booleans(rt: &impl Abort, array: BooleanArray, len: usize) -> BooleanArray
    ensures { length (boolean_items result) ≡ len }
{
    let array = without_first_booleans(rt, without_first_booleans(rt, array, 5), 2);
    assert_that(rt, array.len() == len);
    array
}

/// Returns the booleans after the first `count`, which must be there.
fn without_first_booleans(rt: &impl Abort, array: BooleanArray, count: usize) -> BooleanArray {
    let len = array.len();
    assert_that(rt, count <= len);
    array.sliced(count, len - count)
}

/// Checks the kernels of booleans on two lists of equal length.
fn boolean_kernels_agree(
    rt: &impl Abort,
    alloc: Global,
    flags: &[bool],
    left: &[Option<bool>],
    right: &[Option<bool>],
)
    requires left { length flags.now ≡ length left.now }
    requires right { length flags.now ≡ length right.now }
{
    let (a, b) = (booleans(rt, alloc, left), booleans(rt, alloc, right));
    let mask = mask_of(rt, alloc, flags);
    let list = keep(rt, alloc, flags, left);
    assert_booleans(rt, alloc, filter_boolean(&a, &mask), list.as_slice());
    let list = either(rt, alloc, flags, left, right);
    assert_booleans(
        rt,
        alloc,
        if_then_else_boolean(&mask, &a, &b),
        list.as_slice(),
    );
    let list = concatenation(rt, alloc, left, right);
    assert_booleans(rt, alloc, concatenate_boolean(&a, &[&b]), list.as_slice());
}

/// Takes booleans at indices, and tells which of them are null.
fn booleans_are_taken(rt: &impl Abort, alloc: Global, items: &[Option<bool>]) {
    let a = booleans(rt, alloc, items);
    let indices = indices_below(rt, alloc, items.len());
    let indices = indices.as_slice();
    assert_that(rt, !indices.iter().any(|index| *index >= a.len()));
    let list = at_indices(rt, alloc, items, indices);
    assert_booleans(rt, alloc, take_boolean(&a, indices), list.as_slice());
    let nulls = nulls_of(rt, alloc, items, true);
    assert_booleans(rt, alloc, is_null(&a), nulls.as_slice());
}

/// Selects booleans by booleans, and takes them at indices, of which some are null.
fn booleans_are_taken_by_arrays(
    rt: &impl Abort,
    alloc: Global,
    flags: &[bool],
    items: &[Option<bool>],
) {
    let a = booleans(rt, alloc, items);
    let (mask, list) = masked(rt, alloc, flags, items);
    assert_that(rt, mask.len() == a.len());
    assert_booleans(
        rt,
        alloc,
        filter_boolean_by_array(&a, &mask),
        list.as_slice(),
    );
    let indices = indices_below(rt, alloc, items.len());
    let (keys, list) = keyed(rt, alloc, items, indices.as_slice());
    assert_that(rt, are_in_bounds(&keys, a.len()));
    assert_booleans(rt, alloc, take_boolean_by_array(&a, &keys), list.as_slice());
}

/// Checks the kernels of booleans at a length.
fn boolean_kernels_agree_at(
    rt: &impl Abort,
    alloc: Global,
    len: usize,
    nulls: usize,
    others: usize,
) {
    let left = booleans_below(rt, alloc, len, 3, nulls);
    let right = booleans_below(rt, alloc, len, 3, others);
    let flags = flags_of(rt, alloc, len);
    let (left, right) = (left.as_slice(), right.as_slice());
    boolean_kernels_agree(rt, alloc, flags.as_slice(), left, right);
    booleans_are_taken(rt, alloc, left);
    booleans_are_taken_by_arrays(rt, alloc, flags.as_slice(), left);
}

#[test]
fn kernels_of_booleans_agree_with_lists(rt: HostRuntime) {
    let alloc = rt.alloc();
    for len in 0..=300 {
        for (nulls, others) in [(0, 0), (3, 0), (0, 4), (2, 3)] {
            boolean_kernels_agree_at(&rt, alloc, len, nulls, others);
        }
    }
    boolean_kernels_agree_at(&rt, alloc, 1_000_000, 3, 0);
    boolean_kernels_agree_at(&rt, alloc, 1_000_000, 0, 4);
}
