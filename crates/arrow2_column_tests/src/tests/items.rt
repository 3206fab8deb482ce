//! What arrays of texts, of byte strings and of booleans give of their items: their values, with and without those under
//! nulls, and the least and the greatest item, at each length up to 300 and on a million items, compared with plain code
//! over lists. The arrays of texts and of byte strings are made of all items at once.
use super::checks::{assert_list, assert_that, ok};
use super::kernels::{booleans, booleans_below, texts_below};
use arrow2::array::{BinaryArray, MutableBinaryArray, MutableUtf8Array, Utf8Array};
use arrow2::compute::aggregate::{max_binary, max_boolean, min_binary, min_boolean};
use arrow2::datatypes;
use std::alloc::Global;
use std::process::Abort;

/// Returns the items that are not null.
fn values_of<T: Copy>(rt: &impl Abort, alloc: Global, items: &[Option<T>]) -> Vec<T> {
    let mut values = Vec::new(alloc);
    for item in items {
        if let Some(value) = *item {
            ok(rt, values.push(value));
        }
    }
    values
}

/// Returns the array of these items, a part of one that has an item before them, and an item and a null after them.
fn texts_together(rt: &impl Abort, alloc: Global, items: &[Option<&str>]) -> Utf8Array<i32> {
    let mut array = ok(rt, MutableUtf8Array::<i32>::new(alloc));
    ok(rt, array.extend_from_slice(&["before"]));
    ok(rt, array.extend_from_options(items));
    ok(rt, array.extend_constant(1, Some("after")));
    ok(rt, array.extend_constant(1, None));
    ok(rt, array.shrink_to_fit());
    let array = ok(rt, array.freeze());
    assert_that(rt, items.len() + 3 == array.len());
    array.sliced(1, items.len())
}

/// Returns the array of these items, a part of one that has an item before them, and an item and a null after them.
fn bytes_together(rt: &impl Abort, alloc: Global, items: &[Option<&[u8]>]) -> BinaryArray<i64> {
    let mut array = ok(rt, MutableBinaryArray::<i64>::new(alloc));
    ok(rt, array.extend_from_slice(&[&[0xff, 0]]));
    ok(rt, array.extend_from_options(items));
    ok(rt, array.extend_constant(1, Some(&[7])));
    ok(rt, array.extend_constant(1, None));
    ok(rt, array.shrink_to_fit());
    let array = ok(rt, array.freeze());
    assert_that(rt, items.len() + 3 == array.len());
    array.sliced(1, items.len())
}

/// Checks the least and the greatest of booleans.
fn booleans_agree(rt: &impl Abort, alloc: Global, items: &[Option<bool>]) {
    let array = booleans(rt, alloc, items);
    let values = values_of(rt, alloc, items);
    let values = values.as_slice();
    assert_that(
        rt,
        min_boolean(&array) == values.iter().min().map(|value| *value),
    );
    assert_that(
        rt,
        max_boolean(&array) == values.iter().max().map(|value| *value),
    );
}

/// Checks booleans of a length.
fn extremes_agree(rt: &impl Abort, alloc: Global, len: usize, nulls: usize) {
    let flags = booleans_below(rt, alloc, len, 3, nulls);
    booleans_agree(rt, alloc, flags.as_slice());
    booleans_agree(
        rt,
        alloc,
        values_alike(rt, alloc, len, true, nulls).as_slice(),
    );
    booleans_agree(
        rt,
        alloc,
        values_alike(rt, alloc, len, false, nulls).as_slice(),
    );
}

/// Returns `len` booleans that are all `value`, null at each index that `nulls` divides. With 0 none is null.
fn values_alike(
    rt: &impl Abort,
    alloc: Global,
    len: usize,
    value: bool,
    nulls: usize,
) -> Vec<Option<bool>> {
    let mut items = Vec::new(alloc);
    for index in 0..len {
        let null = nulls > 0 && index % nulls == 0;
        ok(rt, items.push((!null).then_some(value)));
    }
    items
}

#[test]
fn extremes_of_booleans_agree_with_lists(rt: HostRuntime) {
    let alloc = rt.alloc();
    for len in 0..=300 {
        extremes_agree(&rt, alloc, len, 0);
        extremes_agree(&rt, alloc, len, 1);
        extremes_agree(&rt, alloc, len, 3);
    }
    extremes_agree(&rt, alloc, 1_000_000, 3);
}

/// Checks the items that an iterator over texts gives, and the values that are not null.
fn texts_come_in_order(rt: &impl Abort, array: &Utf8Array<i32>, items: &[Option<&str>]) {
    let (mut iter, mut values) = (array.iter(), array.non_null_values_iter());
    assert_that(rt, iter.len() == items.len());
    for item in items {
        assert_that(rt, iter.next() == Some(*item));
        assert_that(rt, item.is_none() || values.next() == *item);
    }
    assert_that(rt, iter.next().is_none());
    assert_that(rt, values.next().is_none());
}

/// Checks the items that an iterator over texts gives from the last one on.
fn texts_come_from_the_back(rt: &impl Abort, array: &Utf8Array<i32>, items: &[Option<&str>]) {
    let mut iter = array.iter();
    for item in items.iter().rev() {
        assert_that(rt, iter.next_back() == Some(*item));
    }
}

/// Checks texts of a length: their iterators, and the least and the greatest one.
fn texts_agree(rt: &impl Abort, alloc: Global, len: usize, nulls: usize) {
    let items = texts_below(rt, alloc, len, 1, nulls);
    let items = items.as_slice();
    let array = texts_together(rt, alloc, items);
    texts_come_in_order(rt, &array, items);
    texts_come_from_the_back(rt, &array, items);
    let values = values_of(rt, alloc, items);
    let values = values.as_slice();
    assert_that(
        rt,
        min_binary(&array) == values.iter().min().map(|text| text.as_bytes()),
    );
    assert_that(
        rt,
        max_binary(&array) == values.iter().max().map(|text| text.as_bytes()),
    );
}

#[test]
fn items_of_texts_agree_with_lists(rt: HostRuntime) {
    let alloc = rt.alloc();
    for len in 0..=300 {
        for nulls in [0, 1, 3] {
            texts_agree(&rt, alloc, len, nulls);
        }
    }
    texts_agree(&rt, alloc, 1_000_000, 0);
    texts_agree(&rt, alloc, 1_000_000, 3);
}

/// Checks the least and the greatest of texts.
fn extremes_are(
    rt: &impl Abort,
    alloc: Global,
    items: &[Option<&str>],
    least: &str,
    greatest: &str,
) {
    let texts = texts_together(rt, alloc, items);
    assert_that(rt, min_binary(&texts) == Some(least.as_bytes()));
    assert_that(rt, max_binary(&texts) == Some(greatest.as_bytes()));
}

#[test]
fn the_least_and_the_greatest_stand_anywhere(rt: HostRuntime) {
    let alloc = rt.alloc();
    let (a, ab, b) = (Some("a"), Some("ab"), Some("b"));
    extremes_are(&rt, alloc, &[ab, b, None, a, b], "a", "b");
    extremes_are(&rt, alloc, &[None, ab, a, ab, None], "a", "ab");
    extremes_are(&rt, alloc, &[a, ab, Some("é"), Some("z")], "a", "é");
    extremes_are(&rt, alloc, &[b, b], "b", "b");
    extremes_are(&rt, alloc, &[Some("z"), Some("é"), a], "a", "é");
}

#[test]
fn bytes_come_from_both_ends(rt: HostRuntime) {
    let alloc = rt.alloc();
    let (a, b) = ([1, 2].as_slice(), [3].as_slice());
    let array = bytes_together(&rt, alloc, &[Some(b), None, Some(a)]);
    assert_list(
        &rt,
        array.iter().rev().collect(alloc),
        &[Some(a), None, Some(b)],
    );
    assert_list(&rt, array.values_iter().rev().collect(alloc), &[a, &[], b]);
    assert_list(&rt, array.non_null_values_iter().collect(alloc), &[b, a]);
    assert_that(&rt, min_binary(&array) == Some(a));
    assert_that(&rt, max_binary(&array) == Some(b));
}

/// Returns three texts, of which the second is null, though its slot has bytes.
fn masked(rt: &impl Abort, alloc: Global, texts: &[&str; 3]) -> Utf8Array<i32> {
    let (_, offsets, values, _) = ok(rt, Utf8Array::<i32>::from_slice(alloc, texts)).into_inner();
    let items = ok(
        rt,
        Utf8Array::<i32>::from_options(alloc, &[Some(""), None, Some("")]),
    );
    let (_, _, _, validity) = items.into_inner();
    ok(
        rt,
        Utf8Array::try_new(datatypes::DataType::Utf8, offsets, values, validity),
    )
}

#[test]
fn what_stands_under_a_null_is_a_value_and_no_item(rt: HostRuntime) {
    let alloc = rt.alloc();
    let array = masked(&rt, alloc, &["b", "a", "c"]);
    assert_list(&rt, array.values_iter().collect(alloc), &["b", "a", "c"]);
    assert_list(
        &rt,
        array.non_null_values_iter().collect(alloc),
        &["b", "c"],
    );
    assert_that(&rt, min_binary(&array) == Some("b".as_bytes()));
    let array = masked(&rt, alloc, &["b", "z", "c"]);
    assert_that(&rt, max_binary(&array) == Some("c".as_bytes()));
}
