//! Boolean arrays: reading, printing and errors.
ghost use Rattle.std.specs.Prelude.{◌≡◌, length};
ghost use Rattle.arrow2_model.specs.Lists.{items_of};
ghost use Rattle.arrow2_array.specs.Items.{boolean_items};

use super::checks::{assert_that, gives, ok, rejects, shows};
use arrow2_array::{BooleanArray, MutableBooleanArray};
use arrow2_bitmap::Bitmap;
use arrow2_types::Result;
use std::alloc::{AllocError, Global};
use std::process::Abort;

/// Returns the bitmap of a thousand bits that repeat those of one byte.
fn bitmap_of(rt: &impl Abort, alloc: Global, byte: u8) -> Bitmap
    ensures { length (items_of result) ≡ 1000 }
{
    ok(rt, Bitmap::from_u8_slice(alloc, &[byte; 125], 1000))
}

/// The array of a thousand values that are valid where the bits of `validity` are set.
fn array_of(rt: &impl Abort, alloc: Global, values: u8, validity: u8) -> BooleanArray
    ensures { length (boolean_items result) ≡ 1000 }
{
    let values = bitmap_of(rt, alloc, values);
    let validity = bitmap_of(rt, alloc, validity);
    ok(rt, BooleanArray::try_new(values, Some(validity)))
}

#[test]
fn arrays_are_read_and_shown(rt: HostRuntime) {
    let alloc = rt.alloc();
    let mut array = array_of(&rt, alloc, 0b10101010, 0b11001100);
    array.slice(1, 4);
    let copy = ok(&rt, array.clone());
    let items = [None, Some(false), Some(true), None];
    gives(&rt, alloc, (&copy).into_iter(), &items);
    assert_that(&rt, copy.get(0).is_none());
    assert_that(&rt, copy.get(2) == Some(true));
    assert_that(&rt, copy.iter().len() == 4);
    assert_that(&rt, copy == array);
    assert_that(&rt, !copy.is_empty());
    assert_that(&rt, copy.null_count() == 2);
    shows(&rt, alloc, &array, "BooleanArray[None, false, true, None]");
    array.slice(0, 0);
    shows(&rt, alloc, &array, "BooleanArray[]");
}

#[test]
fn a_long_array_is_shown_whole(rt: HostRuntime) {
    let alloc = rt.alloc();
    let front = ok(&rt, "true, None, ".repeat(alloc, 499));
    let text = ok(&rt, format!(in alloc; "BooleanArray[{front}true, None]"));
    let array = array_of(&rt, alloc, 0b11111111, 0b01010101);
    shows(&rt, alloc, &array, text.as_str());
}

/// Returns a bitmap of `len` unset bits.
fn falses(rt: &impl Abort, alloc: Global, len: usize) -> Bitmap {
    ok(rt, Bitmap::new_zeroed(alloc, len))
}

#[test]
fn a_validity_of_another_length_is_rejected(rt: HostRuntime) {
    let alloc = rt.alloc();
    let made = BooleanArray::try_new(falses(&rt, alloc, 3), Some(falses(&rt, alloc, 2)));
    let text =
        "Invalid argument error: The length of the validity (2) must equal the length of the values (3)";
    rejects(&rt, alloc, made, text);
}

#[test]
fn both_parts_are_taken_and_put_together(rt: HostRuntime) {
    let alloc = rt.alloc();
    let array = array_of(&rt, alloc, 0b10101010, 0b11001100);
    assert_that(&rt, array.is_null(0));
    assert_that(&rt, array.is_valid(2));
    assert_that(&rt, array.value(1));
    assert_that(&rt, !array.value(0));
    assert_that(&rt, array.optional_validity().null_count() == 500);
    let (values, validity) = array.into_inner();
    let array = BooleanArray::new(values, validity);
    let array = array.with_validity(None).sliced(1, 2);
    shows(&rt, alloc, &array, "BooleanArray[true, false]");
}

/// The call made an array with the text.
fn has_text(rt: &impl Abort, alloc: Global, made: Result<BooleanArray>, text: &str) {
    let array = ok(rt, made);
    shows(rt, alloc, &array, text);
}

/// The call succeeded.
fn grew(rt: &impl Abort, growth: Result<()>) {
    assert_that(rt, growth.is_ok());
}

#[test]
fn arrays_are_made_of_options_and_grow(rt: HostRuntime) {
    let alloc = rt.alloc();
    let items = [Some(true), None, Some(false)];
    let text = "BooleanArray[true, None, false]";
    has_text(&rt, alloc, BooleanArray::from_options(alloc, &items), text);
    let other = array_of(&rt, alloc, 0b10101010, 0b11001100);
    let mut array = MutableBooleanArray::new(alloc);
    grew(&rt, array.reserve(2));
    grew(&rt, array.push(Some(false)));
    grew(&rt, array.push_null());
    grew(&rt, array.extend_from_slice(&[false, true]));
    grew(&rt, array.extend_from_options(&[None, Some(false)]));
    grew(&rt, array.extend_constant(2, Some(true)));
    grew(&rt, array.extend_from_array(&other, 1, 3));
    assert_that(&rt, array.len() == 11);
    assert_that(&rt, array.pop() == Some(Some(true)));
    grew(&rt, array.shrink_to_fit());
    assert_that(&rt, !array.is_empty());
    let text = "BooleanArray[false, None, false, true, None, false, true, true, None, false]";
    has_text(&rt, alloc, array.freeze(), text);
}

/// Checks how many values were collected, and that these come first.
fn begins(
    rt: &impl Abort,
    call: std::result::Result<Vec<bool>, AllocError>,
    len: usize,
    first: &[bool],
) {
    let values = ok(rt, call);
    assert_that(rt, values.len() == len);
    assert_that(rt, values.as_slice().starts_with(first));
}

#[test]
fn arrays_are_made_of_iterators_and_give_their_values(rt: HostRuntime) {
    let alloc = rt.alloc();
    let source = array_of(&rt, alloc, 0b10100110, 0b11001100);
    let items = MutableBooleanArray::try_from_iter(alloc, source.iter());
    let array = ok(&rt, ok(&rt, items).freeze());
    assert_that(&rt, array == source);
    let values = source.values_iter().collect(alloc);
    begins(&rt, values, 1000, &[false, true, true, false]);
    let values = source.values_iter().rev().collect(alloc);
    begins(&rt, values, 1000, &[true, false, true, false]);
    let values = source.non_null_values_iter().collect(alloc);
    begins(&rt, values, 500, &[true, false, false, true]);
}
