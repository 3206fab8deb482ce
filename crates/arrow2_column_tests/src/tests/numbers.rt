//! Arrays of numbers and their kernels.
ghost use Rattle.std.specs.Prelude.{◌≡◌, length};
ghost use Rattle.arrow2.specs.Primitive.{primitive_items};
ghost use Rattle.arrow2.specs.Lists.{items_of};

use super::checks::{
    assert_array, assert_booleans, assert_compares, assert_list, assert_made, assert_prints,
    assert_text, assert_that, ok,
};
use arrow2::array::{MutablePrimitiveArray, PrimitiveArray};
use arrow2::bitmap::Bitmap;
use arrow2::buffer::Buffer;
use arrow2::compute::aggregate::sum;
use arrow2::compute::comparison::{
    eq_scalar, gt_eq_scalar, gt_scalar, lt_eq_scalar, lt_scalar, neq_scalar,
};
use arrow2::compute::take::take;
use arrow2::datatypes;
use arrow2::error::Result;
use arrow2::types::NativeType;
use either::Either;
use std::alloc::{AllocError, Global};
use std::process::Abort;

/// Returns the item at an index of the lists that the kernels are tried on: every third is null.
fn item_at(position: usize) -> Option<i64> {
    if position % 3 == 1 {
        return None;
    }
    Some((position % 251) as i64 - 100)
}

/// Returns whether the mask is true at an index.
fn is_kept(position: usize) -> bool {
    position % 7 < 4 && position % 2 == 0
}

/// Returns the array of the items at the indices below `len`, a slice of a slice that begins after three nulls.
fn array_of(rt: &impl Abort, alloc: Global, len: usize) -> PrimitiveArray<i64>
    ensures { length (primitive_items result) ≡ len }
{
    let mut items = ok(rt, MutablePrimitiveArray::<i64>::new(alloc));
    ok(rt, items.extend_constant(3, None));
    for position in 0..len {
        ok(rt, items.push(item_at(position)));
    }
    last_items(rt, ok(rt, items.freeze()), len)
}

/// Returns the `len` items after three others, which must be all: a slice of a slice.
fn last_items(rt: &impl Abort, mut array: PrimitiveArray<i64>, len: usize) -> PrimitiveArray<i64>
    ensures { length (primitive_items result) ≡ len }
{
    assert!(rt; 3 <= array.len() && array.len() - 3 == len);
    array.slice(1, len + 2);
    assert!(rt; 2 <= array.len() && array.len() - 2 == len);
    array.slice(2, len);
    array
}

/// Returns the mask of the indices below `len`, from bit 3 of its bytes on.
fn mask_of(rt: &impl Abort, alloc: Global, len: usize) -> Bitmap
    ensures { length (items_of result) ≡ len }
{
    let whole = len.checked_add(3).expect(rt, "few items");
    let mask = Bitmap::try_from_fn(
        alloc,
        whole,
        |position| position >= 3 && is_kept(position - 3),
    );
    ok(rt, mask).sliced(3, len)
}

#[test]
fn a_sum_leaves_nulls_out(rt: HostRuntime) {
    let alloc = rt.alloc();
    let array = array_of(&rt, alloc, 4);
    assert_that(&rt, sum(&array) == -295);
}

/// Checks that an array is rejected with this text.
fn rejects(rt: &impl Abort, alloc: Global, call: Result<PrimitiveArray<i64>>, text: &str) {
    let error = call.err().expect(rt, "an error");
    assert_text(rt, format!(in alloc; "{error}"), text);
}

#[test]
fn arrays_are_rejected_by_what_is_wrong(rt: HostRuntime) {
    let alloc = rt.alloc();
    let values = ok(&rt, Buffer::<i64>::new(alloc));
    let copy = ok(&rt, values.clone());
    let validity = mask_of(&rt, alloc, 2);
    rejects(
        &rt,
        alloc,
        PrimitiveArray::try_new(datatypes::DataType::Int64, values, Some(validity)),
        "Invalid argument error: The length of the validity (2) must equal the length of the values (0)",
    );
    rejects(
        &rt,
        alloc,
        PrimitiveArray::try_new(datatypes::DataType::Int32, copy, None),
        "Invalid argument error: PrimitiveArray can only be initialized with a DataType whose physical type is Primitive",
    );
}

#[test]
fn items_come_from_both_ends(rt: HostRuntime) {
    let alloc = rt.alloc();
    let array = array_of(&rt, alloc, 5);
    let items = [None, Some(-97), Some(-98), None, Some(-100)];
    assert_list(&rt, array.iter().rev().collect(alloc), &items);
    let taken = take(&array, &[4, 0, 1]);
    assert_array(&rt, alloc, taken, [None, Some(-100), None].as_slice());
}

#[test]
fn comparisons_are_null_where_an_item_is(rt: HostRuntime) {
    let alloc = rt.alloc();
    let array = array_of(&rt, alloc, 4);
    let (yes, no) = (Some(true), Some(false));
    assert_booleans(&rt, alloc, eq_scalar(&array, -98), &[no, None, yes, no]);
    assert_booleans(&rt, alloc, neq_scalar(&array, -98), &[yes, None, no, yes]);
    assert_booleans(&rt, alloc, lt_scalar(&array, -98), &[yes, None, no, no]);
    assert_booleans(&rt, alloc, lt_eq_scalar(&array, -98), &[yes, None, yes, no]);
    assert_booleans(&rt, alloc, gt_scalar(&array, -98), &[no, None, no, yes]);
    assert_booleans(&rt, alloc, gt_eq_scalar(&array, -98), &[no, None, yes, yes]);
}

/// Returns the array that the calls of a builder make: two values, a null, a value, and a value twice.
fn array_of_builder(rt: &impl Abort, alloc: Global) -> PrimitiveArray<u8> {
    let mut items = ok(rt, MutablePrimitiveArray::<u8>::new(alloc));
    ok(rt, items.reserve(6));
    ok(rt, items.extend_from_slice(&[1, 2]));
    ok(rt, items.extend_from_options(&[None, Some(3)]));
    ok(rt, items.push_null());
    assert_that(rt, items.pop() == Some(None));
    ok(rt, items.extend_constant(2, Some(4)));
    ok(rt, items.shrink_to_fit());
    assert_that(rt, items.len() == 6);
    assert_that(rt, !items.is_empty());
    ok(rt, items.freeze())
}

/// Checks the items of that array, and which of them are null.
fn is_built(rt: &impl Abort, alloc: Global, array: &PrimitiveArray<u8>) {
    let items = [Some(1), Some(2), None, Some(3), Some(4), Some(4)];
    assert_list(rt, array.iter().collect(alloc), &items);
    assert_that(rt, array.len() == 6);
    assert_that(rt, array.null_count() == 1);
    assert_that(rt, array.is_null(2));
    assert_that(rt, array.is_valid(3));
    assert_that(rt, array.value(3) == 3);
}

/// Checks two values of that array from the fourth on, without a validity.
fn is_part(rt: &impl Abort, part: PrimitiveArray<u8>) {
    assert_that(rt, part.values_iter().len() == 2);
    assert_that(rt, part.validity().is_none());
    let (_, values, validity) = part.into_inner();
    assert_that(rt, values.offset() == 3);
    assert_that(rt, validity.is_none());
}

#[test]
fn each_call_of_a_builder_is_made(rt: HostRuntime) {
    let alloc = rt.alloc();
    let array = array_of_builder(&rt, alloc);
    is_built(&rt, alloc, &ok(&rt, array.clone()));
    is_built(&rt, alloc, &array);
    assert!(rt; array.len() == 6);
    is_part(&rt, array.sliced(3, 2).with_validity(None));
}

/// Returns the array of these items of 32 bits.
fn small(rt: &impl Abort, alloc: Global, items: &[Option<i32>]) -> PrimitiveArray<i32> {
    ok(rt, PrimitiveArray::from_options(alloc, items))
}

/// Returns the `len` items from item `offset` on, which must be inside.
fn part(
    rt: &impl Abort,
    array: PrimitiveArray<i32>,
    offset: usize,
    len: usize,
) -> PrimitiveArray<i32> {
    assert!(rt; offset <= array.len() && len <= array.len() - offset);
    array.sliced(offset, len)
}

#[test]
fn arrays_print_their_logical_type_and_their_items(rt: HostRuntime) {
    let alloc = rt.alloc();
    let array = small(&rt, alloc, &[Some(1), None, Some(-3)]);
    assert_prints(&rt, alloc, &array, "Int32[1, None, -3]");
    assert_prints(&rt, alloc, &part(&rt, array, 3, 0), "Int32[]");
    let text = "Decimal(32, 32)[170141183460469231731687303715884105727]";
    assert_made(
        &rt,
        alloc,
        PrimitiveArray::from_slice(alloc, &[i128::MAX]),
        text,
    );
}

/// Checks that an array of no items prints as its logical type does, followed by brackets.
fn prints_its_type<T: NativeType>(rt: &impl Abort, alloc: Global, data_type: datatypes::DataType) {
    let text = ok(rt, format!(in alloc; "{data_type:?}[]"));
    let values = ok(rt, Buffer::<T>::new(alloc));
    let array = PrimitiveArray::try_new(data_type, values, None);
    assert_made(rt, alloc, array, text.as_str());
}

#[test]
fn logical_types_print_as_by_their_own_debug(rt: HostRuntime) {
    let alloc = rt.alloc();
    prints_its_type::<i32>(&rt, alloc, datatypes::DataType::Date32);
    prints_its_type::<i32>(
        &rt,
        alloc,
        datatypes::DataType::Time32(datatypes::TimeUnit::Millisecond),
    );
    prints_its_type::<i32>(
        &rt,
        alloc,
        datatypes::DataType::Interval(datatypes::IntervalUnit::YearMonth),
    );
    prints_its_type::<i64>(&rt, alloc, datatypes::DataType::Date64);
    prints_its_type::<i64>(
        &rt,
        alloc,
        datatypes::DataType::Time64(datatypes::TimeUnit::Nanosecond),
    );
    prints_its_type::<i64>(
        &rt,
        alloc,
        datatypes::DataType::Duration(datatypes::TimeUnit::Second),
    );
    prints_its_type::<i64>(
        &rt,
        alloc,
        datatypes::DataType::Timestamp(datatypes::TimeUnit::Microsecond, None),
    );
    let zone = ok(&rt, String::from_str(alloc, "UTC"));
    prints_its_type::<i64>(
        &rt,
        alloc,
        datatypes::DataType::Timestamp(datatypes::TimeUnit::Second, Some(zone)),
    );
}

/// Checks that an array is equal to one of the same items, which has other values where they are null.
fn is_masked(rt: &impl Abort, array: &PrimitiveArray<i32>, values: &PrimitiveArray<i32>) {
    let (_, _, validity) = ok(rt, array.clone()).into_inner();
    let values = ok(rt, values.values().clone());
    let masked = PrimitiveArray::try_new(datatypes::DataType::Int32, values, validity);
    assert_compares(rt, array, &ok(rt, masked), true);
}

/// Checks that an array equals an array of its numbers, and differs from an array of dates with these numbers.
fn is_no_dates(rt: &impl Abort, array: &PrimitiveArray<i32>, numbers: PrimitiveArray<i32>) {
    assert_compares(rt, array, &numbers, true);
    let (_, numbers, _) = numbers.into_inner();
    let dates = PrimitiveArray::try_new(datatypes::DataType::Date32, numbers, None);
    assert_compares(rt, array, &ok(rt, dates), false);
}

#[test]
fn what_stands_under_nulls_is_not_compared(rt: HostRuntime) {
    let alloc = rt.alloc();
    let array = small(&rt, alloc, &[Some(1), None, Some(3)]);
    let values = ok(&rt, PrimitiveArray::from_slice(alloc, &[1, 2, 3]));
    assert_compares(&rt, &array, &values, false);
    is_masked(&rt, &array, &values);
    assert_compares(&rt, &values, &small(&rt, alloc, &[Some(1), Some(2)]), false);
    let numbers = small(&rt, alloc, &[Some(1), Some(2), Some(3)]);
    is_no_dates(&rt, &values, numbers);
}

/// Checks that an array becomes one that grows exactly where `owned`, and that it then takes another item.
fn thaws(rt: &impl Abort, alloc: Global, array: PrimitiveArray<i32>, owned: bool, text: &str) {
    let thawed = ok(rt, array.into_mut());
    assert_that(rt, thawed.is_right() == owned);
    match thawed {
        Either::Left(array) => assert_prints(rt, alloc, &array, text),
        Either::Right(items) => grows(rt, alloc, items, text),
    }
}

/// Checks how an array prints after another item.
fn grows(rt: &impl Abort, alloc: Global, mut items: MutablePrimitiveArray<i32>, text: &str) {
    ok(rt, items.push(None));
    assert_made(rt, alloc, items.freeze(), text);
}

/// Checks that an array stays as it is while another array shares its validity.
fn stays(rt: &impl Abort, alloc: Global, array: PrimitiveArray<i32>, text: &str) {
    let (_, values, validity) = array.into_inner();
    let validity = validity.expect(rt, "a null");
    let copy = ok(rt, validity.clone());
    let array = PrimitiveArray::try_new(datatypes::DataType::Int32, values, Some(validity));
    thaws(rt, alloc, ok(rt, array), false, text);
    assert_that(rt, copy.len() == 3);
}

#[test]
fn an_array_of_its_own_grows_again(rt: HostRuntime) {
    let alloc = rt.alloc();
    let items = [Some(1), None, Some(3)];
    let array = small(&rt, alloc, &items);
    thaws(&rt, alloc, array, true, "Int32[1, None, 3, None]");
    let array = small(&rt, alloc, &[Some(7)]);
    thaws(&rt, alloc, array, true, "Int32[7, None]");
    let array = part(&rt, small(&rt, alloc, &items), 1, 2);
    thaws(&rt, alloc, array, false, "Int32[None, 3]");
    let array = small(&rt, alloc, &items);
    let shared = ok(&rt, array.clone());
    thaws(&rt, alloc, array, false, "Int32[1, None, 3]");
    stays(&rt, alloc, shared, "Int32[1, None, 3]");
}

/// Checks that a growing array of `len` items was made, whose capacity is at least `len`, and returns it frozen.
fn freezes(
    rt: &impl Abort,
    call: Result<MutablePrimitiveArray<i64>>,
    len: usize,
) -> PrimitiveArray<i64> {
    let items = ok(rt, call);
    assert_that(rt, items.len() == len);
    assert_that(rt, items.capacity() >= len);
    ok(rt, items.freeze())
}

/// Checks how many values were collected, and that these come first.
fn begins(
    rt: &impl Abort,
    call: std::result::Result<Vec<i64>, AllocError>,
    len: usize,
    first: &[i64],
) {
    let values = ok(rt, call);
    assert_that(rt, values.len() == len);
    assert_that(rt, values.as_slice().starts_with(first));
}

#[test]
fn arrays_are_made_of_iterators(rt: HostRuntime) {
    let alloc = rt.alloc();
    let source = array_of(&rt, alloc, 300);
    let items = MutablePrimitiveArray::try_from_iter(alloc, source.iter());
    let array = freezes(&rt, items, 300);
    assert_that(&rt, array == source);
    let values = array.non_null_values_iter().collect(alloc);
    begins(&rt, values, 200, &[-100, -98, -97]);
}
