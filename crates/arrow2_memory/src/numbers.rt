//! Arrays of numbers, and which of their items are not null.
use crate::calls::{Row, input, ran_out, show, show_results};
use crate::items::{growing_items, items};
use arrow2_bitmap::Bitmap;
use arrow2_buffer::Buffer;
use arrow2_datatypes::DataType;
use arrow2_primitive::{MutablePrimitiveArray, PrimitiveArray};
use arrow2_types::Result;
use arrow2_validity::{Validity, check_same_length};
use either::Either;
use std::alloc::Global;
use std::convert::TryFrom;
use std::io::{Eprint, Print};

/// The items that arrays are made of.
const ITEMS: [Option<i32>; 3] = [Some(1), None, Some(3)];

/// The array of one value, for which no bitmap is needed.
fn one(alloc: Global) -> Result<PrimitiveArray<i32>> {
    input(PrimitiveArray::from_slice(alloc, &[7]))
}

/// The array of a logical type of its own.
fn array_of_type(alloc: Global) -> Result<PrimitiveArray<i32>> {
    let values = input(Buffer::new(alloc))?;
    PrimitiveArray::try_new(DataType::Date32, values, None)
}

/// The array over a vector.
fn over_vector(alloc: Global) -> Result<PrimitiveArray<i32>> {
    PrimitiveArray::from_vec(Vec::new(alloc))
}

/// The array of two nulls, frozen.
fn frozen_array(alloc: Global) -> Result<PrimitiveArray<i32>> {
    let mut grown = input(MutablePrimitiveArray::new(alloc))?;
    input(grown.extend_constant(2, None))?;
    grown.freeze()
}

/// An array that became a growing one, frozen again. It has no validity, so that one is made.
fn thaw_and_freeze(alloc: Global) -> Result<PrimitiveArray<i32>> {
    match one(alloc)?.into_mut()? {
        Either::Left(array) => Ok(array),
        Either::Right(array) => input(array.freeze()),
    }
}

/// Arrays of given items.
fn new_arrays(alloc: Global) -> [Row<PrimitiveArray<i32>>; 6] {
    [
        ("PrimitiveArray::try_new", array_of_type(alloc)),
        ("PrimitiveArray::from_vec", over_vector(alloc)),
        (
            "PrimitiveArray::from_slice",
            PrimitiveArray::from_slice(alloc, &[1, 2]),
        ),
        (
            "PrimitiveArray::from_options",
            PrimitiveArray::from_options(alloc, &ITEMS),
        ),
        ("PrimitiveArray::into_mut", thaw_and_freeze(alloc)),
        ("MutablePrimitiveArray::freeze", frozen_array(alloc)),
    ]
}

/// The number of items of an array that grows.
fn count(array: Result<MutablePrimitiveArray<i32>>) -> Result<usize> {
    Ok(array?.len())
}

/// The number of items of an array that an iterator gave.
fn collect_and_count(alloc: Global) -> Result<usize> {
    count(MutablePrimitiveArray::try_from_iter(alloc, ITEMS))
}

/// The numbers of items of arrays that grow.
fn growing(alloc: Global) -> [Row<usize>; 3] {
    [
        (
            "MutablePrimitiveArray::new",
            count(MutablePrimitiveArray::new(alloc)),
        ),
        (
            "MutablePrimitiveArray::with_capacity",
            count(MutablePrimitiveArray::with_capacity(alloc, 20)),
        ),
        (
            "MutablePrimitiveArray::try_from_iter",
            collect_and_count(alloc),
        ),
    ]
}

/// The ways in which an array grows or its capacity changes.
#[derive(Clone, Copy)]
enum Growth {
    /// By one item.
    Push,
    /// By a null.
    PushNull,
    /// By values.
    ExtendFromSlice,
    /// By items.
    ExtendFromOptions,
    /// By one item many times.
    ExtendConstant,
    /// By another array.
    ExtendFromArray,
    /// By capacity alone.
    Reserve,
}

/// Changes the array in this way.
fn grow(
    growth: Growth,
    array: &mut MutablePrimitiveArray<i32>,
    other: &PrimitiveArray<i32>,
) -> Row<()> {
    match growth {
        Growth::Push => ("MutablePrimitiveArray::push", array.push(Some(1))),
        Growth::PushNull => ("MutablePrimitiveArray::push_null", array.push_null()),
        Growth::ExtendFromSlice => (
            "MutablePrimitiveArray::extend_from_slice",
            array.extend_from_slice(&[1, 2]),
        ),
        Growth::ExtendFromOptions => (
            "MutablePrimitiveArray::extend_from_options",
            array.extend_from_options(&ITEMS),
        ),
        Growth::ExtendConstant => (
            "MutablePrimitiveArray::extend_constant",
            array.extend_constant(90, None),
        ),
        Growth::ExtendFromArray => (
            "MutablePrimitiveArray::extend_from_array",
            array.extend_from_array(other, 0, other.len()),
        ),
        Growth::Reserve => ("MutablePrimitiveArray::reserve", array.reserve(90)),
    }
}

/// Changes an empty array, and shows how many items it has then. Where an allocation failed, it must still be empty,
/// and is changed once more.
fn grow_and_show<R: Print + Eprint>(
    rt: &R,
    growth: Growth,
    array: &mut MutablePrimitiveArray<i32>,
    other: &PrimitiveArray<i32>,
) {
    let (call, made) = grow(growth, array, other);
    if ran_out(rt, call, &made) {
        if !array.is_empty() {
            show(rt, "changed though it failed", &array.len());
        }
        let (_, again) = grow(growth, array, other);
        show(rt, call, &again);
    } else {
        show(rt, call, &made);
    }
    show(rt, call, &array.len());
}

/// The validity of seventy items, or of none that is null.
fn validity(bitmap: Option<Bitmap>) -> Result<Validity> {
    input(Validity::try_new(70, bitmap))
}

/// The number of nulls of two validities combined.
fn both(alloc: Global) -> Result<usize> {
    let one = validity(Some(items(alloc, 1)?))?;
    let other = validity(Some(items(alloc, 2)?))?;
    if one.len() != other.len() {
        return Ok(0);
    }
    Ok(one.both(&other)?.null_count())
}

/// The number of items of a growing validity. It has no bitmap, so that one is made.
fn thawed_validity(alloc: Global) -> Result<usize> {
    match validity(None)?.into_mut(alloc)? {
        Either::Left(validity) => Ok(validity.len()),
        Either::Right(bitmap) => Ok(bitmap.len()),
    }
}

/// The number of items of a bitmap after which those of a validity begin.
fn append_validity(alloc: Global) -> Result<usize> {
    let mut grown = input(growing_items(alloc))?;
    let validity = validity(None)?;
    if validity.len() < 70 {
        return Ok(0);
    }
    validity.append_to(0, 70, &mut grown)?;
    Ok(grown.len())
}

/// The number of items of a validity that is rejected.
fn of_another_length(alloc: Global) -> Result<usize> {
    Ok(Validity::try_new(3, Some(items(alloc, 1)?))?.len())
}

/// A bitmap that is rejected.
fn check_bitmap(alloc: Global) -> Result<usize> {
    check_same_length(3, &items(alloc, 1)?)?;
    Ok(0)
}

/// Which items are not null.
fn validities(alloc: Global) -> [Row<usize>; 5] {
    [
        ("Validity::both", both(alloc)),
        ("Validity::into_mut", thawed_validity(alloc)),
        ("Validity::append_to", append_validity(alloc)),
        ("Validity::try_new", of_another_length(alloc)),
        ("check_same_length", check_bitmap(alloc)),
    ]
}

/// Makes each of these calls.
pub(crate) fn all<R: Print + Eprint>(rt: &R, alloc: Global) -> Result<()> {
    show_results(rt, &new_arrays(alloc), &new_arrays(alloc));
    show_results(rt, &growing(alloc), &growing(alloc));
    show_results(rt, &validities(alloc), &validities(alloc));
    let other = one(alloc).or(one(alloc))?;
    for growth in [
        Growth::Push,
        Growth::PushNull,
        Growth::ExtendFromSlice,
        Growth::ExtendFromOptions,
        Growth::ExtendConstant,
        Growth::ExtendFromArray,
        Growth::Reserve,
    ] {
        let mut array = MutablePrimitiveArray::like(&other)?;
        grow_and_show(rt, growth, &mut array, &other);
    }
    Ok(())
}
