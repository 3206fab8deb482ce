//! Boolean arrays of given items, and arrays that grow.
use crate::calls::{Row, input, ran_out, show, show_results};
use crate::walks::array;
use arrow2_array::{BooleanArray, MutableBooleanArray};
use arrow2_types::Result;
use std::alloc::Global;
use std::io::{Eprint, Print};

/// Arrays of given items.
fn new_arrays(alloc: Global) -> [Row<BooleanArray>; 2] {
    let items = [Some(true), None, Some(false)];
    [
        (
            "BooleanArray::from_options",
            BooleanArray::from_options(alloc, &items),
        ),
        ("MutableBooleanArray::freeze", frozen_array(alloc)),
    ]
}

/// The array of three nulls, frozen.
fn frozen_array(alloc: Global) -> Result<BooleanArray> {
    let mut grown = MutableBooleanArray::new(alloc);
    input(grown.extend_constant(3, None))?;
    grown.freeze()
}

/// Returns the numbers of items of arrays that grow: one with spare capacity, and one that an iterator gave.
fn growing(alloc: Global) -> [Row<usize>; 2] {
    let array = MutableBooleanArray::with_capacity(alloc, 20);
    let collected = MutableBooleanArray::try_from_iter(alloc, Some(None));
    [
        (
            "MutableBooleanArray::with_capacity",
            array.map(|array| array.len()),
        ),
        (
            "MutableBooleanArray::try_from_iter",
            collected.map(|array| array.len()),
        ),
    ]
}

/// The ways in which an array grows or its capacity changes.
#[derive(Clone, Copy)]
enum Growth {
    /// By one item.
    Push,
    /// By a null.
    PushNull,
    /// By values that are not null.
    ExtendFromSlice,
    /// By items.
    ExtendFromOptions,
    /// By one item many times.
    ExtendConstant,
    /// By the second half of another array.
    ExtendFromArray,
    /// By capacity alone.
    Reserve,
}

/// Changes the array in this way.
fn grow(growth: Growth, array: &mut MutableBooleanArray, other: &BooleanArray) -> Row<()> {
    match growth {
        Growth::Push => ("MutableBooleanArray::push", array.push(Some(true))),
        Growth::PushNull => ("MutableBooleanArray::push_null", array.push_null()),
        Growth::ExtendFromSlice => (
            "MutableBooleanArray::extend_from_slice",
            array.extend_from_slice(&[true, false]),
        ),
        Growth::ExtendFromOptions => (
            "MutableBooleanArray::extend_from_options",
            array.extend_from_options(&[Some(true), None]),
        ),
        Growth::ExtendConstant => (
            "MutableBooleanArray::extend_constant",
            array.extend_constant(90, None),
        ),
        Growth::ExtendFromArray => (
            "MutableBooleanArray::extend_from_array",
            array.extend_from_array(other, other.len() / 2, other.len() - other.len() / 2),
        ),
        Growth::Reserve => ("MutableBooleanArray::reserve", array.reserve(90)),
    }
}

/// Changes an empty array, and shows how many items it has then. Where an allocation failed, it must still be empty,
/// and is changed once more.
fn grow_and_show<R: Print + Eprint>(rt: &R, alloc: Global, growth: Growth, other: &BooleanArray) {
    let mut array = MutableBooleanArray::new(alloc);
    let (call, made) = grow(growth, &mut array, other);
    if ran_out(rt, call, &made) {
        if !array.is_empty() {
            show(rt, "changed though it failed", &array.len());
        }
        let (_, again) = grow(growth, &mut array, other);
        show(rt, call, &again);
    } else {
        show(rt, call, &made);
    }
    show(rt, call, &array.len());
}

/// Makes each of these calls.
pub(crate) fn all<R: Print + Eprint>(rt: &R, alloc: Global) -> Result<()> {
    show_results(rt, &new_arrays(alloc), &new_arrays(alloc));
    show_results(rt, &growing(alloc), &growing(alloc));
    let other = array(alloc).or(array(alloc))?;
    for growth in [
        Growth::Push,
        Growth::PushNull,
        Growth::ExtendFromSlice,
        Growth::ExtendFromOptions,
        Growth::ExtendConstant,
        Growth::ExtendFromArray,
        Growth::Reserve,
    ] {
        grow_and_show(rt, alloc, growth, &other);
    }
    Ok(())
}
