//! Arrays of byte strings and of texts.
use crate::calls::{Row, input, ran_out, show, show_results};
use arrow2_buffer::Buffer;
use arrow2_datatypes::DataType;
use arrow2_offset::OffsetsBuffer;
use arrow2_text::{
    BinaryArray, BinaryType, ByteArrayType, GenericByteArray, MutableBinaryArray,
    MutableGenericByteArray, MutableUtf8Array, Utf8Array, Utf8Type,
};
use arrow2_types::{Error, Result};
use either::Either;
use std::alloc::Global;
use std::io::{Eprint, Print};
use std::rc::Rc;

/// A text that is longer than the capacity of an array without items.
const TEXT: &str = "text";

/// The array of one text.
fn texts(alloc: Global) -> Result<Utf8Array<i32>> {
    input(Utf8Array::from_slice(alloc, &[TEXT]))
}

/// The array of one byte string.
fn strings(alloc: Global) -> Result<BinaryArray<i32>> {
    input(texts(alloc)?.into_binary())
}

/// The array of no items and of this logical type, which is rejected.
fn typed<T: ByteArrayType>(alloc: Global, data_type: DataType) -> Result<GenericByteArray<T, i32>> {
    let offsets = input(OffsetsBuffer::new(alloc))?;
    let values = input(Buffer::new(alloc))?;
    GenericByteArray::try_new(data_type, offsets, values, None)
}

/// The texts of an array that became a growing one, frozen again. They have no validity, so that one is made.
fn thawed_texts(alloc: Global) -> Result<Utf8Array<i32>> {
    match texts(alloc)?.into_mut()? {
        Either::Left(array) => Ok(array),
        Either::Right(array) => input(array.freeze()),
    }
}

/// A null and a text, frozen.
fn frozen_texts(alloc: Global) -> Result<Utf8Array<i32>> {
    let mut array = input(MutableUtf8Array::new(alloc))?;
    input(array.push_null())?;
    input(array.push(Some(TEXT)))?;
    array.freeze()
}

/// The byte strings of texts.
fn binary_copy(alloc: Global) -> Result<BinaryArray<i32>> {
    texts(alloc)?.to_binary()
}

/// The texts as byte strings.
fn binary_from_texts(alloc: Global) -> Result<BinaryArray<i32>> {
    texts(alloc)?.into_binary()
}

/// Arrays of texts.
fn given_texts(alloc: Global) -> [Row<Utf8Array<i32>>; 5] {
    [
        (
            "Utf8Array::from_slice",
            Utf8Array::from_slice(alloc, &[TEXT]),
        ),
        (
            "Utf8Array::from_options",
            Utf8Array::from_options(alloc, &[Some(TEXT), None]),
        ),
        (
            "GenericByteArray::try_new",
            typed::<Utf8Type>(alloc, DataType::Binary),
        ),
        ("GenericByteArray::into_mut", thawed_texts(alloc)),
        ("MutableGenericByteArray::freeze", frozen_texts(alloc)),
    ]
}

/// Arrays of byte strings.
fn given_strings(alloc: Global) -> [Row<BinaryArray<i32>>; 5] {
    [
        (
            "BinaryArray::from_slice",
            BinaryArray::from_slice(alloc, &[TEXT.as_bytes()]),
        ),
        (
            "BinaryArray::from_options",
            BinaryArray::from_options(alloc, &[Some(TEXT.as_bytes()), None]),
        ),
        (
            "GenericByteArray::try_new",
            typed::<BinaryType>(alloc, DataType::Utf8),
        ),
        ("Utf8Array::to_binary", binary_copy(alloc)),
        ("Utf8Array::into_binary", binary_from_texts(alloc)),
    ]
}

/// The number of texts of an array that grows.
fn count_texts(array: Result<MutableUtf8Array<i32>>) -> Result<usize> {
    Ok(array?.len())
}

/// The number of byte strings of an array that grows.
fn count_strings(array: Result<MutableBinaryArray<i32>>) -> Result<usize> {
    Ok(array?.len())
}

/// An array of texts of a given logical type.
fn texts_with_type(alloc: Global) -> Result<MutableUtf8Array<i32>> {
    let Ok(data_type) = Rc::new(alloc, DataType::Utf8) else {
        return Err(Error::Overflow);
    };
    MutableUtf8Array::with_capacity_from(alloc, data_type, 20, 20)
}

/// The text that an iterator gave.
fn collected_texts(alloc: Global) -> Result<MutableUtf8Array<i32>> {
    MutableUtf8Array::try_from_iter(alloc, Some(Some(TEXT)))
}

/// The byte string that an iterator gave.
fn collected_strings(alloc: Global) -> Result<MutableBinaryArray<i32>> {
    MutableBinaryArray::try_from_iter(alloc, Some(Some(TEXT.as_bytes())))
}

/// The numbers of items of arrays that grow.
fn growing(alloc: Global) -> [Row<usize>; 5] {
    [
        (
            "MutableGenericByteArray::new",
            count_texts(MutableUtf8Array::new(alloc)),
        ),
        (
            "MutableGenericByteArray::with_capacity",
            count_texts(MutableUtf8Array::with_capacity(alloc, 20, 20)),
        ),
        (
            "MutableGenericByteArray::with_capacity_from",
            count_texts(texts_with_type(alloc)),
        ),
        (
            "MutableUtf8Array::try_from_iter",
            count_texts(collected_texts(alloc)),
        ),
        (
            "MutableBinaryArray::try_from_iter",
            count_strings(collected_strings(alloc)),
        ),
    ]
}

/// The ways in which an array or its capacity changes.
#[derive(Clone, Copy)]
enum Growth {
    /// By one item.
    Push,
    /// By one item, given by its bytes.
    PushBytes,
    /// By a null.
    PushNull,
    /// By two items that are not null.
    ExtendFromSlice,
    /// By an item and a null.
    ExtendFromOptions,
    /// By one item many times.
    ExtendConstant,
    /// By another array.
    ExtendFromArray,
    /// By capacity alone.
    Reserve,
    /// By the release of capacity.
    ShrinkToFit,
    /// By the removal of its last item.
    Pop,
}

/// The types of arrays, whose values are texts or byte strings.
trait Grows: ByteArrayType {
    /// Changes the array in a way that takes or returns a value.
    fn grow(array: &mut MutableGenericByteArray<Self, i32>, growth: Growth) -> Row<()>;
}

impl Grows for Utf8Type {
    fn grow(array: &mut MutableUtf8Array<i32>, growth: Growth) -> Row<()> {
        match growth {
            Growth::ExtendFromSlice => (
                "MutableUtf8Array::extend_from_slice",
                array.extend_from_slice(&[TEXT, TEXT]),
            ),
            Growth::ExtendFromOptions => (
                "MutableUtf8Array::extend_from_options",
                array.extend_from_options(&[Some(TEXT), None]),
            ),
            Growth::ExtendConstant => (
                "MutableUtf8Array::extend_constant",
                array.extend_constant(90, Some(TEXT)),
            ),
            Growth::Pop => ("MutableUtf8Array::pop", array.pop().map(drop)),
            _ => ("MutableUtf8Array::push", array.push(Some(TEXT))),
        }
    }
}

impl Grows for BinaryType {
    fn grow(array: &mut MutableBinaryArray<i32>, growth: Growth) -> Row<()> {
        let text = TEXT.as_bytes();
        match growth {
            Growth::ExtendFromSlice => (
                "MutableBinaryArray::extend_from_slice",
                array.extend_from_slice(&[text, text]),
            ),
            Growth::ExtendFromOptions => (
                "MutableBinaryArray::extend_from_options",
                array.extend_from_options(&[Some(text), None]),
            ),
            Growth::ExtendConstant => (
                "MutableBinaryArray::extend_constant",
                array.extend_constant(90, Some(text)),
            ),
            Growth::Pop => ("MutableBinaryArray::pop", array.pop().map(drop)),
            _ => ("MutableBinaryArray::push", array.push(Some(text))),
        }
    }
}

/// Changes the array in this way. `other` is an array of one item.
fn change<T: Grows>(
    array: &mut MutableGenericByteArray<T, i32>,
    growth: Growth,
    other: &GenericByteArray<T, i32>,
) -> Row<()> {
    match growth {
        Growth::PushBytes => (
            "MutableGenericByteArray::push_bytes",
            push_first(array, other),
        ),
        Growth::PushNull => ("MutableGenericByteArray::push_null", array.push_null()),
        Growth::ExtendFromArray => (
            "MutableGenericByteArray::extend_from_array",
            array.extend_from_array(other, 0, other.len()),
        ),
        Growth::Reserve => ("MutableGenericByteArray::reserve", array.reserve(90, 90)),
        Growth::ShrinkToFit => (
            "MutableGenericByteArray::shrink_to_fit",
            array.shrink_to_fit(),
        ),
        _ => T::grow(array, growth),
    }
}

/// Appends the first item of an array, or a null if there is none.
fn push_first<T: Grows>(
    array: &mut MutableGenericByteArray<T, i32>,
    other: &GenericByteArray<T, i32>,
) -> Result<()> {
    if other.is_empty() {
        return array.push_bytes(None);
    }
    array.push_bytes(other.get_bytes(0))
}

/// Changes an array, and shows how many items it has then. Where an allocation failed, shows whether the number of
/// items changed, and changes the array once more.
fn grow_and_show<R: Print + Eprint, T: Grows>(
    rt: &R,
    growth: Growth,
    array: &mut MutableGenericByteArray<T, i32>,
    other: &GenericByteArray<T, i32>,
) {
    let before = array.len();
    let (call, made) = change(array, growth, other);
    if ran_out(rt, call, &made) {
        if array.len() != before {
            show(rt, "changed though it failed", &array.len());
        }
        let (_, again) = change(array, growth, other);
        show(rt, call, &again);
    } else {
        show(rt, call, &made);
    }
    show(rt, call, &array.len());
}

/// The array that is changed. It has no items, or for the removal of an item those of another array.
fn array_to_grow<T: Grows>(
    alloc: Global,
    growth: Growth,
    other: &GenericByteArray<T, i32>,
) -> Result<MutableGenericByteArray<T, i32>> {
    let mut array = MutableGenericByteArray::new(alloc).or(MutableGenericByteArray::new(alloc))?;
    if matches!(growth, Growth::Pop) {
        fill(&mut array, other)?;
    }
    Ok(array)
}

/// Appends another array. Where that fails, appends it once more.
fn fill<T: ByteArrayType>(
    array: &mut MutableGenericByteArray<T, i32>,
    other: &GenericByteArray<T, i32>,
) -> Result<()> {
    if array.extend_from_array(other, 0, other.len()).is_ok() {
        return Ok(());
    }
    array.extend_from_array(other, 0, other.len())
}

/// Makes each of these changes of arrays of a type.
fn grow_each_way<R: Print + Eprint, T: Grows>(
    rt: &R,
    alloc: Global,
    other: &GenericByteArray<T, i32>,
    ways: &[Growth],
) -> Result<()> {
    for growth in ways {
        let mut array = array_to_grow(alloc, *growth, other)?;
        grow_and_show(rt, *growth, &mut array, other);
    }
    Ok(())
}

/// The changes that take or return a value.
const OF_VALUES: [Growth; 5] = [
    Growth::Push,
    Growth::ExtendFromSlice,
    Growth::ExtendFromOptions,
    Growth::ExtendConstant,
    Growth::Pop,
];

/// The changes that are the same for each type of array.
const OF_ANY: [Growth; 5] = [
    Growth::PushBytes,
    Growth::PushNull,
    Growth::ExtendFromArray,
    Growth::Reserve,
    Growth::ShrinkToFit,
];

/// Makes each of these calls.
pub(crate) fn all<R: Print + Eprint>(rt: &R, alloc: Global) -> Result<()> {
    show_results(rt, &given_texts(alloc), &given_texts(alloc));
    show_results(rt, &given_strings(alloc), &given_strings(alloc));
    show_results(rt, &growing(alloc), &growing(alloc));
    let texts = texts(alloc).or(texts(alloc))?;
    grow_each_way(rt, alloc, &texts, &OF_ANY)?;
    grow_each_way(rt, alloc, &texts, &OF_VALUES)?;
    let strings = strings(alloc).or(strings(alloc))?;
    grow_each_way(rt, alloc, &strings, &OF_VALUES)
}
