//! Offsets and buffers.
use crate::calls::{Change, Row, input, show_change, show_results};
use arrow2_buffer::Buffer;
use arrow2_offset::{Offsets, OffsetsBuffer};
use arrow2_types::Result;
use std::alloc::Global;
use std::convert::TryFrom;
use std::io::{Eprint, Print};

/// Offsets of five lengths.
fn five(alloc: Global) -> Result<Offsets<i32>> {
    input(Offsets::try_from_lengths(alloc, 0..5usize))
}

/// Those offsets, shared.
pub(crate) fn shared_five(alloc: Global) -> Result<OffsetsBuffer<i32>> {
    OffsetsBuffer::try_from(five(alloc)?)
}

/// Those offsets in the greater width.
fn five_wide(alloc: Global) -> Result<Offsets<i64>> {
    Offsets::try_from(five(alloc)?)
}

/// Those offsets in the greater width, shared.
fn five_shared_wide(alloc: Global) -> Result<OffsetsBuffer<i64>> {
    OffsetsBuffer::try_from(&input(shared_five(alloc))?)
}

/// A copy.
fn copy(alloc: Global) -> Result<Offsets<i32>> {
    Ok(five(alloc)?.clone()?)
}

/// Offsets of the smaller width.
fn narrow_offsets(alloc: Global) -> Result<Offsets<i32>> {
    Offsets::try_from(input(five_wide(alloc))?)
}

/// Shared offsets of the smaller width.
fn shared_narrow_offsets(alloc: Global) -> Result<OffsetsBuffer<i32>> {
    OffsetsBuffer::try_from(&input(five_shared_wide(alloc))?)
}

/// Shared offsets of a buffer whose numbers are offsets.
fn of_buffer(alloc: Global) -> Result<OffsetsBuffer<i32>> {
    OffsetsBuffer::try_from(input(shared_five(alloc))?.into_inner())
}

/// Shared offsets of a buffer whose numbers are not offsets.
fn of_no_offsets(alloc: Global) -> Result<OffsetsBuffer<i32>> {
    OffsetsBuffer::try_from(input(Buffer::new(alloc))?)
}

/// Buffers.
fn buffers(alloc: Global) -> [Row<Buffer<u32>>; 3] {
    [
        ("Buffer::new", Buffer::new(alloc)),
        (
            "TryFrom<Vec<T>> for Buffer<T>",
            Buffer::try_from(Vec::new(alloc)),
        ),
        (
            "Buffer::try_from_iter",
            Buffer::try_from_iter(alloc, 0..200u32),
        ),
    ]
}

/// Offsets of given lengths, and offsets of the lengths of an iterator, which allocate more than once.
fn new_offsets(alloc: Global) -> [Row<Offsets<i32>>; 6] {
    [
        ("Offsets::new", Offsets::new(alloc)),
        ("Offsets::new_zeroed", Offsets::new_zeroed(alloc, 9)),
        ("Offsets::with_capacity", Offsets::with_capacity(alloc, 20)),
        (
            "TryFrom<Vec<O>> for Offsets<O>",
            Offsets::try_from(Vec::new(alloc)),
        ),
        (
            "Offsets::try_from_iter",
            Offsets::try_from_iter(alloc, 0..200usize),
        ),
        (
            "Offsets::try_from_lengths",
            Offsets::try_from_lengths(alloc, 0..200usize),
        ),
    ]
}

/// Offsets that are made of others.
fn offsets_of_others(alloc: Global) -> [Row<Offsets<i32>>; 2] {
    [
        ("Clone for Offsets<O>", copy(alloc)),
        (
            "TryFrom<Offsets<i64>> for Offsets<i32>",
            narrow_offsets(alloc),
        ),
    ]
}

/// Offsets of the greater width.
fn wide_offsets(alloc: Global) -> [Row<Offsets<i64>>; 1] {
    [("TryFrom<Offsets<i32>> for Offsets<i64>", five_wide(alloc))]
}

/// Shared offsets.
fn shared_offsets(alloc: Global) -> [Row<OffsetsBuffer<i32>>; 6] {
    let of_offsets = "TryFrom<Offsets<O>> for OffsetsBuffer<O>";
    let of_buffers = "TryFrom<Buffer<O>> for OffsetsBuffer<O>";
    let of_wide = "TryFrom<&OffsetsBuffer<i64>> for OffsetsBuffer<i32>";
    [
        ("OffsetsBuffer::new", OffsetsBuffer::new(alloc)),
        (
            "TryFrom<Vec<O>> for OffsetsBuffer<O>",
            OffsetsBuffer::try_from(Vec::new(alloc)),
        ),
        (of_offsets, shared_five(alloc)),
        (of_buffers, of_buffer(alloc)),
        (of_buffers, of_no_offsets(alloc)),
        (of_wide, shared_narrow_offsets(alloc)),
    ]
}

/// Shared offsets of the greater width.
fn shared_wide_offsets(alloc: Global) -> [Row<OffsetsBuffer<i64>>; 1] {
    let call = "TryFrom<&OffsetsBuffer<i32>> for OffsetsBuffer<i64>";
    [(call, five_shared_wide(alloc))]
}

/// The ways in which offsets grow or their capacity changes.
#[derive(Drop)]
enum Growth<'a> {
    /// By one length.
    Push,
    /// By one length, given as a `usize`.
    PushUsize,
    /// By more empty slots than a vector first has capacity for.
    ExtendConstant,
    /// By the lengths of an iterator.
    ExtendFromLengths,
    /// By a part of the lengths of shared offsets.
    ExtendFromSlice(&'a OffsetsBuffer<i32>),
    /// By capacity alone.
    Reserve,
    /// By capacity that is given back.
    ShrinkToFit,
}

impl Change<Offsets<i32>> for Growth<'_> {
    fn change(&self, offsets: &mut Offsets<i32>) -> Row<()> {
        match self {
            Growth::Push => ("Offsets::try_push", offsets.try_push(7)),
            Growth::PushUsize => ("Offsets::try_push_usize", offsets.try_push_usize(7)),
            Growth::ExtendConstant => ("Offsets::extend_constant", offsets.extend_constant(90)),
            Growth::ExtendFromLengths => (
                "Offsets::try_extend_from_lengths",
                offsets.try_extend_from_lengths(0..200usize),
            ),
            Growth::ExtendFromSlice(other) => (
                "Offsets::try_extend_from_slice",
                extend_by_two(offsets, other),
            ),
            Growth::Reserve => ("Offsets::reserve", offsets.reserve(90)),
            Growth::ShrinkToFit => ("Offsets::shrink_to_fit", offsets.shrink_to_fit()),
        }
    }
}

/// By the lengths of other offsets.
impl Change<Offsets<i32>> for Offsets<i32> {
    fn change(&self, offsets: &mut Offsets<i32>) -> Row<()> {
        (
            "Offsets::try_extend_from_self",
            offsets.try_extend_from_self(self),
        )
    }
}

/// Appends the first two lengths.
fn extend_by_two(offsets: &mut Offsets<i32>, other: &OffsetsBuffer<i32>) -> Result<()> {
    if other.len() < 3 {
        return Ok(());
    }
    offsets.try_extend_from_slice(other, 0, 2)
}

/// Each way in which offsets grow.
fn grow_and_show<R: Print + Eprint>(
    rt: &R,
    before: &Offsets<i32>,
    shared: &OffsetsBuffer<i32>,
) -> Result<()> {
    for growth in &[
        Growth::Push,
        Growth::PushUsize,
        Growth::ExtendConstant,
        Growth::ExtendFromLengths,
        Growth::ExtendFromSlice(shared),
        Growth::Reserve,
        Growth::ShrinkToFit,
    ] {
        show_change(rt, before, growth)?;
    }
    Ok(())
}

/// Each way in which offsets of five lengths grow.
fn grown_from_five<R: Print + Eprint>(rt: &R, alloc: Global) -> Result<()> {
    let before = five(alloc).or(five(alloc))?;
    grow_and_show(rt, &before, &shared_five(alloc).or(shared_five(alloc))?)?;
    show_change(rt, &before, &before)
}

/// Makes each of these calls.
pub(crate) fn all<R: Print + Eprint>(rt: &R, alloc: Global) -> Result<()> {
    show_results(rt, &buffers(alloc), &buffers(alloc));
    show_results(rt, &new_offsets(alloc), &new_offsets(alloc));
    show_results(rt, &offsets_of_others(alloc), &offsets_of_others(alloc));
    show_results(rt, &wide_offsets(alloc), &wide_offsets(alloc));
    show_results(rt, &shared_offsets(alloc), &shared_offsets(alloc));
    show_results(rt, &shared_wide_offsets(alloc), &shared_wide_offsets(alloc));
    grown_from_five(rt, alloc)
}
