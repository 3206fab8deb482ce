//! Offsets.

use crate::runs::{Part, on_each, on_firsts};
use arrow2_index::OffsetNumber;
use arrow2_offset::{Offsets, OffsetsBuffer};
use arrow2_types::Result;
use std::alloc::Global;
use std::convert::TryFrom;

/// Calls that make offsets of a prefix of the lengths of slots, whose length each run chooses.
#[unsafe(no_mangle)]
pub extern "C" fn bench_slot(alloc: Global, call: &[u8], slots: &[usize], runs: &[usize]) -> usize {
    if call == b"try_from_lengths".as_slice() {
        on_firsts(alloc, slots, runs, try_from_lengths)
    } else if call == b"extend_from_lengths".as_slice() {
        on_firsts(alloc, slots, runs, extend_from_lengths)
    } else {
        usize::MAX
    }
}

/// The last of the offsets that have these lengths.
fn try_from_lengths(alloc: Global, slots: &[usize]) -> Result<usize> {
    let offsets = Offsets::<i64>::try_from_lengths(alloc, slots.iter().copied())?;
    Ok(*offsets.last() as usize)
}

/// Returns the last of the offsets that have these lengths. Reserves capacity for all of them first.
fn extend_from_lengths(alloc: Global, slots: &[usize]) -> Result<usize> {
    let mut offsets = Offsets::<i64>::with_capacity(alloc, slots.len())?;
    offsets.try_extend_from_lengths(slots.iter().copied())?;
    Ok(*offsets.last() as usize)
}

/// Calls on numbers of 64 bits, which are lengths or offsets, and a number.
#[unsafe(no_mangle)]
pub extern "C" fn bench_longs(alloc: Global, call: &[u8], items: &[i64], runs: &[usize]) -> usize {
    if call == b"try_push".as_slice() {
        on_firsts(alloc, items, runs, try_push)
    } else if call == b"try_from".as_slice() {
        try_from(alloc, items, runs)
    } else if call == b"start_end".as_slice() {
        start_ends(alloc, items, runs)
    } else {
        usize::MAX
    }
}

/// The last of the offsets to which these lengths are pushed one by one, except the negative ones.
fn try_push(alloc: Global, slots: &[i64]) -> Result<usize> {
    let mut offsets = Offsets::<i64>::new(alloc)?;
    for slot in slots {
        if 0 <= *slot {
            offsets.try_push(*slot)?;
        }
    }
    Ok(*offsets.last() as usize)
}

/// Counts the items of a vector that is checked to hold offsets: its first items, no more from run to run.
fn try_from(alloc: Global, items: &[i64], lengths: &[usize]) -> usize {
    let Ok(copied) = Vec::from_slice(alloc, items) else {
        return 0;
    };
    let mut items = copied;
    let mut sum = 0usize;
    for len in lengths {
        items.truncate(*len);
        let Ok(offsets) = Offsets::<i64>::try_from(items) else {
            return 0;
        };
        sum = sum.wrapping_add(offsets.len());
        items = offsets.into_inner();
    }
    sum
}

/// A buffer of a copy of the items, which are checked to be offsets.
fn buffer<O: OffsetNumber>(alloc: Global, items: &[O]) -> Result<OffsetsBuffer<O>> {
    OffsetsBuffer::try_from(Vec::from_slice(alloc, items)?)
}

/// Mixes the starts and ends of slots of one buffer of offsets into one number.
fn start_ends(alloc: Global, items: &[i64], positions: &[usize]) -> usize {
    let Ok(offsets) = buffer(alloc, items) else {
        return 0;
    };
    on_each(positions, |position| start_end(&offsets, *position))
}

/// Mixes the start and the end of a slot into one number. Returns 0 where there is no such slot.
fn start_end(offsets: &OffsetsBuffer<i64>, position: usize) -> Result<usize> {
    if offsets.len_proxy() <= position {
        return Ok(0);
    }
    let (start, end) = offsets.start_end(position);
    Ok(start ^ end)
}

/// Widens one buffer of offsets of 32 bits to 64 bits, once for each run.
#[unsafe(no_mangle)]
pub extern "C" fn bench_widen(alloc: Global, items: &[i32], runs: &[usize]) -> usize {
    let Ok(offsets) = buffer(alloc, items) else {
        return 0;
    };
    on_each(
        runs,
        |_| Ok(*OffsetsBuffer::<i64>::try_from(&offsets)?.last() as usize),
    )
}

/// Calls on slices of one buffer of a copy of the items, which are offsets.
#[unsafe(no_mangle)]
pub extern "C" fn bench_offset(alloc: Global, call: &[u8], items: &[i64], parts: &[Part]) -> usize {
    match buffer(alloc, items) {
        Ok(whole) => on_slices(call, &whole, parts),
        Err(_) => 0,
    }
}

/// Makes the call on slices of a buffer of offsets.
fn on_slices(call: &[u8], whole: &OffsetsBuffer<i64>, parts: &[Part]) -> usize {
    if call == b"sliced".as_slice() {
        on_each(parts, |part| last(&slice(whole, part)?))
    } else if call == b"lengths".as_slice() {
        on_each(parts, |part| lengths(&slice(whole, part)?))
    } else if call == b"extend_from_slice".as_slice() {
        on_each(parts, |part| extend_from_slice(&slice(whole, part)?))
    } else {
        usize::MAX
    }
}

/// A slice of a buffer of offsets, or all of it where the part is not inside.
fn slice(whole: &OffsetsBuffer<i64>, part: &Part) -> Result<OffsetsBuffer<i64>> {
    let shared = whole.clone()?;
    if part.len == 0 || !part.is_within(whole.len()) {
        return Ok(shared);
    }
    Ok(shared.sliced(part.offset, part.len))
}

/// The last offset.
fn last(offsets: &OffsetsBuffer<i64>) -> Result<usize> {
    Ok(*offsets.last() as usize)
}

/// Adds up the lengths of slots.
fn lengths(offsets: &OffsetsBuffer<i64>) -> Result<usize> {
    let mut sum = 0usize;
    for length in offsets.lengths() {
        sum = sum.wrapping_add(length);
    }
    Ok(sum)
}

/// The last of new offsets to which all lengths of these offsets are appended.
fn extend_from_slice(other: &OffsetsBuffer<i64>) -> Result<usize> {
    let mut offsets = Offsets::<i64>::new(other.buffer().allocator())?;
    offsets.try_extend_from_slice(other, 0, other.len() - 1)?;
    Ok(*offsets.last() as usize)
}
