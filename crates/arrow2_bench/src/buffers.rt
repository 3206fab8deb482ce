//! Shared buffers, and collections of numbers.

use crate::runs::{Part, on_firsts};
use arrow2_bitmap::Bitmap;
use arrow2_buffer::Buffer;
use arrow2_types::Result;
use std::alloc::Global;
use std::convert::TryFrom;

/// Calls on slices of one buffer of a copy of the items.
#[unsafe(no_mangle)]
pub extern "C" fn bench_buffer(alloc: Global, call: &[u8], items: &[u64], parts: &[Part]) -> usize {
    if call == b"sliced".as_slice() {
        on_slices(alloc, items, parts, length)
    } else if call == b"into_iter".as_slice() {
        on_slices(alloc, items, parts, added_up)
    } else if call == b"as_slice".as_slice() {
        on_slices(alloc, items, parts, mix)
    } else {
        usize::MAX
    }
}

/// Makes the call on slices of one buffer of a copy of the items.
fn on_slices<F: Fn(Buffer<u64>) -> usize>(
    alloc: Global,
    items: &[u64],
    parts: &[Part],
    call: F,
) -> usize
    requires { F.IsAlwaysCallable call }
{
    let Ok(whole) = buffer(alloc, items) else {
        return 0;
    };
    let mut sum = 0usize;
    for part in parts {
        if part.is_within(whole.len()) {
            let Ok(shared) = whole.clone() else {
                return 0;
            };
            sum = sum.wrapping_add(call(shared.sliced(part.offset, part.len)));
        }
    }
    sum
}

/// A buffer of a copy of the items.
fn buffer(alloc: Global, items: &[u64]) -> Result<Buffer<u64>> {
    Buffer::try_from(Vec::from_slice(alloc, items)?)
}

/// Returns the number of items.
fn length(buffer: Buffer<u64>) -> usize {
    buffer.as_slice().len()
}

/// Adds up the items, each by value.
fn added_up(buffer: Buffer<u64>) -> usize {
    let mut sum = 0u64;
    for item in buffer {
        sum = sum.wrapping_add(item);
    }
    sum as usize
}

/// Mixes the items into one number, each by reference.
fn mix(buffer: Buffer<u64>) -> usize {
    let mut all = 0u64;
    for item in buffer.as_slice() {
        all = all.rotate_left(1) ^ *item;
    }
    all as usize
}

/// Calls that collect a prefix of the numbers, whose length each run chooses.
#[unsafe(no_mangle)]
pub extern "C" fn bench_words(alloc: Global, call: &[u8], items: &[u64], runs: &[usize]) -> usize {
    if call == b"products".as_slice() {
        on_firsts(alloc, items, runs, products)
    } else if call == b"nonzero".as_slice() {
        on_firsts(alloc, items, runs, nonzero)
    } else if call == b"comparisons".as_slice() {
        on_firsts(alloc, items, runs, comparisons)
    } else {
        usize::MAX
    }
}

/// The last item of a buffer of products, or 0 where there is none.
fn products(alloc: Global, items: &[u64]) -> Result<usize> {
    let products = items.iter().map(|item| item.wrapping_mul(3));
    Ok(last(&Buffer::try_from_iter(alloc, products)?))
}

/// The last item of a buffer of the items that are not 0: the size hint of their iterator tells no least number.
fn nonzero(alloc: Global, items: &[u64]) -> Result<usize> {
    let nonzero = items.iter().copied().filter(|item| *item != 0);
    Ok(last(&Buffer::try_from_iter(alloc, nonzero)?))
}

/// The last item of a buffer, or 0 where there is none.
fn last(buffer: &Buffer<u64>) -> usize {
    match buffer.as_slice().last() {
        Some(item) => *item as usize,
        None => 0,
    }
}

/// Counts the unset bits of a bitmap of comparisons.
fn comparisons(alloc: Global, items: &[u64]) -> Result<usize> {
    Ok(Bitmap::try_from_iter(alloc, items.iter().map(|item| *item < 1 << 63))?.unset_bits())
}
