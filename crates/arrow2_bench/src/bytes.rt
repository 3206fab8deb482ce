//! Bits of bytes, the bitmap of all of them, and bytes that are written.

use crate::growing::pop;
use crate::runs::{Part, on_bytes, on_each};
use arrow2_bitmap::Bitmap;
use arrow2_bits::{
    BitChunkIterExact, BitChunks, BitChunksExactMut, BitmapIter, count_zeros, set_bit,
};
use arrow2_chunk::BitChunk;
use arrow2_types::Result;
use arrow2_walks::Pieces;
use std::alloc::Global;

/// Calls on a part of the bits of the bytes.
#[unsafe(no_mangle)]
pub extern "C" fn bench_bits(alloc: Global, call: &[u8], bytes: &[u8], parts: &[Part]) -> usize {
    if call == b"count_zeros".as_slice() {
        on_bytes(bytes, parts, zeros_of)
    } else if call == b"words".as_slice() {
        on_bytes(bytes, parts, words::<u64>)
    } else if call == b"words_of_u32".as_slice() {
        on_bytes(bytes, parts, words::<u32>)
    } else if call == b"words_of_u8".as_slice() {
        on_bytes(bytes, parts, words::<u8>)
    } else if call == b"iter".as_slice() {
        on_bytes(bytes, parts, ones_of)
    } else if call == b"sliced".as_slice() {
        on_whole(alloc, bytes, parts, count_slice)
    } else {
        usize::MAX
    }
}

/// Counts the bits of a part that are not set.
fn zeros_of(bytes: &[u8], part: &Part) -> Result<usize> {
    if !part.is_within(bytes.len().saturating_mul(8)) {
        return Ok(0);
    }
    Ok(count_zeros(bytes, part.offset, part.len))
}

/// Adds up the full words of a part.
fn words<T: BitChunk + Into<u64>>(bytes: &[u8], part: &Part) -> Result<usize> {
    let mut sum = 0u64;
    if part.is_within(bytes.len().saturating_mul(8)) {
        for word in BitChunks::<T>::new(bytes, part.offset, part.len) {
            sum = sum.wrapping_add(word.into());
        }
    }
    Ok(sum as usize)
}

/// Counts the bits of a part that an iterator gives as set.
fn ones_of(bytes: &[u8], part: &Part) -> Result<usize> {
    let mut ones = 0usize;
    if part.is_within(bytes.len().saturating_mul(8)) {
        for item in BitmapIter::new(bytes, part.offset, part.len) {
            ones = ones.wrapping_add(usize::from(item));
        }
    }
    Ok(ones)
}

/// Counts the items of a slice that are false.
fn count_slice(whole: &Bitmap, part: &Part) -> Result<usize> {
    if !part.is_within(whole.len()) {
        return Ok(0);
    }
    Ok(whole.clone()?.sliced(part.offset, part.len).unset_bits())
}

/// Calls on the bytes and a number.
#[unsafe(no_mangle)]
pub extern "C" fn bench_bytes(alloc: Global, call: &[u8], bytes: &[u8], runs: &[usize]) -> usize {
    if call == b"from_u8_slice".as_slice() {
        on_each(runs, |len| copy_and_count(alloc, bytes, *len))
    } else if call == b"pop".as_slice() {
        on_each(runs, |len| pop(alloc, bytes, *len))
    } else if call == b"change_next".as_slice() {
        change_next(alloc, bytes, runs)
    } else if call == b"get".as_slice() {
        on_whole(alloc, bytes, runs, get)
    } else if call == b"iter_nth".as_slice() {
        on_whole(alloc, bytes, runs, iter_nth)
    } else if call == b"pieces".as_slice() {
        on_whole(alloc, bytes, runs, pieces)
    } else {
        usize::MAX
    }
}

/// The bitmap of all bits of the bytes.
pub fn whole(alloc: Global, bytes: &[u8]) -> Result<Bitmap> {
    Bitmap::from_u8_slice(alloc, bytes, bytes.len().saturating_mul(8))
}

/// Makes the call on the bitmap of all bytes and each run.
fn on_whole<R, F: Fn(&Bitmap, &R) -> Result<usize>>(
    alloc: Global,
    bytes: &[u8],
    runs: &[R],
    call: F,
) -> usize
    requires { F.IsAlwaysCallable call }
{
    let Ok(whole) = whole(alloc, bytes) else {
        return 0;
    };
    on_each(runs, |run| call(&whole, run))
}

/// Returns the item at an index as a number, or 0 where there is none.
fn get(bitmap: &Bitmap, position: &usize) -> Result<usize> {
    match bitmap.get(*position) {
        Some(item) => Ok(usize::from(item)),
        None => Ok(0),
    }
}

/// Counts the true items among each `step`th item.
fn iter_nth(bitmap: &Bitmap, step: &usize) -> Result<usize> {
    let mut ones = 0usize;
    if let Some(skipped) = step.checked_sub(1) {
        let mut items = bitmap.iter();
        for _ in 0..bitmap.len() / *step {
            if let Some(item) = items.nth(skipped) {
                ones = ones.wrapping_add(usize::from(item));
            }
        }
    }
    Ok(ones)
}

/// Mixes the counts of the pieces of a bitmap into one number. Each piece is halved in turn, from the first one on.
fn pieces(whole: &Bitmap, cuts: &usize) -> Result<usize> {
    let mut pieces = Pieces::new(whole.allocator(), whole.clone()?)?;
    let mut position = 0usize;
    for _ in 0..*cuts {
        if pieces.len() <= position {
            position = 0;
        }
        let half = pieces.get(position).len() / 2;
        pieces.cut(position, half)?;
        position = position.wrapping_add(2);
    }
    let mut counts = 0usize;
    for piece in pieces.into_inner() {
        counts = counts.rotate_left(1) ^ piece.unset_bits();
    }
    Ok(counts)
}

/// Counts the first bits of copied bytes that are not set.
fn copy_and_count(alloc: Global, bytes: &[u8], len: usize) -> Result<usize> {
    if bytes.len().saturating_mul(8) < len {
        return Ok(0);
    }
    Ok(Bitmap::from_u8_slice(alloc, bytes, len)?.unset_bits())
}

/// Inverts the full words of the first bits of a copy of the bytes, and counts the bits that are not set then.
fn change_next(alloc: Global, bytes: &[u8], lengths: &[usize]) -> usize {
    let Ok(copied) = Vec::from_slice(alloc, bytes) else {
        return 0;
    };
    let mut bytes = copied;
    for len in lengths {
        if *len <= bytes.len().saturating_mul(8) {
            turn_chunks(BitChunksExactMut::<u64>::new(bytes.as_mut_slice(), *len));
        }
    }
    zeros(bytes.as_slice())
}

/// Inverts the bits of all chunks.
fn turn_chunks(chunks: BitChunksExactMut<'_, u64>) {
    let mut chunks = chunks;
    for _ in 0..u64::MAX {
        if !chunks.change_next(|chunk| turn(chunk)) {
            break;
        }
    }
}

/// Inverts the bits of the bytes.
fn turn(bytes: &mut [u8]) {
    for byte in bytes.iter_mut() {
        *byte = !*byte;
    }
}

/// Counts the bits that are not set.
fn zeros(bytes: &[u8]) -> usize {
    count_zeros(bytes, 0, bytes.len().saturating_mul(8))
}

/// Writes the items at some indices of a copy of the bytes, and counts the bits that are not set then.
#[unsafe(no_mangle)]
pub extern "C" fn bench_set_bit(
    alloc: Global,
    bytes: &[u8],
    items: &[bool],
    positions: &[usize],
) -> usize {
    let Ok(copied) = Vec::from_slice(alloc, bytes) else {
        return 0;
    };
    let mut bytes = copied;
    set_bits(bytes.as_mut_slice(), items, positions);
    zeros(bytes.as_slice())
}

/// Sets the bit at each position to the item at the same index. (The loop is by index: std's `zip` of two slices tests
/// the ends of both at each step, where Rust's tests one.)
fn set_bits(bytes: &mut [u8], items: &[bool], positions: &[usize]) {
    for index in 0..positions.len().min(items.len()) {
        let position = positions[index];
        if position / 8 < bytes.len() {
            set_bit(bytes, position, items[index]);
        }
    }
}
