//! Shared bitmaps.

use crate::bytes::whole;
use crate::runs::{Part, on_each, on_pairs};
use arrow2_bitmap::Bitmap;
use arrow2_bitmap::bitmap_ops::{and, unary};
use arrow2_types::Result;
use arrow2_walks::SlicesIterator;
use std::alloc::Global;

/// A bitmap for each part of the bytes, all over the same storage.
pub fn bitmaps(alloc: Global, bytes: &[u8], parts: &[Part]) -> Result<Vec<Bitmap>> {
    let whole = whole(alloc, bytes)?;
    let mut bitmaps = Vec::new(alloc);
    for part in parts {
        if part.is_within(whole.len()) {
            bitmaps.push(whole.clone()?.sliced(part.offset, part.len))?;
        }
    }
    Ok(bitmaps)
}

/// Makes the call on the bitmap of the part that each run chooses.
pub fn on_bitmaps<F: Fn(&Bitmap) -> Result<usize>>(
    alloc: Global,
    bytes: &[u8],
    parts: &[Part],
    runs: &[usize],
    call: F,
) -> usize
    requires { F.IsAlwaysCallable call }
{
    let Ok(bitmaps) = bitmaps(alloc, bytes, parts) else {
        return 0;
    };
    on_each(runs, |run| match bitmaps.get(*run) {
        Some(bitmap) => call(bitmap),
        None => Ok(0),
    })
}

/// Calls on the bitmap of the part that each run chooses.
#[unsafe(no_mangle)]
pub extern "C" fn bench_bitmaps(
    alloc: Global,
    call: &[u8],
    bytes: &[u8],
    parts: &[Part],
    runs: &[usize],
) -> usize {
    if call == b"make_mut".as_slice() {
        on_bitmaps(alloc, bytes, parts, runs, make_mut)
    } else if call == b"iter".as_slice() {
        on_bitmaps(alloc, bytes, parts, runs, iter)
    } else if call == b"iter_places".as_slice() {
        on_bitmaps(alloc, bytes, parts, runs, iter_places)
    } else if call == b"iter_back".as_slice() {
        on_bitmaps(alloc, bytes, parts, runs, iter_back)
    } else if call == b"debug".as_slice() {
        on_bitmaps(alloc, bytes, parts, runs, debug)
    } else if call == b"slices".as_slice() {
        on_bitmaps(alloc, bytes, parts, runs, slices)
    } else if call == b"not".as_slice() {
        on_bitmaps(alloc, bytes, parts, runs, not)
    } else if call == b"unary".as_slice() {
        on_bitmaps(alloc, bytes, parts, runs, rotate_words)
    } else {
        usize::MAX
    }
}

/// The last byte of a copy that can be changed.
fn make_mut(bitmap: &Bitmap) -> Result<usize> {
    let copy = bitmap.clone()?.make_mut()?;
    match copy.as_slice().last() {
        Some(byte) => Ok(usize::from(*byte)),
        None => Ok(0),
    }
}

/// Counts the items that are true.
fn iter(bitmap: &Bitmap) -> Result<usize> {
    let mut ones = 0usize;
    for item in bitmap.iter() {
        ones = ones.wrapping_add(usize::from(item));
    }
    Ok(ones)
}

/// Adds up the indices of the items that are true.
fn iter_places(bitmap: &Bitmap) -> Result<usize> {
    let mut sum = 0usize;
    for (position, item) in bitmap.iter().enumerate() {
        if item {
            sum = sum.wrapping_add(position);
        }
    }
    Ok(sum)
}

/// Counts the items that are true, from the last one on.
fn iter_back(bitmap: &Bitmap) -> Result<usize> {
    let mut ones = 0usize;
    for item in bitmap.iter().rev() {
        ones = ones.wrapping_add(usize::from(item));
    }
    Ok(ones)
}

/// The length of the printed text.
fn debug(bitmap: &Bitmap) -> Result<usize> {
    Ok(format!(in bitmap.allocator(); "{bitmap:?}")?.len())
}

/// Mixes the indices and the lengths of the runs of set bits.
fn slices(bitmap: &Bitmap) -> Result<usize> {
    let mut sum = 0usize;
    for (start, len) in SlicesIterator::new(bitmap) {
        sum = sum.rotate_left(1) ^ start.wrapping_add(len.wrapping_mul(3));
    }
    Ok(sum)
}

/// Counts the unset bits of a new bitmap, the complement of a bitmap.
fn not(bitmap: &Bitmap) -> Result<usize> {
    Ok((!bitmap)?.unset_bits())
}

/// Counts the false items of a new bitmap by a word function that does not act bit by bit.
fn rotate_words(bitmap: &Bitmap) -> Result<usize> {
    Ok(unary(bitmap, |word| word.rotate_left(1))?.unset_bits())
}

/// Calls on the bitmaps of both bytes at the index that each run chooses.
#[unsafe(no_mangle)]
pub extern "C" fn bench_pairs(
    alloc: Global,
    call: &[u8],
    left: &[u8],
    left_parts: &[Part],
    right: &[u8],
    right_parts: &[Part],
    runs: &[usize],
) -> usize {
    if call == b"equal".as_slice() {
        on_both(alloc, left, left_parts, right, right_parts, runs, equal)
    } else if call == b"and".as_slice() {
        on_both(alloc, left, left_parts, right, right_parts, runs, both)
    } else if call == b"or".as_slice() {
        on_both(alloc, left, left_parts, right, right_parts, runs, either)
    } else if call == b"xor".as_slice() {
        on_both(alloc, left, left_parts, right, right_parts, runs, one)
    } else {
        usize::MAX
    }
}

/// Makes the call on the bitmaps of both bytes at the index that each run chooses.
fn on_both<F: Fn(&Bitmap, &Bitmap) -> Result<usize>>(
    alloc: Global,
    left: &[u8],
    left_parts: &[Part],
    right: &[u8],
    right_parts: &[Part],
    runs: &[usize],
    call: F,
) -> usize
    requires { F.IsAlwaysCallable call }
{
    let Ok(left) = bitmaps(alloc, left, left_parts) else {
        return 0;
    };
    let Ok(right) = bitmaps(alloc, right, right_parts) else {
        return 0;
    };
    on_pairs(left.as_slice(), right.as_slice(), runs, call)
}

/// Returns whether they are equal.
fn equal(left: &Bitmap, right: &Bitmap) -> Result<usize> {
    Ok(usize::from(left == right))
}

/// Counts the unset bits of a new bitmap, the intersection of two bitmaps. Returns 0 where the lengths differ.
fn both(left: &Bitmap, right: &Bitmap) -> Result<usize> {
    if left.len() != right.len() {
        return Ok(0);
    }
    Ok(and(left, right)?.unset_bits())
}

/// The same for the union.
fn either(left: &Bitmap, right: &Bitmap) -> Result<usize> {
    if left.len() != right.len() {
        return Ok(0);
    }
    Ok((left | right)?.unset_bits())
}

/// The same for the symmetric difference.
fn one(left: &Bitmap, right: &Bitmap) -> Result<usize> {
    if left.len() != right.len() {
        return Ok(0);
    }
    Ok((left ^ right)?.unset_bits())
}
