//! Bitmaps that grow, are collected, or are changed in place.
ghost use Rattle.std.specs.Prelude.{◌+◌, ◌*◌, ◌≤◌, length};

use crate::bitmaps::bitmaps;
use crate::runs::{Part, on_each, on_firsts};
use arrow2_bitmap::assign_ops::{binary_assign, binary_assign_table, unary_assign_table};
use arrow2_bitmap::{Bitmap, MutableBitmap};
use arrow2_chunk::BitChunk;
use arrow2_types::Result;
use std::alloc::Global;

/// Calls that make a bitmap of a prefix of the items, whose length each run chooses.
#[unsafe(no_mangle)]
pub extern "C" fn bench_bools(alloc: Global, call: &[u8], items: &[bool], runs: &[usize]) -> usize {
    if call == b"push".as_slice() {
        on_firsts(alloc, items, runs, push)
    } else if call == b"from_bools".as_slice() {
        on_firsts(alloc, items, runs, from_bools)
    } else if call == b"extend_from_bools".as_slice() {
        on_firsts(alloc, items, runs, extend_from_bools)
    } else if call == b"try_from_iter".as_slice() {
        on_firsts(alloc, items, runs, try_from_iter)
    } else {
        usize::MAX
    }
}

/// Counts the false items among those that are pushed one by one.
fn push(alloc: Global, items: &[bool]) -> Result<usize> {
    let mut bitmap = MutableBitmap::new(alloc);
    for item in items {
        bitmap.push(*item)?;
    }
    Ok(bitmap.unset_bits())
}

/// Counts the false items among booleans.
fn from_bools(alloc: Global, items: &[bool]) -> Result<usize> {
    Ok(Bitmap::from_bools(alloc, items)?.unset_bits())
}

/// Counts the false items of a bitmap of five items to which booleans are appended.
fn extend_from_bools(alloc: Global, items: &[bool]) -> Result<usize> {
    let mut bitmap = MutableBitmap::from_len_zeroed(alloc, 5)?;
    bitmap.extend_from_bools(items)?;
    Ok(bitmap.unset_bits())
}

/// Counts the false items of an iterator.
fn try_from_iter(alloc: Global, items: &[bool]) -> Result<usize> {
    Ok(Bitmap::try_from_iter(alloc, items.iter().copied())?.unset_bits())
}

/// A growing bitmap of the first bits of the bytes.
fn growing(alloc: Global, bytes: &[u8], len: usize) -> Result<MutableBitmap> {
    MutableBitmap::try_new(Vec::from_slice(alloc, bytes)?, len)
}

/// Counts the true items among the first bits of the bytes, popped one by one.
pub fn pop(alloc: Global, bytes: &[u8], len: usize) -> Result<usize> {
    let mut bitmap = growing(alloc, bytes, len)?;
    let mut ones = 0usize;
    for _ in 0..bitmap.len() {
        if let Some(item) = bitmap.pop() {
            ones = ones.wrapping_add(usize::from(item));
        }
    }
    Ok(ones)
}

/// Sets each item of a prefix, whose length each run chooses, and counts the items that are false then.
#[unsafe(no_mangle)]
pub extern "C" fn bench_set(alloc: Global, bytes: &[u8], items: &[bool], runs: &[usize]) -> usize {
    let Ok(made) = growing(alloc, bytes, items.len()) else {
        return 0;
    };
    let mut bitmap = made;
    for run in runs {
        if let Some(items) = items.get(..*run) {
            for (position, item) in items.iter().enumerate() {
                if position < bitmap.len() {
                    bitmap.set(position, *item);
                }
            }
        }
    }
    bitmap.unset_bits()
}

/// Calls that append the bits of a part, or the same number of true items, to a prefix of the items of at most 8 bits.
#[unsafe(no_mangle)]
pub extern "C" fn bench_append(
    alloc: Global,
    call: &[u8],
    own: &[usize],
    bytes: &[u8],
    parts: &[Part],
) -> usize {
    let Some(own) = own.first() else {
        return 0;
    };
    if call == b"extend_from_slice".as_slice() {
        on_each(parts, |part| extend_from_slice(alloc, *own, bytes, part))
    } else if call == b"extend_constant".as_slice() {
        on_each(parts, |part| extend_constant(alloc, *own, part.len))
    } else {
        usize::MAX
    }
}

/// The first bits of one byte: `own` of them, at most 8.
fn begun(alloc: Global, own: usize) -> Result<MutableBitmap> {
    let bytes = Vec::from_slice(alloc, &[85])?;
    Ok(MutableBitmap::from_vec(bytes, own.min(8)))
}

/// Returns the last item of a prefix with the bits of a part appended.
fn extend_from_slice(alloc: Global, own: usize, bytes: &[u8], part: &Part) -> Result<usize> {
    if !part.is_within(bytes.len().saturating_mul(8)) {
        return Ok(0);
    }
    let mut bitmap = begun(alloc, own)?;
    bitmap.extend_from_slice(bytes, part.offset, part.len)?;
    Ok(last_item(&bitmap))
}

/// Returns the last item of a prefix with true items appended.
fn extend_constant(alloc: Global, own: usize, len: usize) -> Result<usize> {
    let mut bitmap = begun(alloc, own)?;
    bitmap.extend_constant(len, true)?;
    Ok(last_item(&bitmap))
}

/// The last item as a number, or 0 where there is none.
fn last_item(bitmap: &MutableBitmap) -> usize {
    match bitmap.len().checked_sub(1) {
        Some(last) => usize::from(bitmap.get(last)),
        None => 0,
    }
}

/// Calls that change a growing bitmap by the bitmap of the part that each run chooses.
#[unsafe(no_mangle)]
pub extern "C" fn bench_assign(
    alloc: Global,
    call: &[u8],
    own: &[u8],
    bytes: &[u8],
    parts: &[Part],
    runs: &[usize],
) -> usize {
    if call == b"xor_assign".as_slice() {
        change_by_runs(alloc, own, bytes, parts, runs, xor_assign::<u64>)
    } else if call == b"xor_assign_by_bytes".as_slice() {
        change_by_runs(alloc, own, bytes, parts, runs, xor_assign::<u8>)
    } else if call == b"and_assign".as_slice() {
        change_by_runs(alloc, own, bytes, parts, runs, and_assign)
    } else if call == b"binary_assign_table".as_slice() {
        change_by_runs(alloc, own, bytes, parts, runs, equal_by_table)
    } else if call == b"unary_assign_table".as_slice() {
        turned_by_table(alloc, own, runs)
    } else {
        usize::MAX
    }
}

/// Changes a growing bitmap by the bitmaps that the runs choose, and counts the items that are false then.
fn change_by_runs<F: Fn(&mut MutableBitmap, &Bitmap)>(
    alloc: Global,
    own: &[u8],
    bytes: &[u8],
    parts: &[Part],
    runs: &[usize],
    change: F,
) -> usize
    requires { F.IsAlwaysCallable change }
{
    let Ok(others) = bitmaps(alloc, bytes, parts) else {
        return 0;
    };
    let Ok(made) = growing(alloc, own, own.len().saturating_mul(8)) else {
        return 0;
    };
    let mut bitmap = made;
    change_by(&mut bitmap, others.as_slice(), runs, change);
    bitmap.unset_bits()
}

/// Changes a growing bitmap by the bitmaps that the runs choose.
fn change_by<F: Fn(&mut MutableBitmap, &Bitmap)>(
    own: &mut MutableBitmap,
    others: &[Bitmap],
    runs: &[usize],
    change: F,
)
    requires { F.IsAlwaysCallable change }
{
    for run in runs {
        if let Some(other) = others.get(*run) {
            change(own, other);
        }
    }
}

/// Inverts the items that are set in the other bitmap. Changes nothing where the lengths differ.
fn xor_assign<T: BitChunk>(own: &mut MutableBitmap, other: &Bitmap) {
    if own.len() == other.len() {
        binary_assign::<T, _>(own, other, |x, y| x.bit_xor(y));
    }
}

/// Unsets the items that are not set in the other bitmap. Changes nothing where the lengths differ.
fn and_assign(own: &mut MutableBitmap, other: &Bitmap) {
    if own.len() == other.len() {
        *own &= other;
    }
}

/// Sets each item to whether it equals the item of the other bitmap. Changes nothing where the lengths differ.
fn equal_by_table(own: &mut MutableBitmap, other: &Bitmap) {
    if own.len() == other.len() {
        binary_assign_table::<u64>(own, other, 0b1001);
    }
}

/// Inverts all items of a growing bitmap by a table, once for each run, and counts the items that are false then.
fn turned_by_table(alloc: Global, own: &[u8], runs: &[usize]) -> usize {
    let Ok(made) = growing(alloc, own, own.len().saturating_mul(8)) else {
        return 0;
    };
    let mut bitmap = made;
    for _ in runs {
        unary_assign_table::<u8>(&mut bitmap, 0b01);
    }
    bitmap.unset_bits()
}
