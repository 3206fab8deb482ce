//! Truth tables over three and over four bitmaps, and Kleene's logic.

use crate::bitmaps::bitmaps;
use crate::runs::{Part, on_each, on_pairs};
use arrow2_array::BooleanArray;
use arrow2_bitmap::Bitmap;
use arrow2_tables::bitmap_ops::{quaternary_table, ternary_table};
use arrow2_types::Result;
use std::alloc::Global;

/// The table of the second input where the first is set, and of the third where it is not.
const CHOICE: u8 = 0b1101_1000;

/// The table of the validity of Kleene's AND. Its inputs are two values, each followed by its validity.
const KNOWN: u16 = 0b1100_1111_0100_0100;

/// Calls on bitmaps of the parts of four bytes.
#[unsafe(no_mangle)]
pub extern "C" fn bench_tables(
    alloc: Global,
    call: &[u8],
    first: &[u8],
    second: &[u8],
    third: &[u8],
    fourth: &[u8],
    parts: &[Part],
    runs: &[usize],
) -> usize {
    let all = [first, second, third, fourth];
    if call == b"ternary_table".as_slice() {
        on_inputs(alloc, &all, parts, runs, ternary)
    } else if call == b"quaternary_table".as_slice() {
        on_inputs(alloc, &all, parts, runs, quaternary)
    } else if call == b"and_kleene".as_slice() {
        on_arrays(alloc, &all, parts, runs)
    } else {
        usize::MAX
    }
}

/// Makes the call on the bitmaps of the parts of all these bytes, once for each run.
fn on_inputs<F: Fn(&[Bitmap]) -> Result<usize>>(
    alloc: Global,
    all: &[&[u8]],
    parts: &[Part],
    runs: &[usize],
    call: F,
) -> usize
    requires { F.IsAlwaysCallable call }
{
    let Ok(inputs) = inputs(alloc, all, parts) else {
        return 0;
    };
    on_each(runs, |_| call(inputs.as_slice()))
}

/// The bitmaps of the parts of all these bytes.
fn inputs(alloc: Global, all: &[&[u8]], parts: &[Part]) -> Result<Vec<Bitmap>> {
    let mut inputs = Vec::new(alloc);
    for bytes in all {
        for bitmap in bitmaps(alloc, *bytes, parts)? {
            inputs.push(bitmap)?;
        }
    }
    Ok(inputs)
}

/// Counts the false items of a new bitmap by a table of the first three inputs. Returns 0 where the lengths differ.
fn ternary(inputs: &[Bitmap]) -> Result<usize> {
    let [first, second, third, ..] = inputs else {
        return Ok(0);
    };
    if second.len() != first.len() || third.len() != first.len() {
        return Ok(0);
    }
    Ok(ternary_table(first, second, third, CHOICE)?.unset_bits())
}

/// The same for four inputs.
fn quaternary(inputs: &[Bitmap]) -> Result<usize> {
    let [first, second, third, fourth] = inputs else {
        return Ok(0);
    };
    let len = first.len();
    if second.len() != len || third.len() != len || fourth.len() != len {
        return Ok(0);
    }
    Ok(quaternary_table(first, second, third, fourth, KNOWN)?.unset_bits())
}

/// Makes new arrays: AND, by Kleene's logic, of the arrays at the same index. The bytes of values come before those of
/// their validity. Without bytes of a validity the arrays have none.
fn on_arrays(alloc: Global, all: &[&[u8]; 4], parts: &[Part], runs: &[usize]) -> usize {
    let Ok(left) = arrays(alloc, all[0], all[1], parts) else {
        return 0;
    };
    let Ok(right) = arrays(alloc, all[2], all[3], parts) else {
        return 0;
    };
    on_pairs(left.as_slice(), right.as_slice(), runs, and_kleene)
}

/// An array for each part of the bytes.
fn arrays(
    alloc: Global,
    values: &[u8],
    validity: &[u8],
    parts: &[Part],
) -> Result<Vec<BooleanArray>> {
    let validities = bitmaps(alloc, validity, parts)?;
    let mut arrays = Vec::new(alloc);
    for (position, values) in bitmaps(alloc, values, parts)?.into_iter().enumerate() {
        let validity = match validities.get(position) {
            Some(validity) => Some(validity.clone()?),
            None => None,
        };
        arrays.push(BooleanArray::try_new(values, validity)?)?;
    }
    Ok(arrays)
}

/// Counts the values that are false, and the items that are null. Returns 0 where the lengths differ.
fn and_kleene(left: &BooleanArray, right: &BooleanArray) -> Result<usize> {
    if left.len() != right.len() {
        return Ok(0);
    }
    let both = left.and_kleene(right)?;
    Ok(both.values().unset_bits().wrapping_add(both.null_count()))
}
