//! Numbers zipped with their validity.
ghost use Rattle.std.specs.Iterator.{IsFinite};

use crate::bitmaps::on_bitmaps;
use crate::runs::{Part, on_each};
use arrow2_bitmap::Bitmap;
use arrow2_types::Result;
use arrow2_walks::{ZipValidity, ZipValidityIter};
use std::alloc::Global;

/// Calls on the numbers zipped with the bitmap of the part that each run chooses, or with the first bits, where each
/// run is a step.
#[unsafe(no_mangle)]
pub extern "C" fn bench_zips(
    alloc: Global,
    call: &[u8],
    numbers: &[u64],
    bytes: &[u8],
    parts: &[Part],
    runs: &[usize],
) -> usize {
    if call == b"zip".as_slice() {
        on_bitmaps(alloc, bytes, parts, runs, |validity| zip(numbers, validity))
    } else if call == b"iter".as_slice() {
        on_bitmaps(
            alloc,
            bytes,
            parts,
            runs,
            |validity| zip_iter(numbers, validity),
        )
    } else if call == b"nth".as_slice() {
        zip_nth(alloc, numbers, bytes, runs)
    } else {
        usize::MAX
    }
}

/// Adds up the numbers that are valid. Returns 0 where the bitmap has another length.
fn zip(numbers: &[u64], validity: &Bitmap) -> Result<usize> {
    if numbers.len() != validity.len() {
        return Ok(0);
    }
    Ok(added_up(ZipValidity::new_with_validity(numbers.iter().copied(), Some(validity))))
}

/// The same with the iterator that always has a validity.
fn zip_iter(numbers: &[u64], validity: &Bitmap) -> Result<usize> {
    if numbers.len() != validity.len() {
        return Ok(0);
    }
    Ok(added_up(ZipValidityIter::new(numbers.iter().copied(), validity.iter())))
}

/// Adds up the numbers that are valid.
fn added_up<I: Iterator<Item = Option<u64>> + Drop>(slots: I) -> usize
    requires can { I.can_next slots }
    requires ends { IsFinite (I.remaining slots) }
{
    let mut sum = 0u64;
    for slot in slots {
        if let Some(number) = slot {
            sum = sum.wrapping_add(number);
        }
    }
    sum as usize
}

/// Adds up the numbers of each `step`th slot that are valid, for each step.
fn zip_nth(alloc: Global, numbers: &[u64], bytes: &[u8], steps: &[usize]) -> usize {
    if bytes.len().saturating_mul(8) < numbers.len() {
        return 0;
    }
    let Ok(validity) = Bitmap::from_u8_slice(alloc, bytes, numbers.len()) else {
        return 0;
    };
    on_each(steps, |step| by_steps(numbers, &validity, *step))
}

/// Adds up the numbers of each `step`th slot that are valid. Returns 0 where the bitmap has another length.
fn by_steps(numbers: &[u64], validity: &Bitmap, step: usize) -> Result<usize> {
    let Some(skipped) = step.checked_sub(1) else {
        return Ok(0);
    };
    if numbers.len() != validity.len() {
        return Ok(0);
    }
    let mut slots = ZipValidity::new_with_validity(numbers.iter().copied(), Some(validity));
    let mut sum = 0u64;
    for _ in 0..numbers.len() / step {
        if let Some(Some(number)) = slots.nth(skipped) {
            sum = sum.wrapping_add(number);
        }
    }
    Ok(sum as usize)
}
