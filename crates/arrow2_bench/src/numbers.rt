//! Index numbers, words as bits, and bitmaps of unset bits.

use crate::runs::on_each;
use arrow2_bitmap::Bitmap;
use arrow2_chunk::BitChunkOnes;
use arrow2_index::Index;
use arrow2_types::Result;
use std::alloc::Global;

/// Calls on a number.
#[unsafe(no_mangle)]
pub extern "C" fn bench_numbers(alloc: Global, call: &[u8], numbers: &[usize]) -> usize {
    if call == b"index_range".as_slice() {
        on_each(numbers, index_range)
    } else if call == b"ones".as_slice() {
        on_each(numbers, ones)
    } else if call == b"new_zeroed".as_slice() {
        on_each(numbers, |number| {
            Ok(Bitmap::new_zeroed(alloc, *number)?.unset_bits())
        })
    } else {
        usize::MAX
    }
}

/// Mixes the index numbers below a length.
fn index_range(len: &usize) -> Result<usize> {
    let mut all = 0u32;
    if let Some(numbers) = <u32 as Index>::range(0, *len) {
        for number in numbers {
            all = all.rotate_left(1) ^ number;
        }
    }
    Ok(all as usize)
}

/// Adds up the indices of the set bits of a word.
fn ones(word: &usize) -> Result<usize> {
    let mut sum = 0usize;
    for position in BitChunkOnes::<u64>::new(*word as u64) {
        sum = sum.wrapping_add(position);
    }
    Ok(sum)
}
