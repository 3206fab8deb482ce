//! The indices of set bits.
//!
//! With a code other than `ARROW2_OK` nothing is written.
ghost use Rattle.std.specs.Prelude.{◌≡◌, ◌+◌, ◌<◌, ◌≤◌, ◌^◌, ℕ, List, ◌∷◌, ◌++◌, map, take, length, IfNone, IfSome, All};
ghost use Rattle.arrow2_model.specs.Lists.{unnum};
ghost use Rattle.arrow2_chunk.specs.Ones.{ones};
ghost use Rattle.arrow2_ffi.specs.Ranges.{HasBits, first_bits};
ghost use Rattle.arrow2_ffi.specs.SetIndices.{FindsSetIndices, WritesSetIndices, index_outputs};

use crate::bits_input::{Bits, are_inside};
use crate::codes::{ARROW2_OK, ARROW2_RANGE};
use arrow2_bits::word_from;
use arrow2_chunk::{BitChunk, BitChunkOnes};

/// Finds the set bits among the `length` bits from bit `offset` on. Index 0 is bit `offset`.
///
/// The search begins at index `at`. Writes to `indices` the indices of set bits, in rising order, until `indices` is
/// full or no set bit is left. Writes to `count` how many these are, and to `at` the index from which the next call
/// goes on. `at` never falls.
///
/// If `count` is below the length of `indices`, no set bit is left, and `at` is `length`. If `indices` is full, set
/// bits may be left. The exact value of `at` is then not specified: it is above the last index written, and at most the
/// index of the next set bit, or at most `length` if there is none.
///
/// To find all set bits, call again until `count` is below the length of `indices`. With `indices` of length 0 this
/// never happens: `count` is always 0, and `at` may stay as it was. What `indices` holds from `count` on is not
/// specified.
///
/// Returns `ARROW2_RANGE` exactly where the bits are not inside `bytes`, or `at` is above `length`.
#[unsafe(no_mangle)]
pub extern "C" fn arrow2_set_indices(
    bytes: &[u8],
    offset: usize,
    length: usize,
    at: &mut usize,
    indices: &mut [usize],
    count: &mut usize,
) -> u32
    // With `ARROW2_OK`: the first `count.new` of `indices.new`, then the indices of set bits from `at.new` on, are the
    // indices of set bits from `at.old` on; where `indices` is not full, `at.new` is `length`. Index 0 is bit `offset`.
    ensures { FindsSetIndices result bytes.now offset length
        (index_outputs indices.old at.old count.old)
        (index_outputs indices.new at.new count.new) }
{
    let items = Bits(bytes, offset);
    if !are_inside(items, length) || *at > length {
        return ARROW2_RANGE;
    }
    let (written, next) = write_indices(items, length, *at, indices);
    *count = written;
    *at = next;
    ARROW2_OK
}

/// Writes the indices of set bits from index `at` on, until `indices` is full or no set bit is left. Returns how many
/// were written and the index from which to go on. Requires that the first `end` bits are inside their bytes, and that
/// `at` is at most `end`.
fn write_indices(bits: Bits<'_>, end: usize, at: usize, indices: &mut [usize]) -> (usize, usize)
    requires inside { HasBits bits end }
    requires within { at ≤ end }
    ensures { WritesSetIndices (first_bits bits.entry end) result.0 (length indices.old) indices.new
        at result.1 end }
{
    let Bits(bytes, offset) = bits;
    let mut count = 0;
    let mut base = at;
    'words: while base < end {
        let held = (end - base).min(64);
        let word = BitChunk::masked(word_from(bytes, offset, base), held);
        let (written, next) = write_ones(word, base, count, indices);
        count = written;
        match next {
            Some(next) => return (count, next),
            None => base += held,
        }
    }
    (count, end)
}

/// Writes the indices of the set bits of `word` after the first `count` items of `indices`, until `indices` is full or
/// no set bit is left. The index of bit `i` of the word is `base + i`. Returns how many indices `indices` has then, and
/// the first one that did not fit. Requires that `count` is at most the length of `indices`, and that each index fits a
/// `usize`.
fn write_ones(word: u64, base: usize, count: usize, indices: &mut [usize]) -> (usize, Option<usize>)
    requires few { count ≤ length indices.old }
    requires fit { All (λ index. index < 2 ^ 64) (map (λ k. base + k) (ones (unnum 64 word))) }
    // `indices` keeps its length, which is at least `result.0`: its first `result.0` items are indices after the call.
    ensures size { length indices.new ≡ length indices.old }
    ensures few { result.0 ≤ length indices.old }
    // `None`: all indices fitted. These items are the first `count` items of before, then `base + k` for the index `k`
    // of each set bit of the word, rising.
    ensures all { IfNone result.1 (take result.0 indices.new
        ≡ take count indices.old ++ map (λ k. base + k) (ones (unnum 64 word))) }
    // `Some(next)`: `indices` is full. Its items, then `next`, then some `others` are the same list: `next` is the
    // first index that did not fit, and `others` are those after it.
    ensures next { IfSome result.1 (λ next. (result.0 ≡ length indices.old)
        × (others : List ℕ) × (take result.0 indices.new ++ next ∷ others
        ≡ take count indices.old ++ map (λ k. base + k) (ones (unnum 64 word)))) }
{
    let mut count = count;
    for one in BitChunkOnes::new(word) {
        if count == indices.len() {
            return (count, Some(base + one));
        }
        indices[count] = base + one;
        count += 1;
    }
    (count, None)
}
