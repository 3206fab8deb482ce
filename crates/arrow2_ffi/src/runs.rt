//! The runs of set bits, each by its first index and its length.
//!
//! With a code other than `ARROW2_OK` nothing is written.
ghost use Rattle.std.specs.Prelude.{◌≡◌, ◌≤◌, length};
ghost use Rattle.arrow2_ffi.specs.Ranges.{HasBits, first_bits};
ghost use Rattle.arrow2_ffi.specs.RunWrites.{FindsRuns, WritesRuns, run_outputs};

use crate::bits_input::{Bits, are_inside};
use crate::codes::{ARROW2_LENGTH, ARROW2_OK, ARROW2_RANGE};
use arrow2_walks::{BitCursor, find_bit};

/// Finds the runs of set bits among the `length` bits from bit `offset` on. Index 0 is bit `offset`.
///
/// The search begins at index `at`. If `at` is inside a run, finds only the part from `at` on. Writes the runs in
/// rising order, until the slices are full or no run is left: to `starts` the index at which each run begins, and to
/// `lengths` its length in bits. Writes to `count` how many runs these are, and to `at` the index from which the next
/// call goes on. `at` never falls.
///
/// If `count` is below the length of the slices, no run is left, and `at` is `length`. If the slices are full, runs may
/// be left. The exact value of `at` is then not specified: it is at least the index just after the last run written,
/// and at most the start of the next run, or at most `length` if there is none.
///
/// To find all runs, call again until `count` is below the length of the slices. With slices of length 0 this never
/// happens: `count` is always 0, and `at` may stay as it was. What the slices hold from `count` on is not specified.
///
/// Returns `ARROW2_RANGE` exactly where the bits are not inside `bytes`, or `at` is above `length`; else
/// `ARROW2_LENGTH` exactly where `starts` and `lengths` differ in length.
#[unsafe(no_mangle)]
pub extern "C" fn arrow2_runs(
    bytes: &[u8],
    offset: usize,
    length: usize,
    at: &mut usize,
    starts: &mut [usize],
    lengths: &mut [usize],
    count: &mut usize,
) -> u32
    // With `ARROW2_OK`: for each i below `count.new`, a run begins at `starts.new[i]` and has `lengths.new[i]` set
    // bits; index 0 is bit `offset`. If `at.old` is inside a run, the first run is the rest of it. The runs from
    // `at.new` on are those that are not yet written; where the slices are not full, `at.new` is `length`.
    ensures { FindsRuns result bytes.now offset length
        (run_outputs starts.old lengths.old at.old count.old)
        (run_outputs starts.new lengths.new at.new count.new) }
{
    let items = Bits(bytes, offset);
    if !are_inside(items, length) || *at > length {
        return ARROW2_RANGE;
    }
    if starts.len() != lengths.len() {
        return ARROW2_LENGTH;
    }
    let (written, next) = write_runs(items, length, *at, starts, lengths);
    *count = written;
    *at = next;
    ARROW2_OK
}

/// Writes the runs from index `at` on, until the slices are full or no run is left. Returns how many runs were written
/// and the index from which to go on. Requires that the first `end` bits are inside their bytes, that `at` is at most
/// `end`, and that `starts` and `lengths` have equal lengths.
fn write_runs(
    bits: Bits<'_>,
    end: usize,
    at: usize,
    starts: &mut [usize],
    lengths: &mut [usize],
) -> (usize, usize)
    requires inside { HasBits bits end }
    requires within { at ≤ end }
    requires same_lengths { length starts.old ≡ length lengths.old }
    ensures { WritesRuns (first_bits bits.entry end) result.0 (length starts.old) starts.new lengths.new
        at result.1 end }
{
    let Bits(bytes, offset) = bits;
    let mut cursor = BitCursor::at(at);
    for k in 0..starts.len() {
        cursor = find_bit(bytes, offset, end, cursor, true);
        let start = cursor.index;
        if start == end {
            return (k, end);
        }
        cursor = find_bit(bytes, offset, end, cursor, false);
        starts[k] = start;
        lengths[k] = cursor.index - start;
    }
    (starts.len(), cursor.index)
}
