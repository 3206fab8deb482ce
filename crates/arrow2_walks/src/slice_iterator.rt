//! The runs of set bits of a bitmap.
ghost use Rattle.std.specs.Prelude.{◌≡◌, ◌+◌, length};
ghost use Rattle.std.specs.Iterator.{YieldsFirst, item_count};
ghost use Rattle.arrow2_model.specs.Lists.{falses, items_of};
ghost use Rattle.arrow2_walks.specs.Runs.{runs};
ghost use Rattle.arrow2_walks.specs.Cursor.{RunsLeft, GivesRun};

use crate::cursor::{BitCursor, find_bit};
use arrow2_bitmap::Bitmap;
use std::alloc::AllocError;
use std::marker::Model;

/// An iterator over the maximal runs of set bits of a bitmap, in rising order. A run is a pair of its first index and
/// its length. Contracts see the runs still to come, and the number of set bits of the whole bitmap.
///
/// The runs of the byte `0b00101111` are (0, 4) and (5, 1). arrow2's documentation gives (6, 1) for the second.
///
/// # Examples
///
/// ```rust
/// use arrow2::bitmap::Bitmap;
/// use arrow2::bitmap::utils::SlicesIterator;
///
/// let mask = Bitmap::from_bools(alloc, &[true, true, false, true])?;
/// let runs: Vec<(usize, usize)> = SlicesIterator::new(&mask).collect(alloc)?;
/// assert_eq!(rt; runs.as_slice(), [(0, 2), (3, 1)].as_slice());
/// ```
#[derive(Debug, Drop)]
pub struct SlicesIterator<'a> {
    bytes: &'a [u8],
    offset: usize,
    end: usize,
    cursor: BitCursor,
    slots: usize,
}

impl<'a> Model for SlicesIterator<'a> {
    ghost use Rattle.std.specs.Prelude.{◌+◌, ◌*◌, ◌≤◌, length};
    ghost use Rattle.arrow2_model.specs.Lists.{bits, part};
    ghost use Rattle.arrow2_walks.specs.Runs.{runs_from};
    ghost use Rattle.arrow2_walks.specs.Cursor.{IsRead, RunsLeft};

    ghost Value = { RunsLeft };

    ghost view = { λ i. record {
      runs = runs_from (part (bits i.bytes.now) i.offset i.end)
          i.cursor.index;
      slots = i.slots;
    } };

    ghost invariant = { λ i. IsRead (bits i.bytes.now) i.offset i.end i.cursor.index i.cursor.word
        i.cursor.buffered × (i.offset + i.end ≤ 8 * length i.bytes.now) };
}

#[tactic(auto, using(crate::proofs::TakenRuns::taking_runs))]
impl<'a> SlicesIterator<'a> {
    /// Returns an iterator over all runs of the bitmap.
    pub fn new(values: &'a Bitmap) -> SlicesIterator<'a>
        ensures runs { result.runs ≡ runs (items_of values.entry.now) }
        ensures slots { result.slots + falses (items_of values.entry.now)
            ≡ length (items_of values.entry.now) }
    {
        let (bytes, offset, end) = values.as_slice();
        SlicesIterator {
            bytes,
            offset,
            end,
            cursor: BitCursor::at(0),
            slots: values.len() - values.unset_bits(),
        }
    }

    /// Returns the total number of set bits: the sum of the lengths of all runs of the bitmap. No step changes it.
    pub fn slots(&self) -> usize
        ensures { result ≡ self.now.slots }
    {
        self.slots
    }

    /// Returns the next run, as `next` does. The result of [`SlicesIterator::slots`] stays the same.
    ///
    /// arrow2 has `next` alone.
    pub fn next_run(&mut self) -> Option<(usize, usize)>
        ensures steps { YieldsFirst (λ i. i.runs) self.old result self.new }
        ensures slots { self.new.slots ≡ self.old.slots }
    {
        self.cursor = find_bit(self.bytes, self.offset, self.end, self.cursor, true);
        let start = self.cursor.index;
        if start == self.end {
            return None;
        }
        self.cursor = find_bit(self.bytes, self.offset, self.end, self.cursor, false);
        Some((start, self.cursor.index - start))
    }
}

/// Returns an iterator with the same runs still to come. Does not allocate.
impl<'a> Clone for SlicesIterator<'a> {
    ghost is_clone = { λ i copy. copy ≡ i };

    ghost is_infallible = { λ i. Unit {0} };

    fn clone(&self) -> Result<SlicesIterator<'a>, AllocError> {
        Ok(SlicesIterator { ..*self })
    }
}

impl<'a> Iterator for SlicesIterator<'a> {
    type Item = (usize, usize);

    ghost next_gives = { GivesRun };

    ghost remaining = { item_count (λ i. i.runs) };

    fn next(&mut self) -> Option<(usize, usize)> {
        self.next_run()
    }
}
