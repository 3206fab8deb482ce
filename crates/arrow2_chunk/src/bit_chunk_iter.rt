//! Iterates over the bits of a word and over the indices of its set bits.
ghost use Rattle.std.specs.Prelude.{◌≡◌, ◌≤◌, length, take, Some, IfSome};
ghost use Rattle.std.specs.Iterator.{YieldsFirst, item_count, UpTo};
ghost use Rattle.std.specs.Iterator.SizeHint.{IsWithinCount};
ghost use Rattle.arrow2_model.specs.Lists.{unnum};
ghost use Rattle.arrow2_chunk.specs.Ones.{ones};

use crate::bit_chunk::BitChunk;
use std::marker::Model;

/// An iterator over the lowest bits of a word, the lowest first: contracts see the list of the items still to come.
#[derive(Drop)]
pub struct BitChunkIter<T: BitChunk> {
    value: T,
    index: usize,
    end: usize,
}

impl<T: BitChunk> Model for BitChunkIter<T> {
    ghost use Rattle.std.specs.Prelude.{◌-◌, ◌≤◌, List, Bool};
    ghost use Rattle.arrow2_model.specs.Lists.{unnum, part};

    ghost Value = { List Bool };

    ghost view = { λ i. part (unnum T.WIDTH (T.number i.value)) i.index (i.end - i.index) };

    ghost invariant = { λ i. (i.index ≤ i.end) × (i.end ≤ T.WIDTH) };
}

#[tactic(auto, using(arrow2_model::proofs::Chunks::word_cursor))]
impl<T: BitChunk> BitChunkIter<T> {
    /// Returns an iterator over the lowest `len` bits of the word, the lowest first. Requires that `len` is at most
    /// `WIDTH`.
    pub fn new(value: T, len: usize) -> BitChunkIter<T>
        requires { len ≤ T.WIDTH }
        ensures { result ≡ take len (unnum T.WIDTH (T.number value)) }
    {
        BitChunkIter {
            value,
            index: 0,
            end: len,
        }
    }
}

#[tactic(auto, using(arrow2_model::proofs::Chunks::word_cursor))]
impl<T: BitChunk> Iterator for BitChunkIter<T> {
    type Item = bool;

    ghost next_gives = { YieldsFirst (λ s. s) };

    ghost remaining = { item_count (λ s. s) };

    fn next(&mut self) -> Option<bool> {
        if self.index == self.end {
            return None;
        }
        let item = self.value.bit(self.index);
        self.index += 1;
        Some(item)
    }

    /// Returns the number of items still to come as both bounds.
    fn size_hint(&self) -> (usize, Option<usize>)
        ensures lower { IsWithinCount result.0 (item_count (λ s. s) self.now) }
        ensures upper { IfSome result.1 (UpTo (item_count (λ s. s) self.now)) }
        ensures exact { (result.0 ≡ length self.now) × (result.1 ≡ Some (length self.now)) }
    {
        let left = self.end - self.index;
        (left, Some(left))
    }
}

/// An iterator over the indices of the set bits of a word, in rising order: contracts see the list of the indices still
/// to come. Each step goes straight to the next set bit.
#[derive(Drop)]
pub struct BitChunkOnes<T: BitChunk> {
    value: T,
    left: usize,
}

impl<T: BitChunk> Model for BitChunkOnes<T> {
    ghost use Rattle.std.specs.Prelude.{◌≡◌, List, ℕ, length};
    ghost use Rattle.arrow2_model.specs.Lists.{unnum};
    ghost use Rattle.arrow2_chunk.specs.Ones.{ones};

    ghost Value = { List ℕ };

    ghost view = { λ i. ones (unnum T.WIDTH (T.number i.value)) };

    ghost invariant = { λ i. i.left ≡ length (ones (unnum T.WIDTH (T.number i.value))) };
}

impl<T: BitChunk> BitChunkOnes<T> {
    /// Returns an iterator over the indices of the set bits of the word.
    pub fn new(value: T) -> BitChunkOnes<T>
        ensures { result ≡ ones (unnum T.WIDTH (T.number value)) }
    {
        let left = value.ones_count();
        BitChunkOnes { value, left }
    }
}

impl<T: BitChunk> Iterator for BitChunkOnes<T> {
    type Item = usize;

    ghost next_gives = { YieldsFirst (λ s. s) };

    ghost remaining = { item_count (λ s. s) };

    fn next(&mut self) -> Option<usize> {
        self.left = self.left.checked_sub(1)?;
        let index = self.value.first_one();
        self.value = self.value.without_first_one();
        Some(index)
    }

    /// Returns the number of indices still to come as both bounds.
    fn size_hint(&self) -> (usize, Option<usize>)
        ensures lower { IsWithinCount result.0 (item_count (λ s. s) self.now) }
        ensures upper { IfSome result.1 (UpTo (item_count (λ s. s) self.now)) }
        ensures exact { (result.0 ≡ length self.now) × (result.1 ≡ Some (length self.now)) }
    {
        (self.left, Some(self.left))
    }
}
