//! Values in blocks, and with each block the items of a mask for its values.
ghost use Rattle.std.specs.Prelude.{◌≡◌, [], length, IfSome, IsNone};
ghost use Rattle.arrow2_model.specs.Lists.{items_of};
ghost use Rattle.arrow2_numeric.specs.MaskedBlocks.{BlocksLeft, IsNextBlock, selected_left};

use arrow2_bitmap::Bitmap;
use arrow2_bits::BitChunks;
use arrow2_chunk::BitChunk;
use arrow2_types::NativeType;
use std::marker::Model;
use std::mem;

/// Yields values in blocks of 64, and with each block a word: the items of a mask for its values. The last block may
/// have fewer values. Contracts see the values still to come, and the items of the mask for these.
#[derive(Drop)]
pub struct MaskedBlocks<'a, T: NativeType> {
    values: &'a [T],
    words: BitChunks<'a, u64>,
}

impl<'a, T: NativeType> Model for MaskedBlocks<'a, T> {
    ghost use Rattle.std.specs.Prelude.{◌≡◌, ◌⊎◌, length, take};
    ghost use Rattle.arrow2_numeric.specs.MaskedBlocks.{BlocksLeft};

    ghost Value = { BlocksLeft T };

    ghost view = { λ b. record {
      values = b.values.now;
      mask = take (length b.values.now) b.words.items;
    } };

    ghost invariant = { λ b. (length b.values.now ≡ 0) ⊎ (length b.words.items ≡ length b.values.now) };
}

impl<'a, T: NativeType> MaskedBlocks<'a, T> {
    /// Begins at the first value. Requires that values and mask have equal lengths.
    pub fn new(values: &'a [T], mask: &'a Bitmap) -> MaskedBlocks<'a, T>
        requires same_length { length (items_of mask.now) ≡ length values.now }
        ensures values { result.values ≡ values.entry.now }
        ensures mask { result.mask ≡ items_of mask.entry.now }
    {
        MaskedBlocks {
            values,
            words: mask.chunks(),
        }
    }

    /// Returns the next block, and the word of the mask: the value at index `i` of the block is selected if bit `i` is
    /// set. If the block has n values, the bits of the word from bit n on are zeros. Returns `None` where no value is
    /// left.
    pub fn next_block(&mut self) -> Option<(&'a [T], u64)>
        ensures block { IfSome result (λ b. IsNextBlock self.old b.0.now b.1 self.new) }
        ensures end { IsNone result → (self.old.values ≡ []) × (selected_left self.old ≡ [])
            × (self.new ≡ self.old) }
    {
        if self.values.is_empty() {
            return None;
        }
        let Some(word) = self.words.next() else {
            let block = mem::take(&mut self.values);
            let last = BitChunk::masked(self.words.remainder(), self.words.remainder_len());
            return Some((block, last));
        };
        let (block, rest) = self.values.split_at(64);
        self.values = rest;
        Some((block, word))
    }
}
