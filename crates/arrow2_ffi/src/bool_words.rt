//! Reads booleans, one byte each, as words of 64 bits.
ghost use Rattle.std.specs.Prelude.{◌∷◌, [], length};
ghost use Rattle.arrow2_model.specs.Lists.{word};

use arrow2_chunk::BitChunk;
use arrow2_kernels::WordRows;
use arrow2_packed_bits::packing::{padded_block, word_of};

/// Booleans, read as rows of one word: each row has the next 64 of them.
#[derive(Drop)]
pub(crate) struct BoolWords<'a> {
    /// The booleans that were not read yet.
    pub(crate) items: &'a [bool],
}

/// Gives the next 64 booleans as a row of one word, the first in the lowest bit, or none where fewer are left.
/// `rest_row` gives those, filled with false, and requires that fewer than 64 are left.
impl<'a> WordRows<u64> for BoolWords<'a> {
    type Row = u64;

    ghost words = { λ x. x ∷ [] };

    ghost len = { λ s. length s.items.now };

    ghost row_at = { λ s j. word 64 s.items.now j ∷ [] };

    ghost same_lengths = { λ s. Unit {0} };

    fn next_row(&mut self) -> Option<u64> {
        if self.items.len() < 64 {
            return None;
        }
        let word = word_of(&padded_block(&self.items[..64]));
        self.items = &self.items[64..];
        Some(word)
    }

    fn rest_row(&self) -> u64 {
        BitChunk::masked(word_of(&padded_block(self.items)), self.items.len())
    }
}
