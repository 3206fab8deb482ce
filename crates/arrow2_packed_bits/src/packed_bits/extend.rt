//! Appends many items at once.
ghost use Rattle.std.specs.Prelude.{◌≡◌, ◌+◌, ◌*◌, ◌%◌, ◌<◌, ◌≤◌, ◌^◌, ◌++◌, length, take, replicate};
ghost use Rattle.arrow2_packed_bits.specs.Growth.{Appends, Pushes};
ghost use Rattle.arrow2_model.specs.Lists.{bits, part, full_words};

use crate::packed_bits::PackedBits;
use crate::packing::{padded_block, word_of};
use arrow2_bits::BitChunks;
use arrow2_chunk::BitChunk;
use arrow2_types::GrowthError;
use std::alloc::AllocError;

#[tactic(auto, using(crate::proofs::Whole::extending))]
impl PackedBits {
    /// Appends the `count` bits of `slice` from bit `offset` on. Requires that these bits are inside `slice`. Within
    /// the capacity it does not allocate, else it allocates once, before it writes.
    ///
    /// # Errors
    ///
    /// `Overflow` exactly where there would be more than `usize::MAX` items, else `OutOfMemory` where an allocation
    /// fails. After either error, the items are as before.
    pub fn extend_from_slice(
        &mut self,
        slice: &[u8],
        offset: usize,
        count: usize,
    ) -> Result<(), GrowthError>
        requires inside { offset + count ≤ 8 * length slice.now }
        ensures { Appends (λ error. error) result self.old self.new
            (part (bits slice.now) offset count) }
    {
        self.reserve(count)?;
        let head = count.min((8 - self.len() % 8) % 8);
        self.push_words(BitChunks::new(slice, offset, head))?;
        self.push_part(&slice[offset / 8..], offset % 8 + head, count - head)?;
        Ok(())
    }

    /// Appends the items of a slice. Within the capacity it does not allocate, else it allocates once, before it
    /// writes.
    ///
    /// # Errors
    ///
    /// `Overflow` exactly where there would be more than `usize::MAX` items, else `OutOfMemory` where an allocation
    /// fails. After either error, the items are as before.
    pub fn extend_from_bools(&mut self, items: &[bool]) -> Result<(), GrowthError>
        ensures { Appends (λ error. error) result self.old self.new items.now }
    {
        self.reserve(items.len())?;
        self.push_bools(items)?;
        Ok(())
    }

    /// Appends `additional` items, each of them `value`. Within the capacity it does not allocate, else it allocates
    /// once, before it writes.
    ///
    /// # Errors
    ///
    /// `Overflow` exactly where there would be more than `usize::MAX` items, else `OutOfMemory` where an allocation
    /// fails. After either error, the items are as before.
    pub fn extend_constant(&mut self, additional: usize, value: bool) -> Result<(), GrowthError>
        ensures { Appends (λ error. error) result self.old self.new
            (replicate additional value) }
    {
        let Some(total) = self.checked_total(additional) else {
            return Err(GrowthError::Overflow);
        };
        if value {
            self.append_trues(total)?;
        } else {
            self.append_falses(total)?;
        }
        Ok(())
    }

    /// Appends the `count` bits of `slice` from bit `offset` on: by bytes where `offset` is a multiple of 8, else by
    /// words. Unless `count` is 0, requires that the number of items is a multiple of 8. Requires that the bits are
    /// inside `slice`, and that there are at most `usize::MAX` items afterwards.
    fn push_part(&mut self, slice: &[u8], offset: usize, count: usize) -> Result<(), AllocError>
        requires whole { 0 < count → length self.old.items % 8 ≡ 0 }
        requires inside { offset + count ≤ 8 * length slice.now }
        requires fits { length self.old.items + count < 2 ^ 64 }
        ensures { Pushes result self.old self.new (part (bits slice.now) offset count) }
    {
        if offset % 8 == 0 {
            self.push_front(&slice[offset / 8..], count)
        } else {
            self.push_blocks(BitChunks::new(slice, offset, count))
        }
    }

    /// Appends the first `count` bits of `slice`: all whole bytes at once, then the rest. Unless `count` is 0, requires
    /// that the number of items is a multiple of 8. Requires that `slice` has at least `count` bits, and that there are
    /// at most `usize::MAX` items afterwards.
    fn push_front(&mut self, slice: &[u8], count: usize) -> Result<(), AllocError>
        requires whole { 0 < count → length self.old.items % 8 ≡ 0 }
        requires inside { count ≤ 8 * length slice.now }
        requires fits { length self.old.items + count < 2 ^ 64 }
        ensures { Pushes result self.old self.new (take count (bits slice.now)) }
    {
        let whole = count / 8;
        self.push_bytes(&slice[..whole])?;
        let rest = count % 8;
        if rest > 0 {
            self.push_word(u64::from(slice[whole]), rest)?;
        }
        Ok(())
    }

    /// Appends the items of an iterator by words: eight words at a time, and then the remaining words one by one.
    /// Unless the iterator has no items, requires that the list has a multiple of 8 items. Requires that the list has
    /// at most `usize::MAX` items afterwards.
    fn push_blocks(&mut self, chunks: BitChunks<'_, u64>) -> Result<(), AllocError>
        requires whole { 0 < length chunks.items → length self.old.items % 8 ≡ 0 }
        requires fits { length self.old.items + length chunks.items < 2 ^ 64 }
        ensures { Pushes result self.old self.new chunks.entry.items }
    {
        let mut chunks = chunks;
        while chunks.len() >= 8 {
            self.push_bytes(&next_block(&mut chunks))?;
        }
        self.push_words(chunks)
    }

    /// Appends the items of a slice by words.
    fn push_bools(&mut self, items: &[bool]) -> Result<(), AllocError>
        requires fits { length self.old.items + length items.now < 2 ^ 64 }
        ensures { Pushes result self.old self.new items.now }
    {
        let (blocks, rest) = items.as_chunks::<64>();
        for block in blocks {
            self.push_word(word_of(block), 64)?;
        }
        self.push_word(word_of(&padded_block(rest)), rest.len())
    }

    /// Appends the items of an iterator by words.
    fn push_words(&mut self, chunks: BitChunks<'_, u64>) -> Result<(), AllocError>
        requires fits { length self.old.items + length chunks.items < 2 ^ 64 }
        ensures { Pushes result self.old self.new chunks.entry.items }
    {
        let mut chunks = chunks;
        while let Some(word) = chunks.next() {
            self.push_word(word, 64)?;
        }
        self.push_word(chunks.remainder(), chunks.remainder_len())
    }
}

/// Returns the bytes of the next eight words. Requires that at least eight full words are left.
fn next_block(chunks: &mut BitChunks<'_, u64>) -> [u8; 64]
    requires { 8 ≤ length (full_words 64 chunks.old.items) }
    ensures size { length result ≡ 64 }
    ensures items { chunks.old.items ≡ bits result ++ chunks.new.items }
{
    let mut block = [0; 64];
    for i in 0..8 {
        if let Some(word) = chunks.next() {
            block[8 * i..8 * i + 8].copy_from_slice(&BitChunk::to_ne_bytes(word));
        }
    }
    block
}
