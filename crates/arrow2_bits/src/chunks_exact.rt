//! Iterates over bits by words from bit 0 on.
ghost use Rattle.std.specs.Prelude.{◌≡◌, ◌*◌, ◌≤◌, ◌↔◌, length, take, Some, IfSome, IsTrue};
ghost use Rattle.std.specs.Iterator.{item_count, UpTo};
ghost use Rattle.std.specs.Iterator.SizeHint.{IsWithinCount};
ghost use Rattle.arrow2_model.specs.Lists.{bits, unnum, part, WordCursor, GivesWord, full_words, rest, exact_spill};

use crate::bytes_for;
use crate::chunk_iterator::{BitChunkIterExact, BitChunks};
use arrow2_chunk::BitChunk;
use std::marker::Model;

/// The iterator over the first bits of bytes by words: contracts see the items still to come and the word of the
/// remainder.
#[derive(Debug, Drop)]
pub struct BitChunksExact<'a, T: BitChunk> {
    chunks: BitChunks<'a, T>,
}

impl<'a, T: BitChunk> Model for BitChunksExact<'a, T> {
    ghost use Rattle.arrow2_model.specs.Lists.{WordCursor};

    ghost Value = { WordCursor };

    ghost view = { λ c. c.chunks };
}

impl<'a, T: BitChunk> BitChunksExact<'a, T> {
    /// Returns an iterator over the first `len` bits. Requires that they are inside the bytes.
    pub fn new(bytes: &'a [u8], len: usize) -> BitChunksExact<'a, T>
        requires { len ≤ 8 * length bytes.now }
        ensures items { result.items ≡ part (bits bytes.entry.now) 0 len }
        ensures count { length result.items ≡ len }
        ensures spill { result.spill ≡ exact_spill T.SIZE bytes.entry.now len }
    {
        BitChunksExact {
            chunks: BitChunks::new(&bytes[..bytes_for(len)], 0, len),
        }
    }

    /// Returns the number of full words still to come.
    pub fn len(&self) -> usize
        ensures { result ≡ length (full_words T.WIDTH self.now.items) }
    {
        BitChunks::len(&self.chunks)
    }

    /// Returns whether no full word is still to come.
    pub fn is_empty(&self) -> bool
        ensures { IsTrue result ↔ (length (full_words T.WIDTH self.now.items) ≡ 0) }
    {
        BitChunksExact::len(self) == 0
    }

    /// Returns the word that holds the remainder in its lowest bits. The bits above the remainder are the padding bits
    /// of the byte that holds the last item, then false. So mask the word to [`BitChunkIterExact::remainder_len`] bits.
    ///
    /// The word is 0 where the items fill whole words, and may be 0 elsewhere too. arrow2's documentation states that
    /// it is 0 exactly where there are fewer than 8 items.
    pub fn remainder(&self) -> T
        ensures spill { T.number result ≡ self.now.spill }
        ensures rest { take (length (rest T.WIDTH self.now.items))
            (unnum T.WIDTH (T.number result))
            ≡ rest T.WIDTH self.now.items }
    {
        self.chunks.remainder()
    }
}

impl<'a, T: BitChunk> BitChunkIterExact<T> for BitChunksExact<'a, T> {
    ghost cursor = { λ s. s };

    ghost next_law = { λ s. tt };

    ghost remaining_law = { λ s. tt };

    ghost gives_law = { λ s r t h. h };

    fn remainder(&self) -> T {
        BitChunksExact::remainder(self)
    }

    fn remainder_len(&self) -> usize {
        self.chunks.remainder_len()
    }
}

impl<'a, T: BitChunk> Iterator for BitChunksExact<'a, T> {
    type Item = T;

    ghost next_gives = { GivesWord T.WIDTH T.number (λ s. s) };

    ghost remaining = { item_count (λ s. full_words T.WIDTH s.items) };

    fn next(&mut self) -> Option<T> {
        self.chunks.next()
    }

    /// Returns the number of full words still to come as both bounds.
    fn size_hint(&self) -> (usize, Option<usize>)
        ensures lower { IsWithinCount result.0 (item_count (λ s.
            full_words T.WIDTH s.items) self.now) }
        ensures upper { IfSome result.1 (UpTo (item_count (λ s.
            full_words T.WIDTH s.items) self.now)) }
        ensures exact { (result.0 ≡ length (full_words T.WIDTH self.now.items))
            × (result.1 ≡ Some (length (full_words T.WIDTH self.now.items))) }
    {
        self.chunks.size_hint()
    }
}
