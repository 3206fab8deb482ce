//! Iterates over the bits of bytes by words, at any bit offset.
ghost use Rattle.std.specs.Prelude.{◌≡◌, ◌+◌, ◌-◌, ◌*◌, ◌/◌, ◌%◌, ◌<◌, ◌≤◌, ◌^◌, length, take, Option, Some, IfSome};
ghost use Rattle.std.specs.Iterator.{item_count, UpTo, IsFinite};
ghost use Rattle.std.specs.Iterator.SizeHint.{IsWithinCount};
ghost use Rattle.arrow2_model.specs.Lists.{bits, unnum, part, WordCursor, GivesWord, full_words, rest, spill};

use crate::chunks::{chunk_at, padded_chunk_at};
use arrow2_chunk::{BitChunk, BitChunkIter};
use std::marker::Model;

/// An iterator over a list of booleans by words: the full words come in order, and the bits after them are the
/// remainder, which no call of `next` changes.
///
/// Differs from arrow2: it needs no `TrustedLen`.
pub trait BitChunkIterExact<B: BitChunk>: Iterator<Item = B> {
    // The items still to come, including those of the remainder, and the word of the remainder.
    ghost cursor: { Self → WordCursor };

    /// Returns the word that holds the remainder in its lowest bits. The bits above the remainder are not masked: they
    /// may be bits that are stored after the last item. So mask the word to [`BitChunkIterExact::remainder_len`] bits.
    fn remainder(&self) -> B
        ensures spill { B.number result ≡ (cursor self.now).spill }
        ensures rest { take (length (rest B.WIDTH (cursor self.now).items))
            (unnum B.WIDTH (B.number result))
            ≡ rest B.WIDTH (cursor self.now).items };

    /// Returns the number of items of the remainder: fewer than a word has. The number of all items still to come fits
    /// a `usize`.
    fn remainder_len(&self) -> usize
        ensures rest { result ≡ length (rest B.WIDTH (cursor self.now).items) }
        ensures short { result < B.WIDTH }
        ensures fits { length (cursor self.now).items < 2 ^ 64 };

    /// Returns an iterator over the items of the remainder.
    final fn remainder_iter(&self) -> BitChunkIter<B>
        ensures { result ≡ rest B.WIDTH (cursor self.now).items }
    {
        BitChunkIter::new(self.remainder(), self.remainder_len())
    }

    // The next step can be taken, and the words still to come are finitely many.
    ghost next_law: { (s : Self) → Self.can_next s };

    ghost remaining_law: { (s : Self) → IsFinite (Self.remaining s) };

    // Each step gives the first full word, and the remainder stays.
    ghost gives_law: { (s : Self) (r : Option B) (t : Self) → Self.next_gives s r t →
        GivesWord B.WIDTH B.number cursor s r t };
}

/// The iterator over bits from any bit offset on: contracts see the items still to come and the word of the remainder.
#[derive(Debug, Drop)]
pub struct BitChunks<'a, T: BitChunk> {
    bytes: &'a [u8],
    shift: usize,
    count: usize,
    remainder: T,
    remainder_len: usize,
}

impl<'a, T: BitChunk> Model for BitChunks<'a, T> {
    ghost use Rattle.std.specs.Prelude.{◌+◌, ◌*◌};
    ghost use Rattle.arrow2_model.specs.Lists.{bits, part, WordCursor};
    ghost use Rattle.arrow2_bits.specs.Chunks.{IsChunkCursor};

    ghost Value = { WordCursor };

    ghost view = { λ c. record {
      items = part (bits c.bytes.now) c.shift
          (T.WIDTH * c.count + c.remainder_len);
      spill = T.number c.remainder;
    } };

    ghost invariant = { λ c. IsChunkCursor T.WIDTH c.bytes.now c.shift c.count
        c.remainder_len (T.number c.remainder) };
}

impl<'a, T: BitChunk> BitChunks<'a, T> {
    /// Returns an iterator over the `len` bits from bit `offset` on. Requires that they are inside the bytes.
    pub fn new(bytes: &'a [u8], offset: usize, len: usize) -> BitChunks<'a, T>
        requires { offset + len ≤ 8 * length bytes.now }
        ensures items { result.items ≡ part (bits bytes.entry.now) offset len }
        ensures count { length result.items ≡ len }
        ensures spill { result.spill ≡ spill T.SIZE bytes.entry.now offset len }
    {
        let bytes = &bytes[offset / 8..];
        let shift = offset % 8;
        let size = T::SIZE;
        let count = len / 8 / size;
        let following = remainder_bytes(bytes, shift, len, count * size);
        BitChunks {
            bytes,
            shift,
            count,
            remainder: padded_chunk_at(following, shift),
            remainder_len: len - T::WIDTH * count,
        }
    }

    /// Returns the number of full words still to come. arrow2's result is one fewer where any full word is left.
    pub fn len(&self) -> usize
        ensures { result ≡ length (full_words T.WIDTH self.now.items) }
    {
        self.count
    }

    /// Returns the word that holds the remainder in its lowest bits. The bits above the remainder are not masked. Where
    /// the iterator was made of at least as many bits as a word has, they are the padding bits of the byte that holds
    /// the last item, then false. Where it was made of fewer bits, they are whatever bits are stored after the
    /// remainder, then false past the end of the bytes. So mask the word to [`BitChunks::remainder_len`] bits.
    pub fn remainder(&self) -> T
        ensures spill { T.number result ≡ self.now.spill }
        ensures rest { take (length (rest T.WIDTH self.now.items))
            (unnum T.WIDTH (T.number result))
            ≡ rest T.WIDTH self.now.items }
    {
        self.remainder
    }

    /// Returns the number of items of the remainder: fewer than a word has. The number of all items still to come fits
    /// a `usize`.
    pub fn remainder_len(&self) -> usize
        ensures rest { result ≡ length (rest T.WIDTH self.now.items) }
        ensures short { result < T.WIDTH }
        ensures fits { length self.now.items < 2 ^ 64 }
    {
        self.remainder_len
    }
}

impl<'a, T: BitChunk> BitChunkIterExact<T> for BitChunks<'a, T> {
    ghost cursor = { λ s. s };

    ghost next_law = { λ s. tt };

    ghost remaining_law = { λ s. tt };

    ghost gives_law = { λ s r t h. h };

    fn remainder(&self) -> T {
        BitChunks::remainder(self)
    }

    fn remainder_len(&self) -> usize {
        BitChunks::remainder_len(self)
    }
}

impl<'a, T: BitChunk> Iterator for BitChunks<'a, T> {
    type Item = T;

    ghost next_gives = { GivesWord T.WIDTH T.number (λ s. s) };

    ghost remaining = { item_count (λ s. full_words T.WIDTH s.items) };

    fn next(&mut self) -> Option<T> {
        if self.count == 0 {
            return None;
        }
        let word = chunk_at(self.bytes, self.shift);
        self.bytes = &self.bytes[T::SIZE..];
        self.count -= 1;
        Some(word)
    }

    /// Returns the number of full words still to come as both bounds.
    fn size_hint(&self) -> (usize, Option<usize>)
        ensures lower { IsWithinCount result.0 (item_count (λ s.
            full_words T.WIDTH s.items) self.now) }
        ensures upper { IfSome result.1 (UpTo (item_count (λ s.
            full_words T.WIDTH s.items) self.now)) }
        ensures exact { (result.0 ≡ length (full_words T.WIDTH self.now.items))
            × (result.1 ≡ Some (length (full_words T.WIDTH self.now.items))) }
    {
        let left = self.len();
        (left, Some(left))
    }
}

impl<'a, T: BitChunk> ExactSizeIterator for BitChunks<'a, T> {
    fn len(&self) -> usize {
        BitChunks::len(self)
    }
}

/// Returns the bytes in which the remainder is stored: all bytes where `start` is 0, else those from byte `start` up to
/// the byte that holds the last of the `len` bits from bit `shift` on.
fn remainder_bytes(bytes: &[u8], shift: usize, len: usize, start: usize) -> &[u8]
    requires position { shift < 8 }
    requires within { shift + len ≤ 8 * length bytes.now }
    requires order { start ≤ len / 8 }
    ensures all { start ≡ 0 → result.now ≡ bytes.now }
    ensures following { 0 < start → result.now ≡ part bytes.now start ((len + shift + 7) / 8 - start) }
{
    if start == 0 {
        return bytes;
    }
    let end = len / 8 + (len % 8 + shift).div_ceil(8);
    &bytes[start..end]
}
