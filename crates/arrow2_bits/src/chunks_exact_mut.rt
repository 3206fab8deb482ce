//! Iterates over bytes by chunks that are borrowed mutably.
ghost use Rattle.std.specs.Prelude.{◌≡◌, ℕ, ◌+◌, ◌-◌, ◌*◌, ◌/◌, ◌<◌, ◌≤◌, ◌↔◌, List, length, take, Some, IfSome, IsTrue, MatchOption};
ghost use Rattle.std.specs.Bool.{OnTrue, OnFalse};
ghost use Rattle.std.specs.Borrow.{sem};
ghost use Rattle.std.specs.Fn.{FnOnceReturnsAtMut, FnOnceTakesAtMut};
ghost use Rattle.std.specs.Iterator.{at_most, UpTo};
ghost use Rattle.std.specs.Iterator.SizeHint.{IsWithinCount};
ghost use Rattle.arrow2_model.specs.Lists.{part};
ghost use Rattle.arrow2_bits.specs.ChunksMut.{chunks_left, next_chunk, next_len, past, GivesChunk};

use crate::bytes_for;
use arrow2_chunk::BitChunk;
use std::marker::{Model, PhantomData};
use std::mem;

/// An iterator over the first bits of bytes by mutable chunks, each of `T::SIZE` bytes.
///
/// Contracts see:
///
/// - the bytes of the chunks, as written so far; `next` takes out the chunk that it returns and all chunks before it;
/// - the index in these bytes at which the next chunk begins;
/// - the number of bytes of a chunk;
/// - the bytes of the remainder, and the number of bits of the remainder.
#[derive(Debug, Drop)]
pub struct BitChunksExactMut<'a, T> {
    bytes: &'a mut [u8],
    at: usize,
    size: usize,
    remainder: &'a mut [u8],
    remainder_len: usize,
    marker: PhantomData<T>,
}

impl<'a, T> Model for BitChunksExactMut<'a, T> {
    ghost use Rattle.std.specs.Prelude.{◌<◌, ◌*◌};
    ghost use Rattle.arrow2_bits.specs.ChunksMut.{ChunkCursorMut};

    ghost Value = { ChunkCursorMut };

    ghost view = { λ c. record {
      bytes = c.bytes.now;
      at = c.at;
      size = c.size;
      remainder = c.remainder.now;
      remainder_len = c.remainder_len;
    } };

    // The invariant does not state that `at` is inside `bytes`: `bytes_mut` lends all of them, and its contract allows
    // that they are a list of any length after the loan.
    ghost invariant = { λ c. c.remainder_len < 8 * c.size };
}

impl<'a, T: BitChunk> BitChunksExactMut<'a, T> {
    /// Returns an iterator over the first `len` bits. Requires that they are inside the bytes; arrow2 panics otherwise.
    /// What is written through the iterator is written to `bytes`; clauses state only what the iterator holds, and not
    /// what `bytes` holds after the iterator is gone.
    pub fn new(bytes: &'a mut [u8], len: usize) -> BitChunksExactMut<'a, T>
        requires { len ≤ 8 * length bytes.old }
        // The bytes of the full chunks. The next chunk is the first one.
        ensures bytes { result.bytes ≡ take
            (T.SIZE * (len / 8 / T.SIZE)) bytes.old }
        ensures at { result.at ≡ 0 }
        ensures size { result.size ≡ T.SIZE }
        ensures left { chunks_left result ≡ len / 8 / T.SIZE }
        // The bytes after them, up to the one that holds the last bit, and how many of the `len` bits they hold.
        ensures remainder { let full = T.SIZE * (len / 8 / T.SIZE) in
            result.remainder ≡ part bytes.old full ((len + 7) / 8 - full) }
        ensures remainder_len { result.remainder_len
            ≡ len - 8 * T.SIZE * (len / 8 / T.SIZE) }
    {
        let size = T::SIZE;
        let count = len / 8 / size;
        let bytes = &mut bytes[..bytes_for(len)];
        let (bytes, remainder) = bytes.split_at_mut(size * count);
        BitChunksExactMut {
            bytes,
            at: 0,
            size,
            remainder,
            remainder_len: len - T::WIDTH * count,
            marker: PhantomData,
        }
    }
}

impl<'a, T> BitChunksExactMut<'a, T> {
    ghost use Rattle.arrow2_bits.specs.ChunkLoans.{LendsBytes, LendsBytesPart, LendsNext, LendsNextIf, LendsRemainder};

    /// Returns the next chunk as a mutable slice, or `None` where no chunk is left. Afterwards the iterator is past the
    /// chunk and holds the bytes that were written through the slice, and every other byte is as it was.
    ///
    /// A caller whose contract states what the bytes hold afterwards uses [`BitChunksExactMut::change_next`]: where a
    /// `&mut` was inside an `Option`, the prover does not learn the values that were written through it.
    ///
    /// arrow2 has only the iterator's `next`.
    pub fn next_chunk(&mut self) -> Option<&mut [u8]>
        ensures* writes_back { sem 𝓛 (LendsNextIf T.row self.entry result) }
        ensures chunk { MatchOption result (chunks_left self.old ≡ 0) (λ r.
            (0 < chunks_left self.old) × (r.now ≡ next_chunk self.old)) }
    {
        let chunk = self.lend_next();
        if chunk.len() == 0 {
            return None;
        }
        Some(chunk)
    }

    /// Changes the next chunk in place by `change`, and returns whether there was one. Afterwards the iterator is past
    /// the chunk, and every other byte is as it was. If there is a next chunk, requires that `change` may be called on
    /// it.
    ///
    /// arrow2 has only the iterator's `next`.
    pub fn change_next<F: FnOnce(&mut [u8])>(&mut self, change: F) -> bool
        requires { 0 < chunks_left self.old →
            FnOnceTakesAtMut F.FnOnce change (next_chunk self.old) }
        ensures any { IsTrue result ↔ (0 < chunks_left self.old) }
        ensures written { OnTrue result ((written : List ℕ)
            × FnOnceReturnsAtMut F.FnOnce change (next_chunk self.old) tt written
            × (length written ≡ self.old.size)
            × (self.new ≡ past self.old self.old.size written)) }
        ensures left { OnTrue result (chunks_left self.old ≡ chunks_left self.new + 1) }
        ensures ended { OnFalse result (self.new ≡ self.old) }
    {
        if self.next_len() == 0 {
            return false;
        }
        change(self.lend_next());
        true
    }

    /// Returns the remainder as a mutable slice: the bytes after the chunks, up to and including the byte that holds
    /// the last bit. Afterwards the iterator holds the bytes that were written through the slice, and its chunks are as
    /// they were.
    pub fn remainder(&mut self) -> &mut [u8]
        ensures bytes { result.now ≡ self.old.remainder }
        ensures* writes_back { sem 𝓛 (LendsRemainder T.row self.entry result) }
    {
        &mut *self.remainder
    }

    /// Returns the number of bits of the remainder: fewer than a chunk has. arrow2 takes `&mut self`.
    pub fn remainder_len(&self) -> usize
        ensures bits { result ≡ self.now.remainder_len }
        ensures short { result < 8 * self.now.size }
    {
        self.remainder_len
    }

    /// Returns the next chunk as a mutable slice, or an empty slice where no chunk is left. The iterator moves past the
    /// chunk.
    fn lend_next(&mut self) -> &mut [u8]
        ensures some { (0 < length result.now) ↔ (0 < chunks_left self.old) }
        ensures len { length result.now ≡ next_len self.old }
        ensures chunk { result.now ≡ part self.old.bytes self.old.at (next_len self.old) }
        ensures* writes_back { sem 𝓛 (LendsNext T.row self.entry result) }
    {
        let start = self.bytes.len() - self.ahead();
        let size = self.next_len();
        self.at += size;
        self.part_mut(start, start + size)
    }

    /// Returns the bytes of the chunks from byte `start` up to byte `end`, as a mutable slice.
    fn part_mut(&mut self, start: usize, end: usize) -> &mut [u8]
        requires order { start ≤ end }
        requires within { end ≤ length self.old.bytes }
        ensures* writes_back { sem 𝓛 (LendsBytesPart T.row self.entry start result) }
        ensures bytes { result.now ≡ part self.old.bytes start (end - start) }
    {
        &mut self.bytes_mut()[start..end]
    }

    /// Returns the bytes of the chunks as a mutable slice.
    fn bytes_mut(&mut self) -> &mut [u8]
        ensures bytes { result.now ≡ self.old.bytes }
        ensures* writes_back { sem 𝓛 (LendsBytes T.row self.entry result) }
    {
        &mut *self.bytes
    }

    /// Returns the number of bytes that are lent next: those of a chunk, or 0 at the end.
    fn next_len(&self) -> usize
        ensures len { result ≡ next_len self.now }
        ensures some { (0 < result) ↔ (0 < chunks_left self.now) }
        ensures full { 0 < result → result ≡ self.now.size }
        ensures inside { result ≤ length self.now.bytes - self.now.at }
    {
        if self.ahead() < self.size {
            0
        } else {
            self.size
        }
    }

    /// Returns the number of bytes of the chunks still to come.
    fn ahead(&self) -> usize
        ensures { result ≡ length self.now.bytes - self.now.at }
    {
        self.bytes.len().saturating_sub(self.at)
    }
}

impl<'a, T: Drop> Iterator for BitChunksExactMut<'a, T> {
    type Item = &'a mut [u8];

    ghost next_gives = { GivesChunk };

    ghost remaining = { λ s. at_most (chunks_left s) };

    fn next(&mut self) -> Option<&'a mut [u8]> {
        if self.ahead() < self.size {
            return None;
        }
        let (_, ahead) = mem::take(&mut self.bytes).split_at_mut(self.at);
        let (chunk, following) = ahead.split_at_mut(self.size);
        self.bytes = following;
        self.at = 0;
        Some(chunk)
    }

    /// Returns the number of chunks still to come as both bounds.
    fn size_hint(&self) -> (usize, Option<usize>)
        ensures lower { IsWithinCount result.0 (at_most (chunks_left self.now)) }
        ensures upper { IfSome result.1 (UpTo (at_most (chunks_left self.now))) }
        ensures exact { (result.0 ≡ chunks_left self.now)
            × (result.1 ≡ Some (chunks_left self.now)) }
    {
        let left = self.ahead() / self.size;
        (left, Some(left))
    }
}
