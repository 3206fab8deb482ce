//! Bytes whose reads are counted.
ghost use Rattle.std.specs.Prelude.{◌≡◌, ◌+◌, ◌≤◌, length};
ghost use Rattle.arrow2_model.specs.Lists.{part};

use crate::reads::Reads;
use std::marker::Model;

/// Bytes, and the number of reads counted so far, which includes the reads of the counter that was passed to
/// [`Stored::new`]. Only [`Stored::fetch`] reads the bytes, and it counts each byte that it returns.
#[derive(Drop)]
pub struct Stored<'a> {
    bytes: &'a [u8],
    reads: Reads,
}

impl<'a> Model for Stored<'a> {
    ghost use Rattle.arrow2_bits.specs.CountedBytes.{CountedBytes};

    ghost Value = { CountedBytes };

    ghost view = { λ s. record { bytes = s.bytes.now; reads = s.reads } };
}

impl<'a> Stored<'a> {
    /// Returns the bytes, with a counter of their reads that goes on from `reads`.
    pub fn new(bytes: &'a [u8], reads: Reads) -> Stored<'a>
        ensures bytes { result.bytes ≡ bytes.entry.now }
        ensures reads { result.reads ≡ reads }
    {
        Stored { bytes, reads }
    }

    /// Returns the number of bytes. Reads no byte.
    pub fn len(&self) -> usize
        ensures { result ≡ length self.now.bytes }
    {
        self.bytes.len()
    }

    /// Returns the `N` bytes from byte `i` on, and counts `N` reads. Requires that `i + N` is at most the number of
    /// bytes.
    pub fn fetch<const N: usize>(&mut self, i: usize) -> [u8; N]
        requires inside { i + N ≤ length self.old.bytes }
        ensures fetched { result ≡ part self.old.bytes i N }
        ensures bytes { self.new.bytes ≡ self.old.bytes }
        ensures reads { self.new.reads ≡ self.old.reads + N }
    {
        let mut fetched = [0; N];
        fetched.copy_from_slice(&self.bytes[i..i + N]);
        self.reads.add(N);
        fetched
    }

    /// Returns the counter, which has counted every read.
    pub fn into_reads(self) -> Reads
        ensures { result ≡ self.entry.reads }
    {
        self.reads
    }
}
