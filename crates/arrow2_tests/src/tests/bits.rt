//! Worked examples of bits and of iterators by words, and their printed texts.
ghost use Rattle.std.specs.Prelude.{◌≡◌, ◌+◌, ◌*◌, ◌<◌, ◌≤◌, length};

use super::checks::{assert_that, gives, has, ok, shows};
use arrow2_bits::{
    BitChunkIterExact, BitChunks, BitChunksExact, BitmapIter, bytes_for, count_zeros, get_bit,
    get_bit_from, is_set, set, set_bit,
};
use arrow2_chunk::BitChunk;
use std::alloc::Global;
use std::fmt;
use std::process::Abort;

/// Some bits of bytes, printed by `fmt`.
#[derive(Drop)]
struct Bits<'a> {
    bytes: &'a [u8],
    offset: usize,
    len: usize,
    ghost within: { offset < 8 },
    ghost inside: { 0 < len → offset + len ≤ 8 * length bytes.now },
}

impl<'a> Bits<'a> {
    fn new(bytes: &'a [u8], offset: usize, len: usize) -> Bits<'a>
        requires within { offset < 8 }
        requires inside { 0 < len → offset + len ≤ 8 * length bytes.now }
    {
        Bits { bytes, offset, len }
    }
}

impl<'a> fmt::Debug for Bits<'a> {
    fn fmt<W: fmt::Write>(&self, f: &mut fmt::Formatter<W>) -> fmt::Result {
        arrow2_bits::fmt::fmt(self.bytes, self.offset, self.len, f)
    }
}

#[test]
fn bits_are_printed_by_whole_bytes(rt: HostRuntime) {
    let alloc = rt.alloc();
    let bits = Bits::new(&[0b11000001, 1, 0, 2], 1, 9);
    shows(&rt, alloc, &bits, "[0b1100000_, 0b______01]");
    let bits = Bits::new(&[0b11000001, 1, 1], 2, 16);
    shows(&rt, alloc, &bits, "[0b110000__, 0b00000001, 0b______01]");
    shows(&rt, alloc, &Bits::new(&[1], 3, 2), "[0b___00___]");
    shows(&rt, alloc, &Bits::new(&[1], 3, 0), "[]");
    shows(&rt, alloc, &Bits::new(&[], 7, 0), "[]");
}

#[test]
fn many_bits_are_printed_whole(rt: HostRuntime) {
    let alloc = rt.alloc();
    for (bytes, length) in [(9, 72), (200, 1600)] {
        let front = "0b10000001, ".repeat(alloc, bytes - 1);
        let front = ok(&rt, front);
        let text = ok(&rt, format!(in alloc; "[{front}0b10000001]"));
        let bits = Bits::new(&[0b10000001; 200], 0, length);
        shows(&rt, alloc, &bits, text.as_str());
    }
}

#[test]
fn single_bits_are_read_written_and_counted(rt: HostRuntime) {
    has(&rt, &[bytes_for(0), bytes_for(8), bytes_for(9)], &[0, 1, 2]);
    has(&rt, &[bytes_for(usize::MAX)], &[2305843009213693952]);
    let zeros = [count_zeros(&[255, 0], 4, 8), count_zeros(&[], 99, 0)];
    has(&rt, &zeros, &[4, 0]);
    let mut bytes = [0b00001101, 0];
    set_bit(&mut bytes, 9, true);
    has(&rt, &[set(0, 3, true), bytes[0], bytes[1]], &[8, 13, 0b10]);
    let read = [is_set(8, 3), get_bit(&bytes, 2), get_bit_from(&bytes, 7, 8)];
    has(&rt, &read, &[true, true, false]);
}

#[test]
fn bits_are_iterated_from_both_ends(rt: HostRuntime) {
    let alloc = rt.alloc();
    let mut bits = BitmapIter::new(&[0b01011011], 2, 4);
    has(&rt, &[bits.next(), bits.next_back()], &[Some(false); 2]);
    let text = "BitmapIter { bytes: [91], offset: 0, index: 3, end: 5 }";
    shows(&rt, alloc, &bits, text);
    let left = ok(&rt, bits.clone());
    has(&rt, &[left.len()], &[2]);
    gives(&rt, alloc, left, &[true, true]);
    let mut bits = BitmapIter::new(&[0b01011011], 0, 6);
    let first = bits.next();
    has(&rt, &[bits.size_hint()], &[(5, Some(5))]);
    let ended = [first, bits.nth(usize::MAX), bits.next(), bits.next_back()];
    has(&rt, &ended, &[Some(true), None, None, None]);
}

/// Checks that an iterator, known by its bound alone, gives the word if there is one, and then the items of the rest,
/// which are in the word `rest`.
fn has_words<B: BitChunk, I: BitChunkIterExact<B>>(
    rt: &impl Abort,
    alloc: Global,
    mut chunks: I,
    word: Option<B>,
    rest: B,
    items: &[bool],
) {
    assert_that(rt, chunks.remainder() == rest);
    assert_that(rt, chunks.remainder_len() == items.len());
    gives(rt, alloc, chunks.remainder_iter(), items);
    assert_that(rt, chunks.next() == word);
    assert_that(rt, chunks.next().is_none());
}

#[test]
fn words_are_taken_at_a_bit_offset(rt: HostRuntime) {
    let alloc = rt.alloc();
    let words = BitChunks::<u8>::new(&[0b10110110, 0b01011011], 3, 10);
    has(&rt, &[BitChunks::len(&words)], &[1]);
    has(&rt, &[words.size_hint()], &[(1, Some(1))]);
    has_words(&rt, alloc, words, Some(118), 11, &[true, true]);
    let words = BitChunks::<u16>::new(&[255, 1, 128], 4, 20);
    has(&rt, &[BitChunks::len(&words)], &[1]);
    has_words(&rt, alloc, words, Some(31), 8, &[false, false, false, true]);
    let rest = BitChunks::<u64>::new(&[240, 255], 4, 8);
    has(&rt, &[rest.remainder().masked(8)], &[255]);
    has_words(&rt, alloc, rest, None, 4095, &[true; 8]);
}

#[test]
fn words_are_taken_from_the_first_bit(rt: HostRuntime) {
    let alloc = rt.alloc();
    let rest = BitChunksExact::<u16>::new(&[255], 7);
    has(&rt, &[rest.is_empty()], &[true]);
    has_words(&rt, alloc, rest, None, 255, &[true; 7]);
    let words = BitChunksExact::<u16>::new(&[255, 1, 1, 0b11011011], 23);
    has(&rt, &[BitChunksExact::len(&words)], &[1]);
    let text =
        "BitChunksExact { chunks: BitChunks { bytes: [255, 1, 1], shift: 0, count: 1, remainder: 1, remainder_len: 7 } }";
    shows(&rt, alloc, &words, text);
    let items = [true, false, false, false, false, false, false];
    has_words(&rt, alloc, words, Some(511), 1, &items);
}
