//! Counts of bits that are not set.
ghost use Rattle.std.specs.Prelude.{◌≡◌, ◌+◌, ◌-◌, ◌*◌, ◌/◌, ◌<◌, ◌≤◌, ◌^◌, length};
ghost use Rattle.arrow2_model.specs.Lists.{bits, part, falses};
ghost use Rattle.arrow2_model.specs.Touched.{touched, slice_reads};

use crate::popcount::ones_of;
use crate::reads::Reads;
use crate::stored::Stored;
use arrow2_chunk::BitChunk;
use std::simd::prelude::*;

/// Returns how many of the `len` bits from bit `offset` on are not set. Unless `len` is 0, requires that they are
/// inside the bytes. arrow2's documentation also excludes a range that ends where the bytes end.
pub fn count_zeros(bytes: &[u8], offset: usize, len: usize) -> usize
    requires { 0 < len → offset + len ≤ 8 * length bytes.now }
    ensures { result ≡ falses (part (bits bytes.now) offset len) }
{
    count_zeros_counted(&mut Stored::new(bytes, Reads::new()), offset, len)
}

/// Returns the same as [`count_zeros`], for bytes whose reads are counted. Each byte that holds one of the bits is
/// fetched once. Unless `len` is 0, requires that the bits are inside the bytes. arrow2 counts no reads.
pub fn count_zeros_counted(stored: &mut Stored<'_>, offset: usize, len: usize) -> usize
    requires inside { 0 < len → offset + len ≤ 8 * length stored.old.bytes }
    ensures zeros { result ≡ falses (part (bits stored.old.bytes) offset len) }
    ensures bytes { stored.new.bytes ≡ stored.old.bytes }
    ensures reads { stored.new.reads ≡ stored.old.reads + touched offset len }
{
    zeros_from(stored, offset / 8, offset % 8, len)
}

/// Returns how many of the `count` bits from bit `offset + start` on are not set, as [`count_zeros_counted`] does, but
/// reads at most `len / 16 + 4` bytes. Requires that the `len` bits from bit `offset` on are inside the bytes, that the
/// `count` bits are among them, and that `unset` is the number of the `len` bits that are not set.
///
/// Where `count` is `len`, reads no byte and returns `unset`. Where `count` is below `len / 2`, counts among the
/// `count` bits. Else counts among the bits before and after them, and subtracts both counts from `unset`. arrow2 does
/// this inside `slice` of a bitmap.
pub fn recount(
    stored: &mut Stored<'_>,
    offset: usize,
    len: usize,
    unset: usize,
    start: usize,
    count: usize,
) -> usize
    // The `len` bits are inside, the `count` bits are among them, and `unset` of the `len` bits are not set.
    requires inside { offset + len ≤ 8 * length stored.old.bytes }
    requires among { start + count ≤ len }
    requires unset { unset ≡ falses (part (bits stored.old.bytes) offset len) }
    // The result is the number of the `count` bits that are not set. The bytes are as before.
    ensures zeros { result ≡ falses (part (bits stored.old.bytes) (offset + start) count) }
    ensures bytes { stored.new.bytes ≡ stored.old.bytes }
    // The bytes counted as read: exactly, and at most.
    ensures reads { stored.new.reads ≡ stored.old.reads + slice_reads offset len start count }
    ensures bound { stored.new.reads ≤ stored.old.reads + len / 16 + 4 }
{
    prove!(start <= len && count <= len - start);
    if count == len {
        return unset;
    }
    if count < len / 2 {
        return zeros_after(stored, offset, start, count);
    }
    let end = start + count;
    let head = count_zeros_counted(stored, offset, start);
    let tail = zeros_after(stored, offset, end, len - end);
    unset - (head + tail)
}

/// Returns how many of the `len` bits from bit `offset + start` on are not set. `offset + start` need not fit a
/// `usize`.
fn zeros_after(stored: &mut Stored<'_>, offset: usize, start: usize, len: usize) -> usize
    requires inside { offset + start + len ≤ 8 * length stored.old.bytes }
    ensures zeros { result ≡ falses (part (bits stored.old.bytes) (offset + start) len) }
    ensures bytes { stored.new.bytes ≡ stored.old.bytes }
    ensures reads { stored.new.reads ≡ stored.old.reads + touched (offset + start) len }
{
    let within = offset % 8 + start % 8;
    zeros_from(stored, offset / 8 + start / 8 + within / 8, within % 8, len)
}

/// Returns how many of the `len` bits from bit `start` of byte `first` on are not set.
fn zeros_from(stored: &mut Stored<'_>, first: usize, start: usize, len: usize) -> usize
    requires position { start < 8 }
    requires fits { first < 2 ^ 63 }
    requires inside { 0 < len → 8 * first + start + len ≤ 8 * length stored.old.bytes }
    ensures zeros { result ≡ falses (part (bits stored.old.bytes) (8 * first + start) len) }
    ensures bytes { stored.new.bytes ≡ stored.old.bytes }
    ensures reads { stored.new.reads ≡ stored.old.reads + touched (8 * first + start) len }
{
    if len <= 8 - start {
        return zeros_in_byte(stored, first, start, len);
    }
    let head = (8 - start) % 8;
    let whole = first + start.div_ceil(8);
    let count = (len - head) / 8;
    let zeros = zeros_in_byte(stored, first, start, head);
    let zeros = zeros + zeros_in_bytes(stored, whole, count);
    zeros + zeros_in_byte(stored, whole + count, 0, (len - head) % 8)
}

/// Returns how many of the `len` bits from bit `start` of byte `at` on are not set. Requires that all of them are in
/// that byte.
fn zeros_in_byte(stored: &mut Stored<'_>, at: usize, start: usize, len: usize) -> usize
    requires within { start + len ≤ 8 }
    requires some { 0 < len → at < length stored.old.bytes }
    ensures zeros { result ≡ falses (part (bits stored.old.bytes) (8 * at + start) len) }
    ensures bytes { stored.new.bytes ≡ stored.old.bytes }
    ensures reads { stored.new.reads ≡ stored.old.reads + touched (8 * at + start) len }
{
    if len == 0 {
        return 0;
    }
    let byte = stored.fetch::<1>(at)[0];
    let shown = (u32::from(byte) >> start) % (1 << len);
    len - shown.count_ones() as usize
}

/// Returns how many bits of the `count` bytes from byte `first` on are not set. Counts 64 bytes at each step, and then
/// the rest by parts of 32, 16, 8, 4, 2 bytes and 1 byte, each at most once.
fn zeros_in_bytes(stored: &mut Stored<'_>, first: usize, count: usize) -> usize
    requires fits { first + count < 2 ^ 64 }
    requires few { 8 * count < 2 ^ 64 }
    requires inside { first + count ≤ length stored.old.bytes }
    ensures zeros { result ≡ falses (part (bits stored.old.bytes) (8 * first) (8 * count)) }
    ensures bytes { stored.new.bytes ≡ stored.old.bytes }
    ensures reads { stored.new.reads ≡ stored.old.reads + count }
{
    let pairs = count / 64;
    let counted = OnesUpTo {
        ones: ones_in_blocks(stored, first, pairs),
        end: first + 64 * pairs,
    };
    let counted = with_words::<u64, 8>(stored, first, counted, 4, count / 32 % 2);
    let counted = with_words::<u64, 8>(stored, first, counted, 2, count / 16 % 2);
    let counted = with_words::<u64, 8>(stored, first, counted, 1, count / 8 % 2);
    let counted = with_words::<u32, 4>(stored, first, counted, 1, count / 4 % 2);
    let counted = with_words::<u16, 2>(stored, first, counted, 1, count / 2 % 2);
    let counted = with_words::<u8, 1>(stored, first, counted, 1, count % 2);
    8 * count - counted.ones
}

/// Returns how many bits of the `pairs` pairs of blocks from byte `first` on are set, where a block has 32 bytes.
/// Counts two blocks at each step, since a loop with one block at each step takes longer than a loop with one word at
/// each step.
fn ones_in_blocks(stored: &mut Stored<'_>, first: usize, pairs: usize) -> usize
    requires fits { first + 64 * pairs < 2 ^ 64 }
    requires few { 8 * (64 * pairs) < 2 ^ 64 }
    requires inside { first + 64 * pairs ≤ length stored.old.bytes }
    ensures ones { result + falses (part (bits stored.old.bytes) (8 * first) (8 * (64 * pairs)))
        ≡ 8 * (64 * pairs) }
    ensures bytes { stored.new.bytes ≡ stored.old.bytes }
    ensures reads { stored.new.reads ≡ stored.old.reads + 64 * pairs }
{
    let mut ones = 0usize;
    for i in 0..pairs {
        let at = first + 64 * i;
        let front = ones_in_block(stored, at);
        let back = ones_in_block(stored, at + 32);
        ones += front + back;
    }
    ones
}

/// Returns how many bits of the 32 bytes from byte `at` on are set.
#[inline(always)]
fn ones_in_block(stored: &mut Stored<'_>, at: usize) -> usize
    requires inside { at + 32 ≤ length stored.old.bytes }
    ensures ones { result + falses (part (bits stored.old.bytes) (8 * at) (8 * 32)) ≡ 8 * 32 }
    ensures bytes { stored.new.bytes ≡ stored.old.bytes }
    ensures reads { stored.new.reads ≡ stored.old.reads + 32 }
{
    ones_of(u8x32::from_array(stored.fetch::<32>(at)))
}

/// The number of set bits of the bytes from a first byte on up to byte `end`.
#[derive(Clone, Copy)]
struct OnesUpTo {
    ones: usize,
    end: usize,
}

/// Adds to `counted` the set bits of the next `words` words of `N` bytes. Where `times` is 0, returns `counted` as it
/// is. Requires that `times` is at most 1.
#[inline(always)]
fn with_words<T: BitChunk, const N: usize>(
    stored: &mut Stored<'_>,
    first: usize,
    counted: OnesUpTo,
    words: usize,
    times: usize,
) -> OnesUpTo
    // The words are inside the bytes, and no number overflows.
    requires width { T.WIDTH ≡ 8 * N }
    requires once { times ≤ 1 }
    requires fits { counted.end + N * words * times < 2 ^ 64 }
    requires few { 8 * (counted.end + N * words * times - first) < 2 ^ 64 }
    requires inside { counted.end + N * words * times ≤ length stored.old.bytes }
    // `counted` has the set bits of the bytes from `first` up to its end, and so has the result up to its own end.
    requires from { first ≤ counted.end }
    requires ones { counted.ones + falses (part (bits stored.old.bytes) (8 * first)
        (8 * (counted.end - first))) ≡ 8 * (counted.end - first) }
    ensures ones { result.ones + falses (part (bits stored.old.bytes) (8 * first)
        (8 * (result.end - first))) ≡ 8 * (result.end - first) }
    ensures end { result.end ≡ counted.end + N * words * times }
    // The bytes are as before. Each byte of the words that are counted here is counted as read once.
    ensures bytes { stored.new.bytes ≡ stored.old.bytes }
    ensures reads { stored.new.reads ≡ stored.old.reads + N * words * times }
{
    if times == 0 {
        return counted;
    }
    OnesUpTo {
        ones: counted.ones + ones_in_words::<T, N>(stored, counted.end, words),
        end: counted.end + N * words,
    }
}

/// Returns how many bits of the `words` words of `N` bytes from byte `first` on are set.
#[inline(always)]
fn ones_in_words<T: BitChunk, const N: usize>(
    stored: &mut Stored<'_>,
    first: usize,
    words: usize,
) -> usize
    // The words are inside the bytes, and neither the index of their end nor the number of their bits overflows.
    requires width { T.WIDTH ≡ 8 * N }
    requires fits { first + N * words < 2 ^ 64 }
    requires few { 8 * (N * words) < 2 ^ 64 }
    requires inside { first + N * words ≤ length stored.old.bytes }
    // The set bits and the unset bits are all bits.
    ensures ones { result + falses (part (bits stored.old.bytes) (8 * first) (8 * (N * words)))
        ≡ 8 * (N * words) }
    // The bytes are as before. Each byte of the words that are counted here is counted as read once.
    ensures bytes { stored.new.bytes ≡ stored.old.bytes }
    ensures reads { stored.new.reads ≡ stored.old.reads + N * words }
{
    let mut ones = 0usize;
    for i in 0..words {
        ones += T::from_ne_slice(&stored.fetch::<N>(first + N * i)).ones_count();
    }
    ones
}
