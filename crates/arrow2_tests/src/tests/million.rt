//! Calls that allocate, with a million items, that no command of a script makes.
use super::checks::{assert_that, has, ok};
use arrow2_bitmap::bitmap_ops::{binary, unary};
use arrow2_bitmap::{Bitmap, MutableBitmap};
use arrow2_buffer::Buffer;
use arrow2_offset::Offsets;
use arrow2_types::Result;
use arrow2_walks::Pieces;
use std::alloc::Global;
use std::convert::TryFrom;
use std::process::Abort;

/// Returns the number of items.
const MILLION: usize = 1_000_000;

/// Checks that the call made a million items, and that `falses` of them are false.
fn counts(rt: &impl Abort, made: Result<Bitmap>, falses: usize) {
    let bitmap = ok(rt, made);
    assert_that(rt, bitmap.len() == MILLION);
    assert_that(rt, bitmap.unset_bits() == falses);
}

/// Returns whether 3 does not divide the index.
fn is_between(i: usize) -> bool {
    i % 3 != 0
}

/// A million items, each third one false.
fn thirds(alloc: Global) -> Result<Bitmap> {
    Bitmap::try_from_iter(alloc, (0..MILLION).map(is_between))
}

/// Returns the word with each bit negated.
fn negate(x: u64) -> u64 {
    !x
}

/// Adds the bits of two words without carry.
fn add(x: u64, y: u64) -> u64 {
    x ^ y
}

/// Packs a million false items into bitmaps, in each way.
fn is_packed(rt: &impl Abort, alloc: Global) {
    let list = ok(rt, vec![in alloc; false; MILLION]);
    counts(rt, Bitmap::from_bools(alloc, list.as_slice()), MILLION);
    let grown = MutableBitmap::from_bools(alloc, list.as_slice());
    counts(rt, grown.and_then(Bitmap::try_from), MILLION);
    let mut grown = MutableBitmap::new(alloc);
    ok(rt, grown.extend_from_bools(list.as_slice()));
    counts(rt, Bitmap::try_from(grown), MILLION);
}

#[test]
fn bitmaps_are_packed_and_collected(rt: HostRuntime) {
    let alloc = rt.alloc();
    counts(&rt, thirds(alloc), 333334);
    counts(&rt, Bitmap::new_zeroed(alloc, MILLION), MILLION);
    let grown = MutableBitmap::from_len_set(alloc, MILLION);
    counts(&rt, grown.and_then(Bitmap::try_from), 0);
    is_packed(&rt, alloc);
}

#[test]
fn kernels_make_bitmaps(rt: HostRuntime) {
    let bitmap = ok(&rt, thirds(rt.alloc()));
    counts(&rt, unary(&bitmap, negate), 666666);
    counts(&rt, binary(&bitmap, &bitmap, add), MILLION);
}

/// The call made a million items.
fn has_million(rt: &impl Abort, made: Result<Buffer<usize>>) {
    assert_that(rt, ok(rt, made).len() == MILLION);
}

/// The call made offsets that end there.
fn ends_at(rt: &impl Abort, made: Result<Offsets<i64>>, last: i64) {
    has(rt, &[*ok(rt, made).last()], &[last]);
}

#[test]
fn buffers_and_offsets_are_collected(rt: HostRuntime) {
    let alloc = rt.alloc();
    has_million(&rt, Buffer::try_from_iter(alloc, 0..MILLION));
    let lengths = (0..MILLION).map(|i| i % 3);
    ends_at(&rt, Offsets::try_from_lengths(alloc, lengths), 999999);
}

/// Each item of a bitmap is cut off by itself.
fn cut_apart(rt: &impl Abort, pieces: &mut Pieces, cuts: usize) {
    for p in 0..cuts {
        assert_that(rt, p < pieces.len());
        assert_that(rt, pieces.get(p).len() > 0);
        ok(rt, pieces.cut(p, 1));
    }
}

/// The pieces have one item each.
fn are_single(rt: &impl Abort, pieces: &Pieces, count: usize) {
    assert_that(rt, pieces.len() == count);
    for p in 0..count {
        assert_that(rt, pieces.len() == count);
        assert_that(rt, pieces.get(p).len() == 1);
    }
}

#[test]
fn a_bitmap_is_cut_two_thousand_times(rt: HostRuntime) {
    let zeros = ok(&rt, Bitmap::new_zeroed(rt.alloc(), 2001));
    let mut pieces = ok(&rt, Pieces::new(rt.alloc(), zeros));
    cut_apart(&rt, &mut pieces, 2000);
    are_single(&rt, &pieces, 2001);
}
