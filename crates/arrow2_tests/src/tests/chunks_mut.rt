//! Chunks that are lent to be written, and the lender's bytes afterwards.
ghost use Rattle.std.specs.Prelude.{◌≡◌, ◌≤◌, length, replicate};
ghost use Rattle.std.specs.Bool.{OnTrue};
ghost use Rattle.arrow2_bits.specs.ChunksMut.{past};

use super::checks::{assert_that, has, shows};
use arrow2_bits::BitChunksExactMut;
use std::process::Abort;

/// The values, written over the first bytes of the chunk.
fn write(chunk: &mut [u8], values: &[u8]) {
    for (byte, value) in chunk.iter_mut().zip(values) {
        *byte = *value;
    }
}

/// Every byte set to 0.
fn clear(bytes: &mut [u8])
    ensures { bytes.new ≡ replicate (length bytes.old) 0 }
{
    bytes.fill(0);
}

/// Sets the next chunk to zeros. The caller knows all of the iterator afterwards.
fn clear_next<T>(chunks: &mut BitChunksExactMut<'_, T>) -> bool
    ensures { OnTrue result (chunks.new ≡ past chunks.old chunks.old.size (replicate chunks.old.size 0)) }
{
    chunks.change_next(|chunk| clear(chunk))
}

/// Iterates over the first five bytes by chunks of two bytes. The fifth byte is the remainder.
fn iterator_over(bytes: &mut [u8]) -> BitChunksExactMut<'_, u16>
    requires { 5 ≤ length bytes.old }
{
    BitChunksExactMut::new(bytes, 35)
}

/// A chunk that was lent has these bytes, and is written.
fn is_written(rt: &impl Abort, lent: Option<&mut [u8]>, before: &[u8], values: &[u8]) {
    let chunk = lent.expect(rt, "a chunk");
    has(rt, chunk, before);
    write(chunk, values);
}

/// Bytes written to the chunks that `next_chunk` lends are in the bytes afterwards.
fn writes_next_chunks(rt: &impl Abort, first: &[u8], second: &[u8], after: &[u8]) {
    let mut bytes = [1, 2, 3, 4, 5, 6, 7];
    let mut chunks = iterator_over(&mut bytes);
    is_written(rt, chunks.next_chunk(), &[1, 2], first);
    is_written(rt, chunks.next_chunk(), &[3, 4], second);
    assert_that(rt, chunks.next_chunk().is_none());
    assert_that(rt, chunks.remainder_len() == 3);
    has(rt, chunks.remainder(), &[5]);
    has(rt, &bytes, after);
}

/// The same, by `change_next`.
fn changes_next(rt: &impl Abort, first: &[u8], second: &[u8], after: &[u8]) {
    let mut bytes = [1, 2, 3, 4, 5, 6, 7];
    let mut chunks = iterator_over(&mut bytes);
    assert_that(rt, chunks.change_next(|chunk| write(chunk, first)));
    assert_that(rt, chunks.change_next(|chunk| write(chunk, second)));
    assert_that(rt, !clear_next(&mut chunks));
    has(rt, &bytes, after);
}

/// The same, by the iterator.
fn writes_iterated(rt: &impl Abort, first: &[u8], second: &[u8], after: &[u8]) {
    let mut bytes = [1, 2, 3, 4, 5, 6, 7];
    let mut chunks = iterator_over(&mut bytes);
    has(rt, &[chunks.size_hint()], &[(2, Some(2))]);
    is_written(rt, chunks.next(), &[1, 2], first);
    is_written(rt, chunks.next(), &[3, 4], second);
    assert_that(rt, chunks.next().is_none());
    has(rt, &[chunks.remainder_len()], &[3]);
    has(rt, chunks.remainder(), &[5]);
    has(rt, &bytes, after);
}

/// The same, over five bytes: by `next_chunk`, and by the iterator over fresh bytes.
fn writes_whole_bytes(rt: &impl Abort, first: &[u8], second: &[u8], after: &[u8]) {
    let mut bytes = [1, 2, 3, 4, 5];
    let mut chunks = iterator_over(&mut bytes);
    is_written(rt, chunks.next_chunk(), &[1, 2], first);
    is_written(rt, chunks.next_chunk(), &[3, 4], second);
    assert_that(rt, chunks.next_chunk().is_none());
    has(rt, &[chunks.remainder_len()], &[3]);
    has(rt, chunks.remainder(), &[5]);
    has(rt, &bytes, after);
    let mut fresh = [1, 2, 3, 4, 5];
    let mut chunks = iterator_over(&mut fresh);
    is_written(rt, chunks.next(), &[1, 2], first);
    is_written(rt, chunks.next(), &[3, 4], second);
    assert_that(rt, chunks.next().is_none());
    has(rt, chunks.remainder(), &[5]);
    has(rt, &fresh, after);
}

/// The same, by `change_next` and then by the iterator.
fn changes_then_writes(rt: &impl Abort, first: &[u8], second: &[u8], after: &[u8]) {
    let mut bytes = [1, 2, 3, 4, 5, 6, 7];
    let mut chunks = iterator_over(&mut bytes);
    assert_that(rt, chunks.change_next(|chunk| write(chunk, first)));
    is_written(rt, chunks.next(), &[3, 4], second);
    assert_that(rt, chunks.next().is_none());
    has(rt, &bytes, after);
}

#[test]
fn chunks_are_lent_to_be_written(rt: HostRuntime) {
    let after = &[7, 8, 9, 9, 5, 6, 7];
    writes_next_chunks(&rt, &[7, 8], &[9, 9], after);
    changes_next(&rt, &[7, 8], &[9, 9], after);
    writes_iterated(&rt, &[7, 8], &[9, 9], after);
    changes_then_writes(&rt, &[7, 8], &[9, 9], after);
    let after = &[0, 0, 3, 4, 5, 6, 7];
    writes_next_chunks(&rt, &[0, 0], &[3, 4], after);
    changes_next(&rt, &[0, 0], &[3, 4], after);
    writes_iterated(&rt, &[0, 0], &[3, 4], after);
    writes_whole_bytes(&rt, &[0, 0], &[3, 4], &[0, 0, 3, 4, 5]);
}

#[test]
fn an_iterator_shows_its_bytes_and_its_position(rt: HostRuntime) {
    let mut bytes = [1, 2, 3, 4, 5, 6, 7];
    let mut chunks = iterator_over(&mut bytes);
    assert_that(&rt, clear_next(&mut chunks));
    chunks.remainder().fill(9);
    let text =
        "BitChunksExactMut { bytes: [0, 0, 3, 4], at: 2, size: 2, remainder: [9], remainder_len: 3, marker: PhantomData<_> }";
    shows(&rt, rt.alloc(), &chunks, text);
    has(&rt, &bytes, &[0, 0, 3, 4, 9, 6, 7]);
}

#[test]
fn no_bits_have_no_chunk(rt: HostRuntime) {
    let mut bytes = [1, 2];
    let mut chunks = BitChunksExactMut::<u16>::new(&mut bytes, 0);
    assert_that(&rt, chunks.next_chunk().is_none());
    has(&rt, chunks.remainder(), &[]);
    has(&rt, &bytes, &[1, 2]);
}
