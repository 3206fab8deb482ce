//! Buffers as their callers see them: sharing, writing through a loan, and printed texts.
ghost use Rattle.std.specs.Prelude.{◌≡◌, length, replicate, IfOk};
ghost use Rattle.std.specs.Bool.{OnTrue, OnFalse};
ghost use Rattle.arrow2_model.specs.Lists.{buffer_items, whole_buffer};

use super::checks::{assert_that, has, left_value, ok, right, shows};
use arrow2_buffer::laws::{slice_of_a_slice, written_items_are_the_items};
use arrow2_buffer::{Buffer, Bytes, IntoIter};
use arrow2_types::{Error, Result};
use std::alloc::Global;
use std::convert::TryFrom;
use std::process::Abort;

/// A buffer of the items, in memory of its own.
fn buffer_of(rt: &impl Abort, alloc: Global, items: &[u32]) -> Buffer<u32>
    ensures { result ≡ whole_buffer items.now }
{
    let items = ok(rt, items.to_vec(alloc));
    ok(rt, Buffer::try_from(items))
}

/// Every item, set to `value`.
fn set_all(items: &mut [u32], value: u32)
    ensures { items.new ≡ replicate (length items.old) value }
{
    items.fill(value);
}

/// A fact for a caller of `change_slice`: every item after the change.
fn overwrite(buffer: &mut Buffer<u32>, value: u32) -> bool
    ensures set { OnTrue result
        (buffer_items buffer.new ≡ replicate (length (buffer_items buffer.old)) value) }
    ensures same { OnFalse result (buffer.new ≡ buffer.old) }
{
    buffer.change_slice(|items| set_all(items, value))
}

#[test]
fn a_slice_shares_its_storage(rt: HostRuntime) {
    let alloc = rt.alloc();
    let whole = buffer_of(&rt, alloc, &[1, 2, 3]);
    let mut part = ok(&rt, whole.clone());
    part.slice(1, 1);
    has(&rt, whole.as_slice(), &[1, 2, 3]);
    has(&rt, part.as_slice(), &[2]);
    has(&rt, &[whole.iter().len(), part.offset()], &[3, 1]);
    has(&rt, &[part.is_sliced(), whole.is_sliced()], &[true, false]);
    has(&rt, &[part[0]], &[2]);
    shows(&rt, alloc, &part, "[2]");
    let (storage, offset, length) = part.into_inner();
    has(&rt, storage.as_slice(), &[1, 2, 3]);
    has(&rt, &[offset, length], &[1, 1]);
}

#[test]
fn an_unshared_whole_gives_its_vector(rt: HostRuntime) {
    let alloc = rt.alloc();
    let whole = buffer_of(&rt, alloc, &[1, 2, 3]).sliced(0, 3).into_mut();
    has(&rt, right(&rt, whole).as_slice(), &[1, 2, 3]);
    let part = buffer_of(&rt, alloc, &[1, 2, 3]).sliced(1, 2).into_mut();
    has(&rt, left_value(&rt, part).as_slice(), &[2, 3]);
    let whole = buffer_of(&rt, alloc, &[1, 2, 3]);
    let shared = ok(&rt, whole.clone());
    assert_that(&rt, whole.into_mut().is_left());
    assert_that(&rt, shared.into_mut().is_right());
}

#[test]
fn only_an_unshared_buffer_is_written(rt: HostRuntime) {
    let alloc = rt.alloc();
    let mut part = buffer_of(&rt, alloc, &[1, 2, 3]).sliced(1, 2);
    part.get_mut_slice().expect(&rt, "it is not shared")[0] = 9;
    has(&rt, part.as_slice(), &[9, 3]);
    let shared = ok(&rt, part.clone());
    assert_that(&rt, part.get_mut_slice().is_none());
    assert_that(&rt, !overwrite(&mut part, 7));
    has(&rt, shared.as_slice(), &[9, 3]);
    drop(shared);
    assert_that(&rt, overwrite(&mut part, 7));
    let (storage, _, _) = part.into_inner();
    has(&rt, storage.as_slice(), &[1, 7, 7]);
    written_items_are_the_items::<u32>();
    slice_of_a_slice::<u32>();
}

/// Shows a fact for a caller of `try_from_iter`: the items of the iterator.
fn collect_items(alloc: Global, chunks: IntoIter<u32>) -> Result<Buffer<u32>>
    ensures { IfOk result (λ buffer. buffer ≡ whole_buffer chunks) }
{
    Buffer::try_from_iter(alloc, chunks)
}

/// Checks that the call made a buffer of these items.
fn has_items(rt: &impl Abort, made: Result<Buffer<u32>>, items: &[u32]) {
    has(rt, ok(rt, made).as_slice(), items);
}

#[test]
fn an_iterator_yields_each_item_once(rt: HostRuntime) {
    let alloc = rt.alloc();
    let mut chunks = IntoIter::new(buffer_of(&rt, alloc, &[1, 2, 3, 4]));
    has(
        &rt,
        &[chunks.next(), chunks.next_back()],
        &[Some(1), Some(4)],
    );
    has(&rt, &[chunks.size_hint()], &[(2, Some(2))]);
    let text = "IntoIter { values: [1, 2, 3, 4], index: 1, end: 3 }";
    shows(&rt, alloc, &chunks, text);
    let copy = ok(&rt, chunks.clone());
    has_items(&rt, collect_items(alloc, copy), &[2, 3]);
    has(
        &rt,
        &[chunks.nth(usize::MAX), chunks.next_back()],
        &[None; 2],
    );
    let mut chunks = buffer_of(&rt, alloc, &[1, 2, 3]).into_iter();
    let ended = [
        chunks.next(),
        chunks.nth(usize::MAX),
        chunks.next(),
        chunks.next_back(),
    ];
    has(&rt, &ended, &[Some(1), None, None, None]);
}

/// The bounds alone, as generic callers have them.
fn is_cloned<B: TryFrom<Vec<u32>, Error = Error> + Clone + PartialEq>(
    rt: &impl Abort,
    items: Vec<u32>,
) -> B {
    let made = ok(rt, B::try_from(items));
    assert_that(rt, ok(rt, made.clone()) == made);
    made
}

#[test]
fn buffers_are_made_and_taken_apart(rt: HostRuntime) {
    let alloc = rt.alloc();
    let empty: Buffer<u32> = ok(&rt, Buffer::new(alloc));
    assert_that(&rt, empty.is_empty());
    let items = ok(&rt, [1, 2, 3].to_vec(alloc));
    let buffer: Buffer<u32> = is_cloned(&rt, items);
    let backward = ok(&rt, Vec::from_iter(alloc, buffer.into_iter().rev()));
    has(&rt, Bytes::from(backward).into_vec().as_slice(), &[3, 2, 1]);
}
