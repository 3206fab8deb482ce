//! Offsets as their callers see them: worked examples, texts of errors, and calls that no command of a script makes.
use super::checks::{assert_that, gives, has, left_value, ok, overflows, rejects, right};
use arrow2_buffer::Buffer;
use arrow2_offset::{Offsets, OffsetsBuffer};
use arrow2_types::Result;
use either::Either;
use std::alloc::Global;
use std::process::Abort;

/// Offsets that begin at 0.
fn offsets_of_lengths(rt: &impl Abort, alloc: Global, lengths: &[usize]) -> Offsets<i64> {
    ok(
        rt,
        Offsets::try_from_lengths(alloc, lengths.iter().copied()),
    )
}

/// Offsets with these items.
fn of(rt: &impl Abort, alloc: Global, items: &[i32]) -> Offsets<i32> {
    let items = ok(rt, items.to_vec(alloc));
    ok(rt, Offsets::try_from(items))
}

/// The same, shared.
fn shared_offsets(rt: &impl Abort, alloc: Global, items: &[i32]) -> OffsetsBuffer<i32> {
    ok(rt, OffsetsBuffer::try_from(of(rt, alloc, items)))
}

/// The call made these offsets.
pub(super) fn makes(rt: &impl Abort, made: Result<Offsets<i64>>, items: &[i64]) {
    let vector = ok(rt, made).into_inner();
    has(rt, vector.as_slice(), items);
}

#[test]
fn growing_offsets_are_read(rt: HostRuntime) {
    let offsets = offsets_of_lengths(&rt, rt.alloc(), &[3, 4, 1, 2]);
    assert_that(&rt, offsets.len() == 5);
    assert_that(&rt, offsets.len_proxy() == 4);
    has(&rt, &[*offsets.last(), offsets[1]], &[10, 3]);
    has(&rt, &[offsets.start_end(1)], &[(3, 7)]);
}

/// Shared offsets have these lengths.
fn gives_lengths(rt: &impl Abort, alloc: Global, offsets: &OffsetsBuffer<i32>, lengths: &[usize]) {
    gives(rt, alloc, offsets.lengths(), lengths);
    assert_that(rt, offsets.lengths().len() == lengths.len());
}

/// Offsets of three lengths are read.
fn is_read(rt: &impl Abort, alloc: Global, whole: &OffsetsBuffer<i32>) {
    assert_that(rt, whole.len() == 4);
    gives_lengths(rt, alloc, whole, &[3, 0, 4]);
    has(rt, &[*whole.first(), *whole.last(), whole[1]], &[5, 12, 8]);
    has(rt, &[whole.range()], &[7]);
    has(rt, &[whole.start_end(1)], &[(8, 8)]);
}

/// The lengths of these offsets come from both ends.
fn ends_in(rt: &impl Abort, offsets: &OffsetsBuffer<i32>, ends: &[Option<usize>]) {
    let mut lengths = ok(rt, offsets.lengths().clone());
    has(rt, &[lengths.next_back(), lengths.next()], ends);
}

/// Offsets are made of the buffer of others, and taken apart.
fn is_taken_apart(rt: &impl Abort, offsets: OffsetsBuffer<i32>, items: &[i32]) {
    let buffer = ok(rt, offsets.buffer().clone());
    let made: OffsetsBuffer<i32> = ok(rt, OffsetsBuffer::try_from(buffer));
    has(rt, made.as_slice(), items);
    has(rt, offsets.into_inner().as_slice(), items);
}

#[test]
fn shared_offsets_are_read_and_sliced(rt: HostRuntime) {
    let alloc = rt.alloc();
    let mut whole = shared_offsets(&rt, alloc, &[5, 8, 8, 12]);
    is_read(&rt, alloc, &whole);
    assert_that(&rt, whole.len() == 4);
    whole.slice(1, 3);
    ends_in(&rt, &whole, &[Some(4), Some(0)]);
    gives_lengths(&rt, alloc, &whole.sliced(0, 2), &[0]);
    is_taken_apart(&rt, shared_offsets(&rt, alloc, &[5, 8]), &[5, 8]);
}

/// The offsets that could not be taken back are these.
fn stays(rt: &impl Abort, given: Either<OffsetsBuffer<i32>, Offsets<i32>>, items: &[i32]) {
    let left = left_value(rt, given);
    has(rt, left.as_slice(), items);
    assert_that(rt, left.len_proxy() + 1 == items.len());
}

#[test]
fn shared_offsets_are_taken_back_where_nothing_is_sliced_off(rt: HostRuntime) {
    let alloc = rt.alloc();
    let mut part = shared_offsets(&rt, alloc, &[5, 8, 8, 12]);
    assert_that(&rt, part.len() == 4);
    part.slice(1, 2);
    stays(&rt, part.into_mut(), &[8, 8]);
    let whole = shared_offsets(&rt, alloc, &[5, 8, 8, 12]);
    let other = ok(&rt, whole.clone());
    stays(&rt, whole.into_mut(), &[5, 8, 8, 12]);
    let taken = right(&rt, other.into_mut());
    has(&rt, taken.as_slice(), &[5, 8, 8, 12]);
}

/// Offsets grow by the lengths of others, growing, to these.
fn grow_by_others(rt: &impl Abort, mut own: Offsets<i32>, other: &Offsets<i32>, wanted: &[i32]) {
    ok(rt, own.try_extend_from_self(other));
    assert_that(rt, own != *other);
    has(rt, own.as_slice(), wanted);
}

/// Offsets grow by `length` lengths of others, shared, from length `start` on, to these.
fn grow_by_a_part(
    rt: &impl Abort,
    mut own: Offsets<i32>,
    other: OffsetsBuffer<i32>,
    (start, length): (usize, usize),
    wanted: &[i32],
) {
    assert_that(rt, other.len() > length);
    assert_that(rt, start < other.len() - length);
    ok(rt, own.try_extend_from_slice(&other, start, length));
    has(rt, own.as_slice(), wanted);
}

#[test]
fn growth_by_others_and_by_empty_slots(rt: HostRuntime) {
    let alloc = rt.alloc();
    let other = of(&rt, alloc, &[5, 8, 8]);
    grow_by_others(&rt, of(&rt, alloc, &[0, 3]), &other, &[0, 3, 6, 6]);
    let own = of(&rt, alloc, &[0, 2147483644]);
    let other = shared_offsets(&rt, alloc, &[0, 5, 7]);
    grow_by_a_part(&rt, own, other, (1, 1), &[0, 2147483644, 2147483646]);
    let wanted = [7; 2001];
    let other = of(&rt, alloc, &[5; 2001]);
    grow_by_others(&rt, of(&rt, alloc, &[7]), &other, &wanted);
    let other = shared_offsets(&rt, alloc, &[5; 2002]);
    grow_by_a_part(&rt, of(&rt, alloc, &[7]), other, (1, 2000), &wanted);
    let mut offsets = of(&rt, alloc, &[0, 3]);
    overflows(&rt, offsets.extend_constant(usize::MAX));
    has(&rt, offsets.as_slice(), &[0, 3]);
    ok(&rt, offsets.extend_constant(2));
    has(&rt, offsets.as_slice(), &[0, 3, 3, 3]);
}

/// Offsets that hold one length, the greatest offset minus 1, grow by 1, and then only by 0.
fn ends_at_its_greatest(rt: &impl Abort, mut large: Offsets<i64>) {
    ok(rt, large.try_push(1));
    overflows(rt, large.try_push(1));
    ok(rt, large.try_push(0));
    let greatest = 9223372036854775807;
    makes(rt, Ok(large), &[0, greatest - 1, greatest, greatest]);
}

#[test]
fn large_offsets_end_at_their_greatest(rt: HostRuntime) {
    let alloc = rt.alloc();
    let mut large = offsets_of_lengths(&rt, alloc, &[]);
    overflows(&rt, large.try_push_usize(9223372036854775808));
    has(&rt, large.as_slice(), &[0]);
    ends_at_its_greatest(&rt, offsets_of_lengths(&rt, alloc, &[9223372036854775806]));
    overflows(&rt, Offsets::<i32>::new_zeroed(alloc, usize::MAX));
    overflows(&rt, Offsets::<i64>::with_capacity(alloc, usize::MAX));
}

/// The numbers are rejected with the text, growing and shared.
fn is_rejected(rt: &impl Abort, alloc: Global, items: &[i32], text: &str) {
    let vector = ok(rt, items.to_vec(alloc));
    rejects(rt, alloc, Offsets::try_from(vector), text);
    let vector = ok(rt, items.to_vec(alloc));
    rejects(rt, alloc, OffsetsBuffer::try_from(vector), text);
    let vector = ok(rt, items.to_vec(alloc));
    let buffer = ok(rt, Buffer::try_from(vector));
    rejects(rt, alloc, OffsetsBuffer::try_from(buffer), text);
}

#[test]
fn what_is_no_offsets_is_rejected_by_the_first_rule(rt: HostRuntime) {
    let alloc = rt.alloc();
    is_rejected(&rt, alloc, &[], "offsets must have at least one element");
    is_rejected(&rt, alloc, &[-1], "offsets must be larger than 0");
    let text = "offsets must be monotonically increasing";
    is_rejected(&rt, alloc, &[2, 1], text);
}

/// Offsets have these items in the greater width, and converted back to the smaller width they are the same again. So
/// are shared offsets.
fn widens(rt: &impl Abort, alloc: Global, narrow: &[i32], wide: &[i64]) {
    let widened = ok(rt, Offsets::<i64>::try_from(of(rt, alloc, narrow)));
    has(rt, widened.as_slice(), wide);
    let narrowed = ok(rt, Offsets::<i32>::try_from(widened));
    has(rt, narrowed.as_slice(), narrow);
    let widened = OffsetsBuffer::<i64>::try_from(&shared_offsets(rt, alloc, narrow));
    let widened = ok(rt, widened);
    has(rt, widened.as_slice(), wide);
    let narrowed = ok(rt, OffsetsBuffer::<i32>::try_from(&widened));
    has(rt, narrowed.as_slice(), narrow);
}

#[test]
fn offsets_widen_and_narrow(rt: HostRuntime) {
    let alloc = rt.alloc();
    widens(&rt, alloc, &[5, 8, 2147483647], &[5, 8, 2147483647]);
    widens(&rt, alloc, &[9; 2000], &[9; 2000]);
    let large = offsets_of_lengths(&rt, alloc, &[2147483648]);
    overflows(&rt, Offsets::<i32>::try_from(large));
    let large = OffsetsBuffer::try_from(offsets_of_lengths(&rt, alloc, &[2147483648]));
    let large = ok(&rt, large);
    overflows(&rt, OffsetsBuffer::<i32>::try_from(&large));
}
