//! Worked examples of whole numbers, and each call once.
ghost use Rattle.std.specs.Prelude.{◌≤◌};

use super::checks::{has, ok};
use arrow2_index::{Index, IndexRange, OffsetNumber};
use std::alloc::Global;
use std::process::Abort;

/// The numbers of a range, by the bound alone.
fn numbers<I: Index>(rt: &impl Abort, alloc: Global, start: usize, end: usize) -> Vec<I>
    requires { start ≤ end }
{
    let range = I::range(start, end).expect(rt, "the range fits");
    ok(rt, range.collect(alloc))
}

#[test]
fn numbers_are_converted_where_they_fit(rt: HostRuntime) {
    let converted = [i8::from_usize(127), i8::from_usize(128)];
    has(&rt, &converted, &[Some(127), None]);
    let large = [i32::IS_LARGE, i64::IS_LARGE, u8::range(250, 256).is_some()];
    has(&rt, &large, &[false, true, false]);
    let nine = usize::from(u16::from_as_usize(9));
    has(&rt, &[7i32.to_usize(), nine], &[7, 9]);
    let greatest = [<i32 as OffsetNumber>::MAX, <i64 as OffsetNumber>::MAX];
    has(&rt, &greatest, &[2147483647, 9223372036854775807]);
}

#[test]
fn ranges_are_iterated_forward(rt: HostRuntime) {
    let three: Vec<i8> = numbers(&rt, rt.alloc(), 0, 3);
    has(&rt, three.as_slice(), &[0, 1, 2]);
    let hint = IndexRange::new(-100i8, 100).size_hint();
    has(&rt, &[hint], &[(200, Some(200))]);
    let hint = IndexRange::new(250u8, 255).size_hint();
    has(&rt, &[hint], &[(5, Some(5))]);
    let hint = IndexRange::new(i64::MIN, i64::MAX).size_hint();
    has(&rt, &[hint], &[(usize::MAX, Some(usize::MAX))]);
}
