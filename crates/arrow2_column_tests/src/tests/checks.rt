//! Checks of what calls returned, each proved once.
ghost use Rattle.std.specs.Prelude.{◌≡◌, Ok, IsTrue};

use arrow2::array::{BooleanArray, PrimitiveArray};
use arrow2::error::Error;
use std::alloc::{AllocError, Global};
use std::fmt::Debug;
use std::process::Abort;

/// Checks a fact.
pub(super) fn assert_that(rt: &impl Abort, fact: bool)
    ensures { IsTrue fact }
{
    assert!(rt; fact);
}

/// Returns the value of a call that succeeded.
pub(super) fn ok<T, E: Debug>(rt: &impl Abort, call: Result<T, E>) -> T
    ensures { call ≡ Ok result }
{
    call.expect(rt, "memory")
}

/// Checks that a list was made, of these items.
pub(super) fn assert_list<T: PartialEq + Drop>(
    rt: &impl Abort,
    call: Result<Vec<T>, AllocError>,
    items: &[T],
) {
    assert_that(rt, ok(rt, call).as_slice() == items);
}

/// Checks that an array of numbers was made, of these items.
pub(super) fn assert_array(
    rt: &impl Abort,
    alloc: Global,
    call: Result<PrimitiveArray<i64>, Error>,
    items: &[Option<i64>],
) {
    let array = ok(rt, call);
    assert_list(rt, array.iter().collect(alloc), items);
}

/// Checks that a boolean array was made, of these items.
pub(super) fn assert_booleans(
    rt: &impl Abort,
    alloc: Global,
    call: Result<BooleanArray, Error>,
    items: &[Option<bool>],
) {
    let array = ok(rt, call);
    assert_list(rt, array.iter().collect(alloc), items);
}

/// Checks a text that was made.
pub(super) fn assert_text(rt: &impl Abort, call: Result<String, AllocError>, text: &str) {
    assert_that(rt, ok(rt, call).as_str() == text);
}

/// Checks that a value prints as this.
pub(super) fn assert_prints<T: Debug>(rt: &impl Abort, alloc: Global, value: &T, text: &str) {
    assert_text(rt, format!(in alloc; "{value:?}"), text);
}

/// Checks that a value was made, which prints as this.
pub(super) fn assert_made<T: Debug + Drop>(
    rt: &impl Abort,
    alloc: Global,
    call: Result<T, Error>,
    text: &str,
) {
    assert_prints(rt, alloc, &ok(rt, call), text);
}

/// Checks whether two values are equal, both ways.
pub(super) fn assert_compares<T: PartialEq>(rt: &impl Abort, value: &T, other: &T, equal: bool) {
    assert_that(rt, (value == other) == equal);
    assert_that(rt, (other == value) == equal);
}
