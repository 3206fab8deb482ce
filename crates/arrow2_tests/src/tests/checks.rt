//! Checks that many tests need, each proved once.
ghost use Rattle.std.specs.Prelude.{◌≡◌, Ok, IsTrue};
ghost use Rattle.std.specs.Iterator.{IsFinite};
ghost use Rattle.arrow2_model.specs.Lists.{items_of};

use arrow2_bitmap::{Bitmap, MutableBitmap};
use arrow2_types::{Error, NativeType, PrimitiveType, Result};
use either::Either;
use std::alloc::Global;
use std::convert::AsSlice;
use std::fmt::{Debug, Display};
use std::process::Abort;

/// Returns the left value of a call that returned one.
pub(super) fn left_value<L, R: Drop>(rt: &impl Abort, call: Either<L, R>) -> L {
    call.left().expect(rt, "it is whole, and not shared")
}

/// Returns the right value of a call that returned one.
pub(super) fn right<L: Drop, R>(rt: &impl Abort, call: Either<L, R>) -> R {
    call.right().expect(rt, "it is sliced or shared")
}

/// A text, where memory is ample.
pub(super) fn text(rt: &impl Abort, alloc: Global, text: &str) -> String {
    ok(rt, String::from_str(alloc, text))
}

/// Checks a fact.
pub(super) fn assert_that(rt: &impl Abort, fact: bool)
    ensures { IsTrue fact }
{
    assert!(rt; fact);
}

/// Returns the value of a call that succeeded.
pub(super) fn ok<T, E: Debug>(rt: &impl Abort, call: std::result::Result<T, E>) -> T
    ensures { call ≡ Ok result }
{
    call.expect(rt, "no memory")
}

/// A value prints as the text.
pub(super) fn prints(rt: &impl Abort, alloc: Global, value: &impl Display, text: &str) {
    let printed = ok(rt, value.to_string(alloc));
    assert_that(rt, printed.as_str() == text);
}

/// A value prints as the text where it is debugged.
pub(super) fn shows(rt: &impl Abort, alloc: Global, value: &impl Debug, text: &str) {
    let shown = ok(rt, format!(in alloc; "{value:?}"));
    assert_that(rt, shown.as_str() == text);
}

/// The items are these.
pub(super) fn has<T: PartialEq>(rt: &impl Abort, items: &[T], wanted: &[T]) {
    assert_that(rt, items == wanted);
}

/// A bitmap of these items.
pub(super) fn bitmap_from(rt: &impl Abort, alloc: Global, items: &[bool]) -> Bitmap
    ensures { items_of result ≡ items.now }
{
    ok(rt, Bitmap::from_bools(alloc, items))
}

/// The bitmap, to be changed.
pub(super) fn mutable_copy(rt: &impl Abort, bitmap: &Bitmap) -> MutableBitmap
    ensures { result.items ≡ items_of bitmap.now }
{
    let copy = ok(rt, bitmap.clone());
    ok(rt, copy.make_mut())
}

/// An iterator gives the items in this order, and no others.
pub(super) fn gives<T: PartialEq + Drop, I: Iterator<Item = T>>(
    rt: &impl Abort,
    alloc: Global,
    items: I,
    wanted: &[T],
)
    requires next { I.can_next items }
    requires finite { IsFinite (I.remaining items) }
{
    let given: Vec<T> = ok(rt, items.collect(alloc));
    has(rt, given.as_slice(), wanted);
}

/// The call made a bitmap of these items.
pub(super) fn makes(rt: &impl Abort, alloc: Global, made: Result<Bitmap>, items: &[bool]) {
    gives(rt, alloc, ok(rt, made).iter(), items);
}

/// The call made a bitmap that grows, of these bytes.
pub(super) fn stores(rt: &impl Abort, made: Result<MutableBitmap>, bytes: &[u8]) {
    has(rt, ok(rt, made).as_slice(), bytes);
}

/// Returns the error of a call that failed.
pub(super) fn error_of<T: Drop, E>(rt: &impl Abort, call: std::result::Result<T, E>) -> E {
    call.err().expect(rt, "accepted")
}

/// The call failed with the text.
pub(super) fn rejects<T: Drop>(rt: &impl Abort, alloc: Global, made: Result<T>, text: &str) {
    prints(rt, alloc, &error_of(rt, made), text);
}

/// The call returned `Overflow`.
pub(super) fn overflows<T: Drop>(rt: &impl Abort, outcome: Result<T>) {
    assert_that(rt, matches!(outcome, Err(Error::Overflow)));
}

/// The bytes, in memory of their own.
pub(super) fn bytes_of(rt: &impl Abort, alloc: Global, bytes: &[u8]) -> Vec<u8>
    ensures { result.items ≡ bytes.now }
{
    ok(rt, bytes.to_vec(alloc))
}

/// A native value has the name and the bytes in both orders, and is read back from them.
pub(super) fn has_bytes<T: NativeType>(
    rt: &impl Abort,
    value: T,
    name: PrimitiveType,
    little: &[u8],
    big: &[u8],
) {
    let (le, be) = (value.to_le_bytes(), value.to_be_bytes());
    assert_that(rt, T::PRIMITIVE == name);
    assert_that(rt, T::SIZE == little.len());
    has(rt, le.as_slice(), little);
    has(rt, be.as_slice(), big);
    assert_that(rt, T::from_le_bytes(le) == value);
    assert_that(rt, T::from_be_bytes(be) == value);
    assert_that(rt, T::from_le_slice(le.as_slice()) == value);
    assert_that(rt, T::from_be_slice(be.as_slice()) == value);
    assert_that(rt, T::from_le_bytes(T::bytes_of_slice(little)) == value);
}
