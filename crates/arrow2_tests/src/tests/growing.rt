//! Growth by many items at once.
ghost use Rattle.std.specs.Prelude.{◌+◌, ◌*◌, ◌≤◌, length};

use super::checks::{assert_that, bytes_of, gives, has, ok, overflows, shows, stores};
use arrow2_bitmap::{Bitmap, MutableBitmap};
use arrow2_walks::SlicesIterator;
use std::alloc::Global;
use std::convert::TryFrom;
use std::process::Abort;

/// The bitmap of the items.
fn grown_from(rt: &impl Abort, alloc: Global, items: &[bool]) -> MutableBitmap {
    ok(rt, MutableBitmap::from_bools(alloc, items))
}

/// Appends bits of the bytes from bit `offset` on to the items.
fn extend(
    rt: &impl Abort,
    alloc: Global,
    items: &[bool],
    bytes: &[u8],
    offset: usize,
    len: usize,
) -> MutableBitmap
    requires inside { offset + len ≤ 8 * length bytes.now }
{
    let mut grown = grown_from(rt, alloc, items);
    ok(rt, grown.extend_from_slice(bytes, offset, len));
    grown
}

/// Appends booleans to the items.
fn extend_by_bools(
    rt: &impl Abort,
    alloc: Global,
    items: &[bool],
    bools: &[bool],
) -> MutableBitmap {
    let mut grown = grown_from(rt, alloc, items);
    ok(rt, grown.extend_from_bools(bools));
    grown
}

/// Freezes the bitmap, and checks its length, its number of false items, and its runs.
fn has_runs(
    rt: &impl Abort,
    alloc: Global,
    grown: MutableBitmap,
    [length, falses]: [usize; 2],
    runs: &[(usize, usize)],
) {
    let frozen = ok(rt, Bitmap::try_from(grown));
    assert_that(rt, frozen.len() == length);
    assert_that(rt, frozen.unset_bits() == falses);
    gives(rt, alloc, SlicesIterator::new(&frozen), runs);
}

#[test]
fn bits_and_words_are_appended_within_a_byte(rt: HostRuntime) {
    let alloc = rt.alloc();
    let slice = [0b10110110, 0b01011011];
    let grown = extend(&rt, alloc, &[true, false, true], &slice, 3, 10);
    let items = [
        true, false, true, false, true, true, false, true, true, true, false, true, true,
    ];
    gives(&rt, alloc, grown.iter(), &items);
    shows(&rt, alloc, &grown, "[0b10110101, 0b___11011]");
    let grown = extend(&rt, alloc, &[false; 5], &[255; 20], 3, 150);
    has_runs(&rt, alloc, grown, [155, 5], &[(5, 150)]);
}

#[test]
fn booleans_are_appended_by_words_and_a_rest(rt: HostRuntime) {
    let alloc = rt.alloc();
    let grown = extend_by_bools(&rt, alloc, &[true; 3], &[false, true]);
    shows(&rt, alloc, &grown, "[0b___10111]");
    let grown = extend_by_bools(&rt, alloc, &[false; 5], &[true; 150]);
    has_runs(&rt, alloc, grown, [155, 5], &[(5, 150)]);
    let grown = extend_by_bools(&rt, alloc, &[false; 64], &[true; 128]);
    has_runs(&rt, alloc, grown, [192, 64], &[(64, 128)]);
    let grown = extend_by_bools(&rt, alloc, &[true; 9], &[]);
    has_runs(&rt, alloc, grown, [9, 0], &[(0, 9)]);
}

#[test]
fn a_value_is_appended_after_spare_bits(rt: HostRuntime) {
    let mut grown = MutableBitmap::from_vec(bytes_of(&rt, rt.alloc(), &[85, 255, 255]), 12);
    ok(&rt, grown.extend_constant(4, false));
    let frozen = ok(&rt, Bitmap::try_from(grown));
    let (storage, offset, length) = frozen.as_slice();
    has(&rt, storage, &[85, 15]);
    has(&rt, &[offset, length], &[0, 16]);
}

#[test]
fn capacity_is_reserved_and_given_back(rt: HostRuntime) {
    let mut grown = grown_from(&rt, rt.alloc(), &[true; 3]);
    ok(&rt, grown.reserve(1000));
    assert_that(&rt, grown.capacity() >= 1003);
    ok(&rt, grown.shrink_to_fit());
    assert_that(&rt, grown.capacity() < 1003);
    overflows(&rt, grown.reserve(usize::MAX - 2));
    overflows(&rt, grown.extend_constant(usize::MAX, true));
    stores(&rt, Ok(grown), &[7]);
}

/// Checks whether the items have a validity: where one of them is false.
fn has_validity(rt: &impl Abort, alloc: Global, items: &[bool], is_there: bool) {
    let validity = grown_from(rt, alloc, items).into_validity();
    match ok(rt, validity) {
        Some(validity) => {
            assert_that(rt, is_there);
            gives(rt, alloc, validity.iter(), items);
        }
        None => assert_that(rt, !is_there),
    }
}

#[test]
fn a_validity_is_there_where_an_item_is_false(rt: HostRuntime) {
    let alloc = rt.alloc();
    has_validity(&rt, alloc, &[], false);
    has_validity(&rt, alloc, &[true], false);
    has_validity(&rt, alloc, &[true; 9], false);
    has_validity(&rt, alloc, &[true, false], true);
}
