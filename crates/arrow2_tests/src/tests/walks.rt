//! Runs of set bits, and values with their validity.
ghost use Rattle.std.specs.Prelude.{◌≡◌, length};

use super::checks::{assert_that, bitmap_from, gives, has, ok, shows};
use arrow2_bitmap::Bitmap;
use arrow2_bits::BitmapIter;
use arrow2_walks::{SlicesIterator, ZipValidity, ZipValidityIter, laws};
use std::alloc::Global;
use std::iter::Copied;
use std::process::Abort;
use std::slice::Iter;

/// The bitmap of `len` bits of the bytes, from bit `offset` on.
fn bitmap_of(rt: &impl Abort, alloc: Global, bytes: &[u8], offset: usize, len: usize) -> Bitmap {
    let bytes = ok(rt, bytes.to_vec(alloc));
    let whole = offset.checked_add(len).expect(rt, "few bits");
    let bitmap = ok(rt, Bitmap::try_new(bytes, whole));
    bitmap.sliced(offset, len)
}

/// Checks that the `len` bits from bit `offset` of the bytes on have these runs, and the same number of set bits in
/// all.
fn bits_have_runs(
    rt: &impl Abort,
    alloc: Global,
    (bytes, offset, len): (&[u8], usize, usize),
    runs: &[(usize, usize)],
    slots: usize,
) {
    let bitmap = bitmap_of(rt, alloc, bytes, offset, len);
    let items = SlicesIterator::new(&bitmap);
    assert_that(rt, items.slots() == slots);
    gives(rt, alloc, items, runs);
}

#[test]
fn runs_are_maximal_wherever_they_lie(rt: HostRuntime) {
    let alloc = rt.alloc();
    bits_have_runs(&rt, alloc, (&[0b00101111], 0, 8), &[(0, 4), (5, 1)], 5);
    bits_have_runs(&rt, alloc, (&[0xff; 3], 5, 16), &[(0, 16)], 16);
    bits_have_runs(&rt, alloc, (&[], 0, 0), &[], 0);
    bits_have_runs(&rt, alloc, (&[0xff; 20], 3, 150), &[(0, 150)], 150);
}

/// The values that have a validity.
const VALUES: [u32; 4] = [1, 2, 3, 4];

/// Values in turn.
type Values<'a> = Copied<Iter<'a, u32>>;

/// Values with the items of a bitmap.
type Zip<'a> = ZipValidity<Values<'a>, BitmapIter<'a>>;

/// Checks that values with their validity are these items, without nulls where that is all true.
fn values_come(
    rt: &impl Abort,
    alloc: Global,
    validity: &[bool],
    items: &[Option<u32>],
    required: bool,
) {
    let validity = bitmap_from(rt, alloc, validity);
    assert_that(rt, validity.len() == 3);
    let zip = ZipValidity::new_with_validity(VALUES[..3].iter().copied(), Some(&validity));
    assert_that(rt, matches!(&zip, ZipValidity::Required(_)) == required);
    assert_that(rt, zip.len() == 3);
    has(rt, &[zip.size_hint()], &[(3, Some(3))]);
    gives(rt, alloc, zip, items);
}

#[test]
fn values_are_paired_with_their_validity(rt: HostRuntime) {
    let alloc = rt.alloc();
    let validity = [true, false, true];
    values_come(&rt, alloc, &validity, &[Some(1), None, Some(3)], false);
    let items = [Some(1), Some(2), Some(3)];
    values_come(&rt, alloc, &[true; 3], &items, true);
    let validity = bitmap_from(&rt, alloc, &[true; 3]);
    assert_that(&rt, validity.len() == 3);
    let mut zip = ZipValidity::new_with_validity(VALUES[..3].iter().copied(), Some(&validity));
    let given = [zip.next(), zip.nth(usize::MAX), zip.next(), zip.next_back()];
    has(&rt, &given, &[Some(Some(1)), None, None, None]);
}

#[test]
fn derived_texts_name_the_parts(rt: HostRuntime) {
    let alloc = rt.alloc();
    let validity = bitmap_from(&rt, alloc, &[true, false]);
    assert_that(&rt, validity.len() == 2);
    let runs = SlicesIterator::new(&validity);
    let text =
        "SlicesIterator { bytes: [1], offset: 0, end: 2, cursor: BitCursor { index: 0, word: 0, buffered: 0 }, slots: 1 }";
    shows(&rt, alloc, &runs, text);
    let values = [1u32, 2];
    let zip = ZipValidity::new_with_validity(values.iter().copied(), Some(&validity));
    let text =
        "Optional(ZipValidityIter { values: Copied { it: Iter([1, 2]) }, validity: BitmapIter { bytes: [1], offset: 0, index: 0, end: 2 } })";
    shows(&rt, alloc, &zip, text);
    let required: Zip = ZipValidity::new(values.iter().copied(), None);
    let text = "Required(Copied { it: Iter([1, 2]) })";
    shows(&rt, alloc, &required, text);
    has(&rt, &[required.unwrap_required().next()], &[Some(1)]);
}

#[test]
fn a_zip_is_iterated_from_both_ends(rt: HostRuntime) {
    let alloc = rt.alloc();
    let validity = bitmap_from(&rt, alloc, &[true, false, true, true]);
    assert_that(&rt, validity.len() == 4);
    let zip = ZipValidityIter::new(VALUES.iter().copied(), validity.iter());
    let mut zip = ok(&rt, zip.clone());
    let given = [zip.nth(1), zip.next_back(), zip.next()];
    has(&rt, &given, &[Some(None), Some(Some(4)), Some(Some(3))]);
    has(&rt, &[zip.next()], &[None]);
    let mut zip = ZipValidity::new(VALUES.iter().copied(), Some(validity.iter()));
    has(&rt, &[zip.next_back()], &[Some(Some(4))]);
    let mut both = zip.unwrap_optional();
    has(
        &rt,
        &[both.next(), both.next()],
        &[Some(Some(1)), Some(None)],
    );
    laws::a_zip_yields_its_slots::<Values, BitmapIter, u32>();
    laws::a_zip_with_or_without_validity_yields_its_slots::<Values, BitmapIter, u32>();
}
