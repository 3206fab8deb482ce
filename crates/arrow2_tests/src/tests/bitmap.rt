//! Worked examples of bitmaps, and storage that shows.
ghost use Rattle.std.specs.Prelude.{◌≡◌, IfOk, length};
ghost use Rattle.arrow2_model.specs.Lists.{items_of};

use super::checks::{assert_that, bytes_of, gives, has, makes, ok, rejects, right, shows, stores};
use super::lists;
use arrow2_bitmap::bitmap_ops::unary;
use arrow2_bitmap::{Bitmap, IntoIter, MutableBitmap};
use arrow2_types::Result;
use std::alloc::Global;
use std::convert::TryFrom;
use std::process::Abort;

/// The first `len` bits of the bytes, in memory of its own.
fn bitmap_of(rt: &impl Abort, alloc: Global, bytes: &[u8], len: usize) -> Bitmap
    ensures len { length (items_of result) ≡ len }
{
    ok(rt, Bitmap::try_new(bytes_of(rt, alloc, bytes), len))
}

/// The bitmap without its last item, which was true.
fn without_last(rt: &impl Abort, made: Result<MutableBitmap>) -> Result<MutableBitmap> {
    let mut bitmap = ok(rt, made);
    assert_that(rt, bitmap.pop() == Some(true));
    Ok(bitmap)
}

/// A bitmap has the items, which begin at this bit of the bytes, and prints as the text.
fn is_stored(
    rt: &impl Abort,
    alloc: Global,
    bitmap: &Bitmap,
    items: &[bool],
    (bytes, offset): (&[u8], usize),
    text: &str,
) {
    gives(rt, alloc, bitmap.iter(), items);
    let (storage, start, length) = bitmap.as_slice();
    has(rt, storage, bytes);
    assert_that(rt, start == offset);
    assert_that(rt, length == items.len());
    assert_that(rt, bitmap.len() == length);
    let falses = items.len().wrapping_sub(lists::trues(items));
    assert_that(rt, bitmap.unset_bits() == falses);
    assert_that(rt, bitmap.null_count() == falses);
    shows(rt, alloc, bitmap, text);
}

#[test]
fn bitmaps_are_parts_of_their_bytes(rt: HostRuntime) {
    let alloc = rt.alloc();
    let bytes = [0b00001101];
    let whole = bitmap_of(&rt, alloc, &bytes, 5);
    let items = [true, false, true, true, false];
    is_stored(&rt, alloc, &whole, &items, (&bytes, 0), "[0b___01101]");
    let mut part = ok(&rt, whole.clone());
    part.slice(1, 4);
    is_stored(&rt, alloc, &part, &items[1..], (&bytes, 1), "[0b___0110_]");
    let three = bitmap_of(&rt, alloc, &[255], 3);
    is_stored(&rt, alloc, &three, &[true; 3], (&[255], 0), "[0b_____111]");
    let empty = three.sliced(3, 0);
    is_stored(&rt, alloc, &empty, &[], (&[255], 3), "[]");
}

#[test]
fn a_moved_slice_shows_the_bytes_that_it_touches(rt: HostRuntime) {
    let alloc = rt.alloc();
    let bytes = [0, 0, 0, 0b00010101];
    let copied = Bitmap::from_u8_slice(alloc, &bytes, 27);
    let moved = ok(&rt, copied).sliced(22, 5);
    let items = [false, false, true, false, true];
    let text = "[0b00______, 0b_____101]";
    is_stored(&rt, alloc, &moved, &items, (&bytes[2..], 6), text);
    let copy = ok(&rt, moved.clone());
    stores(&rt, copy.make_mut(), &[20]);
    let (storage, offset, length, unset_bits) = moved.into_inner();
    has(&rt, storage.as_slice(), &bytes);
    has(&rt, &[offset, length, unset_bits], &[22, 5, 3]);
}

#[test]
fn a_length_past_the_bytes_is_rejected(rt: HostRuntime) {
    let alloc = rt.alloc();
    let made = Bitmap::try_new(Vec::new(alloc), 1);
    let text =
        "Invalid argument error: The offset + length of the bitmap (1) must be `<=` to the number of bytes times 8 (0)";
    rejects(&rt, alloc, made, text);
    let made = MutableBitmap::try_new(bytes_of(&rt, alloc, &[1, 2]), 17);
    let text =
        "Invalid argument error: The length of the bitmap (17) must be `<=` to the number of bytes times 8 (16)";
    rejects(&rt, alloc, made, text);
}

#[test]
fn bytes_that_grow_are_canonical(rt: HostRuntime) {
    let alloc = rt.alloc();
    let three = MutableBitmap::from_vec(bytes_of(&rt, alloc, &[0b11111101]), 3);
    shows(&rt, alloc, &three, "[0b_____101]");
    stores(&rt, Ok(three), &[5]);
    let nine = MutableBitmap::try_new(bytes_of(&rt, alloc, &[255, 255]), 9);
    stores(&rt, nine, &[255, 1]);
    let nine = MutableBitmap::from_len_set(alloc, 9);
    stores(&rt, without_last(&rt, nine), &[255]);
    stores(&rt, MutableBitmap::from_len_set(alloc, 3), &[7]);
    let three = MutableBitmap::from_len_set(alloc, 3);
    stores(&rt, without_last(&rt, three), &[3]);
    let zeros = ok(&rt, MutableBitmap::from_len_zeroed(alloc, 3));
    stores(&rt, Ok(!zeros), &[7]);
}

#[test]
fn only_a_bitmap_that_is_whole_and_not_shared_is_changed_in_place(rt: HostRuntime) {
    let alloc = rt.alloc();
    let unshared = bitmap_of(&rt, alloc, &[255], 3).into_mut();
    stores(&rt, Ok(right(&rt, unshared)), &[7]);
    let shared = bitmap_of(&rt, alloc, &[0b10], 2);
    let other = ok(&rt, shared.clone());
    let (shared, moved) = (shared.into_mut(), other.sliced(1, 1).into_mut());
    has(&rt, &[shared.is_left(), moved.is_left()], &[true, true]);
}

/// The function that leaves each word makes a bitmap of these items again.
fn is_left(rt: &impl Abort, alloc: Global, bitmap: Bitmap, items: &[bool]) {
    makes(rt, alloc, unary(&bitmap, |word| word), items);
}

#[test]
fn items_are_read_and_written(rt: HostRuntime) {
    let alloc = rt.alloc();
    let items = [false, true, false, true];
    is_left(&rt, alloc, bitmap_of(&rt, alloc, &[0b11111010], 4), &items);
    let moved = bitmap_of(&rt, alloc, &[0b11010111], 7).sliced(3, 4);
    has(&rt, &[moved.get_bit(0), moved.get_bit(1)], &[false, true]);
    let falses = [moved.null_count_range(1, 2), moved.null_count_range(4, 0)];
    has(&rt, &falses, &[1, 0]);
    is_left(&rt, alloc, moved, &items);
    is_left(
        &rt,
        alloc,
        ok(&rt, Bitmap::from_bools(alloc, &items)),
        &items,
    );
    let mut spare = ok(&rt, MutableBitmap::with_capacity(alloc, 100));
    assert_that(&rt, spare.is_empty());
    assert_that(&rt, spare.capacity() >= 100);
    spare.clear();
    shows(&rt, alloc, &spare, "[]");
}

#[test]
fn an_iterator_is_taken_from_both_ends(rt: HostRuntime) {
    let alloc = rt.alloc();
    let mut items = IntoIter::new(bitmap_of(&rt, alloc, &[0b00101101], 6));
    has(&rt, &[items.next(), items.next_back()], &[Some(true); 2]);
    has(&rt, &[items.size_hint()], &[(4, Some(4))]);
    let text = "IntoIter { values: [0b__101101], index: 1, end: 5 }";
    shows(&rt, alloc, &items, text);
    let left = ok(&rt, items.clone());
    gives(&rt, alloc, left, &[false, true, true, false]);
    let mut items = bitmap_of(&rt, alloc, &[0b00101101], 6).into_iter();
    let ended = [
        items.next(),
        items.nth(usize::MAX),
        items.next(),
        items.next_back(),
    ];
    has(&rt, &ended, &[Some(true), None, None, None]);
}

/// A fact for a caller of `try_from_iter`: the items of the iterator are those of the bitmap.
fn collect_again(alloc: Global, bitmap: &Bitmap) -> Result<MutableBitmap>
    ensures { IfOk result (λ m. m.items ≡ items_of bitmap.now) }
{
    MutableBitmap::try_from_iter(alloc, bitmap)
}

/// The same of an iterator that takes the bitmap, and of a shared result.
fn collect_by_value(alloc: Global, bitmap: Bitmap) -> Result<Bitmap>
    ensures { IfOk result (λ b. items_of b ≡ items_of bitmap) }
{
    Bitmap::try_from_iter(alloc, bitmap)
}

/// A bitmap of 130 items was made, each fifth one true.
fn has_fifths(rt: &impl Abort, made: Result<Bitmap>) -> Bitmap {
    let bitmap = ok(rt, made);
    assert_that(rt, bitmap.len() == 130);
    assert_that(rt, bitmap.unset_bits() == 104);
    bitmap
}

#[test]
fn items_are_collected_in_order(rt: HostRuntime) {
    let alloc = rt.alloc();
    let grown = MutableBitmap::try_from_iter(alloc, (0..130usize).map(|i| i % 5 == 0));
    let frozen = has_fifths(&rt, grown.and_then(Bitmap::try_from));
    let again = collect_again(alloc, &frozen).and_then(Bitmap::try_from);
    let again = has_fifths(&rt, again);
    let taken = has_fifths(&rt, collect_by_value(alloc, frozen));
    assert_that(&rt, again == taken);
}
