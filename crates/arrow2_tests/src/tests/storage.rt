//! Tests, for the calls that no command of a script makes, that the result depends only on the list, whatever bit
//! offset, padding bits and spare bytes the list has in memory. Calls that show the storage are not tested here.
ghost use Rattle.std.specs.Prelude.{◌≡◌, ◌<◌, length};
ghost use Rattle.arrow2_model.specs.Lists.{items_of};

use super::checks::{assert_that, gives, mutable_copy, ok};
use super::lists::{self, ListResult};
use arrow2_array::BooleanArray;
use arrow2_bitmap::assign_ops::{binary_assign, unary_assign};
use arrow2_bitmap::bitmap_ops::{binary, unary};
use arrow2_bitmap::{Bitmap, MutableBitmap};
use arrow2_bits::{BitChunkIterExact, Reads, Stored, count_zeros, count_zeros_counted};
use arrow2_chunk::BitChunk;
use arrow2_tables::bitmap_ops::{quaternary, ternary};
use arrow2_types::Result;
use arrow2_walks::{Pieces, SlicesIterator, ZipValidity};
use std::alloc::Global;
use std::convert::TryFrom;
use std::process::Abort;

/// A bitmap, and the list of the items that it must have.
type Of<'a, 'b> = (&'a Bitmap, &'b [bool]);

/// Checks that a bitmap has these items.
fn has_items(rt: &impl Abort, bitmap: &Bitmap, list: &[bool]) {
    assert_that(rt, bitmap.len() == list.len());
    assert_that(rt, bitmap.iter().eq(list.iter().copied()));
}

/// Checks that the call made a bitmap of these items.
fn makes(rt: &impl Abort, made: Result<Bitmap>, list: ListResult) {
    has_items(rt, &ok(rt, made), ok(rt, list).as_slice());
}

/// Checks that the bitmap that was changed has these items.
fn becomes(rt: &impl Abort, changed: MutableBitmap, list: ListResult) {
    makes(rt, Bitmap::try_from(changed), list);
}

/// Checks that an iterator gave the item that a list has there.
fn is_item(rt: &impl Abort, item: Option<bool>, wanted: Option<bool>) {
    assert_that(rt, item == wanted);
}

/// Iterates over the items from the last one on.
fn is_reversed(rt: &impl Abort, (bitmap, list): Of) {
    assert_that(rt, bitmap.iter().rev().eq(list.iter().rev().copied()));
}

/// Iterates over the items from both ends.
fn is_iterated(rt: &impl Abort, (bitmap, list): Of) {
    let (mut inwards, mut items) = (bitmap.iter(), list.iter().copied());
    for _ in 0..list.len() {
        is_item(rt, inwards.next(), items.next());
        is_item(rt, inwards.next_back(), items.next_back());
    }
}

/// Skips to each index, and to the one after the last.
fn is_skipped(rt: &impl Abort, (bitmap, list): Of) {
    for i in 0..list.len() + 1 {
        is_item(rt, bitmap.iter().nth(i), list.iter().copied().nth(i));
        let item = list.iter().copied().nth_back(i);
        is_item(rt, bitmap.iter().nth_back(i), item);
    }
}

/// Counts the false items of each part from item `start` on.
fn is_counted_from(rt: &impl Abort, (bitmap, list): Of, start: usize) {
    assert_that(rt, bitmap.len() == list.len());
    assert_that(rt, start <= list.len());
    let mut falses = 0usize;
    for len in 0..list.len() - start + 1 {
        assert_that(rt, bitmap.null_count_range(start, len) == falses);
        falses = falses.wrapping_add(usize::from(!lists::at(list, start + len)));
    }
}

/// Counts the false items of a list that these bytes hold from bit `offset` on, and one more byte after it.
fn is_counted_at(rt: &impl Abort, bytes: &[u8], offset: usize, list: &[bool])
    requires { offset < 16 }
{
    assert!(rt; (offset + list.len()) / 8 < bytes.len());
    let falses = count_zeros(bytes, offset, list.len());
    assert_that(rt, lists::trues(list).wrapping_add(falses) == list.len());
    let mut stored = Stored::new(bytes, Reads::new());
    assert_that(
        rt,
        count_zeros_counted(&mut stored, offset, list.len()) == falses,
    );
}

/// Reads the items after the words of each width.
fn has_rests(rt: &impl Abort, (bitmap, list): Of) {
    let alloc = bitmap.allocator();
    let rest = bitmap.chunks::<u8>().remainder_iter();
    gives(rt, alloc, rest, lists::rest(list, 8));
    let rest = bitmap.chunks::<u16>().remainder_iter();
    gives(rt, alloc, rest, lists::rest(list, 16));
    let rest = bitmap.chunks::<u32>().remainder_iter();
    gives(rt, alloc, rest, lists::rest(list, 32));
    let rest = bitmap.chunks::<u64>().remainder_iter();
    gives(rt, alloc, rest, lists::rest(list, 64));
}

/// Checks that a bitmap that was changed is the sum of these lists, each moved within words of this width.
fn is_mixed(rt: &impl Abort, changed: MutableBitmap, lists: &[&[bool]], width: usize)
    requires { 0 < width }
{
    let wanted = lists::all_items(changed.allocator(), lists, width);
    becomes(rt, changed, wanted);
}

/// Applies functions of one word of each width in place.
fn changes_by_a_word(rt: &impl Abort, (bitmap, list): Of) {
    let mut changed = mutable_copy(rt, bitmap);
    unary_assign(&mut changed, |x: u8| x.up(1));
    is_mixed(rt, changed, &[&[], list], 8);
    let mut changed = mutable_copy(rt, bitmap);
    unary_assign(&mut changed, |x: u16| x.up(1));
    is_mixed(rt, changed, &[&[], list], 16);
    let mut changed = mutable_copy(rt, bitmap);
    unary_assign(&mut changed, |x: u32| x.up(1));
    is_mixed(rt, changed, &[&[], list], 32);
    let mut changed = mutable_copy(rt, bitmap);
    unary_assign(&mut changed, |x: u64| x.up(1));
    is_mixed(rt, changed, &[&[], list], 64);
}

/// Applies functions of two words of each width in place.
fn changes_by_two_words(rt: &impl Abort, left: Of, right: Of) {
    let lists = [left.1, right.1];
    assert_that(rt, left.0.len() == right.0.len());
    let mut changed = mutable_copy(rt, left.0);
    binary_assign(&mut changed, right.0, |x: u8, y: u8| x.bit_xor(y.up(1)));
    is_mixed(rt, changed, &lists, 8);
    let mut changed = mutable_copy(rt, left.0);
    binary_assign(&mut changed, right.0, |x: u16, y: u16| x.bit_xor(y.up(1)));
    is_mixed(rt, changed, &lists, 16);
    let mut changed = mutable_copy(rt, left.0);
    binary_assign(&mut changed, right.0, |x: u32, y: u32| x.bit_xor(y.up(1)));
    is_mixed(rt, changed, &lists, 32);
    let mut changed = mutable_copy(rt, left.0);
    binary_assign(&mut changed, right.0, |x: u64, y: u64| x.bit_xor(y.up(1)));
    is_mixed(rt, changed, &lists, 64);
}

/// Moves the bits of a word.
fn shift_bits(x: u64) -> u64 {
    x << 1
}

/// Adds the bits of two words without carry, those of the second one moved.
fn mix(x: u64, y: u64) -> u64 {
    x ^ y << 1
}

/// Adds the bits of three words without carry, those of word `k` moved by `k` positions.
fn mixed_of_three(x: u64, y: u64, z: u64) -> u64 {
    x ^ y << 1 ^ z << 2
}

/// Adds the bits of four words in the same way.
fn mixed_of_four(x: u64, y: u64, z: u64, v: u64) -> u64 {
    mixed_of_three(x, y, z) ^ v << 3
}

/// Checks that the call made the sum of these lists, each moved within words.
fn mixes(rt: &impl Abort, alloc: Global, made: Result<Bitmap>, lists: &[&[bool]]) {
    makes(rt, made, lists::all_items(alloc, lists, 64));
}

/// Applies functions of one to four words.
fn goes_by_words(rt: &impl Abort, inputs: [&Bitmap; 4], lists: [&[bool]; 4]) {
    let [a, b, c, d] = inputs;
    let alloc = a.allocator();
    assert_that(rt, a.len() == b.len());
    assert_that(rt, a.len() == c.len());
    assert_that(rt, a.len() == d.len());
    mixes(rt, alloc, unary(a, shift_bits), &[&[], lists[0]]);
    mixes(rt, alloc, binary(a, b, mix), &lists[..2]);
    mixes(rt, alloc, ternary(a, b, c, mixed_of_three), &lists[..3]);
    mixes(rt, alloc, quaternary(a, b, c, d, mixed_of_four), &lists);
}

/// The results of an operator: a new bitmap, and two that were changed in place.
type Combinations = (Result<Bitmap>, MutableBitmap, MutableBitmap);

/// Checks that all three have these items.
fn combines(rt: &impl Abort, (made, taken, changed): Combinations, list: ListResult) {
    let list = ok(rt, list);
    has_items(rt, &ok(rt, made), list.as_slice());
    is_frozen(rt, taken, list.as_slice());
    is_frozen(rt, changed, list.as_slice());
}

/// Checks that a bitmap, once frozen, has these items.
fn is_frozen(rt: &impl Abort, bitmap: MutableBitmap, list: &[bool]) {
    has_items(rt, &ok(rt, Bitmap::try_from(bitmap)), list);
}

/// Applies the operators, in new memory and in place.
fn goes_by_operators(rt: &impl Abort, (left, list): Of, (right, others): Of) {
    let alloc = left.allocator();
    assert_that(rt, left.len() == right.len());
    let mut changed = mutable_copy(rt, left);
    changed &= right;
    let combined = (left & right, mutable_copy(rt, left) & right, changed);
    combines(rt, combined, lists::looked_up(alloc, 0b1000, list, others));
    let mut changed = mutable_copy(rt, left);
    changed |= right;
    let combined = (left | right, mutable_copy(rt, left) | right, changed);
    combines(rt, combined, lists::looked_up(alloc, 0b1110, list, others));
    let mut changed = mutable_copy(rt, left);
    changed ^= right;
    let combined = (left ^ right, mutable_copy(rt, left) ^ right, changed);
    combines(rt, combined, lists::looked_up(alloc, 0b0110, list, others));
    makes(rt, !left, lists::looked_up(alloc, 0b0101, list, others));
    let turned = !mutable_copy(rt, left);
    becomes(rt, turned, lists::looked_up(alloc, 0b0101, list, others));
}

/// Appends the list of booleans at each bit index.
fn is_appended_as_booleans(rt: &impl Abort, alloc: Global, list: &[bool]) {
    for count in 0..16usize {
        let own = ok(rt, lists::thirds(alloc, count));
        let mut grown = ok(rt, MutableBitmap::from_bools(alloc, own.as_slice()));
        ok(rt, grown.extend_from_bools(list));
        becomes(rt, grown, lists::append(own, list));
    }
}

/// Appends the bytes of the list at each bit index.
fn is_appended(rt: &impl Abort, (bitmap, list): Of) {
    let alloc = bitmap.allocator();
    let (bytes, offset, len) = bitmap.as_slice();
    for count in 0..16usize {
        let own = ok(rt, lists::thirds(alloc, count));
        let mut grown = ok(rt, MutableBitmap::from_bools(alloc, own.as_slice()));
        ok(rt, grown.extend_from_slice(bytes, offset, len));
        becomes(rt, grown, lists::append(own, list));
    }
}

/// Collects the items, and makes a validity where one of them is false.
fn is_collected(rt: &impl Abort, (bitmap, list): Of) {
    let alloc = bitmap.allocator();
    let taken = ok(rt, bitmap.clone());
    has_items(rt, &ok(rt, Bitmap::try_from_iter(alloc, taken)), list);
    let grown = MutableBitmap::try_from_iter(alloc, bitmap);
    is_frozen(rt, ok(rt, grown), list);
    assert_that(
        rt,
        SlicesIterator::new(bitmap).slots() == lists::trues(list),
    );
    is_validity_of(rt, ok(rt, mutable_copy(rt, bitmap).into_validity()), list);
    is_validity_of(rt, ok(rt, bitmap.clone()).into_validity(), list);
}

/// Checks that a validity has the items, and that it is there exactly where one of them is false.
fn is_validity_of(rt: &impl Abort, validity: Option<Bitmap>, list: &[bool]) {
    assert_that(rt, validity.is_some() == (lists::trues(list) != list.len()));
    if let Some(validity) = validity {
        has_items(rt, &validity, list);
    }
}

/// Checks that the pieces of a bitmap, joined, have the items of the list, and that they are cut at item `i`.
fn are_pieces_of(rt: &impl Abort, pieces: &Pieces, list: &[bool], i: usize) {
    assert_that(rt, pieces.len() == 2);
    assert_that(rt, i <= list.len());
    has_items(rt, pieces.get(0), &list[..i]);
    has_items(rt, pieces.get(1), &list[i..]);
}

/// Cuts at each index.
fn is_cut(rt: &impl Abort, (bitmap, list): Of) {
    assert_that(rt, bitmap.len() == list.len());
    for i in 0..list.len() + 1 {
        let whole = ok(rt, bitmap.clone());
        let mut pieces = ok(rt, Pieces::new(bitmap.allocator(), whole));
        ok(rt, pieces.cut(0, i));
        are_pieces_of(rt, &pieces, list, i);
    }
}

/// Checks that an iterator over values with their validity gives these items.
fn zip_has_nulls(rt: &impl Abort, validity: &Bitmap, list: &[bool], items: &[Option<bool>]) {
    assert_that(rt, validity.len() == list.len());
    let zip = ZipValidity::new_with_validity(list.iter().copied(), Some(validity));
    let copy = ok(rt, zip.clone());
    assert_that(rt, zip.eq(items.iter().copied()));
    assert_that(rt, copy.eq(items.iter().copied()));
}

/// Checks that an array of values with their validity has these items.
fn array_has_nulls(rt: &impl Abort, validity: &Bitmap, values: &Bitmap, items: &[Option<bool>]) {
    let validity = ok(rt, validity.clone());
    let array = BooleanArray::try_new(ok(rt, values.clone()), Some(validity));
    assert_that(rt, ok(rt, array).iter().eq(items.iter().copied()));
}

/// Checks that values are null where the validity is false, in an iterator with it and in an array.
fn both_have_nulls(rt: &impl Abort, (validity, valid): Of, (values, list): Of) {
    let items = ok(rt, lists::options_of(values.allocator(), list, valid));
    zip_has_nulls(rt, validity, list, items.as_slice());
    array_has_nulls(rt, validity, values, items.as_slice());
}

/// Makes the calls on one bitmap.
fn is_its_list(rt: &impl Abort, bitmap: Of) {
    is_reversed(rt, bitmap);
    is_iterated(rt, bitmap);
    is_skipped(rt, bitmap);
    for start in 0..bitmap.1.len() + 1 {
        is_counted_from(rt, bitmap, start);
    }
    is_appended(rt, bitmap);
    is_collected(rt, bitmap);
    is_cut(rt, bitmap);
}

/// Makes the calls on two bitmaps.
fn pairs_agree(rt: &impl Abort, left: Of, right: Of) {
    has_rests(rt, left);
    changes_by_a_word(rt, left);
    changes_by_two_words(rt, left, right);
    goes_by_operators(rt, left, right);
    both_have_nulls(rt, left, right);
}

/// Stores the list from a bit offset on. All padding bits are equal, also those of `following` more bytes.
fn bitmap_at(
    rt: &impl Abort,
    alloc: Global,
    list: &[bool],
    offset: usize,
    spare: bool,
    following: usize,
) -> Bitmap
    requires { offset < 16 }
{
    let bytes = ok(
        rt,
        lists::bytes_with_list(alloc, list, offset, spare, following),
    );
    let whole = ok(rt, Bitmap::try_new(bytes, offset + list.len()));
    whole.sliced(offset, list.len())
}

/// Returns a list of `len` items without a pattern.
fn list_without_pattern(rt: &impl Abort, alloc: Global, seed: u64, len: usize) -> Vec<bool> {
    ok(rt, lists::list_without_pattern(alloc, seed, len))
}

/// Stores the list at each bit offset, with padding bits all false and all true, and with 0 to 2 spare bytes.
fn in_each_storage(rt: &impl Abort, alloc: Global, list: &[bool]) {
    let others = list_without_pattern(rt, alloc, 3, list.len());
    let others = others.as_slice();
    let other = ok(rt, Bitmap::from_bools(alloc, others));
    for case in 0..48usize {
        let (offset, spare, following) = (case % 8, case / 8 % 2 == 1, case / 16);
        let bitmap = bitmap_at(rt, alloc, list, offset, spare, following);
        is_its_list(rt, (&bitmap, list));
        pairs_agree(rt, (&bitmap, list), (&other, others));
        pairs_agree(rt, (&other, others), (&bitmap, list));
        let inputs = [&bitmap, &other, &bitmap, &other];
        goes_by_words(rt, inputs, [list, others, list, others]);
    }
}

/// Stores lists without a pattern at each bit offset of the first one.
fn at_each_offset(rt: &impl Abort, alloc: Global, len: usize) {
    let (list, others) = (
        list_without_pattern(rt, alloc, 1, len),
        list_without_pattern(rt, alloc, 2, len),
    );
    let (list, others) = (list.as_slice(), others.as_slice());
    if len <= 200 {
        is_appended_as_booleans(rt, alloc, list);
    }
    for offset in 0..16 {
        let bytes = ok(rt, lists::bytes_with_list(alloc, list, offset, true, 1));
        is_counted_at(rt, bytes.as_slice(), offset, list);
        let left = bitmap_at(rt, alloc, list, offset, true, 1);
        let alike = bitmap_at(rt, alloc, others, offset, true, 0);
        pairs_agree(rt, (&left, list), (&alike, others));
        if len <= 200 {
            is_appended(rt, (&left, list));
        }
        let apart = bitmap_at(rt, alloc, others, (offset * 5 + 3) % 16, true, 1);
        pairs_agree(rt, (&left, list), (&apart, others));
        let third = bitmap_at(rt, alloc, list, 15 - offset, true, 1);
        let inputs = [&left, &apart, &third, &alike];
        goes_by_words(rt, inputs, [list, others, list, others]);
    }
}

/// Stores a list that was made in each storage.
fn is_stored(rt: &impl Abort, alloc: Global, list: ListResult) {
    let list = ok(rt, list);
    in_each_storage(rt, alloc, list.as_slice());
}

#[test]
fn what_follows_a_list_changes_no_result(rt: HostRuntime) {
    let alloc = rt.alloc();
    // The bits of a number below its highest one: each list of up to five items once.
    for number in 1..64u64 {
        let len = number.ilog2() as usize;
        is_stored(&rt, alloc, lists::of_number(alloc, number, len));
    }
    for len in [63usize, 64, 65, 130] {
        is_stored(&rt, alloc, lists::thirds(alloc, len));
    }
}

#[test]
fn pairs_of_lists_at_each_length_and_offset(rt: HostRuntime) {
    for len in 0..=600 {
        at_each_offset(&rt, rt.alloc(), len);
    }
}
