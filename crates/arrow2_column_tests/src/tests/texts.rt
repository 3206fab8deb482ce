//! Arrays of texts and of byte strings.
use super::checks::{assert_compares, assert_made, assert_prints, assert_that, ok};
use arrow2::array::{BinaryArray, MutableBinaryArray, MutableUtf8Array, Utf8Array};
use arrow2::buffer::Buffer;
use arrow2::datatypes;
use arrow2::error::Result;
use arrow2::offset::{OffsetNumber, OffsetsBuffer};
use either::Either;
use std::alloc::Global;
use std::convert::TryFrom;
use std::process::Abort;

/// Returns the array of two texts with a null between them.
fn texts_of<O: OffsetNumber>(rt: &impl Abort, alloc: Global) -> Utf8Array<O> {
    let mut texts = ok(rt, MutableUtf8Array::<O>::new(alloc));
    ok(rt, texts.push(Some("é")));
    ok(rt, texts.push(None));
    ok(rt, texts.push(Some("abc")));
    ok(rt, texts.freeze())
}

/// Checks the texts, whole and in part.
fn texts_are_read<O: OffsetNumber>(rt: &impl Abort, alloc: Global) {
    let mut texts = texts_of::<O>(rt, alloc);
    assert_that(rt, texts.len() == 3);
    assert_that(rt, texts.null_count() == 1);
    assert_that(rt, texts.is_null(1));
    assert_that(rt, texts.value(0) == "é");
    texts.slice(1, 2);
    assert_that(rt, texts.len() == 2);
    assert_that(rt, texts.get(0).is_none());
    assert_that(rt, texts.value(1) == "abc");
}

#[test]
fn texts_of_both_widths_are_read(rt: HostRuntime) {
    texts_are_read::<i32>(&rt, rt.alloc());
    texts_are_read::<i64>(&rt, rt.alloc());
}

/// Returns the array of these bytes between offsets that are no more than they.
fn array_of(
    rt: &impl Abort,
    alloc: Global,
    bytes: &[u8],
    offsets: &[i32],
) -> Result<Utf8Array<i32>> {
    let bytes = ok(rt, bytes.to_vec(alloc));
    let values = ok(rt, Buffer::try_from(bytes));
    let offsets = ok(rt, offsets.to_vec(alloc));
    let offsets = ok(rt, OffsetsBuffer::try_from(offsets));
    Utf8Array::try_new(Utf8Array::<i32>::default_data_type(), offsets, values, None)
}

/// Checks whether bytes between offsets are texts.
fn is_taken(rt: &impl Abort, alloc: Global, bytes: &[u8], offsets: &[i32], taken: bool) {
    assert_that(rt, array_of(rt, alloc, bytes, offsets).is_ok() == taken);
}

#[test]
fn texts_that_begin_inside_a_character_are_rejected(rt: HostRuntime) {
    let alloc = rt.alloc();
    is_taken(&rt, alloc, "aé".as_bytes(), &[0, 1, 3], true);
    is_taken(&rt, alloc, "aé".as_bytes(), &[0, 2, 3], false);
    is_taken(&rt, alloc, "aé".as_bytes(), &[0, 4], false);
    is_taken(&rt, alloc, &[0xff], &[0, 1], false);
    is_taken(&rt, alloc, &[0xff], &[0, 0], true);
}

/// Returns the array of a byte string and a null.
fn bytes_of(rt: &impl Abort, alloc: Global) -> BinaryArray<i64> {
    let mut bytes = ok(rt, MutableBinaryArray::<i64>::new(alloc));
    ok(rt, bytes.push(Some(&[0xff, 0])));
    ok(rt, bytes.push_null());
    ok(rt, bytes.freeze())
}

#[test]
fn byte_strings_are_read(rt: HostRuntime) {
    let bytes = bytes_of(&rt, rt.alloc());
    assert_that(&rt, bytes.len() == 2);
    assert_that(&rt, bytes.value(0) == [0xff, 0].as_slice());
    assert_that(&rt, bytes.is_null(1));
    assert_that(&rt, bytes.iter().len() == 2);
}

#[test]
fn arrays_print_their_name_and_their_items(rt: HostRuntime) {
    let alloc = rt.alloc();
    let bytes = [Some([1, 2].as_slice()), None, Some([].as_slice())];
    let narrow = BinaryArray::<i32>::from_options(alloc, &bytes);
    assert_made(&rt, alloc, narrow, "BinaryArray[[1, 2], None, []]");
    let wide = BinaryArray::<i64>::from_options(alloc, &[None]);
    assert_made(&rt, alloc, wide, "LargeBinaryArray[None]");
    let narrow = texts_of::<i32>(&rt, alloc);
    assert_prints(&rt, alloc, &narrow, "Utf8Array[é, None, abc]");
    let wide = texts_of::<i64>(&rt, alloc);
    assert_prints(&rt, alloc, &wide, "LargeUtf8Array[é, None, abc]");
}

/// Returns the first `len` texts, which must be there.
fn first(rt: &impl Abort, array: Utf8Array<i32>, len: usize) -> Utf8Array<i32> {
    assert!(rt; len <= array.len());
    array.sliced(0, len)
}

/// Checks that an array is equal to one of the same texts, which has another one where they are null.
fn is_masked(rt: &impl Abort, alloc: Global, array: &Utf8Array<i32>, other: Utf8Array<i32>) {
    assert_compares(rt, array, &other, false);
    let (_, _, _, validity) = texts_of::<i32>(rt, alloc).into_inner();
    let (_, offsets, values, _) = other.into_inner();
    let masked = Utf8Array::try_new(datatypes::DataType::Utf8, offsets, values, validity);
    assert_compares(rt, array, &ok(rt, masked), true);
}

#[test]
fn what_stands_under_nulls_is_not_compared(rt: HostRuntime) {
    let alloc = rt.alloc();
    let texts = texts_of::<i32>(&rt, alloc);
    let other = Utf8Array::<i32>::from_slice(alloc, &["é", "b", "abc"]);
    is_masked(&rt, alloc, &texts, ok(&rt, other));
    let short = Utf8Array::<i32>::from_options(alloc, &[Some("é"), None]);
    let short = ok(&rt, short);
    assert_compares(&rt, &texts, &short, false);
    assert_compares(&rt, &first(&rt, texts, 2), &short, true);
}

/// Checks that an array becomes one that grows exactly where `owned`, and that an item is then taken off and put back.
fn thaws(rt: &impl Abort, alloc: Global, array: Utf8Array<i32>, owned: bool, text: &str) {
    let thawed = ok(rt, array.into_mut());
    assert_that(rt, thawed.is_right() == owned);
    match thawed {
        Either::Left(array) => assert_prints(rt, alloc, &array, text),
        Either::Right(items) => grows(rt, alloc, items, text),
    }
}

/// Checks how an array prints after its last item was taken off, and put back after a null.
fn grows(rt: &impl Abort, alloc: Global, mut items: MutableUtf8Array<i32>, text: &str) {
    let item = ok(rt, items.pop()).expect(rt, "an item");
    ok(rt, items.push(None));
    ok(rt, items.push(item.as_ref().map(|item| item.as_str())));
    assert_made(rt, alloc, items.freeze(), text);
}

#[test]
fn an_array_of_its_own_grows_again(rt: HostRuntime) {
    let alloc = rt.alloc();
    let array = texts_of::<i32>(&rt, alloc);
    thaws(&rt, alloc, array, true, "Utf8Array[é, None, None, abc]");
    let array = ok(&rt, Utf8Array::<i32>::from_slice(alloc, &["é", "b"]));
    thaws(&rt, alloc, array, true, "Utf8Array[é, None, b]");
    let array = first(&rt, texts_of::<i32>(&rt, alloc), 2);
    thaws(&rt, alloc, array, false, "Utf8Array[é, None]");
    let array = texts_of::<i32>(&rt, alloc);
    let shared = ok(&rt, array.clone());
    thaws(&rt, alloc, array, false, "Utf8Array[é, None, abc]");
    thaws(&rt, alloc, shared, true, "Utf8Array[é, None, None, abc]");
}

/// Checks that texts that grow were made, equal to these where they are frozen.
fn copies(rt: &impl Abort, call: Result<MutableUtf8Array<i64>>, texts: &Utf8Array<i64>) {
    assert_that(rt, ok(rt, ok(rt, call).freeze()) == *texts);
}

/// Takes the last item off, which must be there.
fn last_item(rt: &impl Abort, items: &mut MutableBinaryArray<i64>) -> Option<Vec<u8>> {
    ok(rt, items.pop()).expect(rt, "an item")
}

/// Checks that byte strings that grow were made, which end in a null and these bytes, after one item, which is `first`.
fn ends(
    rt: &impl Abort,
    call: Result<MutableBinaryArray<i64>>,
    first: &BinaryArray<i64>,
    bytes: &[u8],
) {
    let mut items = ok(rt, call);
    let last = last_item(rt, &mut items);
    assert_that(rt, last.expect(rt, "no null").as_slice() == bytes);
    assert_that(rt, last_item(rt, &mut items).is_none());
    assert_that(rt, items.len() == 1);
    assert_that(rt, ok(rt, items.freeze()) == *first);
}

#[test]
fn arrays_are_made_of_iterators(rt: HostRuntime) {
    let alloc = rt.alloc();
    let texts = texts_of::<i64>(&rt, alloc);
    let copy = MutableUtf8Array::<i64>::try_from_iter(alloc, texts.iter());
    copies(&rt, copy, &texts);
    let bytes = ok(&rt, texts.into_binary());
    let copy = MutableBinaryArray::<i64>::try_from_iter(alloc, bytes.iter());
    let first = BinaryArray::<i64>::from_options(alloc, &[Some("é".as_bytes())]);
    ends(&rt, copy, &ok(&rt, first), "abc".as_bytes());
}

#[test]
fn many_items_are_appended_at_once(rt: HostRuntime) {
    let alloc = rt.alloc();
    let mut texts = ok(&rt, MutableUtf8Array::<i32>::new(alloc));
    ok(&rt, texts.extend_from_slice(&["a", "é"]));
    ok(&rt, texts.extend_from_options(&[None, Some("bc")]));
    ok(&rt, texts.extend_constant(2, Some("d")));
    ok(&rt, texts.extend_constant(1, None));
    let call = texts.extend_constant(1 << 31, Some("e"));
    assert_prints(&rt, alloc, &call, "Err(Overflow)");
    let call = texts.extend_constant(usize::MAX, Some("ef"));
    assert_prints(&rt, alloc, &call, "Err(Overflow)");
    let call = texts.extend_constant(usize::MAX, None);
    assert_prints(&rt, alloc, &call, "Err(Overflow)");
    ok(&rt, texts.extend_constant(0, Some("gh")));
    ok(&rt, texts.extend_from_slice(&[]));
    assert_that(&rt, texts.capacity() >= 7);
    assert_that(&rt, texts.byte_capacity() >= 7);
    assert_made(
        &rt,
        alloc,
        texts.freeze(),
        "Utf8Array[a, é, None, bc, d, d, None]",
    );
}

#[test]
fn capacity_that_is_not_used_is_freed(rt: HostRuntime) {
    let mut bytes = ok(
        &rt,
        MutableBinaryArray::<i64>::with_capacity(rt.alloc(), 9, 70),
    );
    assert_that(&rt, bytes.capacity() >= 9 && bytes.byte_capacity() >= 70);
    ok(&rt, bytes.shrink_to_fit());
    assert_that(&rt, bytes.capacity() == 0 && bytes.byte_capacity() == 0);
    let mut texts = ok(
        &rt,
        MutableUtf8Array::<i32>::with_capacity(rt.alloc(), 900, 7000),
    );
    ok(&rt, texts.push(Some("a")));
    ok(&rt, texts.shrink_to_fit());
    assert_that(&rt, texts.capacity() < 900 && texts.byte_capacity() < 7000);
}

#[test]
fn more_bytes_than_an_offset_counts_are_rejected(rt: HostRuntime) {
    let alloc = rt.alloc();
    let mut array = ok(&rt, MutableBinaryArray::<i32>::new(alloc));
    ok(&rt, array.push(Some(&[7])));
    let block = ok(&rt, vec![in alloc; 0u8; 1 << 20]);
    let blocks = ok(&rt, vec![in alloc; block.as_slice(); 2048]);
    let call = array.extend_from_slice(blocks.as_slice());
    assert_prints(&rt, alloc, &call, "Err(Overflow)");
    assert_made(&rt, alloc, array.freeze(), "BinaryArray[[7]]");
}
