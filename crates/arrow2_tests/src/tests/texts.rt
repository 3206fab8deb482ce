//! Texts between offsets, given in full, and the errors of the test of such texts.
use super::checks::{assert_that, ok};
use arrow2_offset::{BrokenRule, OffsetsBuffer};
use arrow2_utf8::{
    BrokenTextArray, BrokenTexts, text_at, try_check_offsets_and_utf8, try_check_offsets_bounds,
    try_check_utf8,
};
use std::convert::TryFrom;
use std::process::Abort;

/// The check of numbers and bytes returns this.
fn is_checked(
    rt: &impl Abort,
    offsets: &[i32],
    values: &[u8],
    outcome: Result<(), BrokenTextArray>,
) {
    assert_that(rt, try_check_offsets_and_utf8(offsets, values) == outcome);
}

#[test]
fn numbers_and_bytes_that_are_texts_pass(rt: HostRuntime) {
    is_checked(&rt, &[0], b"", Ok(()));
    is_checked(&rt, &[0, 2, 2, 5], b"abcde", Ok(()));
    is_checked(&rt, &[0, 3, 3, 6, 6], "a\u{e9}\u{20ac}".as_bytes(), Ok(()));
    // Bytes before the first offset and after the last are not tested.
    is_checked(&rt, &[1, 3, 3], b"\xff\xc3\xa9\xff", Ok(()));
}

#[test]
fn the_first_fault_is_named(rt: HostRuntime) {
    is_checked(
        &rt,
        &[],
        b"",
        Err(BrokenTextArray::Offsets(BrokenRule::Empty)),
    );
    is_checked(
        &rt,
        &[0, 2, 1],
        b"a",
        Err(BrokenTextArray::Offsets(BrokenRule::Falling)),
    );
    is_checked(
        &rt,
        &[0, 1, 3],
        b"\xffb",
        Err(BrokenTextArray::Texts(BrokenTexts::PastTheValues)),
    );
    is_checked(
        &rt,
        &[0, 1, 2, 3],
        b"a\xffb",
        Err(BrokenTextArray::Texts(BrokenTexts::NotUtf8(1))),
    );
    // The whole is a text, and a slot ends inside a character; then one with no values begins there.
    is_checked(
        &rt,
        &[0, 1, 2, 3],
        b"a\xc3\xa9",
        Err(BrokenTextArray::Texts(BrokenTexts::NotUtf8(1))),
    );
    is_checked(
        &rt,
        &[0, 1, 2, 2],
        b"a\xc3\xa9",
        Err(BrokenTextArray::Texts(BrokenTexts::NotUtf8(1))),
    );
}

/// A test returns this.
fn results(rt: &impl Abort, stated: Result<(), BrokenTexts>, outcome: Result<(), BrokenTexts>) {
    assert_that(rt, stated == outcome);
}

/// The values are texts, and this is that of slot 1.
fn is_text(rt: &impl Abort, offsets: &OffsetsBuffer<i64>, values: &[u8], text: &str) {
    let is_checked = 1 < offsets.len_proxy() && try_check_utf8(offsets, values).is_ok();
    let is_read = is_checked && text_at(offsets, values, 1) == text;
    assert_that(rt, is_read);
}

#[test]
fn wide_offsets_are_checked_and_read(rt: HostRuntime) {
    let numbers = ok(&rt, vec![in rt.alloc(); 1i64, 3, 6]);
    let offsets = ok(&rt, OffsetsBuffer::try_from(numbers));
    let values = "a\u{e9}\u{20ac}".as_bytes();
    results(&rt, try_check_utf8(&offsets, values), Ok(()));
    results(
        &rt,
        try_check_utf8(&offsets, b"abc"),
        Err(BrokenTexts::PastTheValues),
    );
    results(&rt, try_check_offsets_bounds(&offsets, 6), Ok(()));
    results(
        &rt,
        try_check_offsets_bounds(&offsets, 5),
        Err(BrokenTexts::PastTheValues),
    );
    is_text(&rt, &offsets, values, "\u{20ac}");
}
