//! Bitmaps that are made, read and combined.
use crate::calls::{Row, show_results};
use crate::items::items;
use arrow2_bitmap::bitmap_ops::{
    and, binary, binary_table, from_rows, or, unary, unary_table, xor,
};
use arrow2_bitmap::{Bitmap, MutableBitmap};
use arrow2_kernels::OneList;
use arrow2_tables::bitmap_ops::{quaternary, quaternary_table, ternary, ternary_table};
use arrow2_types::Result;
use std::alloc::Global;
use std::convert::TryFrom;
use std::io::{Eprint, Print};

/// Bitmaps of given bits.
fn new_bitmaps(alloc: Global) -> [Row<Bitmap>; 4] {
    let bytes = [0b1011_0110, 0b1];
    let items = [true, false, true];
    [
        ("Bitmap::new", Bitmap::new(alloc)),
        ("Bitmap::new_zeroed", Bitmap::new_zeroed(alloc, 9)),
        (
            "Bitmap::from_u8_slice",
            Bitmap::from_u8_slice(alloc, &bytes, 9),
        ),
        ("Bitmap::from_bools", Bitmap::from_bools(alloc, &items)),
    ]
}

/// The bitmap of 600 items of an iterator, which allocates more than once.
fn bitmap_of_iterator(alloc: Global) -> Result<Bitmap> {
    Bitmap::try_from_iter(alloc, (0..600usize).map(|i| i % 3 == 0))
}

/// Bitmaps of the results of functions of numbers and of items.
fn bitmaps_of_functions(alloc: Global) -> [Row<Bitmap>; 3] {
    let bytes = [0b1011_0110, 0b1];
    [
        (
            "Bitmap::try_from_fn",
            Bitmap::try_from_fn(alloc, 9, |i| i % 2 == 0),
        ),
        (
            "Bitmap::from_slice_with",
            Bitmap::from_slice_with(alloc, &bytes, |byte| *byte == 1),
        ),
        (
            "Bitmap::from_slices_with",
            Bitmap::from_slices_with(alloc, &bytes, &bytes, |one, other| *one == *other),
        ),
    ]
}

/// Bitmaps of a vector, of a growing bitmap and of an iterator.
fn bitmaps_of_others(alloc: Global) -> [Row<Bitmap>; 5] {
    let none = MutableBitmap::new(alloc);
    [
        (
            "Bitmap::from_u8_vec",
            Bitmap::from_u8_vec(Vec::new(alloc), 0),
        ),
        ("Bitmap::try_new", Bitmap::try_new(Vec::new(alloc), 0)),
        ("Bitmap::try_new", Bitmap::try_new(Vec::new(alloc), 9)),
        ("TryFrom<MutableBitmap> for Bitmap", Bitmap::try_from(none)),
        ("Bitmap::try_from_iter", bitmap_of_iterator(alloc)),
    ]
}

/// A function of three words, which moves their bits.
fn of_three(bitmap: &Bitmap) -> Result<Bitmap> {
    ternary(bitmap, bitmap, bitmap, |x, y, z| x ^ y << 1 ^ z << 2)
}

/// A function of four words.
fn of_four(bitmap: &Bitmap) -> Result<Bitmap> {
    quaternary(bitmap, bitmap, bitmap, bitmap, |x, y, z, v| {
        (x & v) ^ y << 1 ^ z << 2
    })
}

/// A function of one word of each row.
fn of_rows(bitmap: &Bitmap) -> Result<Bitmap> {
    let chunks = bitmap.chunks::<u64>();
    from_rows(
        bitmap.allocator(),
        bitmap.len(),
        OneList { chunks },
        |x| x << 1,
    )
}

/// Word functions.
fn by_words(bitmap: &Bitmap) -> [Row<Bitmap>; 5] {
    [
        ("unary", unary(bitmap, |x| x << 1)),
        ("binary", binary(bitmap, bitmap, |x, y| x ^ y << 1)),
        ("ternary", of_three(bitmap)),
        ("quaternary", of_four(bitmap)),
        ("from_rows", of_rows(bitmap)),
    ]
}

/// A table of four inputs.
fn by_four(bitmap: &Bitmap) -> Result<Bitmap> {
    quaternary_table(bitmap, bitmap, bitmap, bitmap, 0b0111_1111_1111_1110)
}

/// Truth tables.
fn by_tables(bitmap: &Bitmap) -> [Row<Bitmap>; 4] {
    let (one, two) = (bitmap, bitmap);
    [
        ("unary_table", unary_table(one, 0b01)),
        ("binary_table", binary_table(one, two, 0b0111)),
        ("ternary_table", ternary_table(one, two, one, 0b0111_1110)),
        ("quaternary_table", by_four(bitmap)),
    ]
}

/// The named functions of two bitmaps, and operators.
fn by_names(bitmap: &Bitmap) -> [Row<Bitmap>; 7] {
    [
        ("and", and(bitmap, bitmap)),
        ("or", or(bitmap, bitmap)),
        ("xor", xor(bitmap, bitmap)),
        ("BitAnd<&Bitmap> for &Bitmap", bitmap & bitmap),
        ("BitOr<&Bitmap> for &Bitmap", bitmap | bitmap),
        ("BitXor<&Bitmap> for &Bitmap", bitmap ^ bitmap),
        ("Not for &Bitmap", !bitmap),
    ]
}

/// Makes each of these calls.
pub(crate) fn all<R: Print + Eprint>(rt: &R, alloc: Global) -> Result<()> {
    show_results(rt, &new_bitmaps(alloc), &new_bitmaps(alloc));
    show_results(
        rt,
        &bitmaps_of_functions(alloc),
        &bitmaps_of_functions(alloc),
    );
    show_results(rt, &bitmaps_of_others(alloc), &bitmaps_of_others(alloc));
    let bitmap = items(alloc, 1).or(items(alloc, 1))?;
    show_results(rt, &by_words(&bitmap), &by_words(&bitmap));
    show_results(rt, &by_tables(&bitmap), &by_tables(&bitmap));
    show_results(rt, &by_names(&bitmap), &by_names(&bitmap));
    Ok(())
}
