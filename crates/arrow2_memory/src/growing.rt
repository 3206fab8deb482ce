//! Bitmaps that grow.
use crate::calls::{Change, Row, input, show_change, show_results};
use crate::items::{BYTES, growing_items, items};
use arrow2_bitmap::{Bitmap, MutableBitmap};
use arrow2_types::Result;
use std::alloc::Global;
use std::io::{Eprint, Print};

/// The growing bitmap of 600 items of an iterator, which allocates more than once.
fn of_every_third(alloc: Global) -> Result<MutableBitmap> {
    MutableBitmap::try_from_iter(alloc, (0..600usize).map(|i| i % 3 == 0))
}

/// Growing bitmaps of given bits.
fn new_bitmaps(alloc: Global) -> [Row<MutableBitmap>; 6] {
    let items = [true, false, true];
    [
        (
            "MutableBitmap::with_capacity",
            MutableBitmap::with_capacity(alloc, 20),
        ),
        (
            "MutableBitmap::from_len_zeroed",
            MutableBitmap::from_len_zeroed(alloc, 9),
        ),
        (
            "MutableBitmap::from_len_set",
            MutableBitmap::from_len_set(alloc, 9),
        ),
        (
            "MutableBitmap::from_bools",
            MutableBitmap::from_bools(alloc, &items),
        ),
        ("MutableBitmap::try_from_iter", of_every_third(alloc)),
        (
            "MutableBitmap::try_new",
            MutableBitmap::try_new(Vec::new(alloc), 9),
        ),
    ]
}

/// A copy.
fn copy(alloc: Global) -> Result<MutableBitmap> {
    Ok(input(growing_items(alloc))?.clone()?)
}

/// Growing bitmaps of other bitmaps.
fn bitmaps_of_others(alloc: Global) -> [Row<MutableBitmap>; 2] {
    [
        ("Bitmap::make_mut", growing_items(alloc)),
        ("Clone for MutableBitmap", copy(alloc)),
    ]
}

/// The validity that a bitmap becomes.
fn validity(alloc: Global) -> Result<Option<Bitmap>> {
    input(growing_items(alloc))?.into_validity()
}

/// The call that returns this validity.
fn validities(alloc: Global) -> [Row<Option<Bitmap>>; 1] {
    [("MutableBitmap::into_validity", validity(alloc))]
}

/// The ways in which a bitmap grows or its capacity changes.
#[derive(Drop)]
enum Growth<'a> {
    /// By one item.
    Push,
    /// By more of one value than a vector first has capacity for.
    ExtendConstant,
    /// By bits.
    ExtendFromSlice,
    /// By booleans: a whole word of them, and the rest.
    ExtendFromBools,
    /// By the items of a bitmap.
    ExtendFromBitmap(&'a Bitmap),
    /// By capacity alone.
    Reserve,
    /// By capacity that is given back.
    ShrinkToFit,
}

impl Change<MutableBitmap> for Growth<'_> {
    fn change(&self, bitmap: &mut MutableBitmap) -> Row<()> {
        match self {
            Growth::Push => ("MutableBitmap::push", bitmap.push(true)),
            Growth::ExtendConstant => (
                "MutableBitmap::extend_constant",
                bitmap.extend_constant(90, true),
            ),
            Growth::ExtendFromSlice => (
                "MutableBitmap::extend_from_slice",
                bitmap.extend_from_slice(&BYTES, 3, 70),
            ),
            Growth::ExtendFromBools => (
                "MutableBitmap::extend_from_bools",
                bitmap.extend_from_bools(&[true; 70]),
            ),
            Growth::ExtendFromBitmap(other) => (
                "MutableBitmap::extend_from_bitmap",
                bitmap.extend_from_bitmap(other),
            ),
            Growth::Reserve => ("MutableBitmap::reserve", bitmap.reserve(90)),
            Growth::ShrinkToFit => ("MutableBitmap::shrink_to_fit", reserve_and_shrink(bitmap)),
        }
    }
}

/// Reserves capacity, then shrinks the capacity to the items.
fn reserve_and_shrink(bitmap: &mut MutableBitmap) -> Result<()> {
    let _ = bitmap.reserve(90);
    bitmap.shrink_to_fit()
}

/// The growing bitmap of one byte of items. The items of a copy fill its capacity, so each way to grow allocates.
fn eight_items(alloc: Global) -> Result<MutableBitmap> {
    let items = [true, false, false, true, true, false, true, false];
    MutableBitmap::from_bools(alloc, &items)
}

/// Each way in which a bitmap grows.
fn grow_each_way<R: Print + Eprint>(rt: &R, alloc: Global) -> Result<()> {
    let before = eight_items(alloc).or(eight_items(alloc))?;
    let other = items(alloc, 1).or(items(alloc, 1))?;
    for growth in &[
        Growth::Push,
        Growth::ExtendConstant,
        Growth::ExtendFromSlice,
        Growth::ExtendFromBools,
        Growth::ExtendFromBitmap(&other),
        Growth::Reserve,
        Growth::ShrinkToFit,
    ] {
        show_change(rt, &before, growth)?;
    }
    Ok(())
}

/// Makes each of these calls.
pub(crate) fn all<R: Print + Eprint>(rt: &R, alloc: Global) -> Result<()> {
    show_results(rt, &new_bitmaps(alloc), &new_bitmaps(alloc));
    show_results(rt, &bitmaps_of_others(alloc), &bitmaps_of_others(alloc));
    show_results(rt, &validities(alloc), &validities(alloc));
    grow_each_way(rt, alloc)
}
