//! Boolean arrays, and bitmaps in pieces.
use crate::calls::{Row, ran_out, show, show_results};
use crate::items::items;
use arrow2_array::BooleanArray;
use arrow2_bitmap::Bitmap;
use arrow2_types::Result;
use arrow2_walks::Pieces;
use std::alloc::Global;
use std::io::{Eprint, Print};

/// Kleene's logic, and an array that is rejected.
fn arrays(array: &BooleanArray) -> [Row<BooleanArray>; 3] {
    [
        ("BooleanArray::and_kleene", array.and_kleene(array)),
        ("BooleanArray::or_kleene", array.or_kleene(array)),
        ("BooleanArray::try_new", of_two_lengths(array.values())),
    ]
}

/// The array of values and a validity that is shorter.
fn of_two_lengths(values: &Bitmap) -> Result<BooleanArray> {
    let validity = values.clone()?.sliced(0, 0);
    BooleanArray::try_new(values.clone()?, Some(validity))
}

/// The array of seventy items, every other one null.
pub(crate) fn array(alloc: Global) -> Result<BooleanArray> {
    let validity = Bitmap::from_u8_slice(alloc, &[0x55; 9], 70)?;
    BooleanArray::try_new(items(alloc, 1)?, Some(validity))
}

/// The number of pieces that a bitmap is at first.
fn whole(alloc: Global) -> Result<usize> {
    Ok(pieces(alloc)?.len())
}

/// The call that returns this number.
fn wholes(alloc: Global) -> [Row<usize>; 1] {
    [("Pieces::new", whole(alloc))]
}

/// A bitmap to be cut.
fn pieces(alloc: Global) -> Result<Pieces> {
    Pieces::new(alloc, items(alloc, 3)?)
}

/// Cuts the first piece in halves. There is a first piece: a call of `len` states that the number of pieces is not 0.
fn halve(pieces: &mut Pieces) -> Result<()> {
    let _ = pieces.len();
    let half = pieces.get(0).len() / 2;
    pieces.cut(0, half)
}

/// Cuts the first piece in halves. Where an allocation failed, cuts once more, and shows if the failed cut changed the
/// pieces.
fn cut<R: Print + Eprint>(rt: &R, pieces: &mut Pieces) -> Result<()> {
    let count = pieces.len();
    let first = pieces.get(0).clone()?;
    let res = halve(pieces);
    if ran_out(rt, "Pieces::cut", &res) {
        if pieces.len() != count || *pieces.get(0) != first {
            show(rt, "Pieces::cut changed though it failed", &pieces.len());
        }
        return halve(pieces);
    }
    Ok(())
}

/// Cuts a bitmap so often that memory is requested again, and shows its pieces.
fn cut_often<R: Print + Eprint>(rt: &R, alloc: Global) -> Result<()> {
    let mut pieces = pieces(alloc).or(pieces(alloc))?;
    for _ in 0..6 {
        cut(rt, &mut pieces)?;
    }
    show(rt, "Pieces::cut", &pieces.into_inner());
    Ok(())
}

/// Makes each of these calls.
pub(crate) fn all<R: Print + Eprint>(rt: &R, alloc: Global) -> Result<()> {
    let array = array(alloc).or(array(alloc))?;
    show_results(rt, &arrays(&array), &arrays(&array));
    show_results(rt, &wholes(alloc), &wholes(alloc));
    cut_often(rt, alloc)
}
