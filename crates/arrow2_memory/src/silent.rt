//! Calls that do not allocate: other owners, pushes below the capacity, and changes in place. Their inputs are made
//! first, so that no allocation comes after the first line that they show.
use crate::calls::{input, ran_out, show};
use crate::items::{growing_items, items};
use crate::offsets::shared_five;
use crate::walks::array;
use arrow2_array::{BooleanArray, MutableBooleanArray};
use arrow2_bitmap::assign_ops::{
    binary_assign, binary_assign_table, unary_assign, unary_assign_table,
};
use arrow2_bitmap::{Bitmap, MutableBitmap};
use arrow2_chunk::BitChunk;
use arrow2_offset::{Offsets, OffsetsBuffer};
use arrow2_types::Result;
use std::alloc::Global;
use std::io::{Eprint, Print};

/// Clones bitmaps and arrays, which share their storage.
fn owners<R: Print>(rt: &R, array: &BooleanArray) {
    let bitmap: std::result::Result<_, _> = array.values().clone();
    show(rt, "Clone for Bitmap", &bitmap);
    let array: std::result::Result<_, _> = array.clone();
    show(rt, "Clone for BooleanArray", &array);
}

/// Clones offsets and buffers, which share their storage.
fn owners_of_offsets<R: Print>(rt: &R, offsets: &OffsetsBuffer<i32>) {
    let buffer: std::result::Result<_, _> = offsets.buffer().clone();
    show(rt, "Clone for Buffer<T>", &buffer);
    let offsets: std::result::Result<_, _> = offsets.clone();
    show(rt, "Clone for OffsetsBuffer<O>", &offsets);
}

/// Pushes items up to the capacity, and names a push that fails.
fn push_items<R: Print + Eprint>(rt: &R, bitmap: &mut MutableBitmap) {
    for i in 0..20usize {
        let pushed = bitmap.push(i % 3 == 0);
        ran_out(rt, "MutableBitmap::push below the capacity", &pushed);
    }
    show(rt, "MutableBitmap::push below the capacity", bitmap);
}

/// Pushes lengths up to the capacity, and names a push that fails.
fn push_lengths<R: Print + Eprint>(rt: &R, offsets: &mut Offsets<i32>) {
    for length in 0..20usize {
        let pushed = offsets.try_push_usize(length);
        ran_out(rt, "Offsets::try_push_usize below the capacity", &pushed);
    }
    show(rt, "Offsets::try_push_usize below the capacity", offsets);
}

/// Pushes items to an array up to its capacity, and names a push that fails.
fn push_options<R: Print + Eprint>(rt: &R, array: &mut MutableBooleanArray) {
    for i in 0..20usize {
        let pushed = array.push((i % 3 > 0).then_some(i % 2 == 0));
        ran_out(rt, "MutableBooleanArray::push below the capacity", &pushed);
    }
    show(
        rt,
        "MutableBooleanArray::push below the capacity",
        &array.len(),
    );
}

/// Moves the bits of a word.
fn shift_bits<T: BitChunk>(word: T) -> T {
    word.up(1)
}

/// Moves the bits of the second word, and combines both.
fn combine<T: BitChunk>(one: T, other: T) -> T {
    one.bit_xor(other.up(1))
}

/// A function of two words of `T`, where the lengths are equal.
fn assign_binary<T: BitChunk>(lhs: &mut MutableBitmap, rhs: &Bitmap) {
    if lhs.len() == rhs.len() {
        binary_assign(lhs, rhs, combine::<T>);
    }
}

/// A table of two inputs, where the lengths are equal.
fn assign_table<T: BitChunk>(lhs: &mut MutableBitmap, rhs: &Bitmap) {
    if lhs.len() == rhs.len() {
        binary_assign_table::<T>(lhs, rhs, 11);
    }
}

/// Changes by words of `T`.
fn words<R: Print, T: BitChunk>(rt: &R, lhs: &mut MutableBitmap, rhs: &Bitmap) {
    unary_assign(lhs, shift_bits::<T>);
    show(rt, "unary_assign", lhs);
    assign_binary::<T>(lhs, rhs);
    show(rt, "binary_assign", lhs);
    unary_assign_table::<T>(lhs, 1);
    show(rt, "unary_assign_table", lhs);
    assign_table::<T>(lhs, rhs);
    show(rt, "binary_assign_table", lhs);
}

/// An operator of two bitmaps.
#[derive(Clone, Copy)]
enum Operator {
    /// `^`.
    Xor,
    /// `&`.
    And,
    /// `|`.
    Or,
}

/// Changes the left side by the operator, where the lengths are equal.
fn assign(lhs: &mut MutableBitmap, operator: Operator, rhs: &Bitmap) {
    if lhs.len() != rhs.len() {
        return;
    }
    match operator {
        Operator::Xor => *lhs ^= rhs,
        Operator::And => *lhs &= rhs,
        Operator::Or => *lhs |= rhs,
    }
}

/// Returns the operator's result for its left side, or that side where the lengths differ.
fn apply(lhs: MutableBitmap, operator: Operator, rhs: &Bitmap) -> MutableBitmap {
    if lhs.len() != rhs.len() {
        return lhs;
    }
    match operator {
        Operator::Xor => lhs ^ rhs,
        Operator::And => lhs & rhs,
        Operator::Or => lhs | rhs,
    }
}

/// The operators that change their left side in place, and those that take it by value. Returns the left side.
fn operators<R: Print>(rt: &R, mut lhs: MutableBitmap, rhs: &Bitmap) -> MutableBitmap {
    assign(&mut lhs, Operator::Xor, rhs);
    show(rt, "^=", &lhs);
    assign(&mut lhs, Operator::Or, rhs);
    show(rt, "|=", &lhs);
    assign(&mut lhs, Operator::And, rhs);
    show(rt, "&=", &lhs);
    lhs = !lhs;
    show(rt, "!", &lhs);
    lhs = apply(lhs, Operator::Xor, rhs);
    show(rt, "^", &lhs);
    lhs = apply(lhs, Operator::And, rhs);
    show(rt, "&", &lhs);
    lhs = apply(lhs, Operator::Or, rhs);
    show(rt, "|", &lhs);
    lhs
}

/// The inputs of changes in place.
fn sides(alloc: Global) -> Result<(MutableBitmap, Bitmap)> {
    Ok((growing_items(alloc)?, items(alloc, 3)?))
}

/// Other right sides: one that begins with a byte, one whose items are all false, and one whose items are all true.
fn right_sides(alloc: Global) -> Result<(Bitmap, Bitmap, Bitmap)> {
    let trues = input(MutableBitmap::from_len_set(alloc, 70))?;
    Ok((
        items(alloc, 0)?,
        input(Bitmap::new_zeroed(alloc, 70))?,
        input(Bitmap::try_from(trues))?,
    ))
}

/// The inputs of pushes.
fn empty_with_capacity(alloc: Global) -> Result<(MutableBitmap, Offsets<i32>)> {
    let bitmap = MutableBitmap::with_capacity(alloc, 20)?;
    Ok((bitmap, Offsets::with_capacity(alloc, 20)?))
}

/// An array that is pushed to. An error becomes `Overflow`, as for each input.
fn array_with_capacity(alloc: Global) -> Result<MutableBooleanArray> {
    input(MutableBooleanArray::with_capacity(alloc, 20))
}

/// The values that are cloned.
fn values_to_clone(alloc: Global) -> Result<(BooleanArray, OffsetsBuffer<i32>)> {
    Ok((array(alloc)?, shared_five(alloc)?))
}

/// Makes each of these calls.
pub(crate) fn all<R: Print + Eprint>(rt: &R, alloc: Global) -> Result<()> {
    let (mut lhs, rhs) = sides(alloc).or(sides(alloc))?;
    let (aligned, falses, trues) = right_sides(alloc).or(right_sides(alloc))?;
    let (mut bitmap, mut offsets) = empty_with_capacity(alloc).or(empty_with_capacity(alloc))?;
    let mut options = array_with_capacity(alloc).or(array_with_capacity(alloc))?;
    let (array, shared) = values_to_clone(alloc).or(values_to_clone(alloc))?;
    let _ = println!(rt; "calls that do not allocate");
    owners(rt, &array);
    owners_of_offsets(rt, &shared);
    push_items(rt, &mut bitmap);
    push_lengths(rt, &mut offsets);
    push_options(rt, &mut options);
    words::<_, u8>(rt, &mut lhs, &rhs);
    words::<_, u16>(rt, &mut lhs, &rhs);
    words::<_, u32>(rt, &mut lhs, &rhs);
    words::<_, u64>(rt, &mut lhs, &rhs);
    lhs = operators(rt, lhs, &rhs);
    lhs = operators(rt, lhs, &aligned);
    lhs = operators(rt, lhs, &falses);
    let _ = operators(rt, lhs, &trues);
    Ok(())
}
