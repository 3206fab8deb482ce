//! Worked examples of kernels, and callers of their clauses.
ghost use Rattle.std.specs.Prelude.{◌≡◌, ◌+◌, ◌%◌, ◌^◌, [], ◌∷◌, length, IfOk};
ghost use Rattle.arrow2_model.specs.Kernels.{unary_kernel, binary_kernel};
ghost use Rattle.arrow2_model.specs.Lists.{items_of};
ghost use Rattle.arrow2_model.specs.Tables.{each};

use super::checks::{assert_that, bitmap_from, makes, mutable_copy, ok, stores};
use arrow2_bitmap::assign_ops::{binary_assign, unary_assign};
use arrow2_bitmap::bitmap_ops::{binary, unary};
use arrow2_bitmap::{Bitmap, MutableBitmap};
use arrow2_kernels::truth_tables::{binary_outputs, unary_outputs};
use arrow2_types::Result;
use std::alloc::Global;
use std::process::Abort;

/// A caller that knows the result of its function for each word knows the list.
fn next_words(bitmap: &Bitmap) -> Result<Bitmap>
    ensures { IfOk result (λ b.
        items_of b ≡ unary_kernel 64 (λ x. (x + 1) % 2 ^ 64) (items_of bitmap.now)) }
{
    unary(bitmap, |x| x.wrapping_add(1))
}

/// A caller whose function acts bit by bit knows each item.
fn only_left(lhs: &Bitmap, rhs: &Bitmap) -> Result<Bitmap>
    requires { length (items_of lhs.now) ≡ length (items_of rhs.now) }
    ensures { IfOk result (λ b. items_of b ≡ each 2 (items_of lhs.now ∷ items_of rhs.now ∷ [])) }
{
    binary(lhs, rhs, |x, y| binary_outputs(2, x, y))
}

/// The same in place, at the width of a byte.
fn sums_of_bytes(lhs: &mut MutableBitmap, rhs: &Bitmap)
    requires { length lhs.old.items ≡ length (items_of rhs.now) }
    ensures { lhs.new.items
        ≡ binary_kernel 8 (λ x y. (x + y) % 2 ^ 8) lhs.old.items (items_of rhs.now) }
{
    binary_assign(lhs, rhs, |x: u8, y: u8| x.wrapping_add(y));
}

/// The same in place, bit by bit.
fn flip(bitmap: &mut MutableBitmap)
    ensures { bitmap.new.items ≡ each 1 (bitmap.old.items ∷ []) }
{
    unary_assign(bitmap, |x: u16| unary_outputs(1, x));
}

/// A kernel of every zero word is true everywhere, and of every other word false: of these bits it is true.
fn is_zero(rt: &impl Abort, alloc: Global, bytes: &[u8], len: usize) {
    assert_that(rt, len <= 64);
    assert_that(rt, bytes.len() <= 8);
    assert_that(rt, len <= 8 * bytes.len());
    let bitmap = ok(rt, Bitmap::from_u8_slice(alloc, bytes, len));
    let made = unary(&bitmap, |x| if x == 0 { u64::MAX } else { 0 });
    makes(rt, alloc, made, &[true; 64][..len]);
}

#[test]
fn spare_bits_and_later_words_reach_no_function(rt: HostRuntime) {
    let alloc = rt.alloc();
    is_zero(&rt, alloc, &[0b11111000], 3);
    is_zero(&rt, alloc, &[0; 8], 64);
    is_zero(&rt, alloc, &[], 0);
}

/// Returns a bitmap of `len` unset bits.
fn falses(rt: &impl Abort, alloc: Global, len: usize) -> MutableBitmap {
    ok(rt, MutableBitmap::from_len_zeroed(alloc, len))
}

#[test]
fn functions_go_by_the_words_of_a_width(rt: HostRuntime) {
    let alloc = rt.alloc();
    let made = next_words(&bitmap_from(&rt, alloc, &[true, true, false]));
    makes(&rt, alloc, made, &[false, false, true]);
    let mut nine = falses(&rt, alloc, 9);
    unary_assign(&mut nine, |x: u8| x.wrapping_add(1));
    stores(&rt, Ok(nine), &[1, 1]);
    let mut nine = falses(&rt, alloc, 9);
    unary_assign(&mut nine, |x: u16| x.wrapping_add(1));
    stores(&rt, Ok(nine), &[1, 0]);
}

#[test]
fn callers_know_their_answers_by_the_clauses(rt: HostRuntime) {
    let alloc = rt.alloc();
    let left = bitmap_from(&rt, alloc, &[true, true, false, false]);
    let right = bitmap_from(&rt, alloc, &[true, false, true, false]);
    let made = only_left(&left, &right);
    makes(&rt, alloc, made, &[false, true, false, false]);
    let mut changed = mutable_copy(&rt, &left);
    sums_of_bytes(&mut changed, &right);
    stores(&rt, Ok(changed), &[8]);
    let mut changed = mutable_copy(&rt, &left);
    flip(&mut changed);
    stores(&rt, Ok(changed), &[12]);
}
