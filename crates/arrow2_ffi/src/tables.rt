//! Truth tables over bits of one to four inputs: bit `a1 + 2 * a2 + 4 * a3 + 8 * a4` of a table is its output for
//! inputs `a1` to `a4`.
//!
//! The outputs are written to `out` from bit 0 on. `out` must have exactly the number of bytes that hold `length` bits.
//! Its padding bits become 0.
//!
//! With a code other than `ARROW2_OK` nothing is written.
ghost use Rattle.std.specs.Prelude.{[], ◌∷◌};
ghost use Rattle.arrow2_ffi.specs.Writes.{WritesTable};

use crate::bits_input::{Bits, are_both_inside, are_inside, hold};
use crate::codes::{ARROW2_LENGTH, ARROW2_OK, ARROW2_RANGE};
use crate::in_place::{assign_four, assign_three, assign_two, copy};
use arrow2_kernels::simd_assign::assign_unary;

/// Writes to `out` the output of `table`, a truth table of one input, for each of the `length` bits from bit `offset`
/// on.
///
/// Returns `ARROW2_RANGE` exactly where `table` is above 3 or the bits are not inside their bytes, else `ARROW2_LENGTH`
/// exactly where the number of bytes of `out` is not the one that `length` bits need.
#[unsafe(no_mangle)]
pub extern "C" fn arrow2_unary_table(
    bytes: &[u8],
    offset: usize,
    length: usize,
    table: u16,
    out: &mut [u8],
) -> u32
    // A table of one input is below 2 ^ 2.
    ensures { WritesTable result 4 table length ((bytes.now, offset) ∷ []) out.old out.new }
{
    let first = Bits(bytes, offset);
    if table >= 4 || !are_inside(first, length) {
        return ARROW2_RANGE;
    }
    if !hold(out, length) {
        return ARROW2_LENGTH;
    }
    copy(first, length, out);
    assign_unary(out, length, table as u8);
    ARROW2_OK
}

/// Writes to `out` the outputs of `table`, a truth table of two inputs, for the `length` bits of each input from its
/// offset on, index by index.
///
/// Returns `ARROW2_RANGE` exactly where `table` is above 15 or the bits of an input are not inside its bytes, else
/// `ARROW2_LENGTH` exactly where the number of bytes of `out` is not the one that `length` bits need.
#[unsafe(no_mangle)]
pub extern "C" fn arrow2_binary_table(
    first: &[u8],
    first_offset: usize,
    second: &[u8],
    second_offset: usize,
    length: usize,
    table: u16,
    out: &mut [u8],
) -> u32
    // A table of two inputs is below 2 ^ 4.
    ensures { WritesTable result 16 table length
        ((first.now, first_offset) ∷ (second.now, second_offset) ∷ []) out.old out.new }
{
    let first = Bits(first, first_offset);
    let second = Bits(second, second_offset);
    if table >= 16 || !are_both_inside(first, second, length) {
        return ARROW2_RANGE;
    }
    if !hold(out, length) {
        return ARROW2_LENGTH;
    }
    copy(first, length, out);
    assign_two(out, length, second, table as u8);
    ARROW2_OK
}

/// Writes to `out` the outputs of `table`, a truth table of three inputs, for the `length` bits of each input from its
/// offset on, index by index.
///
/// Returns `ARROW2_RANGE` exactly where `table` is above 255 or the bits of an input are not inside its bytes, else
/// `ARROW2_LENGTH` exactly where the number of bytes of `out` is not the one that `length` bits need.
#[unsafe(no_mangle)]
pub extern "C" fn arrow2_ternary_table(
    first: &[u8],
    first_offset: usize,
    second: &[u8],
    second_offset: usize,
    third: &[u8],
    third_offset: usize,
    length: usize,
    table: u16,
    out: &mut [u8],
) -> u32
    // A table of three inputs is below 2 ^ 8.
    ensures { WritesTable result 256 table length
        ((first.now, first_offset) ∷ (second.now, second_offset)
        ∷ (third.now, third_offset) ∷ []) out.old out.new }
{
    let first = Bits(first, first_offset);
    let second = Bits(second, second_offset);
    let third = Bits(third, third_offset);
    if table >= 256 || !are_inside(first, length) || !are_both_inside(second, third, length) {
        return ARROW2_RANGE;
    }
    if !hold(out, length) {
        return ARROW2_LENGTH;
    }
    copy(first, length, out);
    assign_three(out, length, second, third, table as u8);
    ARROW2_OK
}

/// Writes to `out` the outputs of `table`, a truth table of four inputs, for the `length` bits of each input from its
/// offset on, index by index.
///
/// Returns `ARROW2_RANGE` exactly where the bits of an input are not inside its bytes, else `ARROW2_LENGTH` exactly
/// where the number of bytes of `out` is not the one that `length` bits need.
#[unsafe(no_mangle)]
pub extern "C" fn arrow2_quaternary_table(
    first: &[u8],
    first_offset: usize,
    second: &[u8],
    second_offset: usize,
    third: &[u8],
    third_offset: usize,
    fourth: &[u8],
    fourth_offset: usize,
    length: usize,
    table: u16,
    out: &mut [u8],
) -> u32
    // A table of four inputs is below 2 ^ 16, which a `u16` always is.
    ensures { WritesTable result 65536 table length
        ((first.now, first_offset) ∷ (second.now, second_offset)
        ∷ (third.now, third_offset) ∷ (fourth.now, fourth_offset) ∷ []) out.old out.new }
{
    let first = Bits(first, first_offset);
    let second = Bits(second, second_offset);
    let third = Bits(third, third_offset);
    let fourth = Bits(fourth, fourth_offset);
    if !are_both_inside(first, second, length) || !are_both_inside(third, fourth, length) {
        return ARROW2_RANGE;
    }
    if !hold(out, length) {
        return ARROW2_LENGTH;
    }
    copy(first, length, out);
    assign_four(out, length, second, third, fourth, table);
    ARROW2_OK
}
