//! Truth tables in place: the first input is the first `length` bits of `bytes`, and the outputs are written over it.
//! Bit `a1 + 2 * a2 + 4 * a3 + 8 * a4` of a table is its output for inputs `a1` to `a4`. `bytes` must have exactly the
//! number of bytes that hold `length` bits. Padding bits become 0, whatever they were.
//!
//! With a code other than `ARROW2_OK` nothing is written.
ghost use Rattle.std.specs.Prelude.{[], ◌∷◌};
ghost use Rattle.arrow2_ffi.specs.Writes.{WritesTableInPlace};

use crate::bits_input::{Bits, are_both_inside, are_inside, hold};
use crate::codes::{ARROW2_LENGTH, ARROW2_OK, ARROW2_RANGE};
use crate::in_place::{assign_four, assign_three, assign_two};
use arrow2_kernels::simd_assign::assign_unary;

/// Replaces each of the first `length` bits of `bytes` by bit `a` of `table`, a truth table of one input, where `a` is
/// the old bit, 0 or 1.
///
/// Returns `ARROW2_RANGE` exactly where `table` is above 3, else `ARROW2_LENGTH` exactly where the number of bytes of
/// `bytes` is not the one that `length` bits need.
#[unsafe(no_mangle)]
pub extern "C" fn arrow2_unary_assign_table(bytes: &mut [u8], length: usize, table: u16) -> u32
    // A table of one input is below 2 ^ 2.
    ensures { WritesTableInPlace result 4 table length [] bytes.old bytes.new }
{
    if table >= 4 {
        return ARROW2_RANGE;
    }
    if !hold(bytes, length) {
        return ARROW2_LENGTH;
    }
    assign_unary(bytes, length, table as u8);
    ARROW2_OK
}

/// Replaces each bit `i` of `bytes`, for `i` below `length`, by bit `a + 2 * b` of `table`, a truth table of two
/// inputs. `a` is the old bit `i`, and `b` is bit `second_offset + i` of `second`, each 0 or 1.
///
/// Returns `ARROW2_RANGE` exactly where `table` is above 15 or the bits of the second input are not inside its bytes,
/// else `ARROW2_LENGTH` exactly where the number of bytes of `bytes` is not the one that `length` bits need.
#[unsafe(no_mangle)]
pub extern "C" fn arrow2_binary_assign_table(
    bytes: &mut [u8],
    second: &[u8],
    second_offset: usize,
    length: usize,
    table: u16,
) -> u32
    // A table of two inputs is below 2 ^ 4.
    ensures { WritesTableInPlace result 16 table length
        ((second.now, second_offset) ∷ []) bytes.old bytes.new }
{
    let second = Bits(second, second_offset);
    if table >= 16 || !are_inside(second, length) {
        return ARROW2_RANGE;
    }
    if !hold(bytes, length) {
        return ARROW2_LENGTH;
    }
    assign_two(bytes, length, second, table as u8);
    ARROW2_OK
}

/// Does what `arrow2_binary_assign_table` does, for a table of three inputs.
///
/// Returns `ARROW2_RANGE` exactly where `table` is above 255 or the bits of the second or third input are not inside
/// its bytes, else `ARROW2_LENGTH` exactly where the number of bytes of `bytes` is not the one that `length` bits need.
#[unsafe(no_mangle)]
pub extern "C" fn arrow2_ternary_assign_table(
    bytes: &mut [u8],
    second: &[u8],
    second_offset: usize,
    third: &[u8],
    third_offset: usize,
    length: usize,
    table: u16,
) -> u32
    // A table of three inputs is below 2 ^ 8.
    ensures { WritesTableInPlace result 256 table length
        ((second.now, second_offset) ∷ (third.now, third_offset) ∷ []) bytes.old bytes.new }
{
    let second = Bits(second, second_offset);
    let third = Bits(third, third_offset);
    if table >= 256 || !are_both_inside(second, third, length) {
        return ARROW2_RANGE;
    }
    if !hold(bytes, length) {
        return ARROW2_LENGTH;
    }
    assign_three(bytes, length, second, third, table as u8);
    ARROW2_OK
}

/// Does what `arrow2_binary_assign_table` does, for a table of four inputs.
///
/// Returns `ARROW2_RANGE` exactly where the bits of the second, third or fourth input are not inside its bytes, else
/// `ARROW2_LENGTH` exactly where the number of bytes of `bytes` is not the one that `length` bits need.
#[unsafe(no_mangle)]
pub extern "C" fn arrow2_quaternary_assign_table(
    bytes: &mut [u8],
    second: &[u8],
    second_offset: usize,
    third: &[u8],
    third_offset: usize,
    fourth: &[u8],
    fourth_offset: usize,
    length: usize,
    table: u16,
) -> u32
    // A table of four inputs is below 2 ^ 16, which a `u16` always is.
    ensures { WritesTableInPlace result 65536 table length
        ((second.now, second_offset) ∷ (third.now, third_offset)
        ∷ (fourth.now, fourth_offset) ∷ []) bytes.old bytes.new }
{
    let second = Bits(second, second_offset);
    let third = Bits(third, third_offset);
    let fourth = Bits(fourth, fourth_offset);
    if !are_inside(second, length) || !are_both_inside(third, fourth, length) {
        return ARROW2_RANGE;
    }
    if !hold(bytes, length) {
        return ARROW2_LENGTH;
    }
    assign_four(bytes, length, second, third, fourth, table);
    ARROW2_OK
}
