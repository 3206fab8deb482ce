//! Replacing bytes by the outputs of a truth table, 32 bytes at a time.
ghost use Rattle.std.specs.Prelude.{◌≡◌, ◌+◌, ◌*◌, ◌/◌, ◌%◌, ◌^◌, ◌<◌, ◌≤◌, [], ◌∷◌, slice_index, slice_set, take, length};
ghost use Rattle.arrow2_model.specs.Lists.{bits, IsCanonical};
ghost use Rattle.arrow2_model.specs.Tables.{each};

use crate::simd::{binary_lanes, unary_lanes};
use crate::truth_tables::{binary_outputs, unary_outputs};
use std::simd::prelude::*;

/// Replaces each of the first `len` bits by the output of the truth table `t`: bit `a + 2 * b` of `t`, where `a` is
/// this bit and `b` is the bit of `other` at its index, as 0 or 1. Reads only the four lowest bits of `t`. Padding bits
/// are false afterwards, whatever they were. Does not allocate. Requires that `bytes` has exactly the bytes that `len`
/// bits need, and that `other` has at least `len` bits.
pub fn assign_binary(bytes: &mut [u8], other: &[u8], len: usize, t: u8)
    requires exact { length bytes.old ≡ (len + 7) / 8 }
    requires inside { len ≤ 8 * length other.now }
    ensures canonical { IsCanonical bytes.new len }
    ensures items { take len (bits bytes.new)
        ≡ each t (take len (bits bytes.old) ∷ take len (bits other.now) ∷ []) }
{
    write_by_table(bytes, other, t);
    clear_padding(bytes, len);
}

/// Replaces each of the first `len` bits by the output of the truth table `t`: bit `a` of `t`, where `a` is this bit as
/// 0 or 1. Reads only the two lowest bits of `t`. Padding bits are false afterwards, whatever they were. Does not
/// allocate. Requires that `bytes` has exactly the bytes that `len` bits need.
pub fn assign_unary(bytes: &mut [u8], len: usize, t: u8)
    requires exact { length bytes.old ≡ (len + 7) / 8 }
    ensures canonical { IsCanonical bytes.new len }
    ensures items { take len (bits bytes.new) ≡ each t (take len (bits bytes.old) ∷ []) }
{
    write_by_unary_table(bytes, t);
    clear_padding(bytes, len);
}

/// Replaces each bit of `bytes` by the output of table `t` for this bit and the bit of `other` at its index. Each table
/// has a loop of its own.
pub(crate) fn write_by_table(bytes: &mut [u8], other: &[u8], t: u8)
    requires inside { length bytes.old ≤ length other.now }
    ensures { bits bytes.new ≡ each t (bits bytes.old
        ∷ take (8 * length bytes.old) (bits other.now) ∷ []) }
{
    match t % 16 {
        0 => write_binary(bytes, other, 0),
        1 => write_binary(bytes, other, 1),
        2 => write_binary(bytes, other, 2),
        3 => write_binary(bytes, other, 3),
        4 => write_binary(bytes, other, 4),
        5 => write_binary(bytes, other, 5),
        6 => write_binary(bytes, other, 6),
        7 => write_binary(bytes, other, 7),
        8 => write_binary(bytes, other, 8),
        9 => write_binary(bytes, other, 9),
        10 => write_binary(bytes, other, 10),
        11 => write_binary(bytes, other, 11),
        12 => write_binary(bytes, other, 12),
        13 => write_binary(bytes, other, 13),
        14 => write_binary(bytes, other, 14),
        _ => write_binary(bytes, other, 15),
    }
}

/// Replaces each bit of `bytes` by the output of table `t`, of one input. Each table has a loop of its own.
fn write_by_unary_table(bytes: &mut [u8], t: u8)
    ensures { bits bytes.new ≡ each t (bits bytes.old ∷ []) }
{
    match t % 4 {
        0 => write_unary(bytes, 0),
        1 => write_unary(bytes, 1),
        2 => write_unary(bytes, 2),
        _ => write_unary(bytes, 3),
    }
}

/// Does the same as [`write_by_table`], 32 bytes at a time, and then byte by byte.
#[inline(always)]
fn write_binary(bytes: &mut [u8], other: &[u8], t: u8)
    requires inside { length bytes.old ≤ length other.now }
    ensures { bits bytes.new ≡ each t (bits bytes.old
        ∷ take (8 * length bytes.old) (bits other.now) ∷ []) }
{
    let whole = bytes.len() / 32;
    for k in 0..whole {
        let at = 32 * k;
        let own = u8x32::from_slice(&bytes[at..]);
        let paired = u8x32::from_slice(&other[at..]);
        binary_lanes(u16::from(t), own, paired).copy_to_slice(&mut bytes[at..]);
    }
    for at in 32 * whole..bytes.len() {
        bytes[at] = binary_outputs(u16::from(t), bytes[at], other[at]);
    }
}

/// Does the same as [`write_by_unary_table`], 32 bytes at a time, and then byte by byte.
#[inline(always)]
fn write_unary(bytes: &mut [u8], t: u8)
    ensures { bits bytes.new ≡ each t (bits bytes.old ∷ []) }
{
    let whole = bytes.len() / 32;
    for k in 0..whole {
        let at = 32 * k;
        let own = u8x32::from_slice(&bytes[at..]);
        unary_lanes(u16::from(t), own).copy_to_slice(&mut bytes[at..]);
    }
    for at in 32 * whole..bytes.len() {
        bytes[at] = unary_outputs(u16::from(t), bytes[at]);
    }
}

/// Clears the bits after the first `len`. Does not allocate. Requires that `bytes` has exactly the bytes that `len`
/// bits need.
pub fn clear_padding(bytes: &mut [u8], len: usize)
    requires exact { length bytes.old ≡ (len + 7) / 8 }
    ensures canonical { IsCanonical bytes.new len }
    ensures items { take len (bits bytes.new) ≡ take len (bits bytes.old) }
{
    if len % 8 != 0 {
        clear_last(bytes, len / 8, len % 8);
    }
}

/// Keeps the lowest `count` bits of byte `last`, and clears its other bits. Requires that there is such a byte, and
/// that `count` is below 8.
fn clear_last(bytes: &mut [u8], last: usize, count: usize)
    requires inside { last < length bytes.old }
    requires few { count < 8 }
    ensures { bytes.new ≡ slice_set bytes.old last (slice_index bytes.old last % 2 ^ count) }
{
    bytes[last] %= 1 << count;
}
