//! Truth tables on 32 bytes at once: a vector has 32 lanes of a byte each.
ghost use Rattle.std.specs.Prelude.{◌≡◌, ◌<◌, ℕ, [], ◌∷◌, if◌then◌else◌, length, slice_index};
ghost use Rattle.arrow2_model.specs.Lists.{bit};
ghost use Rattle.arrow2_model.specs.Tables.{answer};

use arrow2_chunk::BitChunk;
use std::simd::prelude::*;

/// Returns the outputs of a table of one input, for each bit of each lane.
#[inline(always)]
pub(crate) fn unary_lanes(table: u16, x: u8x32) -> u8x32
    ensures long { length result ≡ 32 }
    ensures results { (k i : ℕ) → k < 32 → i < 8 →
        bit (slice_index result k) i ≡ answer table (bit (slice_index x k) i ∷ []) }
{
    let yes = splat_bit(BitChunk::bit(table, 1));
    let no = splat_bit(BitChunk::bit(table, 0));
    select(x, yes, no)
}

/// Returns the outputs of a table of two inputs, for each bit of each lane.
#[inline(always)]
pub(crate) fn binary_lanes(table: u16, x: u8x32, y: u8x32) -> u8x32
    ensures long { length result ≡ 32 }
    ensures results { (k i : ℕ) → k < 32 → i < 8 →
        bit (slice_index result k) i
        ≡ answer table (bit (slice_index x k) i ∷ bit (slice_index y k) i ∷ []) }
{
    let yes = unary_lanes(table >> 2, x);
    let no = unary_lanes(table, x);
    select(y, yes, no)
}

/// Returns, at each bit, the bit of `yes` where the bit of `which` is set, and the bit of `no` elsewhere.
#[inline(always)]
fn select(which: u8x32, yes: u8x32, no: u8x32) -> u8x32
    ensures long { length result ≡ 32 }
    ensures chosen { (k i : ℕ) → k < 32 → i < 8 →
        bit (slice_index result k) i
        ≡ (if bit (slice_index which k) i then bit (slice_index yes k) i else
        bit (slice_index no k) i) }
{
    no ^ (which & (yes ^ no))
}

/// Returns the vector whose bits are all `value`.
#[inline(always)]
fn splat_bit(value: bool) -> u8x32
    ensures { (k i : ℕ) → k < 32 → i < 8 → bit (slice_index result k) i ≡ value }
{
    if value {
        u8x32::splat(255)
    } else {
        u8x32::splat(0)
    }
}
