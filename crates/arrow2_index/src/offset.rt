//! The numbers that offsets are made of.
ghost use Rattle.std.proofs.Common.{arith, ◌≡◌, ◌≤◌, ◌<◌, ◌^◌, ◌↔◌, ◌≤ℤ◌, ◌-ℤ◌, ℕ, pos, Bool, true, false};
ghost use Rattle.std.specs.Int as width;
ghost use Rattle.arrow2_model.proofs.SignedNumbers.{fits_below, below_fits};

use crate::index::Index;
use num_traits::Integral;

/// What the layer needs of an offset: its value as a `usize`, the offset of a value, and the greatest one. The types and
/// functions of offsets require this trait alone. It has few supertraits, unlike [`Index`]: a proof of generic code
/// carries everything that the supertraits of its bounds state. Not in arrow2; `as_usize` and `usize_as` are arrow-rs's
/// names.
pub trait OffsetNumber: Copy + Integral {
    // Whether the offsets have 64 bits.
    ghost IS_LARGE: { Bool };

    // The greatest value of the type.
    ghost MAX: { ℕ };

    /// Whether the offsets have 64 bits.
    const IS_LARGE: bool;

    /// The greatest value of the type.
    const MAX: usize;

    /// Returns the offset as a `usize`, as [`Index::to_usize`] does. Requires that it is not negative.
    fn as_usize(&self) -> usize
        requires { pos 0 ≤ℤ Self.value self.now }
        ensures value { pos result ≡ Self.value self.now }
        ensures fits { Self.fits (Self.value self.now) };

    /// Returns this offset, as [`Index::from_as_usize`] does. Requires that it is at most `MAX`.
    fn usize_as(offset: usize) -> Self
        requires { Self.fits (pos offset) }
        ensures { Self.value result ≡ pos offset };

    /// Returns how far `end` is above the offset, as [`Index::distance_to`] does. Requires that `end` is not below it.
    fn distance(self, end: Self) -> usize
        requires { Self.value self ≤ℤ Self.value end }
        ensures { pos result ≡ Self.value end -ℤ Self.value self };

    /// Returns `sum` as an offset. Where `sum` is above `MAX`, the result is unspecified. A loop that adds up lengths
    /// may call it with each sum, and compare only the last sum with `MAX`.
    fn from_low_bits(sum: u128) -> Self
        ensures { sum ≤ Self.MAX → Self.value result ≡ pos sum };

    // A natural number is a value of the type exactly if it is at most `MAX`.
    ghost max_law: { (n : ℕ) → Self.fits (pos n) ↔ (n ≤ MAX) };

    // An offset is below 2⁶³, so a `usize` holds it, and also the sum of two.
    ghost max_size_law: { (n : ℕ) → Self.fits (pos n) → n < 2 ^ 63 };
}

/// The type of an offset into values: `i32` or `i64` (Arrow columnar format, "Variable-size Binary Layout"). `IS_LARGE`
/// and `MAX` are those of [`OffsetNumber`].
pub trait Offset: Index + OffsetNumber {}

impl Offset for i32 {}

impl Offset for i64 {}

impl OffsetNumber for i32 {
    ghost IS_LARGE = { false };

    ghost MAX = { 2147483647 };

    ghost max_law = { λ n. (fits_below width.w32 n, below_fits width.w32 n) };

    ghost max_size_law = { λ n f. Prim.omega (arith, fits_below width.w32 n f) };

    const IS_LARGE: bool = false;

    const MAX: usize = 2147483647;

    fn as_usize(&self) -> usize {
        *self as usize
    }

    fn usize_as(offset: usize) -> i32 {
        offset as i32
    }

    fn distance(self, end: i32) -> usize {
        end.wrapping_sub(self).cast_unsigned() as usize
    }

    fn from_low_bits(sum: u128) -> i32 {
        ((sum % 0x1_0000_0000) as u32).cast_signed()
    }
}

impl OffsetNumber for i64 {
    ghost IS_LARGE = { true };

    ghost MAX = { 9223372036854775807 };

    ghost max_law = { λ n. (fits_below width.w64 n, below_fits width.w64 n) };

    ghost max_size_law = { λ n f. Prim.omega (arith, fits_below width.w64 n f) };

    const IS_LARGE: bool = true;

    const MAX: usize = 9223372036854775807;

    fn as_usize(&self) -> usize {
        *self as usize
    }

    fn usize_as(offset: usize) -> i64 {
        offset as i64
    }

    fn distance(self, end: i64) -> usize {
        end.wrapping_sub(self).cast_unsigned() as usize
    }

    fn from_low_bits(sum: u128) -> i64 {
        ((sum % 0x1_0000_0000_0000_0000) as u64).cast_signed()
    }
}
