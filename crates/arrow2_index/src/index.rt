//! Numbers that are indices into buffers, and iterators over ranges of such numbers.
ghost use Rattle.std.specs.Prelude.{◌≡◌, ◌<◌, ◌≤◌, ◌<ℤ◌, ◌≤ℤ◌, ◌+ℤ◌, ◌-ℤ◌, ◌↔◌, ℕ, ℤ, length, pos, refl, reverse, Some, IsSome, IfSome};
ghost use Rattle.std.specs.Iterator.{YieldsFirstBy, item_count, UpTo};
ghost use Rattle.std.specs.Iterator.SizeHint.{IsWithinCount};
ghost use Rattle.arrow2_model.specs.Digits.{digits};
ghost use Rattle.arrow2_index.specs.Ranges.{integers};

use arrow2_types::NativeType;
use num_traits::{CheckedAdd, Num, One};
use std::marker::Model;
use std::ops::{AddAssign, Sub};

/// An integer of at most 64 bits that can be the index of an item in a buffer.
///
/// Differs from arrow2: `to_usize` and `from_as_usize` require that the value fits, where arrow2's wrap.
pub trait Index: NativeType + Ord + AddAssign + Sub<Self, Output = Self> + One + Num + CheckedAdd {
    /// Returns the number as a `usize`. Requires that it is not negative.
    fn to_usize(&self) -> usize
        requires { pos 0 ≤ℤ Self.value self.now }
        ensures value { pos result ≡ Self.value self.now }
        ensures fits { Self.fits (Self.value self.now) };

    /// Returns the same number in this type, or `None` where it does not fit.
    fn from_usize(index: usize) -> Option<Self>
        ensures some { IfSome result (λ x. Self.value x ≡ pos index) }
        ensures fits { IsSome result ↔ Self.fits (pos index) };

    /// Returns the same number in this type. Requires that it fits.
    fn from_as_usize(index: usize) -> Self
        requires { Self.fits (pos index) }
        ensures { Self.value result ≡ pos index };

    /// Returns how far `end` is above the number. Requires that `end` is not below the number. Not in arrow2.
    fn distance_to(self, end: Self) -> usize
        requires { Self.value self ≤ℤ Self.value end }
        ensures { pos result ≡ Self.value end -ℤ Self.value self };

    /// Returns the next number. Requires that the number is below `end`, so that there is a next one. Not in arrow2.
    fn next_towards(self, end: Self) -> Self
        requires { Self.value self <ℤ Self.value end }
        ensures { Self.value result ≡ Self.value self +ℤ pos 1 };

    /// Returns the iterator from `start` up to the number before `end`, or `None` where `start` or `end` does not fit
    /// this type. Requires that `start` is at most `end`. arrow2 asserts this after both conversions.
    final fn range(start: usize, end: usize) -> Option<IndexRange<Self>>
        requires { start ≤ end }
        ensures some { IfSome result (λ range. range ≡ integers (pos start) (pos end)) }
        ensures fits { IsSome result ↔ (Self.fits (pos start) × Self.fits (pos end)) }
    {
        let start = Self::from_usize(start)?;
        let end = Self::from_usize(end)?;
        Some(IndexRange::new(start, end))
    }

    // The bytes of a number are the digits of its value to the base 256: in little-endian order the lowest first, in
    // big-endian order the highest first.
    ghost digits_law: { (x : Self) → Self.le_digits x ≡ digits Self.SIZE (Self.value x) };

    ghost be_digits_law: { (x : Self) → Self.be_digits x ≡ reverse (digits Self.SIZE (Self.value x)) };
}

impl Index for i8 {
    ghost digits_law = { λ x. refl };

    ghost be_digits_law = { λ x. refl };

    fn to_usize(&self) -> usize {
        *self as usize
    }

    fn from_usize(index: usize) -> Option<i8> {
        i8::try_from(index).ok()
    }

    fn from_as_usize(index: usize) -> i8 {
        index as i8
    }

    fn distance_to(self, end: i8) -> usize {
        end.wrapping_sub(self).cast_unsigned() as usize
    }

    fn next_towards(self, _end: i8) -> i8 {
        self + 1
    }
}

impl Index for i16 {
    ghost digits_law = { λ x. refl };

    ghost be_digits_law = { λ x. refl };

    fn to_usize(&self) -> usize {
        *self as usize
    }

    fn from_usize(index: usize) -> Option<i16> {
        i16::try_from(index).ok()
    }

    fn from_as_usize(index: usize) -> i16 {
        index as i16
    }

    fn distance_to(self, end: i16) -> usize {
        end.wrapping_sub(self).cast_unsigned() as usize
    }

    fn next_towards(self, _end: i16) -> i16 {
        self + 1
    }
}

impl Index for i32 {
    ghost digits_law = { λ x. refl };

    ghost be_digits_law = { λ x. refl };

    fn to_usize(&self) -> usize {
        *self as usize
    }

    fn from_usize(index: usize) -> Option<i32> {
        i32::try_from(index).ok()
    }

    fn from_as_usize(index: usize) -> i32 {
        index as i32
    }

    fn distance_to(self, end: i32) -> usize {
        end.wrapping_sub(self).cast_unsigned() as usize
    }

    fn next_towards(self, _end: i32) -> i32 {
        self + 1
    }
}

impl Index for i64 {
    ghost digits_law = { λ x. refl };

    ghost be_digits_law = { λ x. refl };

    fn to_usize(&self) -> usize {
        *self as usize
    }

    fn from_usize(index: usize) -> Option<i64> {
        i64::try_from(index).ok()
    }

    fn from_as_usize(index: usize) -> i64 {
        index as i64
    }

    fn distance_to(self, end: i64) -> usize {
        end.wrapping_sub(self).cast_unsigned() as usize
    }

    fn next_towards(self, _end: i64) -> i64 {
        self + 1
    }
}

impl Index for u8 {
    ghost digits_law = { λ x. refl };

    ghost be_digits_law = { λ x. refl };

    fn to_usize(&self) -> usize {
        *self as usize
    }

    fn from_usize(index: usize) -> Option<u8> {
        u8::try_from(index).ok()
    }

    fn from_as_usize(index: usize) -> u8 {
        index as u8
    }

    fn distance_to(self, end: u8) -> usize {
        (end - self) as usize
    }

    fn next_towards(self, _end: u8) -> u8 {
        self + 1
    }
}

impl Index for u16 {
    ghost digits_law = { λ x. refl };

    ghost be_digits_law = { λ x. refl };

    fn to_usize(&self) -> usize {
        *self as usize
    }

    fn from_usize(index: usize) -> Option<u16> {
        u16::try_from(index).ok()
    }

    fn from_as_usize(index: usize) -> u16 {
        index as u16
    }

    fn distance_to(self, end: u16) -> usize {
        (end - self) as usize
    }

    fn next_towards(self, _end: u16) -> u16 {
        self + 1
    }
}

impl Index for u32 {
    ghost digits_law = { λ x. refl };

    ghost be_digits_law = { λ x. refl };

    fn to_usize(&self) -> usize {
        *self as usize
    }

    fn from_usize(index: usize) -> Option<u32> {
        u32::try_from(index).ok()
    }

    fn from_as_usize(index: usize) -> u32 {
        index as u32
    }

    fn distance_to(self, end: u32) -> usize {
        (end - self) as usize
    }

    fn next_towards(self, _end: u32) -> u32 {
        self + 1
    }
}

impl Index for u64 {
    ghost digits_law = { λ x. refl };

    ghost be_digits_law = { λ x. refl };

    fn to_usize(&self) -> usize {
        *self as usize
    }

    fn from_usize(index: usize) -> Option<u64> {
        u64::try_from(index).ok()
    }

    fn from_as_usize(index: usize) -> u64 {
        index as u64
    }

    fn distance_to(self, end: u64) -> usize {
        (end - self) as usize
    }

    fn next_towards(self, _end: u64) -> u64 {
        self + 1
    }
}

/// An iterator over a range of numbers: contracts see the values of the numbers still to come.
#[derive(Drop)]
pub struct IndexRange<I: Index> {
    start: I,
    end: I,
}

impl<I: Index> Model for IndexRange<I> {
    ghost use Rattle.std.specs.Prelude.{◌≤ℤ◌, ℤ, List};
    ghost use Rattle.arrow2_index.specs.Ranges.{integers};

    ghost Value = { List ℤ };

    ghost view = { λ r. integers (I.value r.start) (I.value r.end) };

    ghost invariant = { λ r. I.value r.start ≤ℤ I.value r.end };
}

#[tactic(auto, using(crate::proofs::Ranges::ranges))]
impl<I: Index> IndexRange<I> {
    /// Returns the iterator from `start` up to the number before `end`. Requires that `start` is at most `end`.
    pub fn new(start: I, end: I) -> IndexRange<I>
        requires { I.value start ≤ℤ I.value end }
        ensures { result ≡ integers (I.value start) (I.value end) }
    {
        IndexRange { start, end }
    }
}

/// Yields the numbers from the lowest on.
#[tactic(auto, using(crate::proofs::Ranges::ranges))]
impl<I: Index> Iterator for IndexRange<I> {
    type Item = I;

    ghost next_gives = { YieldsFirstBy (λ x. I.value x) (λ s. s) };

    ghost remaining = { item_count (λ s. s) };

    fn next(&mut self) -> Option<I> {
        if self.start == self.end {
            return None;
        }
        let item = self.start;
        self.start = item.next_towards(self.end);
        Some(item)
    }

    /// Returns the number of items still to come as both bounds. arrow2's may overflow.
    fn size_hint(&self) -> (usize, Option<usize>)
        ensures lower { IsWithinCount result.0 (item_count (λ s. s) self.now) }
        ensures upper { IfSome result.1 (UpTo (item_count (λ s. s) self.now)) }
        ensures exact { (result.0 ≡ length self.now) × (result.1 ≡ Some (length self.now)) }
    {
        let left = self.start.distance_to(self.end);
        (left, Some(left))
    }
}
