//! An iterator over the bits of bytes, from both ends.
ghost use Rattle.std.specs.Prelude.{◌≡◌, ◌+◌, ◌*◌, ◌^◌, ◌<◌, ◌≤◌, length, false, slice_index_or, Some, IfSome};
ghost use Rattle.std.specs.Iterator.{YieldsFirst, YieldsLast, item_count, UpTo};
ghost use Rattle.std.specs.Iterator.SizeHint.{IsWithinCount};
ghost use Rattle.arrow2_model.specs.Lists.{bits, part};

use crate::{get_bit, get_bit_from};
use std::alloc::AllocError;
use std::marker::Model;

/// An iterator over bits: contracts see it as the list of the items still to come.
///
/// `nth` is the standard library's, which calls `next` and stops at the end; arrow2's adds to the index without a test
/// for overflow.
#[derive(Debug, Drop)]
pub struct BitmapIter<'a> {
    bytes: &'a [u8],
    offset: usize,
    index: usize,
    end: usize,
}

impl<'a> Model for BitmapIter<'a> {
    ghost use Rattle.std.specs.Prelude.{◌+◌, ◌-◌, ◌*◌, ◌≤◌, length, List, Bool};
    ghost use Rattle.arrow2_model.specs.Lists.{bits, part};

    ghost Value = { List Bool };

    ghost view = { λ i. part (bits i.bytes.now) (i.offset + i.index) (i.end - i.index) };

    ghost invariant = { λ i. (i.index ≤ i.end) × (i.offset + i.end ≤ 8 * length i.bytes.now) };
}

#[tactic(auto, using(arrow2_model::proofs::Cursors::walking))]
impl<'a> BitmapIter<'a> {
    /// Returns an iterator over the `len` bits from bit `offset` on. Requires that they are inside the bytes.
    pub fn new(bytes: &'a [u8], offset: usize, len: usize) -> BitmapIter<'a>
        requires { offset + len ≤ 8 * length bytes.now }
        ensures { result ≡ part (bits bytes.entry.now) offset len }
    {
        if len <= usize::MAX - 7 {
            BitmapIter::within(&bytes[offset / 8..], offset % 8, len)
        } else {
            BitmapIter {
                bytes,
                offset,
                index: 0,
                end: len,
            }
        }
    }

    /// Returns an iterator over the same items as [`BitmapIter::new`] does. Keeps the bit offset and the index as one
    /// number, so that no item costs an addition of both. Requires that these bits are inside the bytes, and that
    /// `offset + len` fits a `usize`.
    pub fn within(bytes: &'a [u8], offset: usize, len: usize) -> BitmapIter<'a>
        requires inside { offset + len ≤ 8 * length bytes.now }
        requires fits { offset + len < 2 ^ 64 }
        ensures { result ≡ part (bits bytes.entry.now) offset len }
    {
        BitmapIter {
            bytes,
            offset: 0,
            index: offset,
            end: offset + len,
        }
    }
}

/// Returns an iterator over the same items still to come. Does not allocate, and always returns `Ok`.
impl<'a> Clone for BitmapIter<'a> {
    ghost is_clone = { λ i copy. copy ≡ i };

    ghost is_infallible = { λ i. Unit {0} };

    fn clone(&self) -> Result<BitmapIter<'a>, AllocError> {
        Ok(BitmapIter { ..*self })
    }
}

#[tactic(auto, using(arrow2_model::proofs::Cursors::walking))]
impl<'a> Iterator for BitmapIter<'a> {
    type Item = bool;

    ghost next_gives = { YieldsFirst (λ s. s) };

    ghost remaining = { item_count (λ s. s) };

    fn next(&mut self) -> Option<bool> {
        if self.index == self.end {
            return None;
        }
        let value = bit_at(self.bytes, self.offset, self.index);
        self.index += 1;
        Some(value)
    }

    /// Returns the number of items still to come as both bounds.
    fn size_hint(&self) -> (usize, Option<usize>)
        ensures lower { IsWithinCount result.0 (item_count (λ s. s) self.now) }
        ensures upper { IfSome result.1 (UpTo (item_count (λ s. s) self.now)) }
        ensures exact { (result.0 ≡ length self.now) × (result.1 ≡ Some (length self.now)) }
    {
        let left = self.len();
        (left, Some(left))
    }
}

#[tactic(auto, using(arrow2_model::proofs::Cursors::walking))]
impl<'a> DoubleEndedIterator for BitmapIter<'a> {
    ghost next_back_gives = { YieldsLast (λ s. s) };

    fn next_back(&mut self) -> Option<bool> {
        if self.end == self.index {
            return None;
        }
        self.end -= 1;
        Some(bit_at(self.bytes, self.offset, self.end))
    }
}

#[tactic(auto, using(arrow2_model::proofs::Cursors::walking))]
impl<'a> ExactSizeIterator for BitmapIter<'a> {
    fn len(&self) -> usize {
        self.end - self.index
    }
}

/// Returns bit `offset + i`. Requires that this bit is inside the bytes. Most iterators have offset 0, which the
/// compiler tests once for a whole loop.
fn bit_at(bytes: &[u8], offset: usize, i: usize) -> bool
    requires { offset + i < 8 * length bytes.now }
    ensures { result ≡ slice_index_or (bits bytes.now) (offset + i) false }
{
    if offset == 0 {
        get_bit(bytes, i)
    } else {
        get_bit_from(bytes, offset, i)
    }
}
