//! The lengths between offsets, one by one.
ghost use Rattle.std.specs.Prelude.{◌≡◌, map, length, Some, IfSome};
ghost use Rattle.std.specs.Iterator.{YieldsFirst, YieldsLast, item_count, UpTo};
ghost use Rattle.std.specs.Iterator.SizeHint.{IsWithinCount};
ghost use Rattle.arrow2_offset.specs.Offsets.{AreOffsets, lengths_of};

use crate::slot::slot_span;
use arrow2_index::OffsetNumber;
use std::alloc::AllocError;
use std::marker::Model;

/// An iterator over the lengths between neighbouring offsets: contracts see it as the list of the lengths still to
/// come.
///
/// In arrow2, `lengths` returns an unnamed `impl Iterator`.
#[derive(Debug, Drop)]
pub struct Lengths<'a, O: OffsetNumber> {
    offsets: &'a [O],
}

impl<'a, O: OffsetNumber> Model for Lengths<'a, O> {
    ghost use Rattle.std.specs.Prelude.{List, ℕ, map};
    ghost use Rattle.arrow2_offset.specs.Offsets.{AreOffsets, lengths_of};

    ghost Value = { List ℕ };

    ghost view = { λ cursor. lengths_of (map O.value cursor.offsets.now) };

    ghost invariant = { λ cursor. AreOffsets (map O.value cursor.offsets.now) };
}

impl<'a, O: OffsetNumber> Lengths<'a, O> {
    /// Returns an iterator over the lengths between the offsets. Requires that the numbers are offsets.
    pub(crate) fn new(offsets: &'a [O]) -> Lengths<'a, O>
        requires { AreOffsets (map O.value offsets.now) }
        ensures { result ≡ lengths_of (map O.value offsets.entry.now) }
    {
        Lengths { offsets }
    }
}

/// Returns an iterator with the same lengths still to come. Always returns `Ok`. Does not allocate.
impl<'a, O: OffsetNumber> Clone for Lengths<'a, O> {
    ghost is_clone = { λ cursor copy. copy ≡ cursor };

    ghost is_infallible = { λ cursor. Unit {0} };

    fn clone(&self) -> Result<Lengths<'a, O>, AllocError> {
        Ok(Lengths {
            offsets: self.offsets,
        })
    }
}

/// Yields the lengths still to come, from the front.
impl<'a, O: OffsetNumber> Iterator for Lengths<'a, O> {
    type Item = usize;

    ghost next_gives = { YieldsFirst (λ s. s) };

    ghost remaining = { item_count (λ s. s) };

    fn next(&mut self) -> Option<usize> {
        if self.offsets.len() == 1 {
            return None;
        }
        let length = self.offsets[0].distance(self.offsets[1]);
        self.offsets = &self.offsets[1..];
        Some(length)
    }

    /// Returns the number of lengths still to come as both bounds.
    fn size_hint(&self) -> (usize, Option<usize>)
        ensures exact { (result.0 ≡ length self.now) × (result.1 ≡ Some (length self.now)) }
        // The trait requires `lower` and `upper`; both are consequences of `exact`.
        ensures lower { IsWithinCount result.0 (item_count (λ s. s) self.now) }
        ensures upper { IfSome result.1 (UpTo (item_count (λ s. s) self.now)) }
    {
        let left = self.offsets.len() - 1;
        (left, Some(left))
    }
}

/// Yields the lengths still to come, from the back.
impl<'a, O: OffsetNumber> DoubleEndedIterator for Lengths<'a, O> {
    ghost next_back_gives = { YieldsLast (λ s. s) };

    fn next_back(&mut self) -> Option<usize> {
        if self.offsets.len() == 1 {
            return None;
        }
        let last = self.offsets.len() - 2;
        let (start, end) = slot_span(self.offsets, last);
        self.offsets = &self.offsets[..last + 1];
        Some(end - start)
    }
}

/// Returns the exact number of lengths still to come.
impl<'a, O: OffsetNumber> ExactSizeIterator for Lengths<'a, O> {
    fn len(&self) -> usize {
        self.offsets.len() - 1
    }
}
