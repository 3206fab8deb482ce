//! The items of a bitmap, one by one.
ghost use Rattle.std.specs.Prelude.{◌≡◌, Some, length, IfSome};
ghost use Rattle.std.specs.Iterator.{YieldsFirst, YieldsLast, item_count, UpTo};
ghost use Rattle.std.specs.Iterator.SizeHint.{IsWithinCount};
ghost use Rattle.arrow2_model.specs.Lists.{items_of};

use crate::immutable::Bitmap;
use std::alloc::AllocError;
use std::marker::Model;

/// A double-ended iterator over the items of a [`Bitmap`]: contracts see the list of the items still to come.
///
/// Differs from arrow2, whose iterator has an `nth` of its own: here the standard library's `nth` calls `next`
/// repeatedly.
#[derive(Debug, Drop)]
pub struct IntoIter {
    values: Bitmap,
    index: usize,
    end: usize,
}

impl Model for IntoIter {
    ghost use Rattle.std.specs.Prelude.{◌≡◌, ◌-◌, ◌≤◌, List, Bool, length};
    ghost use Rattle.arrow2_model.specs.Lists.{part, items_of};

    ghost Value = { List Bool };

    ghost view = { λ i. part (items_of i.values) i.index (i.end - i.index) };

    // The last part is true of every bitmap; it stands here for the proofs.
    ghost invariant = { λ i. (i.index ≤ i.end) × (i.end ≤ i.values.len)
        × (i.values.len ≡ length (items_of i.values)) };
}

#[tactic(auto, using(crate::proofs::Cursor::walking))]
impl IntoIter {
    /// Returns an iterator over all items of `values`.
    pub fn new(values: Bitmap) -> IntoIter
        ensures { result ≡ items_of values }
    {
        let end = values.len();
        IntoIter {
            values,
            index: 0,
            end,
        }
    }
}

/// Yields the items still to come, from the front.
#[tactic(auto, using(crate::proofs::Cursor::walking))]
impl Iterator for IntoIter {
    type Item = bool;

    ghost next_gives = { YieldsFirst (λ s. s) };

    ghost remaining = { item_count (λ s. s) };

    fn next(&mut self) -> Option<bool> {
        if self.index == self.end {
            return None;
        }
        let item = self.values.get_bit(self.index);
        self.index += 1;
        Some(item)
    }

    /// Returns the number of items still to come as both bounds.
    fn size_hint(&self) -> (usize, Option<usize>)
        ensures exact { (result.0 ≡ length self.now) × (result.1 ≡ Some (length self.now)) }
        // The trait requires these two clauses. Both follow from `exact`.
        ensures lower { IsWithinCount result.0 (item_count (λ s. s) self.now) }
        ensures upper { IfSome result.1 (UpTo (item_count (λ s. s) self.now)) }
    {
        let left = self.end - self.index;
        (left, Some(left))
    }
}

/// Yields the items still to come, from the back.
#[tactic(auto, using(crate::proofs::Cursor::walking))]
impl DoubleEndedIterator for IntoIter {
    ghost next_back_gives = { YieldsLast (λ s. s) };

    fn next_back(&mut self) -> Option<bool> {
        if self.end == self.index {
            return None;
        }
        self.end -= 1;
        Some(self.values.get_bit(self.end))
    }
}

/// Returns an iterator with the same items still to come, over the same bytes. Does not allocate.
///
/// # Errors
///
/// `AllocError`. The code returns it only if the reference count would overflow; no clause states that.
impl Clone for IntoIter {
    ghost is_clone = { λ i copy. copy ≡ i };

    fn clone(&self) -> Result<IntoIter, AllocError> {
        Ok(IntoIter {
            values: self.values.clone()?,
            index: self.index,
            end: self.end,
        })
    }
}

/// Returns an iterator over the items, as [`IntoIter::new`] does.
impl IntoIterator for Bitmap {
    type Item = bool;

    type IntoIter = IntoIter;

    ghost into_iter_gives = { λ b cursor. cursor ≡ items_of b };

    fn into_iter(self) -> IntoIter {
        IntoIter::new(self)
    }
}
