//! The items of a buffer, one by one.
ghost use Rattle.std.specs.Prelude.{◌≡◌, Some, length, IfSome};
ghost use Rattle.std.specs.Iterator.{YieldsFirst, YieldsLast, item_count, UpTo};
ghost use Rattle.std.specs.Iterator.SizeHint.{IsWithinCount};
ghost use Rattle.arrow2_model.specs.Lists.{buffer_items};

use crate::immutable::Buffer;
use std::alloc::AllocError;
use std::marker::Model;

/// A double-ended iterator over the items of a [`Buffer`]: contracts see the list of the items still to come.
///
/// Differs from arrow2: callers can name this type, and `nth` is the default method of `Iterator`, which calls `next`.
#[derive(Debug, Drop)]
pub struct IntoIter<T: Copy> {
    values: Buffer<T>,
    index: usize,
    end: usize,
}

impl<T: Copy> Model for IntoIter<T> {
    ghost use Rattle.std.specs.Prelude.{◌-◌, ◌≤◌, List, length};
    ghost use Rattle.arrow2_model.specs.Lists.{part, buffer_items};

    ghost Value = { List T };

    ghost view = { λ i. part (buffer_items i.values) i.index (i.end - i.index) };

    ghost invariant = { λ i. (i.index ≤ i.end) × (i.end ≤ length (buffer_items i.values)) };
}

#[tactic(auto, using(crate::proofs::Part::walking))]
impl<T: Copy> IntoIter<T> {
    /// Returns an iterator over all items of `values`.
    pub fn new(values: Buffer<T>) -> Self
        ensures { result ≡ buffer_items values }
    {
        let end = values.len();
        IntoIter {
            values,
            index: 0,
            end,
        }
    }
}

#[tactic(auto, using(crate::proofs::Part::walking))]
impl<T: Copy> Iterator for IntoIter<T> {
    type Item = T;

    ghost next_gives = { YieldsFirst (λ s. s) };

    ghost remaining = { item_count (λ s. s) };

    fn next(&mut self) -> Option<T> {
        if self.index == self.end {
            return None;
        }
        let item = self.values.as_slice()[self.index];
        self.index += 1;
        Some(item)
    }

    /// Returns the number of items still to come as both bounds.
    fn size_hint(&self) -> (usize, Option<usize>)
        ensures exact { (result.0 ≡ length self.now) × (result.1 ≡ Some (length self.now)) }
        ensures lower { IsWithinCount result.0 (item_count (λ s. s) self.now) }
        ensures upper { IfSome result.1 (UpTo (item_count (λ s. s) self.now)) }
    {
        let left = self.end - self.index;
        (left, Some(left))
    }
}

#[tactic(auto, using(crate::proofs::Part::walking))]
impl<T: Copy> DoubleEndedIterator for IntoIter<T> {
    ghost next_back_gives = { YieldsLast (λ s. s) };

    fn next_back(&mut self) -> Option<T> {
        if self.end == self.index {
            return None;
        }
        self.end -= 1;
        Some(self.values.as_slice()[self.end])
    }
}

#[tactic(auto, using(crate::proofs::Part::walking))]
impl<T: Copy> ExactSizeIterator for IntoIter<T> {
    fn len(&self) -> usize {
        self.end - self.index
    }
}

/// Returns an iterator over the same items still to come. Does not allocate: it fails only if the buffer's reference
/// count would overflow. No clause states this.
impl<T: Copy> Clone for IntoIter<T> {
    ghost is_clone = { λ i copy. copy ≡ i };

    fn clone(&self) -> Result<Self, AllocError> {
        Ok(IntoIter {
            values: self.values.clone()?,
            index: self.index,
            end: self.end,
        })
    }
}

impl<T: Copy> IntoIterator for Buffer<T> {
    type Item = T;

    type IntoIter = IntoIter<T>;

    ghost into_iter_gives = { λ b i. i ≡ buffer_items b };

    fn into_iter(self) -> IntoIter<T> {
        IntoIter::new(self)
    }
}
