//! Iterators over the items and the values of an array.
ghost use Rattle.std.specs.Prelude.{◌≡◌, ◌<◌, List, None, length, option_map, slice_index_or, Option, Some, IfSome};
ghost use Rattle.std.specs.Iterator.{YieldsFirstBy, YieldsLastBy, item_count, UpTo};
ghost use Rattle.std.specs.Iterator.SizeHint.{IsWithinCount};
ghost use Rattle.arrow2_walks.specs.Selections.{non_null_values};

use std::alloc::AllocError;
use std::marker::Model;

/// An array that iterators read by index: a shared reference to an array. Its methods have other names than those of
/// the arrays, so that a call at an array is never ambiguous.
///
/// Differs from arrow2, whose trait is sealed, and has `len` and the unsafe `value_unchecked`.
pub trait ArrayAccessor: Copy {
    /// A value: a number, `bool`, `&[u8]` or `&str`.
    type Value: Copy;

    /// The type of what contracts see of a value: of a number or a `bool` its own type, of `&[u8]` and `&str` one that
    /// stands for a list of bytes.
    type Seen;

    // What contracts see of a value, and of an item.
    ghost value: { Self.Value → Self.Seen };

    ghost item: { Option Self.Value → Option Self.Seen };

    // What contracts see of the array: its items, and its values, those under nulls too.
    ghost items: { Self → List (Option Self.Seen) };

    ghost values: { Self → List Self.Seen };

    /// Returns the number of items, nulls too.
    fn count(self) -> usize
        ensures items { result ≡ length (items self) }
        ensures values { result ≡ length (values self) };

    /// Returns the value at `index`, also under a null. Requires that `index` is below the length.
    fn value_at(self, index: usize) -> Self::Value
        requires below { index < length (items self) }
        ensures { value result ≡ slice_index_or (values self) index (value result) };

    /// Returns item `index`, `None` for a null. Requires that `index` is below the length.
    fn item_at(self, index: usize) -> Option<Self::Value>
        requires below { index < length (items self) }
        ensures { item result ≡ slice_index_or (items self) index None };

    // What contracts see of an item is what they see of its value.
    ghost item_of_value: { (o : Option Self.Value) → item o ≡ option_map value o };
}

/// A double-ended iterator over the items of an array: contracts see the list of the items still to come.
#[derive(Drop)]
pub struct ArrayIter<A: ArrayAccessor> {
    array: A,
    index: usize,
    end: usize,
}

impl<A: ArrayAccessor> Model for ArrayIter<A> {
    ghost use Rattle.std.specs.Prelude.{◌-◌, ◌≤◌, List, Option, length};
    ghost use Rattle.arrow2_model.specs.Lists.{part};

    ghost Value = { List (Option A.Seen) };

    ghost view = { λ i. part (A.items i.array) i.index (i.end - i.index) };

    ghost invariant = { λ i. (i.index ≤ i.end) × (i.end ≤ length (A.items i.array)) };
}

#[tactic(auto, using(crate::proofs::ItemParts::iterating))]
impl<A: ArrayAccessor> ArrayIter<A> {
    /// Returns an iterator over all items.
    pub fn new(array: A) -> ArrayIter<A>
        ensures { result ≡ A.items array }
    {
        ArrayIter {
            array,
            index: 0,
            end: array.count(),
        }
    }
}

/// A clone has the same items still to come. Does not allocate.
impl<A: ArrayAccessor> Clone for ArrayIter<A> {
    ghost is_clone = { λ i copy. copy ≡ i };

    ghost is_infallible = { λ i. Unit {0} };

    fn clone(&self) -> Result<ArrayIter<A>, AllocError> {
        Ok(ArrayIter { ..*self })
    }
}

#[tactic(auto, using(crate::proofs::ItemParts::iterating))]
impl<A: ArrayAccessor> Iterator for ArrayIter<A> {
    type Item = Option<A::Value>;

    ghost next_gives = { YieldsFirstBy A.item (λ s. s) };

    ghost remaining = { item_count (λ s. s) };

    fn next(&mut self) -> Option<Option<A::Value>> {
        if self.index == self.end {
            return None;
        }
        let item = self.array.item_at(self.index);
        self.index += 1;
        Some(item)
    }

    /// Both bounds are the number of items still to come.
    fn size_hint(&self) -> (usize, Option<usize>)
        ensures lower { IsWithinCount result.0 (item_count (λ s. s) self.now) }
        ensures upper { IfSome result.1 (UpTo (item_count (λ s. s) self.now)) }
        ensures exact { (result.0 ≡ length self.now) × (result.1 ≡ Some (length self.now)) }
    {
        let left = self.len();
        (left, Some(left))
    }
}

#[tactic(auto, using(crate::proofs::ItemParts::iterating))]
impl<A: ArrayAccessor> DoubleEndedIterator for ArrayIter<A> {
    ghost next_back_gives = { YieldsLastBy A.item (λ s. s) };

    fn next_back(&mut self) -> Option<Option<A::Value>> {
        if self.index == self.end {
            return None;
        }
        self.end -= 1;
        Some(self.array.item_at(self.end))
    }
}

#[tactic(auto, using(crate::proofs::ItemParts::iterating))]
impl<A: ArrayAccessor> ExactSizeIterator for ArrayIter<A> {
    fn len(&self) -> usize {
        self.end - self.index
    }
}

/// A double-ended iterator over the values of an array, those under nulls too: contracts see the list of the values
/// still to come.
#[derive(Drop)]
pub struct ArrayValuesIter<A: ArrayAccessor> {
    array: A,
    index: usize,
    end: usize,
}

impl<A: ArrayAccessor> Model for ArrayValuesIter<A> {
    ghost use Rattle.std.specs.Prelude.{◌-◌, ◌≤◌, List, length};
    ghost use Rattle.arrow2_model.specs.Lists.{part};

    ghost Value = { List A.Seen };

    ghost view = { λ i. part (A.values i.array) i.index (i.end - i.index) };

    ghost invariant = { λ i. (i.index ≤ i.end)
        × (i.end ≤ length (A.items i.array))
        × (i.end ≤ length (A.values i.array)) };
}

#[tactic(auto, using(crate::proofs::ItemParts::iterating))]
impl<A: ArrayAccessor> ArrayValuesIter<A> {
    /// Returns an iterator over all values.
    pub fn new(array: A) -> ArrayValuesIter<A>
        ensures { result ≡ A.values array }
    {
        ArrayValuesIter {
            array,
            index: 0,
            end: array.count(),
        }
    }
}

/// A clone has the same values still to come. Does not allocate.
impl<A: ArrayAccessor> Clone for ArrayValuesIter<A> {
    ghost is_clone = { λ i copy. copy ≡ i };

    ghost is_infallible = { λ i. Unit {0} };

    fn clone(&self) -> Result<ArrayValuesIter<A>, AllocError> {
        Ok(ArrayValuesIter { ..*self })
    }
}

#[tactic(auto, using(crate::proofs::ItemParts::iterating))]
impl<A: ArrayAccessor> Iterator for ArrayValuesIter<A> {
    type Item = A::Value;

    ghost next_gives = { YieldsFirstBy A.value (λ s. s) };

    ghost remaining = { item_count (λ s. s) };

    fn next(&mut self) -> Option<A::Value> {
        if self.index == self.end {
            return None;
        }
        let value = self.array.value_at(self.index);
        self.index += 1;
        Some(value)
    }

    /// Both bounds are the number of values still to come.
    fn size_hint(&self) -> (usize, Option<usize>)
        ensures lower { IsWithinCount result.0 (item_count (λ s. s) self.now) }
        ensures upper { IfSome result.1 (UpTo (item_count (λ s. s) self.now)) }
        ensures exact { (result.0 ≡ length self.now) × (result.1 ≡ Some (length self.now)) }
    {
        let left = self.len();
        (left, Some(left))
    }
}

#[tactic(auto, using(crate::proofs::ItemParts::iterating))]
impl<A: ArrayAccessor> DoubleEndedIterator for ArrayValuesIter<A> {
    ghost next_back_gives = { YieldsLastBy A.value (λ s. s) };

    fn next_back(&mut self) -> Option<A::Value> {
        if self.index == self.end {
            return None;
        }
        self.end -= 1;
        Some(self.array.value_at(self.end))
    }
}

#[tactic(auto, using(crate::proofs::ItemParts::iterating))]
impl<A: ArrayAccessor> ExactSizeIterator for ArrayValuesIter<A> {
    fn len(&self) -> usize {
        self.end - self.index
    }
}

/// An iterator over the values of an array that are not null, in their order: contracts see the list of the values
/// still to come. Its size hint is std's default.
#[derive(Drop)]
pub struct NonNullValuesIter<A: ArrayAccessor> {
    items: ArrayIter<A>,
}

impl<A: ArrayAccessor> Model for NonNullValuesIter<A> {
    ghost use Rattle.std.specs.Prelude.{List};
    ghost use Rattle.arrow2_walks.specs.Selections.{non_null_values};

    ghost Value = { List A.Seen };

    ghost view = { λ i. non_null_values i.items };
}

impl<A: ArrayAccessor> NonNullValuesIter<A> {
    /// Returns an iterator over all values that are not null.
    pub fn new(array: A) -> NonNullValuesIter<A>
        ensures { result ≡ non_null_values (A.items array) }
    {
        NonNullValuesIter {
            items: ArrayIter::new(array),
        }
    }
}

/// A clone has the same values still to come. Does not allocate.
impl<A: ArrayAccessor> Clone for NonNullValuesIter<A> {
    ghost is_clone = { λ i copy. copy ≡ i };

    ghost is_infallible = { λ i. Unit {0} };

    fn clone(&self) -> Result<NonNullValuesIter<A>, AllocError> {
        Ok(NonNullValuesIter {
            items: self.items.clone()?,
        })
    }
}

impl<A: ArrayAccessor> Iterator for NonNullValuesIter<A> {
    type Item = A::Value;

    ghost next_gives = { YieldsFirstBy A.value (λ s. s) };

    ghost remaining = { item_count (λ s. s) };

    fn next(&mut self) -> Option<A::Value> {
        while let Some(item) = self.items.next() {
            if item.is_some() {
                return item;
            }
        }
        None
    }
}
