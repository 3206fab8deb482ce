//! An array of booleans that grows.
ghost use Rattle.std.specs.Prelude.{◌≡◌, ◌+◌, ◌<◌, ◌≤◌, ◌↔◌, ◌++◌, [], ◌∷◌, None, Some, length, map, replicate, IfOk, IsErrOf, IsOk, IfNone, IsNone, IfSome, IsTrue, MatchOption};
ghost use Rattle.std.specs.Iterator.{IsFinite, IsFiniteIterable};
ghost use Rattle.std.specs.Iterator.Runs.{WholeRun};
ghost use Rattle.arrow2_types.specs.Failures.{error_of, OnlyOutOfMemory, OnlyOverflowOrOutOfMemory};
ghost use Rattle.arrow2_model.specs.Lists.{part, items_of};
ghost use Rattle.arrow2_packed_bits.specs.Growth.{Appends, Reserves};
ghost use Rattle.arrow2_bitmap.specs.Iterators.{MayYieldTooMany};
ghost use Rattle.arrow2_bitmap.specs.PackedBitmaps.{IsPacked};
ghost use Rattle.arrow2_array.specs.Growth.{AppendsBooleans};
ghost use Rattle.arrow2_array.specs.Items.{boolean_items, nulls};

use crate::boolean::BooleanArray;
use arrow2_bitmap::{Bitmap, MutableBitmap};
use arrow2_types::{Error, Result};
use std::alloc::Global;
use std::convert::TryFrom;
use std::marker::Model;

/// An array of booleans that grows.
///
/// Contracts see its items and its capacity, which is the number of items that fit before it allocates. Each call that
/// appends has one clause, the record `AppendsBooleans` of `specs/Growth.antt`. The record states what the items are
/// after `Ok` and after an error, in exactly which cases `Overflow` comes, that `OutOfMemory` is the only other error,
/// and that the call succeeds within the capacity. It also states that the capacity never falls.
///
/// Differs from arrow2: the validity is always stored, and [`MutableBooleanArray::freeze`] leaves it out where no item
/// is null. Before `freeze`, only [`MutableBooleanArray::pop`] returns an item, and no call sets one.
#[derive(Drop)]
pub struct MutableBooleanArray {
    values: MutableBitmap,
    validity: MutableBitmap,
}

impl Model for MutableBooleanArray {
    ghost use Rattle.std.specs.Prelude.{◌≡◌, length, min};
    ghost use Rattle.arrow2_walks.specs.Zipped.{zipped};
    ghost use Rattle.arrow2_array.specs.Items.{GrowingBoolean};

    ghost Value = { GrowingBoolean };

    ghost view = { λ a. record {
      items = zipped a.values.items a.validity.items;
      capacity = min a.values.capacity a.validity.capacity;
    } };

    ghost invariant = { λ a. length a.validity.items ≡ length a.values.items };
}

#[tactic(auto, using(crate::proofs::Items::growing))]
impl MutableBooleanArray {
    /// Returns an array without items. Its capacity is 0. Does not allocate.
    pub fn new(alloc: Global) -> MutableBooleanArray
        ensures items { result.items ≡ [] }
        ensures capacity { result.capacity ≡ 0 }
    {
        MutableBooleanArray {
            values: MutableBitmap::new(alloc),
            validity: MutableBitmap::new(alloc),
        }
    }

    /// Returns an array without items, with capacity for at least `capacity` items.
    ///
    /// # Errors
    ///
    /// Only `OutOfMemory`. It never comes for a capacity of 0.
    pub fn with_capacity(alloc: Global, capacity: usize) -> Result<MutableBooleanArray>
        ensures ok { IfOk result (λ a. a.items ≡ []) }
        ensures capacity { IfOk result (λ a. capacity ≤ a.capacity) }
        ensures only { OnlyOutOfMemory result }
        ensures succeeds { capacity ≡ 0 → IsOk result }
    {
        Ok(MutableBooleanArray {
            values: MutableBitmap::with_capacity(alloc, capacity)?,
            validity: MutableBitmap::with_capacity(alloc, capacity)?,
        })
    }

    /// Returns an array of the items of an iterator, in their order. Requires that the iterator ends, and that its
    /// `next` may be called a first time. (By std's contract of `next`, it may then be called again after each item.)
    /// Does not read the size hint.
    ///
    /// Stands for arrow2's `FromIterator`.
    ///
    /// # Errors
    ///
    /// `Overflow` or `OutOfMemory`. `Overflow` comes only if the contract of the iterator allows more than `usize::MAX`
    /// items. After either error, the iterator and the items so far are dropped.
    pub fn try_from_iter<I: IntoIterator<Item = Option<bool>>>(
        alloc: Global,
        iter: I,
    ) -> Result<MutableBooleanArray>
        requires { IsFiniteIterable I.into_iter_gives I.IntoIter.can_next I.IntoIter.remaining iter }
        // All items of a run of the iterator.
        ensures items { IfOk result (λ a. (it : I.IntoIter) × I.into_iter_gives iter it
            × WholeRun I.IntoIter.next_gives it (λ p. a.items ≡ p.items)) }
        // `Overflow` comes only where a run may have too many items.
        ensures overflow { IsErrOf result Error.Overflow →
            (it : I.IntoIter) × I.into_iter_gives iter it × MayYieldTooMany I.IntoIter.next_gives it }
        ensures only { OnlyOverflowOrOutOfMemory result }
    {
        MutableBooleanArray::collect_items(alloc, iter.into_iter())
    }

    /// Returns the array of the items of an iterator that ends.
    fn collect_items<I: Iterator<Item = Option<bool>> + Drop>(
        alloc: Global,
        items: I,
    ) -> Result<MutableBooleanArray>
        requires can { I.can_next items }
        requires ends { IsFinite (I.remaining items) }
        ensures items { IfOk result (λ a. WholeRun I.next_gives items (λ p. a.items ≡ p.items)) }
        ensures overflow { IsErrOf result Error.Overflow → MayYieldTooMany I.next_gives items }
        ensures only { OnlyOverflowOrOutOfMemory result }
    {
        let mut array = MutableBooleanArray::new(alloc);
        for item in items {
            // For the proof alone: reading the length brings the fact that a `usize` counts the items.
            let _ = array.len();
            array.push(item)?;
        }
        Ok(array)
    }

    /// Returns the number of items, nulls too.
    pub fn len(&self) -> usize
        ensures { result ≡ length self.now.items }
    {
        self.values.len()
    }

    /// Returns whether it has no item.
    pub fn is_empty(&self) -> bool
        ensures { IsTrue result ↔ (length self.now.items ≡ 0) }
    {
        self.len() == 0
    }

    /// Returns the number of items that fit before it allocates, including the items that it holds.
    pub fn capacity(&self) -> usize
        ensures value { result ≡ self.now.capacity }
        ensures within_capacity { length self.now.items ≤ result }
    {
        self.values.capacity().min(self.validity.capacity())
    }

    /// Reserves capacity for `additional` more items. Within the capacity it does not allocate.
    ///
    /// # Errors
    ///
    /// `Overflow` exactly where the length plus `additional` would pass `usize::MAX`, else only `OutOfMemory`. After
    /// either error, the array holds the items that it held.
    pub fn reserve(&mut self, additional: usize) -> Result<()>
        ensures { Reserves error_of result self.old.items self.new.items additional
            self.old.capacity self.new.capacity }
    {
        // For the proof alone: reading the capacity brings the fact that the items are within it.
        let _ = self.capacity();
        self.validity.reserve(additional)?;
        self.values.reserve(additional)?;
        Ok(())
    }

    /// Appends an item. Within the capacity it does not allocate.
    ///
    /// # Errors
    ///
    /// `Overflow` exactly where the length is `usize::MAX`, else only `OutOfMemory`. After either error, the array
    /// holds the items that it held.
    pub fn push(&mut self, item: Option<bool>) -> Result<()>
        ensures { AppendsBooleans result self.old self.new (item ∷ []) }
    {
        self.reserve(1)?;
        self.validity.push(item.is_some())?;
        self.values.push(item.unwrap_or(false))?;
        Ok(())
    }

    /// Appends a null, as [`MutableBooleanArray::push`] of `None` does. Within the capacity it does not allocate.
    ///
    /// # Errors
    ///
    /// `Overflow` exactly where the length is `usize::MAX`, else only `OutOfMemory`. After either error, the array
    /// holds the items that it held.
    pub fn push_null(&mut self) -> Result<()>
        ensures { AppendsBooleans result self.old self.new (None ∷ []) }
    {
        self.push(None)
    }

    /// Appends each of these values as an item that is not null. Within the capacity it does not allocate, else it
    /// allocates before it writes.
    ///
    /// Stands for arrow2's `extend_trusted_len_values`, which takes an iterator.
    ///
    /// # Errors
    ///
    /// `Overflow` exactly where the new length would pass `usize::MAX`, else only `OutOfMemory`. After either error,
    /// the array holds the items that it held.
    pub fn extend_from_slice(&mut self, values: &[bool]) -> Result<()>
        ensures { AppendsBooleans result self.old self.new (map (λ x. Some x) values.now) }
    {
        self.reserve(values.len())?;
        self.validity.extend_constant(values.len(), true)?;
        self.values.extend_from_bools(values)?;
        Ok(())
    }

    /// Appends items. Within the capacity it does not allocate, else it allocates before it writes.
    ///
    /// Stands for arrow2's `extend_trusted_len`, which takes an iterator.
    ///
    /// # Errors
    ///
    /// `Overflow` exactly where the new length would pass `usize::MAX`, else only `OutOfMemory`. After either error,
    /// the array holds the items that it held.
    pub fn extend_from_options(&mut self, items: &[Option<bool>]) -> Result<()>
        ensures { AppendsBooleans result self.old self.new items.now }
    {
        self.reserve(items.len())?;
        for item in items {
            self.push_within(*item);
        }
        Ok(())
    }

    /// Appends an item. Requires spare capacity for it.
    fn push_within(&mut self, item: Option<bool>)
        requires { length self.old.items < self.old.capacity }
        ensures items { self.new.items ≡ self.old.items ++ item ∷ [] }
        ensures capacity { self.old.capacity ≤ self.new.capacity }
    {
        // Within the capacity neither call allocates, so neither returns an error.
        self.validity.push(item.is_some()).unwrap();
        self.values.push(item.unwrap_or(false)).unwrap();
    }

    /// Appends `item` `additional` times. Within the capacity it does not allocate, else it allocates before it writes.
    ///
    /// # Errors
    ///
    /// `Overflow` exactly where the new length would pass `usize::MAX`, else only `OutOfMemory`. After either error,
    /// the array holds the items that it held.
    pub fn extend_constant(&mut self, additional: usize, item: Option<bool>) -> Result<()>
        ensures { AppendsBooleans result self.old self.new (replicate additional item) }
    {
        self.reserve(additional)?;
        self.validity.extend_constant(additional, item.is_some())?;
        self.values
            .extend_constant(additional, item.unwrap_or(false))?;
        Ok(())
    }

    /// Appends the `len` items of `array` from item `start` on. Requires that `start + len` is at most the length of
    /// `array`. Within the capacity it does not allocate, else it allocates before it writes.
    ///
    /// In arrow2 this call is `GrowableBoolean::extend`.
    ///
    /// # Errors
    ///
    /// `Overflow` exactly where the new length would pass `usize::MAX`, else only `OutOfMemory`. After either error,
    /// the array holds the items that it held.
    pub fn extend_from_array(
        &mut self,
        array: &BooleanArray,
        start: usize,
        len: usize,
    ) -> Result<()>
        requires inside { start + len ≤ length (boolean_items array.now) }
        ensures { AppendsBooleans result self.old self.new (part (boolean_items array.now) start len) }
    {
        self.reserve(len)?;
        array
            .optional_validity()
            .append_to(start, len, &mut self.validity)?;
        extend_part(&mut self.values, array.values(), start, len)?;
        Ok(())
    }

    /// Removes the last item and returns it: `Some(None)` for a null, and `None` where there is no item.
    ///
    /// Differs from arrow2, which returns `None` in both cases.
    pub fn pop(&mut self) -> Option<Option<bool>>
        ensures last { MatchOption result (self.old.items ≡ []) (λ item.
            self.old.items ≡ self.new.items ++ item ∷ []) }
        ensures none { IfNone result (self.new.items ≡ []) }
        ensures capacity { self.new.capacity ≡ self.old.capacity }
    {
        let value = self.values.pop()?;
        let valid = self.validity.pop()?;
        Some(valid.then_some(value))
    }

    /// Keeps the items. Frees all capacity where there is no item. Else frees unused capacity if the allocator can; no
    /// clause states that any is freed. The clauses are on [`MutableBooleanArray::capacity`], the lesser of the
    /// capacities for values and for validity: none states that both fall to 0. Always returns `Ok`. arrow2 returns no
    /// `Result`.
    pub fn shrink_to_fit(&mut self) -> Result<()>
        ensures ok { IsOk result }
        ensures items { self.new.items ≡ self.old.items }
        ensures capacity { self.new.capacity ≤ self.old.capacity }
        ensures frees { self.old.items ≡ [] → self.new.capacity ≡ 0 }
    {
        self.values.shrink_to_fit()?;
        self.validity.shrink_to_fit()
    }

    /// Returns the array of the items. It has a validity bitmap exactly if an item is null. The values under nulls are
    /// unspecified.
    ///
    /// Stands for arrow2's `From<MutableBooleanArray>`.
    ///
    /// # Errors
    ///
    /// Only `OutOfMemory`. The items are then dropped.
    pub fn freeze(self) -> Result<BooleanArray>
        ensures items { IfOk result (λ a. boolean_items a ≡ self.items) }
        ensures bitmap { IfOk result (λ a. IsNone a.validity.bitmap ↔ (nulls self.items ≡ 0)) }
        ensures storage { IfOk result (λ a. IsPacked a.values) }
        ensures packed { IfOk result (λ a. IfSome a.validity.bitmap (λ v. IsPacked v)) }
        ensures only { OnlyOutOfMemory result }
    {
        let validity = self.validity.into_validity()?;
        let values = Bitmap::try_from(self.values)?;
        Ok(BooleanArray::new(values, validity))
    }
}

/// Appends the `len` items of a bitmap from item `start` on. Requires that `start + len` is at most the bitmap's
/// length.
#[tactic(auto, using(crate::proofs::Items::growing))]
fn extend_part(items: &mut MutableBitmap, bitmap: &Bitmap, start: usize, len: usize) -> Result<()>
    requires inside { start + len ≤ length (items_of bitmap.now) }
    ensures { Appends error_of result items.old items.new (part (items_of bitmap.now) start len) }
{
    let (bytes, offset, _) = bitmap.as_slice();
    items.extend_from_slice(bytes, offset + start, len)
}
