//! An array of native values that grows.
ghost use Rattle.std.specs.Prelude.{◌≡◌, ◌+◌, ◌<◌, ◌≤◌, ◌^◌, ◌↔◌, ◌++◌, [], ◌∷◌, None, Some, length, map, replicate, IfOk, IfSome, IsErrOf, IsOk, IfNone, MatchOption, OnErr, OnOk, IsNone, IsTrue, count_by, Some, is_none};
ghost use Rattle.std.specs.Iterator.{IsFinite, IsFiniteIterable};
ghost use Rattle.std.specs.Iterator.Runs.{WholeRun};
ghost use Rattle.arrow2_datatypes.specs.Types.{of_primitive, physical};
ghost use Rattle.arrow2_datatypes.specs.declared.physical_type.PhysicalType.TheVariants.{Primitive};
ghost use Rattle.arrow2_model.specs.Lists.{buffer_items, whole_buffer, part};
ghost use Rattle.arrow2_bitmap.specs.Iterators.{MayYieldTooMany};
ghost use Rattle.arrow2_bitmap.specs.PackedBitmaps.{IsPacked};
ghost use Rattle.arrow2_types.specs.declared.growth_error.GrowthError.TheVariants as growth_error;
ghost use Rattle.arrow2_walks.specs.Zipped.{zipped};
ghost use Rattle.arrow2_packed_bits.specs.Growth.{Reserves};
ghost use Rattle.arrow2_primitive.specs.Growth.{AppendsItems};
ghost use Rattle.arrow2_primitive.specs.Primitive.{primitive_items, GrowingPrimitive};
ghost use Rattle.arrow2_types.specs.Failures.{error_of, OnlyOutOfMemory, OnlyOverflowOrOutOfMemory};

use crate::array::{PrimitiveArray, native_type};
use arrow2_bitmap::MutableBitmap;
use arrow2_buffer::Buffer;
use arrow2_datatypes::DataType;
use arrow2_types::{Error, GrowthError, NativeType, Result};
use arrow2_validity::Validity;
use std::alloc::Global;
use std::convert::TryFrom;
use std::marker::Model;
use std::rc::Rc;

/// An array of native values that grows.
///
/// Contracts see its logical type, its items, and its capacity, which is the number of items that fit before it
/// allocates. Each call that appends has one clause, the record `AppendsItems` of `specs/Growth.antt`. The record
/// states what the items are after `Ok` and after an error, in exactly which cases `Overflow` comes, that `OutOfMemory`
/// is the only other error, and that the call succeeds within the capacity. It also states that the logical type stays,
/// and that the capacity never falls.
///
/// Differs from arrow2: there always is a validity bitmap while the array grows, and [`MutablePrimitiveArray::freeze`]
/// drops it where no item is null. Before `freeze` the only call that reads an item is [`MutablePrimitiveArray::pop`],
/// and no call overwrites an item.
///
/// # Examples
///
/// ```rust
/// use arrow2::array::MutablePrimitiveArray;
///
/// let mut prices = MutablePrimitiveArray::<i64>::new(alloc)?;
/// prices.push(Some(30))?;
/// prices.push(None)?;
/// let column = prices.freeze()?;
/// assert!(rt; column.len() == 2 && column.null_count() == 1);
/// ```
#[derive(Drop)]
pub struct MutablePrimitiveArray<T: NativeType> {
    data_type: Rc<DataType>,
    values: Vec<T>,
    validity: MutableBitmap,
}

impl<T: NativeType> Model for MutablePrimitiveArray<T> {
    ghost use Rattle.std.specs.Prelude.{◌≡◌, length, min, vec_capacity};
    ghost use Rattle.arrow2_walks.specs.Zipped.{zipped};
    ghost use Rattle.arrow2_datatypes.specs.Types.{physical};
    ghost use Rattle.arrow2_datatypes.specs.declared.physical_type.PhysicalType.TheVariants.{Primitive};
    ghost use Rattle.arrow2_primitive.specs.Primitive.{GrowingPrimitive};
    ghost use Rattle.arrow2_datatypes.specs.contracts.DataType as logical_type;
    ghost use Rattle.std.specs.Coded.{codes};

    ghost Value = { GrowingPrimitive T };

    // The encoding by which proofs tell two values apart. `Prim.hlevel` derives it from the encodings of std's types
    // and of `DataType`. `DataType` is recursive, so the kit generates its encoding, `the_row.coded`.
    ghost coded = { Prim.hlevel (codes, logical_type.the_row.coded) };

    ghost view = { λ a. record {
      data_type = a.data_type.value;
      items = zipped a.values.items a.validity.items;
      capacity = min (vec_capacity a.values) a.validity.capacity;
    } };

    ghost invariant = { λ a. (length a.validity.items ≡ length a.values.items)
        × (physical a.data_type.value ≡ Primitive T.PRIMITIVE) };
}

#[tactic(auto, using(crate::proofs::Growing::growing))]
impl<T: NativeType> MutablePrimitiveArray<T> {
    /// Returns an array without items. Allocates only the logical type, which is the one that belongs to `T`.
    ///
    /// # Errors
    ///
    /// Only `OutOfMemory`.
    pub fn new(alloc: Global) -> Result<MutablePrimitiveArray<T>>
        ensures items { IfOk result (λ a. a.items ≡ []) }
        ensures data_type { IfOk result (λ a. a.data_type ≡ of_primitive T.PRIMITIVE) }
        ensures layout { IfOk result (λ a. physical a.data_type ≡ Primitive T.PRIMITIVE) }
        ensures only { OnlyOutOfMemory result }
    {
        MutablePrimitiveArray::with_capacity(alloc, 0)
    }

    /// Returns an array without items, with capacity for at least `capacity` items. The logical type is the one that
    /// belongs to `T`.
    ///
    /// # Errors
    ///
    /// Only `OutOfMemory`.
    pub fn with_capacity(alloc: Global, capacity: usize) -> Result<MutablePrimitiveArray<T>>
        ensures items { IfOk result (λ a. a.items ≡ []) }
        ensures capacity { IfOk result (λ a. capacity ≤ a.capacity) }
        ensures data_type { IfOk result (λ a. a.data_type ≡ of_primitive T.PRIMITIVE) }
        ensures layout { IfOk result (λ a. physical a.data_type ≡ Primitive T.PRIMITIVE) }
        ensures only { OnlyOutOfMemory result }
    {
        Ok(MutablePrimitiveArray {
            data_type: native_type::<T>(alloc)?,
            values: Vec::with_capacity(alloc, capacity)?,
            validity: MutableBitmap::with_capacity(alloc, capacity)?,
        })
    }

    /// Returns an array without items, of this logical type. Requires that the physical type of `data_type` is that of
    /// `T`. Does not allocate.
    pub fn of_type(alloc: Global, data_type: Rc<DataType>) -> MutablePrimitiveArray<T>
        requires { physical data_type.value ≡ Primitive T.PRIMITIVE }
        ensures items { result.items ≡ [] }
        ensures data_type { result.data_type ≡ data_type.value }
    {
        MutablePrimitiveArray {
            data_type,
            values: Vec::new(alloc),
            validity: MutableBitmap::new(alloc),
        }
    }

    /// Returns an array without items that shares the logical type of `array`. Does not allocate. It fails only if the
    /// reference count of the `Rc` would overflow, which no clause states. arrow2 has no such call.
    ///
    /// # Errors
    ///
    /// Only `OutOfMemory`.
    pub fn like(array: &PrimitiveArray<T>) -> Result<MutablePrimitiveArray<T>>
        ensures items { IfOk result (λ a. a.items ≡ []) }
        ensures data_type { IfOk result (λ a. a.data_type ≡ array.now.data_type) }
        ensures only { OnlyOutOfMemory result }
    {
        let data_type = array.data_type().clone()?;
        Ok(MutablePrimitiveArray::of_type(array.values().allocator(), data_type))
    }

    /// Returns an array of the items of an iterator, in their order. The logical type is the one that belongs to `T`.
    /// Requires that the iterator ends, and that its `next` may be called a first time. (By std's contract of `next`,
    /// it may then be called again after each item.) Does not read the size hint.
    ///
    /// Stands for arrow2's `FromIterator`.
    ///
    /// # Errors
    ///
    /// `Overflow` or `OutOfMemory`. `Overflow` comes only if the contract of the iterator allows more than `usize::MAX`
    /// items. After either error, the iterator and the items so far are dropped.
    pub fn try_from_iter<I: IntoIterator<Item = Option<T>>>(
        alloc: Global,
        iter: I,
    ) -> Result<MutablePrimitiveArray<T>>
        requires { IsFiniteIterable I.into_iter_gives I.IntoIter.can_next I.IntoIter.remaining iter }
        // All items of a run of the iterator.
        ensures items { IfOk result (λ a. (it : I.IntoIter) × I.into_iter_gives iter it
            × WholeRun I.IntoIter.next_gives it (λ p. a.items ≡ p.items)) }
        ensures data_type { IfOk result (λ a. a.data_type ≡ of_primitive T.PRIMITIVE) }
        // `Overflow` comes only where a run may have too many items.
        ensures overflow { IsErrOf result Error.Overflow →
            (it : I.IntoIter) × I.into_iter_gives iter it × MayYieldTooMany I.IntoIter.next_gives it }
        ensures only { OnlyOverflowOrOutOfMemory result }
    {
        MutablePrimitiveArray::collect_items(alloc, iter.into_iter())
    }

    /// Returns the array of the items of an iterator that ends.
    fn collect_items<I: Iterator<Item = Option<T>> + Drop>(
        alloc: Global,
        items: I,
    ) -> Result<MutablePrimitiveArray<T>>
        requires can { I.can_next items }
        requires ends { IsFinite (I.remaining items) }
        ensures items { IfOk result (λ a. WholeRun I.next_gives items (λ p. a.items ≡ p.items)) }
        ensures data_type { IfOk result (λ a. a.data_type ≡ of_primitive T.PRIMITIVE) }
        ensures overflow { IsErrOf result Error.Overflow → MayYieldTooMany I.next_gives items }
        ensures only { OnlyOverflowOrOutOfMemory result }
    {
        let mut array = MutablePrimitiveArray::new(alloc)?;
        for item in items {
            array.push(item)?;
        }
        Ok(array)
    }

    /// Returns the array of these values and this validity, over their storage. Requires that the physical type of
    /// `data_type` is that of `T`, and that the validity has the length of the values.
    pub(crate) fn of_parts(
        data_type: Rc<DataType>,
        values: Vec<T>,
        validity: MutableBitmap,
    ) -> MutablePrimitiveArray<T>
        requires layout { physical data_type.value ≡ Primitive T.PRIMITIVE }
        requires same_length { length validity.items ≡ length values.items }
        ensures items { result.items ≡ zipped values.items validity.items }
        ensures data_type { result.data_type ≡ data_type.value }
    {
        MutablePrimitiveArray {
            data_type,
            values,
            validity,
        }
    }

    /// Returns the logical type.
    pub fn data_type(&self) -> &Rc<DataType>
        ensures value { result.now.value ≡ self.now.data_type }
        ensures layout { physical self.now.data_type ≡ Primitive T.PRIMITIVE }
    {
        &self.data_type
    }

    /// Returns the number of items, nulls too.
    pub fn len(&self) -> usize
        ensures { result ≡ length self.now.items }
    {
        self.values.len()
    }

    /// Returns whether it has no item.
    pub fn is_empty(&self) -> bool
        ensures { IsTrue result ↔ (length self.now.items ≡ 0) }
    {
        self.len() == 0
    }

    /// Returns the number of items that fit before it allocates, including the items that it holds.
    pub fn capacity(&self) -> usize
        ensures value { result ≡ self.now.capacity }
        ensures within_capacity { length self.now.items ≤ result }
    {
        self.values.capacity().min(self.validity.capacity())
    }

    /// Reserves capacity for `additional` more items. Within the capacity it does not allocate.
    ///
    /// # Errors
    ///
    /// `Overflow` exactly where the length plus `additional` would pass `usize::MAX`, else only `OutOfMemory`. After
    /// either error, the array holds the items that it held.
    pub fn reserve(&mut self, additional: usize) -> Result<()>
        ensures reserves { Reserves error_of result self.old.items self.new.items additional
            self.old.capacity self.new.capacity }
        ensures data_type { self.new.data_type ≡ self.old.data_type }
    {
        // For the proof alone: reading the capacity brings the fact that the items are within it.
        let _ = self.capacity();
        self.validity.reserve(additional)?;
        self.values.reserve(additional)?;
        Ok(())
    }

    /// Appends an item. Within the capacity it does not allocate.
    ///
    /// # Errors
    ///
    /// `Overflow` exactly where the length is `usize::MAX`, else only `OutOfMemory`. After either error, the array
    /// holds the items that it held.
    pub fn push(&mut self, item: Option<T>) -> Result<()>
        ensures { AppendsItems result self.old self.new (item ∷ []) }
    {
        if self.values.len() == self.values.capacity() {
            self.push_growing(item)?;
            return Ok(());
        }
        self.validity.push(item.is_some())?;
        self.values.push_reserved(item.unwrap_or(T::default()));
        Ok(())
    }

    /// Appends a null, as [`MutablePrimitiveArray::push`] of `None` does. Within the capacity it does not allocate.
    ///
    /// # Errors
    ///
    /// `Overflow` exactly where the length is `usize::MAX`, else only `OutOfMemory`. After either error, the array
    /// holds the items that it held.
    pub fn push_null(&mut self) -> Result<()>
        ensures { AppendsItems result self.old self.new (None ∷ []) }
    {
        self.push(None)
    }

    /// Appends each of these values as an item that is not null. Within the capacity it does not allocate, else it
    /// allocates before it writes.
    ///
    /// # Errors
    ///
    /// `Overflow` exactly where the new length would pass `usize::MAX`, else only `OutOfMemory`. After either error,
    /// the array holds the items that it held.
    pub fn extend_from_slice(&mut self, values: &[T]) -> Result<()>
        ensures { AppendsItems result self.old self.new (map (λ x. Some x) values.now) }
    {
        self.reserve(values.len())?;
        self.validity.extend_constant(values.len(), true)?;
        self.values.extend_from_slice(values)?;
        Ok(())
    }

    /// Appends items. Within the capacity it does not allocate, else it allocates before it writes.
    ///
    /// Stands for arrow2's `extend_trusted_len`, which takes an iterator.
    ///
    /// # Errors
    ///
    /// `Overflow` exactly where the new length would pass `usize::MAX`, else only `OutOfMemory`. After either error,
    /// the array holds the items that it held.
    pub fn extend_from_options(&mut self, items: &[Option<T>]) -> Result<()>
        ensures { AppendsItems result self.old self.new items.now }
    {
        self.reserve(items.len())?;
        for item in items {
            self.push_within(*item);
        }
        Ok(())
    }

    /// Appends `item` `additional` times. Within the capacity it does not allocate, else it allocates before it writes.
    ///
    /// # Errors
    ///
    /// `Overflow` exactly where the new length would pass `usize::MAX`, else only `OutOfMemory`. After either error,
    /// the array holds the items that it held.
    pub fn extend_constant(&mut self, additional: usize, item: Option<T>) -> Result<()>
        ensures { AppendsItems result self.old self.new (replicate additional item) }
    {
        self.reserve(additional)?;
        self.validity.extend_constant(additional, item.is_some())?;
        let len = self.values.len();
        self.values
            .resize(len + additional, item.unwrap_or(T::default()))?;
        Ok(())
    }

    /// Appends the `len` items of `array` from item `start` on. Requires that `start + len` is at most the length of
    /// `array`. Within the capacity it does not allocate, else it allocates before it writes.
    ///
    /// In arrow2 this call is in `growable`.
    ///
    /// # Errors
    ///
    /// `Overflow` exactly where the new length would pass `usize::MAX`, else only `OutOfMemory`. After either error,
    /// the array holds the items that it held.
    pub fn extend_from_array(
        &mut self,
        array: &PrimitiveArray<T>,
        start: usize,
        len: usize,
    ) -> Result<()>
        requires inside { start + len ≤ length (primitive_items array.now) }
        ensures { AppendsItems result self.old self.new (part (primitive_items array.now) start len) }
    {
        self.reserve(len)?;
        array
            .optional_validity()
            .append_to(start, len, &mut self.validity)?;
        self.values
            .extend_from_slice(&array.values().as_slice()[start..start + len])?;
        Ok(())
    }

    /// Removes the last item and returns it: `Some(None)` for a null, and `None` where there is no item.
    ///
    /// Differs from arrow2, which returns `None` in both cases.
    pub fn pop(&mut self) -> Option<Option<T>>
        ensures last { MatchOption result (self.old.items ≡ []) (λ item.
            self.old.items ≡ self.new.items ++ item ∷ []) }
        ensures none { IfNone result (self.new.items ≡ []) }
        ensures data_type { self.new.data_type ≡ self.old.data_type }
        ensures capacity { self.new.capacity ≡ self.old.capacity }
    {
        let value = self.values.pop()?;
        let is_valid = self.validity.pop()?;
        Some(is_valid.then_some(value))
    }

    /// Keeps the items. Frees all capacity where there is no item. Else frees unused capacity if the allocator can; no
    /// clause states that any is freed. The clauses are on [`MutablePrimitiveArray::capacity`], the lesser of the
    /// capacities for values and for validity: none states that both fall to 0. Always returns `Ok`. arrow2 returns no
    /// `Result`.
    pub fn shrink_to_fit(&mut self) -> Result<()>
        ensures ok { IsOk result }
        ensures items { self.new.items ≡ self.old.items }
        ensures data_type { self.new.data_type ≡ self.old.data_type }
        ensures capacity { self.new.capacity ≤ self.old.capacity }
        ensures frees { self.old.items ≡ [] → self.new.capacity ≡ 0 }
    {
        self.values.shrink_to_fit();
        self.validity.shrink_to_fit()
    }

    /// Returns an array of the items. It stores one value for each item, and its values are not sliced: they are all
    /// that their buffer stores. The values under nulls are unspecified. It has a validity bitmap exactly if an item is
    /// null. The values are moved and not copied, which no clause states.
    ///
    /// Stands for arrow2's `From<MutablePrimitiveArray>`.
    ///
    /// # Errors
    ///
    /// Only `OutOfMemory`. The items are then dropped.
    pub fn freeze(self) -> Result<PrimitiveArray<T>>
        ensures items { IfOk result (λ a. primitive_items a ≡ self.items) }
        ensures data_type { IfOk result (λ a. a.data_type ≡ self.data_type) }
        ensures validity { IfOk result (λ a.
            IsNone a.validity.bitmap ↔ (count_by is_none self.items ≡ 0)) }
        ensures storage { IfOk result (λ a. a.values ≡ whole_buffer (buffer_items a.values)) }
        ensures packed { IfOk result (λ a. IfSome a.validity.bitmap (λ b. IsPacked b)) }
        ensures only { OnlyOutOfMemory result }
    {
        let MutablePrimitiveArray {
            data_type,
            values,
            validity,
        } = self;
        let values = Buffer::try_from(values)?;
        let validity = validity.into_validity()?;
        Ok(PrimitiveArray::new(data_type, values, validity))
    }

    /// Appends an item where the length has reached the capacity. It returns the one-byte `GrowthError`. If it returned
    /// an [`Error`], a loop with `push` inlined would zero the memory of an `Error` at each item.
    fn push_growing(&mut self, item: Option<T>) -> std::result::Result<(), GrowthError>
        requires full { self.old.capacity ≤ length self.old.items }
        ensures ok { OnOk result (self.new.items ≡ self.old.items ++ item ∷ []) }
        ensures err { OnErr result (self.new.items ≡ self.old.items) }
        ensures data_type { self.new.data_type ≡ self.old.data_type }
        ensures overflow { IsErrOf result growth_error.Overflow ↔ (2 ^ 64 ≤ length self.old.items + 1) }
        ensures capacity { self.old.capacity ≤ self.new.capacity }
    {
        if self.values.len() == usize::MAX {
            return Err(GrowthError::Overflow);
        }
        self.values.reserve(1)?;
        if self.validity.push(item.is_some()).is_err() {
            return Err(GrowthError::OutOfMemory);
        }
        self.values.push_reserved(item.unwrap_or(T::default()));
        Ok(())
    }

    /// Appends an item within the capacity.
    fn push_within(&mut self, item: Option<T>)
        requires { length self.old.items < self.old.capacity }
        ensures items { self.new.items ≡ self.old.items ++ item ∷ [] }
        ensures data_type { self.new.data_type ≡ self.old.data_type }
        ensures capacity { self.old.capacity ≤ self.new.capacity }
    {
        let pushed = self.validity.push(item.is_some());
        prove!(pushed.is_ok());
        let _ = pushed;
        self.values.push_reserved(item.unwrap_or(T::default()));
    }
}
