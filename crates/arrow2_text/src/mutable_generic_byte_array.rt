//! An array of byte strings or texts that grows.
ghost use Rattle.std.specs.Prelude.{◌≡◌, ◌+◌, ◌*◌, ◌<◌, ◌≤◌, ◌^◌, ◌↔◌, [], ◌∷◌, None, length, count_by, map, replicate, IfOk, IfSome, IsErrOf, IsNone, IsOk, IsTrue, OnOk};
ghost use Rattle.std.specs.Iterator.{IsFinite};
ghost use Rattle.std.specs.Iterator.Runs.{WholeRun};
ghost use Rattle.std.specs.Option.{is_none, option_copied, option_map_or};
ghost use Rattle.arrow2_model.specs.Lists.{part, buffer_items};
ghost use Rattle.arrow2_datatypes.specs.Types.{physical};
ghost use Rattle.arrow2_text.specs.Binary.{binary_items, slots_size, IsCompact};
ghost use Rattle.arrow2_text.specs.Growth.{AppendsBinary, HasItems, MayYieldPastOffset, PopsBinary, bytes_of_items, growing_binary};
ghost use Rattle.arrow2_text.specs.Values.{AreValues};
ghost use Rattle.arrow2_types.specs.Failures.{OnlyOutOfMemory, OnlyOverflowOrOutOfMemory};

use crate::as_item::AsItem;
use crate::byte_array_type::ByteArrayType;
use crate::generic_byte_array::GenericByteArray;
use crate::growing::Growing;
use arrow2_datatypes::DataType;
use arrow2_index::OffsetNumber;
use arrow2_types::{Error, Result};
use std::alloc::Global;
use std::marker::{Model, PhantomData};
use std::rc::Rc;

/// An array of byte strings or texts that grows: [`MutableBinaryArray`](crate::MutableBinaryArray) for
/// [`BinaryType`](crate::BinaryType), or [`MutableUtf8Array`](crate::MutableUtf8Array) for
/// [`Utf8Type`](crate::Utf8Type).
///
/// Contracts see its logical type, its items, the number of bytes of their slots, and its two capacities: the number of
/// items and the number of bytes that fit before it allocates. Each call that appends has one `ensures` clause, the
/// record `AppendsBinary` of `specs/Growth.antt`. The record states the items after `Ok` and after an error, exactly
/// when `Overflow` comes, that `OutOfMemory` is the only other error, and that the call succeeds within both capacities
/// where the last offset does not pass `O::MAX`.
///
/// Differs from arrow2 in this: one type stands for two. While the array grows it always has a validity bitmap;
/// [`MutableGenericByteArray::freeze`] drops it where no item is null. Before `freeze` only `pop` reads an item;
/// `MutableBinaryArray` and `MutableUtf8Array` have it. No call overwrites an item.
///
/// # Examples
///
/// ```rust
/// use arrow2::array::MutableUtf8Array;
///
/// let mut names = MutableUtf8Array::<i32>::new(alloc)?;
/// names.push(Some("Ada"))?;
/// names.push(None)?;
/// let names = names.freeze()?;
/// assert!(rt; names.get(0) == Some("Ada") && names.get(1).is_none());
/// ```
#[derive(Drop)]
pub struct MutableGenericByteArray<T: ByteArrayType, O: OffsetNumber> {
    slots: Growing<O>,
    array_type: PhantomData<T>,
}

impl<T: ByteArrayType, O: OffsetNumber> Model for MutableGenericByteArray<T, O> {
    ghost use Rattle.std.specs.Prelude.{◌≡◌};
    ghost use Rattle.arrow2_text.specs.Values.{AreValues};
    ghost use Rattle.arrow2_datatypes.specs.Types.{physical};
    ghost use Rattle.arrow2_text.specs.Growth.{GrowingBinary, growing_binary};
    ghost use Rattle.std.specs.Coded.{codes};
    ghost use Rattle.arrow2_datatypes.specs.contracts.DataType as logical_type;

    ghost Value = { GrowingBinary };

    // The encoding by which proofs tell two values apart: derived from those of std's types and from that of
    // `DataType`.
    ghost coded = { Prim.hlevel (codes, logical_type.the_row.coded) };

    ghost view = { λ a. growing_binary a.slots };

    ghost invariant = { λ a. (physical a.slots.data_type ≡ T.layout O.IS_LARGE)
        × AreValues T.IsValue a.slots.values };
}

#[tactic(auto, using(crate::proofs::SlotLists::growing))]
impl<T: ByteArrayType, O: OffsetNumber> MutableGenericByteArray<T, O> {
    /// Returns an array without items, of the default logical type: `Binary` for byte strings and `Utf8` for texts, or
    /// `LargeBinary` and `LargeUtf8` where `O` has 64 bits.
    ///
    /// # Errors
    ///
    /// Only `OutOfMemory`.
    pub fn new(alloc: Global) -> Result<MutableGenericByteArray<T, O>>
        ensures data_type { IfOk result (λ a. a.data_type ≡ T.default_type O.IS_LARGE) }
        ensures items { IfOk result (λ a. (a.items ≡ []) × (a.bytes ≡ 0)) }
        ensures only { OnlyOutOfMemory result }
    {
        MutableGenericByteArray::with_capacity(alloc, 0, 0)
    }

    /// Returns an array without items, of this logical type, with capacity for at least `capacity` items and
    /// `byte_capacity` bytes. Requires that the physical type of `data_type` is that of the array: `Binary` for byte
    /// strings and `Utf8` for texts, or `LargeBinary` and `LargeUtf8` where `O` has 64 bits.
    ///
    /// # Errors
    ///
    /// `Overflow` exactly where `capacity` is `usize::MAX`, since there is one offset more than there are items; else
    /// only `OutOfMemory`.
    pub fn with_capacity_from(
        alloc: Global,
        data_type: Rc<DataType>,
        capacity: usize,
        byte_capacity: usize,
    ) -> Result<MutableGenericByteArray<T, O>>
        requires { physical data_type.value ≡ T.layout O.IS_LARGE }
        ensures data_type { IfOk result (λ a. a.data_type ≡ data_type.value) }
        ensures items { IfOk result (λ a. (a.items ≡ []) × (a.bytes ≡ 0)) }
        ensures capacity { IfOk result (λ a.
            (capacity ≤ a.capacity) × (byte_capacity ≤ a.byte_capacity)) }
        ensures overflow { IsErrOf result Error.Overflow ↔ (2 ^ 64 ≤ capacity + 1) }
        ensures only { OnlyOverflowOrOutOfMemory result }
    {
        let slots = Growing::with_capacity(data_type, alloc, capacity, byte_capacity)?;
        Ok(MutableGenericByteArray {
            slots,
            array_type: PhantomData,
        })
    }

    /// Returns an array without items, of the default logical type, with capacity for at least `capacity` items and
    /// `byte_capacity` bytes.
    ///
    /// In arrow2 this call is `with_capacities`.
    ///
    /// # Errors
    ///
    /// `Overflow` exactly where `capacity` is `usize::MAX`, since there is one offset more than there are items; else
    /// only `OutOfMemory`.
    pub fn with_capacity(
        alloc: Global,
        capacity: usize,
        byte_capacity: usize,
    ) -> Result<MutableGenericByteArray<T, O>>
        ensures data_type { IfOk result (λ a. a.data_type ≡ T.default_type O.IS_LARGE) }
        ensures items { IfOk result (λ a. (a.items ≡ []) × (a.bytes ≡ 0)) }
        ensures capacity { IfOk result (λ a.
            (capacity ≤ a.capacity) × (byte_capacity ≤ a.byte_capacity)) }
        ensures overflow { IsErrOf result Error.Overflow ↔ (2 ^ 64 ≤ capacity + 1) }
        ensures only { OnlyOverflowOrOutOfMemory result }
    {
        let slots = Growing::of_default(
            T::default_data_type(O::IS_LARGE),
            alloc,
            capacity,
            byte_capacity,
        )?;
        Ok(MutableGenericByteArray {
            slots,
            array_type: PhantomData,
        })
    }

    /// Returns the array of the items of an iterator that ends. Requires that its `next` may be called. `Overflow` is
    /// possible only if the iterator may yield too many items or bytes; else the only error is `OutOfMemory`.
    pub(crate) fn collect_items<S: AsItem<T>, I: Iterator<Item = S> + Drop>(
        alloc: Global,
        items: I,
    ) -> Result<MutableGenericByteArray<T, O>>
        requires can { I.can_next items }
        requires ends { IsFinite (I.remaining items) }
        ensures items { IfOk result (λ a.
            WholeRun I.next_gives items (λ p. HasItems a (map S.item p.items))) }
        ensures data_type { IfOk result (λ a. a.data_type ≡ T.default_type O.IS_LARGE) }
        ensures overflow { IsErrOf result Error.Overflow → MayYieldPastOffset S.item O.MAX I.next_gives items }
        ensures only { OnlyOverflowOrOutOfMemory result }
    {
        let mut array = MutableGenericByteArray::new(alloc)?;
        for item in items {
            array.push_bytes(item.as_item())?;
        }
        Ok(array)
    }

    /// Returns the array of these slots, over their storage. Requires that the physical type is that of an array for
    /// `T` with offsets of type `O`, and that the bytes of each slot are allowed by `T`.
    pub(crate) fn of_slots(slots: Growing<O>) -> MutableGenericByteArray<T, O>
        requires layout { physical slots.data_type ≡ T.layout O.IS_LARGE }
        requires values { AreValues T.IsValue slots.values }
        ensures { result ≡ growing_binary slots }
    {
        MutableGenericByteArray {
            slots,
            array_type: PhantomData,
        }
    }

    /// Removes the last item and returns a copy of its bytes: `Some(None)` for a null, and `None` where there is no
    /// item. The only error is `OutOfMemory`; it leaves the items.
    pub(crate) fn pop_bytes(&mut self) -> Result<Option<Option<Vec<u8>>>>
        ensures popped { PopsBinary (λ value. value.items) result self.old self.new }
        ensures known { IfOk result (λ o. IfSome o (λ item. IfSome item (λ value. T.IsValue value.items))) }
    {
        self.slots.pop()
    }

    /// Returns the logical type.
    pub fn data_type(&self) -> &Rc<DataType>
        ensures value { result.now.value ≡ self.now.data_type }
        ensures layout { physical self.now.data_type ≡ T.layout O.IS_LARGE }
    {
        self.slots.data_type()
    }

    /// Returns the number of items, nulls too.
    pub fn len(&self) -> usize
        ensures { result ≡ length self.now.items }
    {
        self.slots.len()
    }

    /// Returns whether it has no item.
    pub fn is_empty(&self) -> bool
        ensures { IsTrue result ↔ (length self.now.items ≡ 0) }
    {
        self.len() == 0
    }

    /// Returns the number of items that fit before it allocates, if their bytes fit too, including the items that it
    /// holds. arrow2 returns the capacity of the offsets alone.
    pub fn capacity(&self) -> usize
        ensures value { result ≡ self.now.capacity }
        ensures within_capacity { length self.now.items ≤ result }
    {
        // For the proof alone: reading the length brings the fact that there are as many slots as items.
        let _ = self.slots.len();
        self.slots.capacity()
    }

    /// Returns the number of bytes that fit before it allocates, including the bytes that it holds. arrow2 has no such
    /// call.
    pub fn byte_capacity(&self) -> usize
        ensures value { result ≡ self.now.byte_capacity }
        ensures within_capacity { self.now.bytes ≤ result }
    {
        self.slots.byte_capacity()
    }

    /// Reserves capacity for `additional` more items and `bytes` more bytes. Within both capacities it does not
    /// allocate.
    ///
    /// # Errors
    ///
    /// `Overflow` exactly where the sum of the length and `additional` passes `usize::MAX`, else only `OutOfMemory`.
    /// After either error, the array holds the items that it held.
    pub fn reserve(&mut self, additional: usize, bytes: usize) -> Result<()>
        // The items, the number of bytes and the logical type are as before.
        ensures items { self.new.items ≡ self.old.items }
        ensures bytes { self.new.bytes ≡ self.old.bytes }
        ensures data_type { self.new.data_type ≡ self.old.data_type }
        // After `Ok`, `additional` more items and `bytes` more bytes fit.
        ensures ok { OnOk result (length self.old.items + additional ≤ self.new.capacity) }
        ensures ok_bytes { OnOk result (self.old.bytes + bytes ≤ self.new.byte_capacity) }
        // When it overflows, which errors can come, and when none does.
        ensures overflow { IsErrOf result Error.Overflow ↔
            (2 ^ 64 ≤ length self.old.items + additional) }
        ensures only { OnlyOverflowOrOutOfMemory result }
        ensures succeeds { length self.old.items + additional ≤ self.old.capacity →
            self.old.bytes + bytes ≤ self.old.byte_capacity → IsOk result }
        // Neither capacity falls.
        ensures capacity { self.old.capacity ≤ self.new.capacity }
        ensures byte_capacity { self.old.byte_capacity ≤ self.new.byte_capacity }
    {
        self.slots.reserve(additional, bytes)
    }

    /// Appends an item by its bytes, or a null. Requires for an array of texts that the bytes are UTF-8. Within both
    /// capacities it does not allocate. arrow2 has no such call.
    ///
    /// # Errors
    ///
    /// `Overflow` exactly where the last offset would pass `O::MAX`, or the length is `usize::MAX`; else only
    /// `OutOfMemory`. After either error, the array holds the items that it held.
    pub fn push_bytes(&mut self, item: Option<&[u8]>) -> Result<()>
        requires known { IfSome (option_copied item) T.IsValue }
        ensures { AppendsBinary O.MAX result self.old self.new (option_copied item.entry ∷ [])
            (option_map_or length (option_copied item.entry) 0) }
    {
        let valid = item.is_some();
        self.slots.push(item.unwrap_or(&[]), valid)
    }

    /// Appends a null, as `push` of `None` does. Within both capacities it does not allocate.
    ///
    /// # Errors
    ///
    /// `Overflow` exactly where the length is `usize::MAX`, else only `OutOfMemory`. After either error, the array
    /// holds the items that it held.
    pub fn push_null(&mut self) -> Result<()>
        ensures { AppendsBinary O.MAX result self.old self.new (None ∷ []) 0 }
    {
        self.slots.push(&[], false)
    }

    /// Appends these items, all of them or none. The errors are those of `push_bytes`.
    pub(crate) fn extend_from_items<S: AsItem<T>>(&mut self, items: &[S]) -> Result<()>
        ensures { AppendsBinary O.MAX result self.old self.new (map S.item items.now)
            (bytes_of_items (map S.item items.now)) }
    {
        self.slots.extend_from_items::<T, S>(items)
    }

    /// Appends an item `additional` times, or not at all. The errors are those of `push_bytes`. Requires that its bytes
    /// are allowed by `T`.
    pub(crate) fn extend_from_copies(
        &mut self,
        additional: usize,
        item: Option<&[u8]>,
    ) -> Result<()>
        requires known { IfSome (option_copied item) T.IsValue }
        ensures { AppendsBinary O.MAX result self.old self.new (replicate additional (option_copied item.entry))
            (additional * option_map_or length (option_copied item.entry) 0) }
    {
        self.slots.extend_constant(additional, item)
    }

    /// Appends the `len` items of `array` from item `start` on. Ignores the logical type of `array`. Copies the bytes
    /// under nulls too: their number counts for `Overflow` and for the byte capacity; no clause states their values.
    /// Requires that `start + len` is at most the length of `array`. Within both capacities it does not allocate, else
    /// it allocates before it copies any of them.
    ///
    /// In arrow2 this call is in `growable`.
    ///
    /// # Errors
    ///
    /// `Overflow` exactly where the last offset would pass `O::MAX`, or the new length would pass `usize::MAX`; else
    /// only `OutOfMemory`. After either error, the array holds the items that it held.
    pub fn extend_from_array(
        &mut self,
        array: &GenericByteArray<T, O>,
        start: usize,
        len: usize,
    ) -> Result<()>
        requires inside { start + len ≤ length (binary_items array.now) }
        ensures { AppendsBinary O.MAX result self.old self.new (part (binary_items array.now) start len)
            (slots_size array.now.offsets start len) }
    {
        let slots = array.slots();
        // For the proof alone: reading the length brings the invariant that the validity has an item for each slot.
        let _ = slots.len();
        self.slots.extend(slots, start, len)
    }

    /// Frees unused capacity. An array without items has a capacity of 0 items afterwards, and one without bytes has a
    /// capacity of 0 bytes. Where there are items or bytes, the allocator decides whether any is freed. Neither
    /// capacity rises, and the items stay. Always returns `Ok`. arrow2 returns no `Result`.
    pub fn shrink_to_fit(&mut self) -> Result<()>
        ensures ok { IsOk result }
        // The items, the number of bytes and the logical type are as before.
        ensures items { self.new.items ≡ self.old.items }
        ensures bytes { self.new.bytes ≡ self.old.bytes }
        ensures data_type { self.new.data_type ≡ self.old.data_type }
        // Neither capacity rises.
        ensures capacity { self.new.capacity ≤ self.old.capacity }
        ensures byte_capacity { self.new.byte_capacity ≤ self.old.byte_capacity }
        ensures frees { self.old.items ≡ [] → self.new.capacity ≡ 0 }
        ensures frees_bytes { self.old.bytes ≡ 0 → self.new.byte_capacity ≡ 0 }
    {
        self.slots.shrink_to_fit()
    }

    /// Returns the array of the items, and does not test texts for UTF-8 again. The array has a validity bitmap exactly
    /// if an item is null. It stores its slots alone: its offsets go from 0 to the number of bytes. The bytes are moved
    /// and not copied, which no clause states.
    ///
    /// Stands for arrow2's `From<MutableBinaryArray>` and `From<MutableUtf8Array>`.
    ///
    /// # Errors
    ///
    /// Only `OutOfMemory`. The items are then dropped.
    pub fn freeze(self) -> Result<GenericByteArray<T, O>>
        ensures items { IfOk result (λ a. binary_items a ≡ self.items) }
        ensures data_type { IfOk result (λ a. a.data_type ≡ self.data_type) }
        ensures bitmap { IfOk result (λ a.
            IsNone a.validity.bitmap ↔ (count_by is_none self.items ≡ 0)) }
        // Nothing is stored besides the slots.
        ensures compact { IfOk result (λ a. IsCompact a) }
        ensures bytes { IfOk result (λ a. length (buffer_items a.values) ≡ self.bytes) }
        ensures only { OnlyOutOfMemory result }
    {
        let slots = self.slots.freeze()?;
        // For the proof alone: reading the bytes brings the invariant that the last offset is not past them.
        let _ = slots.values();
        Ok(GenericByteArray::of_slots(slots))
    }
}
