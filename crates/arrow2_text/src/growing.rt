//! Slots that grow: bytes between offsets, with their validity.
ghost use Rattle.std.specs.Prelude.{◌≡◌, ◌+◌, ◌*◌, ◌<◌, ◌≤◌, ◌^◌, ◌↔◌, [], ◌∷◌, ◌++◌, All, false, length, map, sum, count_by, is_some, option_map, slice_index_or, vec_capacity, IfNone, IfOk, IfSome, IsErrOf, IsNone, IsOk, OnErr, OnOk};
ghost use Rattle.arrow2_model.specs.Lists.{buffer_items, part};
ghost use Rattle.std.specs.Option.{is_none, option_copied, option_map_or, unwrap_or};
ghost use Rattle.arrow2_walks.specs.Zipped.{slot, zipped};
ghost use Rattle.arrow2_validity.specs.OptionalValidity.{valid_items};
ghost use Rattle.arrow2_text.specs.Binary.{binary_items, binary_values, slot_offset, slots_size, IsCompact};
ghost use Rattle.arrow2_offset.specs.NestedLists.{cut};
ghost use Rattle.arrow2_text.specs.Growth.{AppendsCopies, AppendsSlots, AreGrowingSlots, GrownByCopies, GrownBySlots, HasCapacityFor, LosesLastSlot, PopsSlot, ReservesSlots, bytes_of_items, values_of_items};
ghost use Rattle.arrow2_types.specs.Failures.{OnlyOutOfMemory, OnlyOverflowOrOutOfMemory};

use crate::as_item::AsItem;
use crate::byte_array_type::ByteArrayType;
use crate::slots::Slots;
use arrow2_bitmap::MutableBitmap;
use arrow2_buffer::Buffer;
use arrow2_datatypes::DataType;
use arrow2_index::OffsetNumber;
use arrow2_offset::{Offsets, OffsetsBuffer};
use arrow2_types::{Error, Result};
use arrow2_validity::Validity;
use std::alloc::Global;
use std::convert::TryFrom;
use std::marker::Model;
use std::rc::Rc;

/// Slots that grow: bytes between offsets, with their validity, and a logical type.
#[derive(Drop)]
pub(crate) struct Growing<O: OffsetNumber> {
    data_type: Rc<DataType>,
    offsets: Offsets<O>,
    values: Vec<u8>,
    validity: MutableBitmap,
}

impl<O: OffsetNumber> Model for Growing<O> {
    ghost use Rattle.std.specs.Prelude.{◌≡◌, length, min, sum, vec_capacity};
    ghost use Rattle.arrow2_offset.specs.NestedLists.{cut};
    ghost use Rattle.arrow2_text.specs.Growth.{GrowingSlots};
    ghost use Rattle.std.specs.Coded.{codes};
    ghost use Rattle.arrow2_datatypes.specs.contracts.DataType as logical_type;

    ghost Value = { GrowingSlots };

    ghost coded = { Prim.hlevel (codes, logical_type.the_row.coded) };

    ghost view = { λ g. record {
      data_type = g.data_type.value;
      values = cut g.values.items g.offsets.lengths;
      valid = g.validity.items;
      bytes = length g.values.items;
      capacity = min g.offsets.capacity g.validity.capacity;
      byte_capacity = vec_capacity g.values;
    } };

    ghost invariant = { λ g. (g.offsets.start ≡ 0)
        × (sum g.offsets.lengths ≡ length g.values.items)
        × (length g.validity.items ≡ length g.offsets.lengths) };
}

#[tactic(auto, using(crate::proofs::SlotLists::growing))]
impl<O: OffsetNumber> Growing<O> {
    /// Returns an empty list of slots, with capacity for `capacity` slots and `byte_capacity` bytes.
    pub(crate) fn with_capacity(
        data_type: Rc<DataType>,
        alloc: Global,
        capacity: usize,
        byte_capacity: usize,
    ) -> Result<Growing<O>>
        ensures data_type { IfOk result (λ g. g.data_type ≡ data_type.value) }
        ensures ok { IfOk result (λ g. (g.values ≡ []) × (g.valid ≡ []) × (g.bytes ≡ 0)) }
        ensures capacity { IfOk result (λ g.
            (capacity ≤ g.capacity) × (byte_capacity ≤ g.byte_capacity)) }
        ensures overflow { IsErrOf result Error.Overflow ↔ (2 ^ 64 ≤ capacity + 1) }
        ensures only { OnlyOverflowOrOutOfMemory result }
    {
        let offsets = Offsets::with_capacity(alloc, capacity)?;
        let validity = MutableBitmap::with_capacity(alloc, capacity)?;
        let values = Vec::with_capacity(alloc, byte_capacity)?;
        Ok(Growing {
            data_type,
            offsets,
            values,
            validity,
        })
    }

    /// Returns an empty list of slots, with capacity for `capacity` slots and `byte_capacity` bytes. Allocates the `Rc`
    /// of the logical type.
    pub(crate) fn of_default(
        data_type: DataType,
        alloc: Global,
        capacity: usize,
        byte_capacity: usize,
    ) -> Result<Growing<O>>
        ensures data_type { IfOk result (λ g. g.data_type ≡ data_type) }
        ensures ok { IfOk result (λ g. (g.values ≡ []) × (g.valid ≡ []) × (g.bytes ≡ 0)) }
        ensures capacity { IfOk result (λ g.
            (capacity ≤ g.capacity) × (byte_capacity ≤ g.byte_capacity)) }
        ensures overflow { IsErrOf result Error.Overflow ↔ (2 ^ 64 ≤ capacity + 1) }
        ensures only { OnlyOverflowOrOutOfMemory result }
    {
        if capacity == usize::MAX {
            return Err(Error::Overflow);
        }
        let data_type = Rc::new(alloc, data_type)?;
        Growing::with_capacity(data_type, alloc, capacity, byte_capacity)
    }

    /// Returns the slots of these parts. Requires that the offsets begin at 0 and end after the last byte, and that the
    /// validity has an item for each slot.
    pub(crate) fn of_parts(
        data_type: Rc<DataType>,
        offsets: Offsets<O>,
        values: Vec<u8>,
        validity: MutableBitmap,
    ) -> Growing<O>
        // The offsets begin at 0, and cut all values into one slot for each item of the validity.
        requires start { offsets.start ≡ 0 }
        requires whole { sum offsets.lengths ≡ length values.items }
        requires same_length { length validity.items ≡ length offsets.lengths }
        // The slots, and which are not null.
        ensures values { result.values ≡ cut values.items offsets.lengths }
        ensures valid { result.valid ≡ validity.items }
        // The logical type, and the number of bytes.
        ensures data_type { result.data_type ≡ data_type.value }
        ensures bytes { result.bytes ≡ length values.items }
    {
        Growing {
            data_type,
            offsets,
            values,
            validity,
        }
    }

    /// Returns the logical type.
    pub(crate) fn data_type(&self) -> &Rc<DataType>
        ensures { result.now.value ≡ self.now.data_type }
    {
        &self.data_type
    }

    /// Returns the number of slots.
    pub(crate) fn len(&self) -> usize
        ensures values { result ≡ length self.now.values }
        ensures valid { result ≡ length self.now.valid }
    {
        self.offsets.len_proxy()
    }

    /// Returns the number of bytes.
    pub(crate) fn bytes(&self) -> usize
        ensures value { result ≡ self.now.bytes }
        ensures fits { result ≤ O.MAX }
    {
        self.offsets.last().as_usize()
    }

    /// Returns the number of slots that fit before it allocates, including those that it holds.
    pub(crate) fn capacity(&self) -> usize
        ensures value { result ≡ self.now.capacity }
        ensures within_capacity { length self.now.values ≤ result }
    {
        self.offsets.capacity().min(self.validity.capacity())
    }

    /// Returns the number of bytes that fit before it allocates, including those that it holds.
    pub(crate) fn byte_capacity(&self) -> usize
        ensures value { result ≡ self.now.byte_capacity }
        ensures within_capacity { self.now.bytes ≤ result }
    {
        self.values.capacity()
    }

    /// Reserves capacity for `slots` more slots and `bytes` more bytes.
    pub(crate) fn reserve(&mut self, slots: usize, bytes: usize) -> Result<()>
        // The slots, the number of bytes and the logical type are as before.
        ensures data_type { self.new.data_type ≡ self.old.data_type }
        ensures same { length self.old.valid ≡ length self.old.values }
        ensures values { self.new.values ≡ self.old.values }
        ensures valid { self.new.valid ≡ self.old.valid }
        ensures bytes { self.new.bytes ≡ self.old.bytes }
        // After `Ok`, `slots` more slots and `bytes` more bytes fit.
        ensures ok { OnOk result (length self.old.valid + slots ≤ self.new.capacity) }
        ensures ok_bytes { OnOk result (self.old.bytes + bytes ≤ self.new.byte_capacity) }
        // When it overflows, which errors can come, and when none does.
        ensures overflow { IsErrOf result Error.Overflow ↔ (2 ^ 64 ≤ length self.old.valid + slots) }
        ensures only { OnlyOverflowOrOutOfMemory result }
        ensures succeeds { length self.old.valid + slots ≤ self.old.capacity →
            self.old.bytes + bytes ≤ self.old.byte_capacity → IsOk result }
        // Neither capacity falls.
        ensures capacity { self.old.capacity ≤ self.new.capacity }
        ensures byte_capacity { self.old.byte_capacity ≤ self.new.byte_capacity }
    {
        // For the proof alone: reading the length brings the invariant that the validity has an item for each slot.
        let _ = self.len();
        self.validity.reserve(slots)?;
        self.offsets.reserve(slots)?;
        self.values.reserve(bytes)?;
        Ok(())
    }

    /// Reserves capacity for `slots` more slots and `bytes` more bytes. Returns `Overflow` before it reserves anything,
    /// if the last offset would pass `O::MAX`.
    fn reserve_below(&mut self, slots: usize, bytes: usize) -> Result<()>
        ensures { ReservesSlots O.MAX result self.old self.new slots bytes }
    {
        // For the proof alone: reading the length brings the invariant that the validity has an item for each slot.
        let _ = self.len();
        if bytes > O::MAX - self.bytes() {
            return Err(Error::Overflow);
        }
        self.reserve(slots, bytes)
    }

    /// Appends a slot.
    pub(crate) fn push(&mut self, value: &[u8], valid: bool) -> Result<()>
        ensures { AppendsSlots O.MAX result self.old self.new (value.now ∷ []) (valid ∷ []) (length value.now) }
    {
        // For the proof alone: these calls bring the facts that the number of offsets fits a `usize`, and that the last
        // offset is at most `O::MAX`.
        let _ = self.offsets.len();
        let _ = self.offsets.last();
        self.offsets.try_push_usize(value.len())?;
        let pushed = push_slot(&mut self.values, &mut self.validity, value, valid);
        if pushed.is_err() {
            let _ = self.offsets.pop();
        }
        pushed
    }

    /// Appends the `len` slots of `slots` from slot `start` on. Requires that `start + len` is at most the number of
    /// its slots.
    pub(crate) fn extend(&mut self, slots: &Slots<O>, start: usize, len: usize) -> Result<()>
        requires inside { start + len ≤ length (binary_items slots.now) }
        ensures { AppendsSlots O.MAX result self.old self.new (part (binary_values slots.now) start len)
            (part (valid_items slots.now.validity) start len)
            (slots_size slots.now.offsets start len) }
    {
        // For the proof alone: reading the length brings the invariant that the validity has an item for each slot.
        let _ = slots.len();
        let bytes = slots.bytes_of(start, len);
        self.reserve_below(len, bytes.len())?;
        self.extend_within(slots, bytes, start, len);
        Ok(())
    }

    /// Appends the `len` slots of `slots` from slot `start` on. Requires that `start + len` is at most the number of
    /// its slots, and that `bytes` are the bytes of these slots. Requires spare capacity for `len` slots and for these
    /// bytes. Requires that the last offset plus the number of these bytes is at most `O::MAX`, and that a `usize` can
    /// count the slots afterwards.
    fn extend_within(&mut self, slots: &Slots<O>, bytes: &[u8], start: usize, len: usize)
        requires inside { start + len ≤ length (binary_items slots.now) }
        requires bytes { bytes.now ≡ part (buffer_items slots.now.values)
            (slot_offset slots.now.offsets start)
            (slots_size slots.now.offsets start len) }
        requires size { length bytes.now ≡ slots_size slots.now.offsets start len }
        requires spare { HasCapacityFor O.MAX self.old len (length bytes.now) }
        ensures { GrownBySlots self.old self.new (part (binary_values slots.now) start len)
            (part (valid_items slots.now.validity) start len)
            (slots_size slots.now.offsets start len) }
    {
        // For the proof alone: reading the lengths brings the invariants that there is one offset more than there are
        // slots, and that the validity has an item for each slot.
        let _ = slots.len();
        let offsets = slots.offsets();
        let _ = offsets.len();
        // Within the capacities none of these calls allocates, so none returns an error.
        self.values.extend_from_slice(bytes).unwrap();
        self.offsets
            .try_extend_from_slice(offsets, start, len)
            .unwrap();
        slots
            .validity()
            .append_to(start, len, &mut self.validity)
            .unwrap();
    }

    /// Appends these items, all of them or none. The items are counted before any is appended.
    pub(crate) fn extend_from_items<T: ByteArrayType, S: AsItem<T>>(
        &mut self,
        items: &[S],
    ) -> Result<()>
        ensures grown { AppendsSlots O.MAX result self.old self.new (values_of_items (map S.item items.now))
            (map is_some (map S.item items.now)) (bytes_of_items (map S.item items.now)) }
        ensures known { OnOk result (All (λ item. IfSome (S.item item) T.IsValue) items.now) }
    {
        let Some(bytes) = total_bytes::<T, S>(items) else {
            // For the proof alone: these calls bring the facts that the validity has an item for each slot, and that
            // the last offset is at most `O::MAX`.
            let _ = (self.len(), self.bytes(), O::MAX);
            return Err(Error::Overflow);
        };
        self.reserve_below(items.len(), bytes)?;
        self.extend_reserved::<T, S>(items);
        Ok(())
    }

    /// Appends these items. Requires spare capacity for them and for their bytes, that the last offset plus the number
    /// of their bytes is at most `O::MAX`, and that a `usize` can count the slots afterwards.
    fn extend_reserved<T: ByteArrayType, S: AsItem<T>>(&mut self, items: &[S])
        requires spare { HasCapacityFor O.MAX self.old (length items.now) (bytes_of_items (map S.item items.now)) }
        ensures grown { GrownBySlots self.old self.new (values_of_items (map S.item items.now))
            (map is_some (map S.item items.now)) (bytes_of_items (map S.item items.now)) }
        ensures known { All (λ item. IfSome (S.item item) T.IsValue) items.now }
    {
        for item in items {
            self.push_reserved(item.as_item());
        }
    }

    /// Appends an item `additional` times, or not at all.
    pub(crate) fn extend_constant(&mut self, additional: usize, item: Option<&[u8]>) -> Result<()>
        ensures { AppendsCopies O.MAX result self.old self.new additional (option_copied item.entry) }
    {
        let len = item.unwrap_or(&[]).len();
        let Some(bytes) = additional.checked_mul(len) else {
            // For the proof alone: these calls bring the facts that the validity has an item for each slot, and that
            // the last offset is at most `O::MAX`.
            let _ = (self.len(), self.bytes(), O::MAX);
            return Err(Error::Overflow);
        };
        self.reserve_below(additional, bytes)?;
        self.repeat_reserved(additional, item);
        Ok(())
    }

    /// Appends an item `additional` times. Requires spare capacity for that many slots and for their bytes, that the
    /// last offset plus the number of these bytes is at most `O::MAX`, and that a `usize` can count the slots
    /// afterwards.
    fn repeat_reserved(&mut self, additional: usize, item: Option<&[u8]>)
        requires spare { HasCapacityFor O.MAX self.old additional
            (additional * option_map_or length (option_copied item) 0) }
        ensures { GrownByCopies self.old self.new additional (option_copied item.entry) }
    {
        for _ in 0..additional {
            self.push_reserved(item);
        }
    }

    /// Appends an item. Requires spare capacity for a slot and for its bytes, that the last offset plus the number of
    /// these bytes is at most `O::MAX`, and that a `usize` can count the slots afterwards.
    fn push_reserved(&mut self, item: Option<&[u8]>)
        requires spare { HasCapacityFor O.MAX self.old 1 (option_map_or length (option_copied item) 0) }
        ensures { GrownBySlots self.old self.new (unwrap_or (option_copied item.entry) [] ∷ [])
            (is_some (option_copied item.entry) ∷ []) (option_map_or length (option_copied item.entry) 0) }
    {
        let valid = item.is_some();
        let pushed = self.push(item.unwrap_or(&[]), valid);
        prove!(pushed.is_ok());
        let _ = pushed;
    }

    /// Frees unused capacity if the allocator can. Where there is no slot, the capacity for slots is 0 afterwards;
    /// where there is no byte, the capacity for bytes is.
    pub(crate) fn shrink_to_fit(&mut self) -> Result<()>
        ensures ok { IsOk result }
        ensures slots { AreGrowingSlots self.new self.old.values self.old.valid self.old.bytes self.old.data_type }
        ensures same { length self.old.valid ≡ length self.old.values }
        ensures capacity { self.new.capacity ≤ self.old.capacity }
        ensures byte_capacity { self.new.byte_capacity ≤ self.old.byte_capacity }
        ensures frees { self.old.valid ≡ [] → self.new.capacity ≡ 0 }
        ensures frees_bytes { self.old.bytes ≡ 0 → self.new.byte_capacity ≡ 0 }
    {
        // For the proof alone: reading the length brings the invariant that the validity has an item for each slot.
        let _ = self.len();
        self.values.shrink_to_fit();
        self.offsets.shrink_to_fit()?;
        self.validity.shrink_to_fit()
    }

    /// Removes the last slot and returns a copy of its bytes: `Some(None)` where the slot is null, and `None` where
    /// there is no slot.
    pub(crate) fn pop(&mut self) -> Result<Option<Option<Vec<u8>>>>
        ensures { PopsSlot (λ value. value.items) result self.old self.new }
    {
        let Some(last) = self.len().checked_sub(1) else {
            return Ok(None);
        };
        let item = self.copy_of(last)?;
        self.drop_last();
        Ok(Some(item))
    }

    /// Returns a copy of the bytes of slot `index`, or `None` where it is null. Requires that `index` is below the
    /// length.
    fn copy_of(&self, index: usize) -> Result<Option<Vec<u8>>>
        requires below { index < length self.now.valid }
        ensures ok { IfOk result (λ item. option_map (λ value. value.items) item
            ≡ slot (slice_index_or self.now.values index []) (slice_index_or self.now.valid index false)) }
        ensures only { OnlyOutOfMemory result }
        ensures succeeds { slice_index_or self.now.valid index false ≡ false → IsOk result }
    {
        let (start, end) = self.offsets.start_end(index);
        let bytes = &self.values.as_slice()[start..end];
        copy_slot(*self.values.allocator(), bytes, self.validity.get(index))
    }

    /// Removes the last slot. Requires that there is one.
    fn drop_last(&mut self)
        requires { 0 < length self.old.valid }
        ensures { LosesLastSlot self.old self.new }
    {
        let (start, _) = self.offsets.start_end(self.len() - 1);
        self.values.truncate(start);
        let _ = self.offsets.pop();
        let _ = self.validity.pop();
    }

    /// Returns the slots, with a validity bitmap exactly if a slot is null.
    pub(crate) fn freeze(self) -> Result<Slots<O>>
        // The logical type, the slots and which of them are valid.
        ensures data_type { IfOk result (λ s. s.data_type ≡ self.data_type) }
        ensures values { IfOk result (λ s. binary_values s ≡ self.values) }
        ensures valid { IfOk result (λ s. valid_items s.validity ≡ self.valid) }
        ensures bitmap { IfOk result (λ s.
            IsNone s.validity.bitmap ↔ (count_by is_none (zipped self.values self.valid) ≡ 0)) }
        // Nothing is stored besides the slots, and the only error is `OutOfMemory`.
        ensures compact { IfOk result (λ s. IsCompact s) }
        ensures bytes { IfOk result (λ s. length (buffer_items s.values) ≡ self.bytes) }
        ensures only { OnlyOutOfMemory result }
    {
        let Growing {
            data_type,
            offsets,
            values,
            validity,
        } = self;
        let offsets = OffsetsBuffer::try_from(offsets)?;
        let values = Buffer::try_from(values)?;
        let validity = Validity::new(offsets.len_proxy(), validity.into_validity()?);
        Ok(Slots::new(data_type, offsets, values, validity))
    }
}

/// Returns the number of bytes of these items, or `None` if it is above `usize::MAX`.
fn total_bytes<T: ByteArrayType, S: AsItem<T>>(items: &[S]) -> Option<usize>
    ensures some { IfSome result (λ total. total ≡ bytes_of_items (map S.item items.now)) }
    ensures none { IfNone result (2 ^ 64 ≤ bytes_of_items (map S.item items.now)) }
{
    let mut total = 0_usize;
    for item in items {
        let bytes = item.as_item().unwrap_or(&[]);
        total = total.checked_add(bytes.len())?;
    }
    Some(total)
}

/// Appends the bytes of a slot, and whether it is valid. After an error, both hold what they held. Requires that a
/// `usize` can count the slots afterwards.
fn push_slot(
    values: &mut Vec<u8>,
    validity: &mut MutableBitmap,
    value: &[u8],
    valid: bool,
) -> Result<()>
    requires counted { length validity.old.items + 1 < 2 ^ 64 }
    // What is appended after `Ok`, and that an error changes nothing.
    ensures ok_values { OnOk result (values.new.items ≡ values.old.items ++ value.now) }
    ensures ok_valid { OnOk result (validity.new.items ≡ validity.old.items ++ valid ∷ []) }
    ensures err_values { OnErr result (values.new.items ≡ values.old.items) }
    ensures err_valid { OnErr result (validity.new.items ≡ validity.old.items) }
    // The only error, when none comes, and that no capacity falls.
    ensures only { OnlyOutOfMemory result }
    ensures succeeds { length validity.old.items < validity.old.capacity →
        length values.old.items + length value.now ≤ vec_capacity values.old → IsOk result }
    ensures capacity { validity.old.capacity ≤ validity.new.capacity }
    ensures byte_capacity { vec_capacity values.old ≤ vec_capacity values.new }
{
    let len = values.len();
    values.extend_from_slice(value)?;
    let pushed = validity.push(valid);
    if pushed.is_err() {
        values.truncate(len);
    }
    pushed
}

/// Returns a copy of the bytes of a slot, or `None` where `valid` is false.
fn copy_slot(alloc: Global, bytes: &[u8], valid: bool) -> Result<Option<Vec<u8>>>
    ensures ok { IfOk result (λ item. option_map (λ value. value.items) item ≡ slot bytes.now valid) }
    ensures only { OnlyOutOfMemory result }
    ensures succeeds { valid ≡ false → IsOk result }
{
    if valid {
        Ok(Some(bytes.to_vec(alloc)?))
    } else {
        Ok(None)
    }
}
