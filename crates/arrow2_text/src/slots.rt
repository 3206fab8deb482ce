//! Bytes between offsets with their validity: what arrays of byte strings and of texts store.
ghost use Rattle.std.specs.Prelude.{◌≡◌, ◌+◌, ◌<◌, ◌≤◌, [], None, Some, IfOk, IfSome, IsTrue, length, map, count_by, pos, slice_index_or, sum, ⊤, IsOk, Decides, is_none, is_some};
ghost use Rattle.either.specs.Either.{MatchEither};
ghost use Rattle.arrow2_model.specs.Lists.{buffer_items, whole_buffer, part, items_of};
ghost use Rattle.arrow2_offset.specs.NestedLists.{cut};
ghost use Rattle.arrow2_offset.specs.Offsets.{last_of, lengths_of, offsets_of};
ghost use Rattle.arrow2_walks.specs.Zipped.{zipped};
ghost use Rattle.arrow2_validity.specs.OptionalValidity.{valid_items};
ghost use Rattle.arrow2_text.specs.Binary.{binary_items, binary_parts, binary_values, sliced_binary, slot_offset, slots_between, slots_size, IsUnsliced, IsWhole};
ghost use Rattle.arrow2_text.specs.Growth.{AreThawed};
ghost use Rattle.arrow2_types.specs.Failures.{OnlyOutOfMemory};

use crate::growing::Growing;
use arrow2_bitmap::Bitmap;
use arrow2_buffer::Buffer;
use arrow2_datatypes::DataType;
use arrow2_index::OffsetNumber;
use arrow2_offset::{Offsets, OffsetsBuffer};
use arrow2_types::Result;
use arrow2_validity::Validity;
use arrow2_walks::{SlicesIterator, laws};
use either::Either;
use std::alloc::AllocError;
use std::convert::TryFrom;
use std::marker::Model;
use std::rc::Rc;

/// Bytes between offsets with their validity, and a logical type.
#[derive(Drop)]
pub(crate) struct Slots<O: OffsetNumber> {
    data_type: Rc<DataType>,
    offsets: OffsetsBuffer<O>,
    values: Buffer<u8>,
    validity: Validity,
}

impl<O: OffsetNumber> Model for Slots<O> {
    ghost use Rattle.std.specs.Prelude.{◌≡◌, ◌≤◌, length};
    ghost use Rattle.arrow2_model.specs.Lists.{buffer_items};
    ghost use Rattle.arrow2_offset.specs.Offsets.{last_of};
    ghost use Rattle.arrow2_validity.specs.OptionalValidity.{valid_items};
    ghost use Rattle.arrow2_text.specs.Binary.{BinaryParts, slots_between};
    ghost use Rattle.std.specs.Coded.{codes};
    ghost use Rattle.arrow2_datatypes.specs.contracts.DataType as logical_type;

    ghost Value = { BinaryParts };

    ghost coded = { Prim.hlevel (codes, logical_type.the_row.coded) };

    ghost view = { λ a. record {
      data_type = a.data_type.value;
      offsets = a.offsets;
      values = a.values;
      validity = a.validity;
    } };

    ghost invariant = { λ a. (last_of (buffer_items a.offsets) ≤ length (buffer_items a.values))
        × (length (valid_items a.validity) ≡ slots_between a.offsets) };
}

#[tactic(auto, using(crate::proofs::SlotLists::slotted))]
impl<O: OffsetNumber> Slots<O> {
    /// Returns the slots of these parts. Requires that the last offset is not past the values, and that the validity
    /// has an item for each slot.
    pub(crate) fn new(
        data_type: Rc<DataType>,
        offsets: OffsetsBuffer<O>,
        values: Buffer<u8>,
        validity: Validity,
    ) -> Slots<O>
        requires inside { last_of (buffer_items offsets) ≤ length (buffer_items values) }
        requires same_length { length (valid_items validity) ≡ slots_between offsets }
        ensures { result ≡ binary_parts data_type.value offsets values validity }
    {
        Slots {
            data_type,
            offsets,
            values,
            validity,
        }
    }

    /// Returns the logical type.
    pub(crate) fn data_type(&self) -> &Rc<DataType>
        ensures { result.now.value ≡ self.now.data_type }
    {
        &self.data_type
    }

    /// Returns the offsets.
    pub(crate) fn offsets(&self) -> &OffsetsBuffer<O>
        ensures value { result.now ≡ self.now.offsets }
        ensures slots { slots_between result.now ≡ length (binary_items self.now) }
    {
        &self.offsets
    }

    /// Returns the bytes.
    pub(crate) fn values(&self) -> &Buffer<u8>
        ensures value { result.now ≡ self.now.values }
        ensures inside { last_of (buffer_items self.now.offsets) ≤ length (buffer_items result.now) }
    {
        &self.values
    }

    /// Returns the validity.
    pub(crate) fn validity(&self) -> &Validity
        ensures value { result.now ≡ self.now.validity }
        ensures slots { length (valid_items result.now) ≡ slots_between self.now.offsets }
        ensures known { valid_items result.now ≡ map is_some (binary_items self.now) }
        ensures zipped { zipped (binary_values self.now) (valid_items result.now) ≡ binary_items self.now }
    {
        &self.validity
    }

    /// Returns the number of slots.
    pub(crate) fn len(&self) -> usize
        ensures items { result ≡ length (binary_items self.now) }
        ensures values { result ≡ length (binary_values self.now) }
        ensures lengths { result ≡ slots_between self.now.offsets }
        ensures validity { result ≡ length (valid_items self.now.validity) }
    {
        self.offsets.len_proxy()
    }

    /// Returns the number of nulls.
    pub(crate) fn null_count(&self) -> usize
        ensures { result ≡ count_by is_none (binary_items self.now) }
    {
        self.validity.null_count()
    }

    /// Returns the bytes of slot `index`, also under a null. Requires that `index` is below the number of slots.
    pub(crate) fn value(&self, index: usize) -> &[u8]
        requires below { index < length (binary_items self.now) }
        ensures value { result.now ≡ slice_index_or (binary_values self.now) index [] }
        ensures item { IsTrue (is_some (slice_index_or (binary_items self.now) index None)) →
            slice_index_or (binary_items self.now) index None ≡ Some result.now }
    {
        // For the proof alone: reading the validity brings the invariant that it has an item for each slot.
        let _ = &self.validity;
        self.bytes_at(index)
    }

    /// Returns the bytes of slot `index`. Requires that `index` is below the number of slots.
    fn bytes_at(&self, index: usize) -> &[u8]
        requires below { index < length (binary_items self.now) }
        ensures { result.now ≡ slice_index_or (binary_values self.now) index [] }
    {
        let (start, end) = self.offsets.start_end(index);
        &self.values.as_slice()[start..end]
    }

    /// Returns the offset after the first `index` slots. Requires that `index` is at most the number of slots.
    fn position(&self, index: usize) -> usize
        requires inside { index ≤ slots_between self.now.offsets }
        ensures { result ≡ slot_offset self.now.offsets index }
    {
        if index == self.offsets.len_proxy() {
            return self.offsets.last().as_usize();
        }
        self.offsets.start_end(index).0
    }

    /// Returns the bytes of the `len` slots from slot `start` on. Requires that `start + len` is at most the number of
    /// slots.
    pub(crate) fn bytes_of(&self, start: usize, len: usize) -> &[u8]
        requires inside { start + len ≤ length (binary_items self.now) }
        ensures bytes { result.now ≡ part (buffer_items self.now.values)
            (slot_offset self.now.offsets start)
            (slots_size self.now.offsets start len) }
        ensures len { length result.now ≡ slots_size self.now.offsets start len }
    {
        let count = self.len();
        prove!(start <= count && len <= count - start);
        let (from, to) = (self.position(start), self.position(start + len));
        &self.values.as_slice()[from..to]
    }

    /// Returns whether slot `index` is not null. Requires that `index` is below the number of slots.
    pub(crate) fn is_valid(&self, index: usize) -> bool
        requires below { index < length (binary_items self.now) }
        ensures { result ≡ is_some (slice_index_or (binary_items self.now) index None) }
    {
        self.validity.is_valid(index)
    }

    /// Keeps `len` slots from slot `start` on. Requires that `start + len` is at most the number of slots.
    pub(crate) fn slice(&mut self, start: usize, len: usize)
        requires inside { start + len ≤ length (binary_items self.old) }
        ensures items { binary_items self.new ≡ part (binary_items self.old) start len }
        ensures values { binary_values self.new ≡ part (binary_values self.old) start len }
        ensures storage { self.new ≡ sliced_binary self.old start len }
    {
        self.offsets.slice_slots(start, len);
        self.validity.slice(start, len);
    }

    /// Returns whether both have the same items, whatever bytes are stored under nulls.
    pub(crate) fn same_items(&self, other: &Slots<O>) -> bool
        ensures { Decides result (binary_items self.now ≡ binary_items other.now) }
    {
        let count = self.len();
        if count != other.len() || self.null_count() != other.null_count() {
            return false;
        }
        match (self.validity().bitmap(), other.validity().bitmap()) {
            (Some(valid), Some(others)) => valid == others && self.same_runs(other, valid),
            // One has no bitmap, so it has no null. Both have equally many nulls, so the other has none either.
            _ => self.same_values(other, 0, count),
        }
    }

    /// Returns whether both have the same bytes in each slot whose bit in `valid` is set. Requires that `valid` has a
    /// bit for each slot of either.
    fn same_runs(&self, other: &Slots<O>, valid: &Bitmap) -> bool
        requires mine { length (items_of valid.now) ≡ length (binary_items self.now) }
        requires others { length (items_of valid.now) ≡ length (binary_items other.now) }
        ensures { Decides result (zipped (binary_values self.now) (items_of valid.now)
            ≡ zipped (binary_values other.now) (items_of valid.now)) }
    {
        // For the proof alone: reading the lengths brings the fact that there are as many values as items.
        let _ = (self.len(), other.len());
        laws::runs_lie_inside();
        for (start, len) in SlicesIterator::new(valid) {
            if !self.same_values(other, start, len) {
                return false;
            }
        }
        true
    }

    /// Returns whether the `len` slots from slot `start` on have the same bytes in both, also under nulls. Requires
    /// that `start + len` is at most the number of slots of either.
    fn same_values(&self, other: &Slots<O>, start: usize, len: usize) -> bool
        requires mine { start + len ≤ length (binary_items self.now) }
        requires others { start + len ≤ length (binary_items other.now) }
        ensures { Decides result (part (binary_values self.now) start len
            ≡ part (binary_values other.now) start len) }
    {
        let (bytes, others) = (self.bytes_of(start, len), other.bytes_of(start, len));
        self.same_lengths(other, start, len) && bytes == others
    }

    /// Returns whether the `len` slots from slot `start` on have the same lengths in both. Requires that `start + len`
    /// is at most the number of slots of either.
    fn same_lengths(&self, other: &Slots<O>, start: usize, len: usize) -> bool
        requires mine { start + len ≤ length (binary_items self.now) }
        requires others { start + len ≤ length (binary_items other.now) }
        ensures { Decides result (part (lengths_of (buffer_items self.now.offsets)) start len
            ≡ part (lengths_of (buffer_items other.now.offsets)) start len) }
    {
        // For the proof alone: reading the lengths brings the fact that there are as many slots as items.
        let _ = (self.len(), other.len());
        for index in start..start + len {
            let (from, to) = self.offsets.start_end(index);
            let (other_from, other_to) = other.offsets.start_end(index);
            if to - from != other_to - other_from {
                return false;
            }
        }
        true
    }

    /// Returns `Right` of slots that grow over the same storage, if the storage has no other owner, the offsets and the
    /// bytes are not sliced, the offsets begin at 0 and end after the last byte, and the bitmap begins at bit 0. Else
    /// returns `Left` of the slots as they were. Where there is no bitmap, `Right` has a new one. The only error is
    /// `OutOfMemory`.
    pub(crate) fn into_mut(self) -> Result<Either<Slots<O>, Growing<O>>>
        ensures ok { IfOk result (λ r. AreThawed r self (binary_values self)) }
        // `Right` comes only where the offsets begin at 0 and end after the last byte, the offsets and the bytes are
        // not sliced, and the bitmap, if there is one, begins at bit 0.
        ensures whole { IfOk result (λ r. MatchEither r (λ _. ⊤) (λ _. IsWhole self × IsUnsliced self)) }
        ensures succeeds { ¬ IsWhole self → IsOk result }
        ensures sliced { ¬ (self.offsets ≡ whole_buffer self.offsets.storage) → IsOk result }
        ensures only { OnlyOutOfMemory result }
    {
        let (first, last) = (self.offsets.first(), self.offsets.last());
        if first.as_usize() != 0 || last.as_usize() != self.values.len() {
            return Ok(Either::Left(self));
        }
        let Slots {
            data_type,
            offsets,
            values,
            validity,
        } = self;
        match offsets.into_mut() {
            Either::Left(offsets) => Ok(Either::Left(Slots::new(
                data_type, offsets, values, validity,
            ))),
            Either::Right(offsets) => thaw(data_type, offsets, values, validity),
        }
    }

    /// Returns the parts.
    pub(crate) fn into_parts(self) -> (Rc<DataType>, OffsetsBuffer<O>, Buffer<u8>, Validity)
        ensures data_type { result.0.value ≡ self.data_type }
        ensures offsets { result.1 ≡ self.offsets }
        ensures values { result.2 ≡ self.values }
        ensures validity { result.3 ≡ self.validity }
        ensures inside { last_of (buffer_items result.1) ≤ length (buffer_items result.2) }
        ensures same_length { length (valid_items result.3) ≡ slots_between result.1 }
    {
        (self.data_type, self.offsets, self.values, self.validity)
    }
}

/// Returns `Right` of slots that grow over these parts, if the bytes and the bitmap have no other owner, the bytes are
/// not sliced, and the bitmap begins at bit 0. Else returns `Left` of the slots of these parts. Where there is no
/// bitmap, `Right` has a new one. The only error is `OutOfMemory`. Requires that the offsets begin at 0 and end after
/// the last byte, and that the validity has an item for each slot.
fn thaw<O: OffsetNumber>(
    data_type: Rc<DataType>,
    offsets: Offsets<O>,
    values: Buffer<u8>,
    validity: Validity,
) -> Result<Either<Slots<O>, Growing<O>>>
    // The offsets begin at 0 and end after the last byte, and there is a bit for each slot.
    requires start { offsets.start ≡ 0 }
    requires whole { sum offsets.lengths ≡ length (buffer_items values) }
    requires same_length { length (valid_items validity) ≡ length offsets.lengths }
    // Both sides have these slots. `Right` comes only where the bytes are not sliced and a bitmap begins at bit 0.
    ensures ok { IfOk result (λ r. AreThawed r
        (binary_parts data_type.value (whole_buffer (map pos (offsets_of offsets))) values validity)
        (cut (buffer_items values) offsets.lengths)) }
    ensures unsliced { IfOk result (λ r. MatchEither r (λ _. ⊤) (λ _. values ≡ whole_buffer values.storage)) }
    ensures begins { IfSome validity.bitmap (λ b.
        IfOk result (λ r. MatchEither r (λ _. ⊤) (λ _. b.offset ≡ 0))) }
    ensures only { OnlyOutOfMemory result }
{
    let alloc = values.allocator();
    // For the proof alone: reading the length brings the invariant that the bytes are inside the storage.
    let _ = values.len();
    let values = match values.into_mut() {
        Either::Left(values) => {
            let offsets = OffsetsBuffer::try_from(offsets)?;
            return Ok(Either::Left(Slots::new(data_type, offsets, values, validity)));
        }
        Either::Right(values) => values,
    };
    match validity.into_mut(alloc)? {
        Either::Left(validity) => {
            let offsets = OffsetsBuffer::try_from(offsets)?;
            let values = Buffer::try_from(values)?;
            Ok(Either::Left(Slots::new(data_type, offsets, values, validity)))
        }
        Either::Right(validity) => Ok(Either::Right(Growing::of_parts(
            data_type, offsets, values, validity,
        ))),
    }
}

/// Shares all parts. Does not allocate. Fails only if the reference count of an `Rc` would overflow; no clause states
/// when.
impl<O: OffsetNumber> Clone for Slots<O> {
    ghost is_clone = { λ a copy. copy ≡ a };

    fn clone(&self) -> std::result::Result<Slots<O>, AllocError> {
        Ok(Slots {
            data_type: self.data_type.clone()?,
            offsets: self.offsets.clone()?,
            values: self.values.clone()?,
            validity: self.validity.clone()?,
        })
    }
}
