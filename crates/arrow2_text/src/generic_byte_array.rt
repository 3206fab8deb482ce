//! An array of nullable byte strings or texts.
ghost use Rattle.std.specs.Prelude.{◌≡◌, ◌+◌, ◌<◌, ◌≤◌, ◌^◌, ◌↔◌, [], None, Some, true, length, map, count_by, replicate, slice_index_or, IsErrOf, IsNone, IfOk, IfSome, IsTrue, MatchOption, option_map, ⊤, IsOk, is_none, is_some, option_copied};
ghost use Rattle.either.specs.Either.{MatchEither};
ghost use Rattle.arrow2_model.specs.Lists.{buffer_items, whole_buffer, part, items_of};
ghost use Rattle.arrow2_walks.specs.Zipped.{zipped};
ghost use Rattle.arrow2_offset.specs.Offsets.{last_of};
ghost use Rattle.arrow2_validity.specs.OptionalValidity.{valid_items};
ghost use Rattle.arrow2_datatypes.specs.Types.{physical};
ghost use Rattle.arrow2_types.specs.Failures.{FailsOnlyWith, OnlyOutOfMemory, OnlyOverflowOrOutOfMemory};
ghost use Rattle.arrow2_text.specs.Binary.{HasBitPerSlot, binary_items, binary_of, binary_values, sliced_binary, slots_between, IsCompact, IsUnsliced, IsWhole};
ghost use Rattle.arrow2_text.specs.Growth.{bytes_of_items};
ghost use Rattle.arrow2_text.specs.Failures.{RejectsParts, not_utf8, past_the_values_message};

use crate::as_item::AsItem;
use crate::byte_array_type::ByteArrayType;
use crate::checks::check_parts;
use crate::mutable_generic_byte_array::MutableGenericByteArray;
use crate::slots::Slots;
use arrow2_bitmap::Bitmap;
use arrow2_buffer::Buffer;
use arrow2_datatypes::DataType;
use arrow2_index::OffsetNumber;
use arrow2_offset::OffsetsBuffer;
use arrow2_types::{Error, Result};
use arrow2_validity::Validity;
use either::Either;
use std::alloc::{AllocError, Global};
use std::marker::{Model, PhantomData};
use std::rc::Rc;

/// An array of nullable byte strings or texts: offsets cut one buffer of bytes into slots. `T` says what a slot holds,
/// also under a null: any bytes for [`BinaryType`](crate::BinaryType), UTF-8 for [`Utf8Type`](crate::Utf8Type). The
/// aliases are [`BinaryArray`](crate::BinaryArray) and [`Utf8Array`](crate::Utf8Array).
///
/// Contracts see its logical type, its offsets, its bytes and its validity. Slices and clones share all four.
/// `binary_items` is the list of its items, in which an item is a list of bytes or null.
///
/// Differs from arrow2 in this: one type stands for two. An `Rc` shares the logical type, so that a clone does not
/// allocate. An array is not `Send`. There is no trait `Array`. `for item in array.iter()` stands for
/// `for item in &array`.
///
/// # Examples
///
/// ```rust
/// use arrow2::array::MutableUtf8Array;
///
/// let mut names = MutableUtf8Array::<i32>::new(alloc)?;
/// names.push(Some("Ada"))?;
/// names.push(None)?;
/// let names = names.freeze()?;
/// assert!(rt; names.get(0) == Some("Ada") && names.get(1).is_none());
/// ```
#[derive(Drop)]
pub struct GenericByteArray<T: ByteArrayType, O: OffsetNumber> {
    slots: Slots<O>,
    array_type: PhantomData<T>,
}

impl<T: ByteArrayType, O: OffsetNumber> Model for GenericByteArray<T, O> {
    ghost use Rattle.std.specs.Prelude.{◌≡◌};
    ghost use Rattle.arrow2_model.specs.Lists.{buffer_items};
    ghost use Rattle.arrow2_datatypes.specs.Types.{physical};
    ghost use Rattle.arrow2_text.specs.Binary.{BinaryParts};
    ghost use Rattle.std.specs.Coded.{codes};
    ghost use Rattle.arrow2_datatypes.specs.contracts.DataType as logical_type;

    ghost Value = { BinaryParts };

    // The encoding by which proofs tell two values apart: derived from those of std's types and from that of
    // `DataType`.
    ghost coded = { Prim.hlevel (codes, logical_type.the_row.coded) };

    ghost view = { λ a. a.slots };

    ghost invariant = { λ a. (physical a.slots.data_type ≡ T.layout O.IS_LARGE)
        × T.Fits (buffer_items a.slots.offsets) (buffer_items a.slots.values) };
}

impl<T: ByteArrayType, O: OffsetNumber> GenericByteArray<T, O> {
    /// Returns the array of these parts: slot i has the bytes from byte `offsets[i]` up to, and without, byte
    /// `offsets[i + 1]`, and is null where bit i of the validity is unset. Without a validity no slot is null.
    ///
    /// # Errors
    ///
    /// It fails if one of these holds: with `InvalidArgumentError`, whose message is that of the first that holds, or
    /// with `OutOfMemory` (in the code only if the message cannot be allocated).
    ///
    /// - the last offset is past the values;
    /// - a slot of an array of texts is not UTF-8: also a slot under a null, and a slot that begins inside a character;
    /// - the validity has another length than the number of slots;
    /// - the physical type of `data_type` is not that of the array: `Binary` for byte strings and `Utf8` for texts, or
    ///   `LargeBinary` and `LargeUtf8` where `O` has 64 bits.
    ///
    /// If none holds, the only error is `OutOfMemory`. After an error the parts are dropped.
    ///
    /// Differs from arrow2, which returns `OutOfSpec` in place of `InvalidArgumentError`.
    pub fn try_new(
        data_type: DataType,
        offsets: OffsetsBuffer<O>,
        values: Buffer<u8>,
        validity: Option<Bitmap>,
    ) -> Result<GenericByteArray<T, O>>
        ensures ok { IfOk result (λ a. a ≡ binary_of data_type offsets values validity) }
        // The last offset is checked first, then the bytes of each slot.
        ensures past { length (buffer_items values) < last_of (buffer_items offsets) →
            FailsOnlyWith result past_the_values_message }
        ensures broken { last_of (buffer_items offsets) ≤ length (buffer_items values) →
            ¬ T.Fits (buffer_items offsets) (buffer_items values) → FailsOnlyWith result not_utf8 }
        ensures rejected { RejectsParts result offsets validity
            (T.Fits (buffer_items offsets) (buffer_items values))
            (physical data_type ≡ T.layout O.IS_LARGE) T.other_layout_message }
    {
        let validity = check_parts::<T, O>(&data_type, &offsets, &values, validity)?;
        let data_type = Rc::new(values.allocator(), data_type)?;
        Ok(GenericByteArray::of_slots(Slots::new(data_type, offsets, values, validity)))
    }

    /// Returns the array of these parts: slot i has the bytes from byte `offsets[i]` up to, and without, byte
    /// `offsets[i + 1]`, and is null where bit i of the validity is unset. Without a validity no slot is null. Requires
    /// that the physical type of `data_type` is that of the array (`Binary` for byte strings and `Utf8` for texts, or
    /// `LargeBinary` and `LargeUtf8` where `O` has 64 bits), that the last offset is not past the values, that each
    /// slot of an array of texts is UTF-8, also under a null, and that the validity, if there is one, has a bit for
    /// each slot. Does not allocate.
    ///
    /// Differs from arrow2, which takes a `DataType`, and panics where `try_new` fails.
    pub fn new(
        data_type: Rc<DataType>,
        offsets: OffsetsBuffer<O>,
        values: Buffer<u8>,
        validity: Option<Bitmap>,
    ) -> GenericByteArray<T, O>
        requires layout { physical data_type.value ≡ T.layout O.IS_LARGE }
        requires fits { T.Fits (buffer_items offsets) (buffer_items values) }
        requires same_length { HasBitPerSlot offsets validity }
        ensures { result ≡ binary_of data_type.value offsets values validity }
    {
        let validity = Validity::new(offsets.len_proxy(), validity);
        GenericByteArray::of_slots(Slots::new(data_type, offsets, values, validity))
    }

    /// Returns the array of these slots. Requires that the physical type is that of an array for `T` with offsets of
    /// type `O`, and that the bytes of each slot are allowed by `T`.
    pub(crate) fn of_slots(slots: Slots<O>) -> GenericByteArray<T, O>
        requires layout { physical slots.data_type ≡ T.layout O.IS_LARGE }
        requires fits { T.Fits (buffer_items slots.offsets) (buffer_items slots.values) }
        ensures { result ≡ slots }
    {
        GenericByteArray {
            slots,
            array_type: PhantomData,
        }
    }

    /// Returns the slots.
    pub(crate) fn slots(&self) -> &Slots<O>
        ensures value { result.now ≡ self.now }
        ensures fits { T.Fits (buffer_items result.now.offsets) (buffer_items result.now.values) }
    {
        &self.slots
    }

    /// Returns the slots.
    pub(crate) fn into_slots(self) -> Slots<O>
        ensures { result ≡ self }
    {
        self.slots
    }

    /// Returns the default logical type: `Binary` for byte strings and `Utf8` for texts, or `LargeBinary` and
    /// `LargeUtf8` where `O` has 64 bits.
    pub fn default_data_type() -> DataType
        ensures value { result ≡ T.default_type O.IS_LARGE }
        ensures layout { physical result ≡ T.layout O.IS_LARGE }
    {
        T::default_data_type(O::IS_LARGE)
    }

    /// Returns an array of a copy of these items. `Overflow` is possible only if the items together have more than
    /// `O::MAX` bytes; else the only error is `OutOfMemory`. Requires that a `usize` can count the offsets: one more
    /// than the items.
    pub(crate) fn from_items<S: AsItem<T>>(
        alloc: Global,
        items: &[S],
    ) -> Result<GenericByteArray<T, O>>
        requires counted { length items.now + 1 < 2 ^ 64 }
        // The items, the logical type, when there is a bitmap, and how the items are stored.
        ensures items { IfOk result (λ a. binary_items a ≡ map S.item items.entry.now) }
        ensures data_type { IfOk result (λ a. a.data_type ≡ T.default_type O.IS_LARGE) }
        ensures bitmap { IfOk result (λ a.
            IsNone a.validity.bitmap ↔ (count_by is_none (map S.item items.entry.now) ≡ 0)) }
        ensures compact { IfOk result (λ a. IsCompact a) }
        ensures bytes { IfOk result (λ a.
            length (buffer_items a.values) ≡ bytes_of_items (map S.item items.entry.now)) }
        // When `Overflow` can come, and which errors can come.
        ensures overflow { IsErrOf result Error.Overflow → O.MAX < bytes_of_items (map S.item items.entry.now) }
        ensures only { OnlyOverflowOrOutOfMemory result }
    {
        let mut array = MutableGenericByteArray::with_capacity(alloc, items.len(), 0)?;
        array.extend_from_items(items)?;
        array.freeze()
    }

    /// Returns the logical type.
    pub fn data_type(&self) -> &Rc<DataType>
        ensures value { result.now.value ≡ self.now.data_type }
        ensures layout { physical self.now.data_type ≡ T.layout O.IS_LARGE }
    {
        self.slots.data_type()
    }

    /// Returns the offsets: for each slot the index of its first byte, and then the index after the last byte of the
    /// last slot.
    pub fn offsets(&self) -> &OffsetsBuffer<O>
        ensures value { result.now ≡ self.now.offsets }
        ensures slots { slots_between result.now ≡ length (binary_items self.now) }
    {
        self.slots.offsets()
    }

    /// Returns the bytes, including bytes before the first offset or after the last one. The last offset is not past
    /// them. In an array of texts each slot is UTF-8.
    pub fn values(&self) -> &Buffer<u8>
        ensures value { result.now ≡ self.now.values }
        ensures fits { T.Fits (buffer_items self.now.offsets) (buffer_items result.now) }
    {
        self.slots.values()
    }

    /// Returns the number of items, nulls too.
    pub fn len(&self) -> usize
        ensures items { result ≡ length (binary_items self.now) }
        ensures values { result ≡ length (binary_values self.now) }
        ensures slots { result ≡ slots_between self.now.offsets }
        ensures validity { result ≡ length (valid_items self.now.validity) }
    {
        self.slots.len()
    }

    /// Returns whether it has no item.
    pub fn is_empty(&self) -> bool
        ensures { IsTrue result ↔ (length (binary_items self.now) ≡ 0) }
    {
        self.len() == 0
    }

    /// Returns the number of nulls. A validity bitmap stores this number, so no bits are counted.
    pub fn null_count(&self) -> usize
        ensures { result ≡ count_by is_none (binary_items self.now) }
    {
        self.slots.null_count()
    }

    /// Returns the bytes of item `index`, or `None` where it is null. In an array of texts they are UTF-8. Requires
    /// that `index` is below the length. arrow2 has no such call.
    pub fn get_bytes(&self, index: usize) -> Option<&[u8]>
        requires below { index < length (binary_items self.now) }
        ensures value { option_copied result ≡ slice_index_or (binary_items self.now) index None }
        ensures known { IfSome (option_copied result) T.IsValue }
    {
        let value = self.value_bytes(index);
        self.is_valid(index).then_some(value)
    }

    /// Returns the bytes of slot `index`, also under a null. In an array of texts they are UTF-8. Requires that `index`
    /// is below the length. arrow2 has no such call.
    pub fn value_bytes(&self, index: usize) -> &[u8]
        requires below { index < length (binary_items self.now) }
        ensures value { result.now ≡ slice_index_or (binary_values self.now) index [] }
        ensures item { IsTrue (is_some (slice_index_or (binary_items self.now) index None)) →
            slice_index_or (binary_items self.now) index None ≡ Some result.now }
        ensures known { T.IsValue result.now }
    {
        prove!(index < self.slots.len());
        self.slots.value(index)
    }

    /// Returns whether item `index` is not null. Requires that `index` is below the length.
    pub fn is_valid(&self, index: usize) -> bool
        requires below { index < length (binary_items self.now) }
        ensures { result ≡ is_some (slice_index_or (binary_items self.now) index None) }
    {
        self.slots.is_valid(index)
    }

    /// Returns whether item `index` is null. Requires that `index` is below the length.
    #[tactic(auto, using(arrow2_validity::proofs::Slots::arrays))]
    pub fn is_null(&self, index: usize) -> bool
        requires below { index < length (binary_items self.now) }
        ensures { result ≡ is_none (slice_index_or (binary_items self.now) index None) }
    {
        !self.slots.is_valid(index)
    }

    /// Returns the validity bitmap, or `None` if there is none. No item is null then.
    pub fn validity(&self) -> Option<&Bitmap>
        ensures value { option_map (λ b. b.now) result ≡ self.now.validity.bitmap }
        ensures items { MatchOption result
            (map is_some (binary_items self.now) ≡ replicate (length (binary_items self.now)) true)
            (λ b. items_of b.now ≡ map is_some (binary_items self.now)) }
    {
        self.optional_validity().bitmap()
    }

    /// Returns the [`Validity`]: the array's length and an optional bitmap. Its methods work with and without a bitmap,
    /// so that a caller needs no branch. arrow2 has no such call.
    pub fn optional_validity(&self) -> &Validity
        ensures value { result.now ≡ self.now.validity }
        ensures len { length (valid_items result.now) ≡ length (binary_items self.now) }
        ensures slots { length (valid_items result.now) ≡ slots_between self.now.offsets }
        ensures items { valid_items result.now ≡ map is_some (binary_items self.now) }
        ensures zipped { zipped (binary_values self.now) (valid_items result.now) ≡ binary_items self.now }
    {
        self.slots.validity()
    }

    /// Keeps `len` items from item `offset` on, over the same storage. Requires that `offset + len` is at most the
    /// length. Does not allocate.
    pub fn slice(&mut self, offset: usize, len: usize)
        requires inside { offset + len ≤ length (binary_items self.old) }
        ensures items { binary_items self.new ≡ part (binary_items self.old) offset len }
        ensures values { binary_values self.new ≡ part (binary_values self.old) offset len }
        ensures storage { self.new ≡ sliced_binary self.old offset len }
    {
        self.slots.slice(offset, len);
        // For the proof alone: reading the bytes brings the invariant that the last offset is not past them.
        let _ = self.slots.values();
    }

    /// Returns the `len` items from item `offset` on, over the same storage. Requires that `offset + len` is at most
    /// the length. Does not allocate.
    pub fn sliced(mut self, offset: usize, len: usize) -> GenericByteArray<T, O>
        requires inside { offset + len ≤ length (binary_items self) }
        ensures items { binary_items result ≡ part (binary_items self) offset len }
        ensures values { binary_values result ≡ part (binary_values self) offset len }
        ensures storage { result ≡ sliced_binary self offset len }
    {
        self.slice(offset, len);
        self
    }

    /// Returns the array of the same slots with this validity in place of its own. Requires that the validity, if there
    /// is one, has a bit for each slot. Does not allocate.
    pub fn with_validity(self, validity: Option<Bitmap>) -> GenericByteArray<T, O>
        requires same_length { HasBitPerSlot self.offsets validity }
        ensures { result ≡ binary_of self.data_type self.offsets self.values validity }
    {
        let (data_type, offsets, values, _) = self.slots.into_parts();
        GenericByteArray::new(data_type, offsets, values, validity)
    }

    /// Returns `Right` of a `MutableGenericByteArray` over the same storage, if all of these hold:
    ///
    /// - the offsets have no other owner, are not sliced, begin at 0, and end after the last byte;
    /// - the bytes have no other owner, and are not sliced;
    /// - the bitmap has no other owner, and begins at bit 0; or there is no bitmap.
    ///
    /// Else returns `Left` of the array as it was. Where the offsets and the bytes can be taken over and there is no
    /// bitmap, the call allocates memory for one.
    ///
    /// It is proved that `Left` has the array as it was, and that `Right` has the array's items, number of bytes and
    /// logical type. It is also proved that `Right` comes only where the offsets begin at 0 and end after the last
    /// byte, the offsets and the bytes are not sliced, and the bitmap, if there is one, begins at bit 0. Three facts
    /// are not proved: `Right` comes only where nobody shares the storage; `Right` has the same storage; `Right` comes
    /// whenever all conditions of the list hold.
    ///
    /// Differs from arrow2, where a `MutableBinaryArray` or a `MutableUtf8Array` without nulls needs no bitmap.
    ///
    /// # Errors
    ///
    /// Only `OutOfMemory`, and only where the offsets are not sliced, begin at 0 and end after the last byte. The array
    /// is then dropped. In the code it comes only if the offsets also have no other owner, and one of these holds:
    ///
    /// - there is no bitmap;
    /// - the bytes are shared or sliced;
    /// - the bitmap is shared, or begins at a bit other than 0.
    pub fn into_mut(self) -> Result<Either<GenericByteArray<T, O>, MutableGenericByteArray<T, O>>>
        ensures ok { IfOk result (λ r. MatchEither r (λ a. a ≡ self)
            (λ m. (m.items ≡ binary_items self) × (m.bytes ≡ length (buffer_items self.values))
            × (m.data_type ≡ self.data_type))) }
        // `Right` comes only where the offsets begin at 0 and end after the last byte, the offsets and the bytes are
        // not sliced, and the bitmap, if there is one, begins at bit 0.
        ensures whole { IfOk result (λ r. MatchEither r (λ _. ⊤) (λ _. IsWhole self × IsUnsliced self)) }
        ensures succeeds { ¬ IsWhole self → IsOk result }
        ensures sliced { ¬ (self.offsets ≡ whole_buffer self.offsets.storage) → IsOk result }
        ensures only { OnlyOutOfMemory result }
    {
        match self.slots.into_mut()? {
            Either::Left(slots) => Ok(Either::Left(GenericByteArray::of_slots(slots))),
            Either::Right(slots) => Ok(Either::Right(MutableGenericByteArray::of_slots(slots))),
        }
    }

    /// Returns the logical type, the offsets, the bytes and the validity bitmap. The last offset is not past the bytes.
    /// In an array of texts each slot is UTF-8. Does not allocate.
    ///
    /// Differs from arrow2, which returns the `DataType` itself.
    pub fn into_inner(self) -> (Rc<DataType>, OffsetsBuffer<O>, Buffer<u8>, Option<Bitmap>)
        ensures data_type { result.0.value ≡ self.data_type }
        ensures offsets { result.1 ≡ self.offsets }
        ensures values { result.2 ≡ self.values }
        ensures validity { result.3 ≡ self.validity.bitmap }
        ensures fits { T.Fits (buffer_items result.1) (buffer_items result.2) }
    {
        let (data_type, offsets, values, validity) = self.slots.into_parts();
        (data_type, offsets, values, validity.into_bitmap())
    }
}

/// Shares the logical type, the offsets, the bytes and the validity. Does not allocate. It returns `AllocError` only if
/// the reference count of an `Rc` would overflow. No clause states any of this.
impl<T: ByteArrayType, O: OffsetNumber> Clone for GenericByteArray<T, O> {
    ghost is_clone = { λ a copy. copy ≡ a };

    fn clone(&self) -> std::result::Result<GenericByteArray<T, O>, AllocError> {
        let slots = self.slots.clone()?;
        Ok(GenericByteArray {
            slots,
            array_type: PhantomData,
        })
    }
}
