//! An array of nullable native values.
ghost use Rattle.std.specs.Prelude.{◌≡◌, ◌+◌, ◌<◌, ◌≤◌, ◌↔◌, None, Some, length, map, count_by, replicate, true, slice_index_or, ⊤, OnOk, IsNone, IsOk, IfOk, IfSome, IsTrue, MatchOption, option_map, slice_get};
ghost use Rattle.std.specs.Option.{ForSome, is_none, is_some};
ghost use Rattle.std.specs.Slice.Iter.{iter_rest};
ghost use Rattle.either.specs.Either.{MatchEither};
ghost use Rattle.arrow2_model.specs.Lists.{buffer_items, whole_buffer, part, items_of};
ghost use Rattle.arrow2_bitmap.specs.PackedBitmaps.{IsPacked};
ghost use Rattle.arrow2_walks.specs.Selections.{non_null_values};
ghost use Rattle.arrow2_types.specs.Failures.{FailsOnlyWith, OnlyOutOfMemory};
ghost use Rattle.arrow2_validity.specs.OptionalValidity.{valid_items};
ghost use Rattle.arrow2_validity.specs.Failures.{unequal_lengths_message};
ghost use Rattle.arrow2_walks.specs.Zipped.{zipped};
ghost use Rattle.arrow2_datatypes.specs.Types.{of_primitive, physical};
ghost use Rattle.arrow2_datatypes.specs.declared.physical_type.PhysicalType.TheVariants.{Primitive};
ghost use Rattle.arrow2_primitive.specs.Primitive.{PrimitiveParts, primitive_items, sliced_primitive, other_layout_message};

use crate::iterator::PrimitiveIter;
use crate::mutable::MutablePrimitiveArray;
use arrow2_bitmap::Bitmap;
use arrow2_buffer::Buffer;
use arrow2_datatypes::DataType;
use arrow2_datatypes::laws::a_native_type_is_laid_out_as_itself;
use arrow2_types::{Error, NativeType, Result};
use arrow2_validity::Validity;
use arrow2_walks::{ArrayIter, NonNullValuesIter};
use either::Either;
use std::alloc::{AllocError, Global};
use std::convert::TryFrom;
use std::marker::Model;
use std::rc::Rc;
use std::slice::Iter;

/// An array of nullable native values.
///
/// Contracts see its logical type, its values and its validity. Slices and clones share all three. `primitive_items` is
/// the list of its items.
///
/// Differs from arrow2: the logical type is shared by an `Rc`, so that a clone does not allocate. An array is not
/// `Send`, there is no trait `Array`, and `for item in array.iter()` stands for `for item in &array`.
///
/// # Examples
///
/// ```rust
/// use arrow2::array::MutablePrimitiveArray;
///
/// let mut prices = MutablePrimitiveArray::<i64>::new(alloc)?;
/// prices.push(Some(30))?;
/// prices.push(None)?;
/// let column = prices.freeze()?;
/// assert!(rt; column.len() == 2 && column.null_count() == 1);
/// ```
#[derive(Drop)]
pub struct PrimitiveArray<T: NativeType> {
    data_type: Rc<DataType>,
    values: Buffer<T>,
    validity: Validity,
}

impl<T: NativeType> Model for PrimitiveArray<T> {
    ghost use Rattle.std.specs.Prelude.{◌≡◌, length};
    ghost use Rattle.arrow2_model.specs.Lists.{buffer_items};
    ghost use Rattle.arrow2_validity.specs.OptionalValidity.{valid_items};
    ghost use Rattle.arrow2_datatypes.specs.Types.{physical};
    ghost use Rattle.arrow2_datatypes.specs.declared.physical_type.PhysicalType.TheVariants.{Primitive};
    ghost use Rattle.arrow2_primitive.specs.Primitive.{PrimitiveParts};
    ghost use Rattle.arrow2_datatypes.specs.contracts.DataType as logical_type;
    ghost use Rattle.std.specs.Coded.{codes};

    ghost Value = { PrimitiveParts T };

    // The encoding by which proofs tell two values apart. `Prim.hlevel` derives it from the encodings of std's types
    // and of `DataType`. `DataType` is recursive, so the kit generates its encoding, `the_row.coded`.
    ghost coded = { Prim.hlevel (codes, logical_type.the_row.coded) };

    ghost view = { λ a. record { data_type = a.data_type.value; values = a.values; validity = a.validity } };

    ghost invariant = { λ a. (length (valid_items a.validity) ≡ length (buffer_items a.values))
        × (physical a.data_type.value ≡ Primitive T.PRIMITIVE) };
}

#[tactic(auto, using(arrow2_validity::proofs::Slots::arrays))]
impl<T: NativeType> PrimitiveArray<T> {
    /// Returns the array of these values. An item is null where the validity is false; without a validity, no item is
    /// null.
    ///
    /// # Errors
    ///
    /// If one of these holds, it fails with `InvalidArgumentError`, whose message is that of the first that holds, or
    /// with `OutOfMemory`. The code returns `OutOfMemory` in these cases only if the message cannot be allocated; no
    /// clause states that.
    ///
    /// - the validity has another length than the values;
    /// - the physical type of `data_type` is not that of `T`.
    ///
    /// Otherwise the only error is `OutOfMemory`. After an error the arguments are dropped.
    ///
    /// Differs from arrow2, which returns `OutOfSpec` in place of `InvalidArgumentError`.
    pub fn try_new(
        data_type: DataType,
        values: Buffer<T>,
        validity: Option<Bitmap>,
    ) -> Result<PrimitiveArray<T>>
        ensures ok { IfOk result (λ a. (a.data_type ≡ data_type) × (a.values ≡ values)
            × (a.validity ≡ record { len = length (buffer_items values); bitmap = validity })) }
        // `ForSome o (λ v. P)`: if `o` is `Some(v)`, then P holds.
        ensures accepted { OnOk result ((physical data_type ≡ Primitive T.PRIMITIVE)
            × ForSome validity (λ v. length (items_of v) ≡ length (buffer_items values))) }
        ensures unequal { let len = length (buffer_items values) in
            ForSome validity (λ v. ¬ (length (items_of v) ≡ len) →
            FailsOnlyWith result (unequal_lengths_message (length (items_of v)) len)) }
        ensures layout { ForSome validity (λ v. length (items_of v) ≡ length (buffer_items values)) →
            ¬ (physical data_type ≡ Primitive T.PRIMITIVE) →
            FailsOnlyWith result other_layout_message }
        ensures only { ForSome validity (λ v. length (items_of v) ≡ length (buffer_items values)) →
            physical data_type ≡ Primitive T.PRIMITIVE → OnlyOutOfMemory result }
    {
        let alloc = values.allocator();
        let validity = Validity::try_new(values.len(), validity)?;
        check_layout::<T>(alloc, &data_type)?;
        let data_type = Rc::new(alloc, data_type)?;
        Ok(PrimitiveArray {
            data_type,
            values,
            validity,
        })
    }

    /// Returns the array of these values. An item is null where the validity is false; without a validity, no item is
    /// null. Requires that the physical type of `data_type` is that of `T`, and that the validity, if there is one, has
    /// the length of the values. Does not allocate.
    ///
    /// Differs from arrow2, which takes a `DataType`, and panics where `try_new` fails.
    pub fn new(
        data_type: Rc<DataType>,
        values: Buffer<T>,
        validity: Option<Bitmap>,
    ) -> PrimitiveArray<T>
        requires layout { physical data_type.value ≡ Primitive T.PRIMITIVE }
        requires same_length { ForSome validity (λ v. length (items_of v) ≡ length (buffer_items values)) }
        ensures { result ≡ record {
          data_type = data_type.value;
          values = values;
          validity = record { len = length (buffer_items values); bitmap = validity };
        } }
    {
        let validity = Validity::new(values.len(), validity);
        PrimitiveArray {
            data_type,
            values,
            validity,
        }
    }

    /// Returns an array of these values. They are moved and not copied, which no clause states. No item is null. The
    /// logical type is the one that belongs to `T`, `DataType::from(T::PRIMITIVE)`.
    ///
    /// # Errors
    ///
    /// Only `OutOfMemory`. The values are then dropped.
    pub fn from_vec(values: Vec<T>) -> Result<PrimitiveArray<T>>
        ensures items { IfOk result (λ a. primitive_items a ≡ map (λ x. Some x) values.items) }
        ensures data_type { IfOk result (λ a. a.data_type ≡ of_primitive T.PRIMITIVE) }
        ensures storage { IfOk result (λ a. a.values ≡ whole_buffer values.items) }
        ensures bitmap { IfOk result (λ a. IsNone a.validity.bitmap) }
        ensures only { OnlyOutOfMemory result }
    {
        let data_type = native_type::<T>(*values.allocator())?;
        let values = Buffer::try_from(values)?;
        Ok(PrimitiveArray::new(data_type, values, None))
    }

    /// Returns an array of a copy of these values. No item is null. The logical type is the one that belongs to `T`.
    ///
    /// # Errors
    ///
    /// Only `OutOfMemory`.
    pub fn from_slice(alloc: Global, values: &[T]) -> Result<PrimitiveArray<T>>
        ensures items { IfOk result (λ a. primitive_items a ≡ map (λ x. Some x) values.now) }
        ensures data_type { IfOk result (λ a. a.data_type ≡ of_primitive T.PRIMITIVE) }
        ensures storage { IfOk result (λ a. a.values ≡ whole_buffer values.now) }
        ensures bitmap { IfOk result (λ a. IsNone a.validity.bitmap) }
        ensures only { OnlyOutOfMemory result }
    {
        PrimitiveArray::from_vec(Vec::from_slice(alloc, values)?)
    }

    /// Returns an array of these items. The logical type is the one that belongs to `T`. The array has a validity
    /// bitmap exactly if an item is null. The values under nulls are unspecified.
    ///
    /// Stands for arrow2's `From` of a slice.
    ///
    /// # Errors
    ///
    /// Only `OutOfMemory`.
    pub fn from_options(alloc: Global, items: &[Option<T>]) -> Result<PrimitiveArray<T>>
        ensures items { IfOk result (λ a. primitive_items a ≡ items.now) }
        ensures data_type { IfOk result (λ a. a.data_type ≡ of_primitive T.PRIMITIVE) }
        ensures storage { IfOk result (λ a. a.values ≡ whole_buffer (buffer_items a.values)) }
        ensures bitmap { IfOk result (λ a.
            IsNone a.validity.bitmap ↔ (count_by is_none items.now ≡ 0)) }
        ensures packed { IfOk result (λ a. IfSome a.validity.bitmap (λ b. IsPacked b)) }
        ensures only { OnlyOutOfMemory result }
    {
        let data_type = native_type::<T>(alloc)?;
        let values = Buffer::try_from(values_of(alloc, items)?)?;
        let valid = Bitmap::from_slice_with(alloc, items, |item| item.is_some())?;
        Ok(PrimitiveArray::new(data_type, values, valid.into_validity()))
    }

    /// Returns the logical type.
    pub fn data_type(&self) -> &Rc<DataType>
        ensures value { result.now.value ≡ self.now.data_type }
        ensures layout { physical self.now.data_type ≡ Primitive T.PRIMITIVE }
    {
        &self.data_type
    }

    /// Returns the stored values, those under nulls too.
    pub fn values(&self) -> &Buffer<T>
        ensures value { result.now ≡ self.now.values }
        ensures len { length (buffer_items result.now) ≡ length (primitive_items self.now) }
    {
        &self.values
    }

    /// Returns the number of items, nulls too.
    pub fn len(&self) -> usize
        ensures items { result ≡ length (primitive_items self.now) }
        ensures values { result ≡ length (buffer_items self.now.values) }
        ensures validity { result ≡ length (valid_items self.now.validity) }
    {
        self.values.len()
    }

    /// Returns whether it has no item.
    pub fn is_empty(&self) -> bool
        ensures { IsTrue result ↔ (length (primitive_items self.now) ≡ 0) }
    {
        self.len() == 0
    }

    /// Returns the number of nulls. A validity bitmap stores this number, so no bits are counted.
    pub fn null_count(&self) -> usize
        ensures { result ≡ count_by is_none (primitive_items self.now) }
    {
        self.validity.null_count()
    }

    /// Returns item `index`, or `None` where it is null. Requires that `index` is below the length.
    pub fn get(&self, index: usize) -> Option<T>
        requires below { index < length (primitive_items self.now) }
        ensures { result ≡ slice_index_or (primitive_items self.now) index None }
    {
        let value = self.values[index];
        self.validity.is_valid(index).then_some(value)
    }

    /// Returns the stored value at `index`, also under a null. Requires that `index` is below the length.
    pub fn value(&self, index: usize) -> T
        requires below { index < length (primitive_items self.now) }
        ensures { result ≡ slice_index_or (buffer_items self.now.values) index result }
    {
        self.values[index]
    }

    /// Returns whether item `index` is not null. Requires that `index` is below the length.
    pub fn is_valid(&self, index: usize) -> bool
        requires below { index < length (primitive_items self.now) }
        ensures { result ≡ is_some (slice_index_or (primitive_items self.now) index None) }
    {
        self.validity.is_valid(index)
    }

    /// Returns whether item `index` is null. Requires that `index` is below the length.
    pub fn is_null(&self, index: usize) -> bool
        requires below { index < length (primitive_items self.now) }
        ensures { result ≡ is_none (slice_index_or (primitive_items self.now) index None) }
    {
        !self.is_valid(index)
    }

    /// Returns the validity bitmap, or `None` if there is none. No item is null then.
    pub fn validity(&self) -> Option<&Bitmap>
        ensures value { option_map (λ b. b.now) result ≡ self.now.validity.bitmap }
        ensures items { MatchOption result
            (map is_some (primitive_items self.now) ≡ replicate (length (primitive_items self.now)) true)
            (λ b. items_of b.now ≡ map is_some (primitive_items self.now)) }
    {
        self.validity.bitmap()
    }

    /// Returns the [`Validity`]: the array's length and an optional bitmap. Its methods work with and without a bitmap,
    /// so that a caller needs no branch. arrow2 has no such call.
    pub fn optional_validity(&self) -> &Validity
        ensures value { result.now ≡ self.now.validity }
        ensures items { valid_items result.now ≡ map is_some (primitive_items self.now) }
        ensures zipped { zipped (buffer_items self.now.values) (valid_items result.now)
            ≡ primitive_items self.now }
    {
        &self.validity
    }

    /// Returns a double-ended iterator over the items.
    pub fn iter(&self) -> PrimitiveIter<'_, T>
        ensures { result ≡ primitive_items self.now }
    {
        ArrayIter::new(self)
    }

    /// Returns an iterator over the values that are not null, in their order.
    pub fn non_null_values_iter(&self) -> NonNullValuesIter<&PrimitiveArray<T>>
        ensures { result ≡ non_null_values (primitive_items self.now) }
    {
        NonNullValuesIter::new(self)
    }

    /// Returns a double-ended iterator over the stored values, those under nulls too.
    pub fn values_iter(&self) -> Iter<'_, T>
        ensures { iter_rest result ≡ buffer_items self.now.values }
    {
        self.values.iter()
    }

    /// Keeps only the `len` items from item `offset` on, over the same storage. Requires that `offset + len` is at most
    /// the length. Does not allocate.
    pub fn slice(&mut self, offset: usize, len: usize)
        requires inside { offset + len ≤ length (primitive_items self.old) }
        ensures items { primitive_items self.new ≡ part (primitive_items self.old) offset len }
        ensures storage { self.new ≡ sliced_primitive self.old offset len }
    {
        self.values.slice(offset, len);
        self.validity.slice(offset, len);
    }

    /// Returns the `len` items from item `offset` on, over the same storage. Requires that `offset + len` is at most
    /// the length. Does not allocate.
    pub fn sliced(mut self, offset: usize, len: usize) -> PrimitiveArray<T>
        requires inside { offset + len ≤ length (primitive_items self) }
        ensures items { primitive_items result ≡ part (primitive_items self) offset len }
        ensures storage { result ≡ sliced_primitive self offset len }
    {
        self.slice(offset, len);
        self
    }

    /// Returns the array of the same values with this validity in place of its own. Requires that the validity, if
    /// there is one, has the length of the values. Does not allocate.
    pub fn with_validity(self, validity: Option<Bitmap>) -> PrimitiveArray<T>
        requires same_length { ForSome validity (λ v.
            length (items_of v) ≡ length (buffer_items self.values)) }
        ensures { result ≡ record self {
          validity = record { len = length (buffer_items self.values); bitmap = validity };
        } }
    {
        let PrimitiveArray {
            data_type,
            values,
            validity: _,
        } = self;
        PrimitiveArray::new(data_type, values, validity)
    }

    /// Returns `Right` of a `MutablePrimitiveArray` over the same storage, if both of these hold:
    ///
    /// - the values have no other owner, and are not sliced;
    /// - the bitmap has no other owner, and begins at bit 0; or there is no bitmap.
    ///
    /// Else returns `Left` of the array as it was. Where there is no bitmap, `Right` has a new one whose items are all
    /// true.
    ///
    /// It is proved that `Left` has the array as it was, and that `Right` has its items and its logical type. It is
    /// proved that `Right` comes only if the values are not sliced, and the bitmap, if there is one, begins at bit 0.
    /// Three facts are not proved: `Right` comes only if nobody shares the storage; `Right` has the storage of `self`;
    /// `Right` comes whenever both conditions above hold.
    ///
    /// Differs from arrow2, where a `MutablePrimitiveArray` without nulls needs no bitmap.
    ///
    /// # Errors
    ///
    /// Only `OutOfMemory`; the array is then dropped. It is proved that this error comes only if the values are not
    /// sliced. In the code, but not proved, it comes only if the values have no other owner, and one of these holds:
    ///
    /// - there is no bitmap;
    /// - the bitmap is shared, or begins at a bit other than 0.
    pub fn into_mut(self) -> Result<Either<PrimitiveArray<T>, MutablePrimitiveArray<T>>>
        ensures ok { IfOk result (λ r. MatchEither r (λ a. a ≡ self)
            (λ m. (m.items ≡ primitive_items self) × (m.data_type ≡ self.data_type))) }
        // `Right` comes only where the values are not sliced, and the bitmap, if there is one, begins at bit 0. Where
        // the values are sliced, the call succeeds.
        ensures whole { IfOk result (λ r. MatchEither r (λ _. ⊤) (λ _. self.values ≡ whole_buffer self.values.storage)) }
        ensures begins { IfSome self.validity.bitmap (λ b.
            IfOk result (λ r. MatchEither r (λ _. ⊤) (λ _. b.offset ≡ 0))) }
        ensures succeeds { ¬ (self.values ≡ whole_buffer self.values.storage) → IsOk result }
        ensures only { OnlyOutOfMemory result }
    {
        let PrimitiveArray {
            data_type,
            values,
            validity,
        } = self;
        let alloc = values.allocator();
        match values.into_mut() {
            Either::Left(values) => Ok(Either::Left(PrimitiveArray {
                data_type,
                values,
                validity,
            })),
            Either::Right(values) => match validity.into_mut(alloc)? {
                Either::Left(validity) => Ok(Either::Left(PrimitiveArray {
                    data_type,
                    values: Buffer::try_from(values)?,
                    validity,
                })),
                Either::Right(validity) => Ok(Either::Right(MutablePrimitiveArray::of_parts(
                    data_type, values, validity,
                ))),
            },
        }
    }

    /// Returns the logical type, the values and the validity bitmap. Does not allocate.
    ///
    /// Differs from arrow2, which returns the `DataType` itself.
    pub fn into_inner(self) -> (Rc<DataType>, Buffer<T>, Option<Bitmap>)
        ensures data_type { result.0.value ≡ self.data_type }
        ensures values { result.1 ≡ self.values }
        ensures validity { result.2 ≡ self.validity.bitmap }
    {
        (self.data_type, self.values, self.validity.into_bitmap())
    }
}

/// Shares the logical type, the values and the validity. Does not allocate. It fails only if the reference count of an
/// `Rc` would overflow, which no clause states.
impl<T: NativeType> Clone for PrimitiveArray<T> {
    ghost is_clone = { λ a copy. copy ≡ a };

    fn clone(&self) -> std::result::Result<PrimitiveArray<T>, AllocError> {
        Ok(PrimitiveArray {
            data_type: self.data_type.clone()?,
            values: self.values.clone()?,
            validity: self.validity.clone()?,
        })
    }
}

/// Returns the value of each item, and for each null a value that is not specified.
fn values_of<T: NativeType>(
    alloc: Global,
    items: &[Option<T>],
) -> std::result::Result<Vec<T>, AllocError>
    ensures items { IfOk result (λ v. zipped v.items (map is_some items.now) ≡ items.now) }
    ensures len { IfOk result (λ v. length v.items ≡ length items.now) }
{
    let mut values = Vec::with_capacity(alloc, items.len())?;
    for item in items {
        values.push_reserved(item.unwrap_or(T::default()));
    }
    Ok(values)
}

/// Returns the logical type that belongs to `T`.
pub(crate) fn native_type<T: NativeType>(
    alloc: Global,
) -> std::result::Result<Rc<DataType>, AllocError>
    ensures value { IfOk result (λ t. t.value ≡ of_primitive T.PRIMITIVE) }
    ensures layout { IfOk result (λ t. physical t.value ≡ Primitive T.PRIMITIVE) }
{
    a_native_type_is_laid_out_as_itself();
    Ok(Rc::new(alloc, DataType::from(T::PRIMITIVE))?)
}

/// Returns an error exactly if the physical type of `data_type` is not that of `T`.
fn check_layout<T: NativeType>(alloc: Global, data_type: &DataType) -> Result<()>
    ensures ok { OnOk result (physical data_type.now ≡ Primitive T.PRIMITIVE) }
    ensures rejected { ¬ (physical data_type.now ≡ Primitive T.PRIMITIVE) →
        FailsOnlyWith result other_layout_message }
    ensures only { physical data_type.now ≡ Primitive T.PRIMITIVE → IsOk result }
{
    if !data_type.to_physical_type().eq_primitive(T::PRIMITIVE) {
        let text = String::from_str(
            alloc,
            "PrimitiveArray can only be initialized with a DataType whose physical type is Primitive",
        )?;
        return Err(Error::InvalidArgumentError(text));
    }
    Ok(())
}
