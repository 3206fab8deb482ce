//! An array of nullable booleans.
ghost use Rattle.std.specs.Prelude.{◌≡◌, ◌+◌, ◌≤◌, ◌<◌, ◌↔◌, [], ◌∷◌, Bool, Option, Some, None, length, map, slice_index_or, option_map, OnOk, IsOk, IsNone, IfOk, IfSome, IsTrue, MatchOption, slice_get};
ghost use Rattle.std.specs.Bool.{beq};
ghost use Rattle.std.specs.Cmp.{partial_equiv_from_equiv, bool_eq_equiv, on_equiv};
ghost use Rattle.std.specs.Cmp.Lexicographic.{pointwise, lists_equiv, options_equiv};
ghost use Rattle.std.specs.Option.{ForSome, is_some, is_none, option_eq};
ghost use Rattle.std.specs.Ordering.{on};
ghost use Rattle.arrow2_model.specs.Lists.{part, items_of};
ghost use Rattle.arrow2_model.specs.Tables.{each};
ghost use Rattle.arrow2_bitmap.specs.PackedBitmaps.{IsPacked};
ghost use Rattle.arrow2_walks.specs.Selections.{non_null_values};
ghost use Rattle.arrow2_walks.specs.Zipped.{zipped};
ghost use Rattle.arrow2_types.specs.Failures.{FailsOnlyWith, OnlyOutOfMemory};
ghost use Rattle.arrow2_validity.specs.OptionalValidity.{valid_items};
ghost use Rattle.arrow2_validity.specs.Failures.{unequal_lengths_message};
ghost use Rattle.arrow2_array.specs.Items.{boolean_items, sliced_boolean, nulls};
ghost use Rattle.arrow2_array.specs.Kleene.{AgreesWhereOneIsValid, NullableOperator, TablesCompute, by_items, kleene_and, kleene_or};

use crate::iterator::BooleanIter;
use crate::kleene::{
    AND_KNOWN, AND_KNOWN_PAIRED, AND_VALUES, OR_KNOWN, OR_KNOWN_PAIRED, OR_VALUES, validity_by,
};
use crate::mutable::MutableBooleanArray;
use arrow2_bitmap::Bitmap;
use arrow2_bitmap::bitmap_ops::binary_table;
use arrow2_bits::BitmapIter;
use arrow2_types::Result;
use arrow2_validity::Validity;
use arrow2_walks::{ArrayIter, NonNullValuesIter};
use std::alloc::{AllocError, Global};
use std::marker::Model;

/// An array of nullable booleans.
///
/// Contracts see its values and its validity; `boolean_items` is the list of its items. Slices and clones share the
/// bytes of the values and of the validity.
///
/// Differs from arrow2, whose array has a logical type too: `Boolean`, or an extension of it. An array here is not
/// `Send`, and there is no trait `Array`.
///
/// # Examples
///
/// ```rust
/// use arrow2::array::BooleanArray;
///
/// let array = BooleanArray::from_options(alloc, &[Some(true), None, Some(false)])?;
/// assert!(rt; array.len() == 3 && array.null_count() == 1);
/// assert!(rt; array.get(1).is_none() && array.get(2) == Some(false));
/// ```
#[derive(Drop)]
pub struct BooleanArray {
    values: Bitmap,
    validity: Validity,
}

impl Model for BooleanArray {
    ghost use Rattle.std.specs.Prelude.{◌≡◌, length};
    ghost use Rattle.arrow2_model.specs.Lists.{items_of};
    ghost use Rattle.arrow2_validity.specs.OptionalValidity.{valid_items};
    ghost use Rattle.arrow2_array.specs.Items.{BooleanParts};

    ghost Value = { BooleanParts };

    ghost view = { λ a. record { values = a.values; validity = a.validity } };

    ghost invariant = { λ a. length (valid_items a.validity) ≡ length (items_of a.values) };
}

#[tactic(auto, using(crate::proofs::Items::booleans))]
impl BooleanArray {
    /// Returns the array of these values. An item is null where the validity is false; without a validity, no item is
    /// null.
    ///
    /// # Errors
    ///
    /// It fails exactly if the lengths differ, with `InvalidArgumentError` or `OutOfMemory`. The code returns
    /// `OutOfMemory` only if the message cannot be allocated; no clause states that. After an error both bitmaps are
    /// dropped.
    pub fn try_new(values: Bitmap, validity: Option<Bitmap>) -> Result<BooleanArray>
        ensures ok { IfOk result (λ a. a ≡ record {
          values = values;
          validity = record { len = length (items_of values); bitmap = validity };
        }) }
        ensures items { IfOk result (λ a. MatchOption validity
            (boolean_items a ≡ map (λ value. Some value) (items_of values))
            (λ v. boolean_items a ≡ zipped (items_of values) (items_of v))) }
        ensures len { IfOk result (λ a. length (boolean_items a) ≡ length (items_of values)) }
        ensures accepted { IsOk result ↔ ForSome validity (λ v. length (items_of v)
            ≡ length (items_of values)) }
        ensures rejected { ForSome validity (λ v.
            FailsOnlyWith result (unequal_lengths_message (length (items_of v)) (length (items_of values)))) }
    {
        let validity = Validity::try_new(values.len(), validity)?;
        Ok(BooleanArray { values, validity })
    }

    /// Returns the array of these values. An item is null where the validity is false; without a validity, no item is
    /// null. Requires that the validity, if there is one, has the length of the values. Does not allocate.
    pub fn new(values: Bitmap, validity: Option<Bitmap>) -> BooleanArray
        requires same_length { ForSome validity (λ v. length (items_of v) ≡ length (items_of values)) }
        ensures value { result ≡ record {
          values = values;
          validity = record { len = length (items_of values); bitmap = validity };
        } }
        ensures items { MatchOption validity
            (boolean_items result ≡ map (λ value. Some value) (items_of values))
            (λ v. boolean_items result ≡ zipped (items_of values) (items_of v)) }
        ensures len { length (boolean_items result) ≡ length (items_of values) }
    {
        let validity = Validity::new(values.len(), validity);
        BooleanArray { values, validity }
    }

    /// Returns the array of these values. An item is null where the validity is false. Requires that both have equal
    /// lengths. Does not allocate. arrow2 has no such call.
    pub fn from_parts(values: Bitmap, validity: Validity) -> BooleanArray
        requires same_length { length (valid_items validity) ≡ length (items_of values) }
        ensures { result ≡ record { values = values; validity = validity } }
    {
        BooleanArray { values, validity }
    }

    /// Returns the array of these items. It has a validity bitmap exactly if an item is null. The values under nulls
    /// are unspecified.
    ///
    /// Stands for arrow2's `From` of a slice of `Option<bool>`s.
    ///
    /// # Errors
    ///
    /// Only `OutOfMemory`.
    #[tactic(auto, using(crate::proofs::Items::growing))]
    pub fn from_options(alloc: Global, items: &[Option<bool>]) -> Result<BooleanArray>
        ensures items { IfOk result (λ a. boolean_items a ≡ items.now) }
        ensures bitmap { IfOk result (λ a. IsNone a.validity.bitmap ↔ (nulls items.now ≡ 0)) }
        ensures storage { IfOk result (λ a. IsPacked a.values) }
        ensures packed { IfOk result (λ a. IfSome a.validity.bitmap (λ v. IsPacked v)) }
        ensures only { OnlyOutOfMemory result }
    {
        let mut array = MutableBooleanArray::new(alloc);
        array.extend_from_options(items)?;
        array.freeze()
    }

    /// Returns the number of items, nulls too.
    pub fn len(&self) -> usize
        ensures items { result ≡ length (boolean_items self.now) }
        ensures values { result ≡ length (items_of self.now.values) }
        ensures validity { result ≡ length (valid_items self.now.validity) }
    {
        self.values.len()
    }

    /// Returns whether it has no item.
    pub fn is_empty(&self) -> bool
        ensures { IsTrue result ↔ (length (boolean_items self.now) ≡ 0) }
    {
        self.len() == 0
    }

    /// Returns item `index`, or `None` where it is null. Requires that `index` is below the length.
    pub fn get(&self, index: usize) -> Option<bool>
        requires below { index < length (boolean_items self.now) }
        ensures { result ≡ slice_index_or (boolean_items self.now) index None }
    {
        let value = self.values.get_bit(index);
        self.validity.is_valid(index).then_some(value)
    }

    /// Returns the value at `index`, also under a null. Requires that `index` is below the length.
    pub fn value(&self, index: usize) -> bool
        requires below { index < length (boolean_items self.now) }
        ensures { slice_get (items_of self.now.values) index ≡ Some result }
    {
        self.values.get_bit(index)
    }

    /// Returns whether item `index` is not null. Requires that `index` is below the length.
    pub fn is_valid(&self, index: usize) -> bool
        requires below { index < length (boolean_items self.now) }
        ensures { result ≡ is_some (slice_index_or (boolean_items self.now) index None) }
    {
        self.validity.is_valid(index)
    }

    /// Returns whether item `index` is null. Requires that `index` is below the length.
    pub fn is_null(&self, index: usize) -> bool
        requires below { index < length (boolean_items self.now) }
        ensures { result ≡ is_none (slice_index_or (boolean_items self.now) index None) }
    {
        !self.is_valid(index)
    }

    /// Returns the stored values, those under nulls too.
    pub fn values(&self) -> &Bitmap
        ensures value { result.now ≡ self.now.values }
        ensures items { zipped (items_of result.now) (map is_some (boolean_items self.now))
            ≡ boolean_items self.now }
        ensures len { length (items_of result.now) ≡ length (boolean_items self.now) }
    {
        &self.values
    }

    /// Returns the validity bitmap, or `None` where there is none: then no item is null.
    pub fn validity(&self) -> Option<&Bitmap>
        ensures value { option_map (λ b. b.now) result ≡ self.now.validity.bitmap }
        ensures items { MatchOption result (nulls (boolean_items self.now) ≡ 0) (λ b.
            items_of b.now ≡ map is_some (boolean_items self.now)) }
    {
        self.validity.bitmap()
    }

    /// Returns the [`Validity`]: the array's length and an optional bitmap. A caller of its methods need not test
    /// whether there is a bitmap. arrow2 has no such call.
    pub fn optional_validity(&self) -> &Validity
        ensures value { result.now ≡ self.now.validity }
        ensures items { valid_items result.now ≡ map is_some (boolean_items self.now) }
        ensures len { length (valid_items result.now) ≡ length (boolean_items self.now) }
        ensures zipped { zipped (items_of self.now.values) (valid_items result.now)
            ≡ boolean_items self.now }
    {
        &self.validity
    }

    /// Returns the number of nulls. A validity bitmap stores it, so the call reads no bits.
    pub fn null_count(&self) -> usize
        ensures { result ≡ nulls (boolean_items self.now) }
    {
        self.validity.null_count()
    }

    /// Keeps only the `len` items from item `offset` on, over the same bytes. Requires that `offset + len` is at most
    /// the length. Does not allocate.
    pub fn slice(&mut self, offset: usize, len: usize)
        requires inside { offset + len ≤ length (boolean_items self.old) }
        ensures items { boolean_items self.new ≡ part (boolean_items self.old) offset len }
        ensures len { length (boolean_items self.new) ≡ len }
        ensures storage { self.new ≡ sliced_boolean self.old offset len }
    {
        self.values.slice(offset, len);
        self.validity.slice(offset, len);
    }

    /// Returns the `len` items from item `offset` on, over the same bytes. Requires that `offset + len` is at most the
    /// length. Does not allocate.
    pub fn sliced(mut self, offset: usize, len: usize) -> BooleanArray
        requires inside { offset + len ≤ length (boolean_items self) }
        ensures items { boolean_items result ≡ part (boolean_items self) offset len }
        ensures len { length (boolean_items result) ≡ len }
        ensures storage { result ≡ sliced_boolean self offset len }
    {
        self.slice(offset, len);
        self
    }

    /// Returns the array of the same values with another validity. Requires that the validity, if there is one, has the
    /// length of the values. Does not allocate.
    pub fn with_validity(self, validity: Option<Bitmap>) -> BooleanArray
        requires same_length { ForSome validity (λ v.
            length (items_of v) ≡ length (items_of self.values)) }
        ensures value { result ≡ record {
          values = self.values;
          validity = record { len = length (items_of self.values); bitmap = validity };
        } }
        ensures items { MatchOption validity
            (boolean_items result ≡ map (λ value. Some value) (items_of self.values))
            (λ v. boolean_items result ≡ zipped (items_of self.values) (items_of v)) }
        ensures len { length (boolean_items result) ≡ length (boolean_items self) }
    {
        BooleanArray::new(self.values, validity)
    }

    /// Returns the values and the validity bitmap. Does not allocate.
    ///
    /// Differs from arrow2, which returns the logical type too.
    pub fn into_inner(self) -> (Bitmap, Option<Bitmap>)
        ensures values { result.0 ≡ self.values }
        ensures validity { result.1 ≡ self.validity.bitmap }
        ensures len { length (items_of result.0) ≡ length (boolean_items self) }
        ensures same_length { ForSome result.1 (λ v. length (items_of v) ≡ length (items_of result.0)) }
    {
        (self.values, self.validity.into_bitmap())
    }

    /// Returns a double-ended iterator over the items.
    pub fn iter(&self) -> BooleanIter<'_>
        ensures { result ≡ boolean_items self.now }
    {
        ArrayIter::new(self)
    }

    /// Returns a double-ended iterator over the stored values, those under nulls too.
    pub fn values_iter(&self) -> BitmapIter<'_>
        ensures { result ≡ items_of self.now.values }
    {
        self.values.iter()
    }

    /// Returns an iterator over the values that are not null, in their order.
    pub fn non_null_values_iter(&self) -> NonNullValuesIter<&BooleanArray>
        ensures { result ≡ non_null_values (boolean_items self.now) }
    {
        NonNullValuesIter::new(self)
    }

    /// Returns, item by item, whether both items are true, by Kleene's logic: false if either item is false, else null
    /// if either is null, else true. The values of the result are `and` of the values of both arrays, also under nulls.
    /// Requires that both arrays have equal lengths.
    ///
    /// In arrow2 it is `compute::boolean_kleene::and`, which rejects unequal lengths.
    ///
    /// # Errors
    ///
    /// Only `OutOfMemory`.
    pub fn and_kleene(&self, other: &BooleanArray) -> Result<BooleanArray>
        requires same_length { length (boolean_items self.now) ≡ length (boolean_items other.now) }
        // The result, item by item.
        ensures items { IfOk result (λ a.
            boolean_items a ≡ by_items kleene_and (boolean_items self.now) (boolean_items other.now)) }
        ensures len { IfOk result (λ a. length (boolean_items a) ≡ length (boolean_items self.now)) }
        // Its two parts: the values, also under nulls, and the validity.
        ensures values { IfOk result (λ a. items_of a.values
            ≡ each 8 (items_of self.now.values ∷ items_of other.now.values ∷ [])) }
        ensures validity { IfOk result (λ a. valid_items a.validity
            ≡ each 53060 (items_of self.now.values ∷ valid_items self.now.validity
            ∷ items_of other.now.values ∷ valid_items other.now.validity ∷ [])) }
        // It has no bitmap exactly where neither array has one.
        ensures bitmap { IfOk result (λ a. IsNone a.validity.bitmap
            ↔ (IsNone self.now.validity.bitmap × IsNone other.now.validity.bitmap)) }
        // The values are stored in canonical bytes, and so is the validity bitmap, if there is one. The only error is
        // `OutOfMemory`.
        ensures storage { IfOk result (λ a. IsPacked a.values) }
        ensures packed { IfOk result (λ a. IfSome a.validity.bitmap (λ v. IsPacked v)) }
        ensures only { OnlyOutOfMemory result }
    {
        self.by_tables::<AND_VALUES, AND_KNOWN, AND_KNOWN_PAIRED>(other)
    }

    /// Returns, item by item, whether at least one item is true, by Kleene's logic: true if either item is true, else
    /// null if either is null, else false. The values of the result are `or` of the values of both arrays, also under
    /// nulls. Requires that both arrays have equal lengths.
    ///
    /// In arrow2 it is `compute::boolean_kleene::or`, which rejects unequal lengths.
    ///
    /// # Errors
    ///
    /// Only `OutOfMemory`.
    pub fn or_kleene(&self, other: &BooleanArray) -> Result<BooleanArray>
        requires same_length { length (boolean_items self.now) ≡ length (boolean_items other.now) }
        // The result, item by item.
        ensures items { IfOk result (λ a.
            boolean_items a ≡ by_items kleene_or (boolean_items self.now) (boolean_items other.now)) }
        ensures len { IfOk result (λ a. length (boolean_items a) ≡ length (boolean_items self.now)) }
        // Its two parts: the values, also under nulls, and the validity.
        ensures values { IfOk result (λ a. items_of a.values
            ≡ each 14 (items_of self.now.values ∷ items_of other.now.values ∷ [])) }
        ensures validity { IfOk result (λ a. valid_items a.validity
            ≡ each 64648 (items_of self.now.values ∷ valid_items self.now.validity
            ∷ items_of other.now.values ∷ valid_items other.now.validity ∷ [])) }
        // It has no bitmap exactly where neither array has one.
        ensures bitmap { IfOk result (λ a. IsNone a.validity.bitmap
            ↔ (IsNone self.now.validity.bitmap × IsNone other.now.validity.bitmap)) }
        // The values are stored in canonical bytes, and so is the validity bitmap, if there is one. The only error is
        // `OutOfMemory`.
        ensures storage { IfOk result (λ a. IsPacked a.values) }
        ensures packed { IfOk result (λ a. IfSome a.validity.bitmap (λ v. IsPacked v)) }
        ensures only { OnlyOutOfMemory result }
    {
        self.by_tables::<OR_VALUES, OR_KNOWN, OR_KNOWN_PAIRED>(other)
    }

    /// Returns, item by item, the result of an operator for the items of both arrays. Table `VALUES` of both values
    /// gives its values; `KNOWN` and `PAIRED` give its validity, as in `validity_by`. Requires that both arrays have
    /// equal lengths, and that `PAIRED` agrees with `KNOWN`.
    fn by_tables<const VALUES: u8, const KNOWN: u16, const PAIRED: u8>(
        &self,
        other: &BooleanArray,
    ) -> Result<BooleanArray>
        requires same_length { length (boolean_items self.now) ≡ length (boolean_items other.now) }
        requires paired { AgreesWhereOneIsValid PAIRED KNOWN }
        // The result, item by item, for every operator `f` that the tables compute.
        ensures items { (f : NullableOperator) → TablesCompute VALUES KNOWN f →
            IfOk result (λ a. boolean_items a
            ≡ by_items f (boolean_items self.now) (boolean_items other.now)) }
        ensures len { IfOk result (λ a. length (boolean_items a) ≡ length (boolean_items self.now)) }
        // Its two parts: the values, also under nulls, and the validity.
        ensures values { IfOk result (λ a. items_of a.values
            ≡ each VALUES (items_of self.now.values ∷ items_of other.now.values ∷ [])) }
        ensures validity { IfOk result (λ a. valid_items a.validity
            ≡ each KNOWN (items_of self.now.values ∷ valid_items self.now.validity
            ∷ items_of other.now.values ∷ valid_items other.now.validity ∷ [])) }
        // It has no bitmap exactly where neither array has one.
        ensures bitmap { IfOk result (λ a. IsNone a.validity.bitmap
            ↔ (IsNone self.now.validity.bitmap × IsNone other.now.validity.bitmap)) }
        // The values are stored in canonical bytes, and so is the validity bitmap, if there is one. The only error is
        // `OutOfMemory`.
        ensures storage { IfOk result (λ a. IsPacked a.values) }
        ensures packed { IfOk result (λ a. IfSome a.validity.bitmap (λ v. IsPacked v)) }
        ensures only { OnlyOutOfMemory result }
    {
        let values = binary_table(&self.values, &other.values, VALUES)?;
        let validity = validity_by::<KNOWN, PAIRED>(
            &self.values,
            &self.validity,
            &other.values,
            &other.validity,
        )?;
        Ok(BooleanArray { values, validity })
    }
}

/// Iterates over the items, as [`BooleanArray::iter`] does.
impl<'a> IntoIterator for &'a BooleanArray {
    type Item = Option<bool>;

    type IntoIter = BooleanIter<'a>;

    ghost into_iter_gives = { λ a cursor. cursor ≡ boolean_items a.now };

    fn into_iter(self) -> BooleanIter<'a> {
        self.iter()
    }
}

/// Shares the bytes. Does not allocate. It fails only if a reference count would overflow. No clause states any of
/// this.
impl Clone for BooleanArray {
    ghost is_clone = { λ a copy. copy ≡ a };

    fn clone(&self) -> std::result::Result<BooleanArray, AllocError> {
        Ok(BooleanArray {
            values: self.values.clone()?,
            validity: self.validity.clone()?,
        })
    }
}

/// Two arrays are equal exactly if their items are. Nulls are equal, whatever values are under them.
impl PartialEq for BooleanArray {
    ghost eq = { on boolean_items (pointwise (option_eq beq)) };

    ghost laws = { partial_equiv_from_equiv (on_equiv boolean_items (lists_equiv (options_equiv bool_eq_equiv))) };

    fn eq(&self, other: &BooleanArray) -> bool
        ensures equality { result
            ≡ pointwise (option_eq beq) (boolean_items self.now) (boolean_items other.now) }
        ensures same { IsTrue result ↔ (boolean_items self.now ≡ boolean_items other.now) }
    {
        self.len() == other.len() && same_items(self.iter(), other.iter())
    }
}

impl Eq for BooleanArray {
    ghost laws = { on_equiv boolean_items (lists_equiv (options_equiv bool_eq_equiv)) };
}

/// Returns whether two iterators yield the same items.
fn same_items(items: BooleanIter<'_>, others: BooleanIter<'_>) -> bool
    ensures { result ≡ pointwise (option_eq beq) items.entry others.entry }
{
    items.eq(others)
}
