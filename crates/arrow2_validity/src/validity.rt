//! Which items of an array are not null.
ghost use Rattle.std.specs.Prelude.{◌≡◌, ◌+◌, ◌<◌, ◌≤◌, ◌↔◌, [], ◌∷◌, None, Some, false, true, length, replicate, slice_index_or, string_bytes, option_map, MatchOption, IfOk, IfSome, IsNone, IsOk, IsSome, IsTrue, ⊤};
ghost use Rattle.std.specs.Option.{ForSome};
ghost use Rattle.either.specs.Either.{MatchEither};
ghost use Rattle.arrow2_model.specs.Lists.{falses, part, items_of};
ghost use Rattle.arrow2_model.specs.Tables.{each};
ghost use Rattle.arrow2_packed_bits.specs.Growth.{Appends};
ghost use Rattle.arrow2_types.specs.Failures.{FailsOnlyWith, error_of, OnlyOutOfMemory};
ghost use Rattle.arrow2_validity.specs.OptionalValidity.{OptionalValidity, valid_items, sliced_validity};
ghost use Rattle.arrow2_validity.specs.Failures.{unequal_lengths_message};

use arrow2_bitmap::bitmap_ops::and;
use arrow2_bitmap::{Bitmap, MutableBitmap};
use arrow2_types::{Error, Result};
use either::Either;
use std::alloc::{AllocError, Global};
use std::marker::Model;

/// Which items of an array are not null: the number of items, and an optional bitmap. Without a bitmap no item is null.
///
/// Contracts see both; `valid_items` is the list of booleans that they stand for. Clones and slices share the bitmap's
/// bytes. arrow2 has an `Option<Bitmap>` in each array.
#[derive(Drop)]
pub struct Validity {
    len: usize,
    bitmap: Option<Bitmap>,
}

impl Model for Validity {
    ghost use Rattle.std.specs.Prelude.{◌≡◌, length};
    ghost use Rattle.std.specs.Option.{ForSome};
    ghost use Rattle.arrow2_model.specs.Lists.{items_of};
    ghost use Rattle.arrow2_validity.specs.OptionalValidity.{OptionalValidity};

    ghost Value = { OptionalValidity };

    ghost view = { λ v. record { len = v.len; bitmap = v.bitmap } };

    ghost invariant = { λ v. ForSome v.bitmap (λ bitmap. length (items_of bitmap) ≡ v.len) };
}

#[tactic(auto, using(crate::proofs::ValidItems::validities))]
impl Validity {
    /// Returns the validity of `len` items without nulls. Does not allocate.
    pub fn all_valid(len: usize) -> Validity
        ensures value { result ≡ record { len = len; bitmap = None } }
        ensures items { valid_items result ≡ replicate len true }
        ensures len { length (valid_items result) ≡ len }
    {
        Validity { len, bitmap: None }
    }

    /// Returns the validity of `len` items with this bitmap; without a bitmap no item is null. Requires that the
    /// bitmap, if there is one, has `len` items. Does not allocate.
    pub fn new(len: usize, bitmap: Option<Bitmap>) -> Validity
        requires same_length { ForSome bitmap (λ b. length (items_of b) ≡ len) }
        ensures value { result ≡ record { len = len; bitmap = bitmap } }
        ensures len { length (valid_items result) ≡ len }
    {
        Validity { len, bitmap }
    }

    /// Returns the validity of `len` items with this bitmap; without a bitmap no item is null.
    ///
    /// # Errors
    ///
    /// It fails exactly if there is a bitmap of another length, with `InvalidArgumentError` or `OutOfMemory`. The code
    /// returns `OutOfMemory` only if the message cannot be allocated; no clause states that. After an error the bitmap
    /// is dropped.
    pub fn try_new(len: usize, bitmap: Option<Bitmap>) -> Result<Validity>
        ensures ok { IfOk result (λ v. v ≡ record { len = len; bitmap = bitmap }) }
        ensures len { IfOk result (λ v. length (valid_items v) ≡ len) }
        ensures accepted { IsOk result ↔ ForSome bitmap (λ b. length (items_of b) ≡ len) }
        ensures rejected { ForSome bitmap (λ b.
            FailsOnlyWith result (unequal_lengths_message (length (items_of b)) len)) }
    {
        if let Some(bitmap) = &bitmap {
            check_same_length(len, bitmap)?;
        }
        Ok(Validity::new(len, bitmap))
    }

    /// Returns the number of items, nulls too.
    pub fn len(&self) -> usize
        ensures items { result ≡ length (valid_items self.now) }
        ensures value { result ≡ self.now.len }
    {
        self.len
    }

    /// Returns whether there is no item.
    pub fn is_empty(&self) -> bool
        ensures { IsTrue result ↔ (length (valid_items self.now) ≡ 0) }
    {
        self.len() == 0
    }

    /// Returns whether item `index` is not null. Requires that `index` is below the length.
    pub fn is_valid(&self, index: usize) -> bool
        requires below { index < length (valid_items self.now) }
        ensures { result ≡ slice_index_or (valid_items self.now) index false }
    {
        match &self.bitmap {
            Some(bitmap) => bitmap.get_bit(index),
            None => true,
        }
    }

    /// Returns the number of nulls. The bitmap stores it, so the call reads no bits.
    pub fn null_count(&self) -> usize
        ensures { result ≡ falses (valid_items self.now) }
    {
        match &self.bitmap {
            Some(bitmap) => bitmap.unset_bits(),
            None => 0,
        }
    }

    /// Keeps only the `len` items from item `offset` on, over the same bytes. Requires that `offset + len` is at most
    /// the length. Does not allocate.
    pub fn slice(&mut self, offset: usize, len: usize)
        requires inside { offset + len ≤ length (valid_items self.old) }
        ensures items { valid_items self.new ≡ part (valid_items self.old) offset len }
        ensures len { length (valid_items self.new) ≡ len }
        ensures value { self.new ≡ sliced_validity self.old offset len }
    {
        self.len = len;
        if let Some(bitmap) = &mut self.bitmap {
            bitmap.slice(offset, len);
        }
    }

    /// Returns the bitmap, or `None` where there is none: then no item is null.
    pub fn bitmap(&self) -> Option<&Bitmap>
        ensures value { option_map (λ b. b.now) result ≡ self.now.bitmap }
        ensures items { MatchOption result
            (valid_items self.now ≡ replicate (length (valid_items self.now)) true)
            (λ b. items_of b.now ≡ valid_items self.now) }
    {
        self.bitmap.as_ref()
    }

    /// Returns the bitmap, or `None` where there is none.
    pub fn into_bitmap(self) -> Option<Bitmap>
        ensures { result ≡ self.bitmap }
    {
        self.bitmap
    }

    /// Returns the bitmap if an item is null, else `None`: a bitmap without false items is dropped. Does not allocate.
    pub fn into_null_bitmap(self) -> Option<Bitmap>
        ensures none { IsNone result ↔ (falses (valid_items self) ≡ 0) }
        ensures items { valid_items (record { len = self.len; bitmap = result }) ≡ valid_items self }
        ensures value { IfSome result (λ b. self.bitmap ≡ Some b) }
    {
        let Validity { len: _, bitmap } = self;
        bitmap?.into_validity()
    }

    /// Returns `Right` of a bitmap that grows, or `Left` of the validity as it was.
    ///
    /// Where there is a bitmap, `Right` comes only if the bitmap begins at bit 0. In the code `Right` comes exactly if
    /// the bitmap begins there and nobody else shares its bytes; no clause states the condition on sharing. Without a
    /// bitmap, returns `Right` of a new one whose items are all true.
    ///
    /// # Errors
    ///
    /// Only `OutOfMemory`, and only where there is no bitmap.
    pub fn into_mut(self, alloc: Global) -> Result<Either<Validity, MutableBitmap>>
        ensures ok { IfOk result (λ r. MatchEither r (λ v. v ≡ self) (λ m. m.items ≡ valid_items self)) }
        ensures made { IsNone self.bitmap → IfOk result (λ r. MatchEither r (λ _. ⊥) (λ _. ⊤)) }
        ensures begins { IfSome self.bitmap (λ b.
            IfOk result (λ r. MatchEither r (λ _. ⊤) (λ _. b.offset ≡ 0))) }
        ensures only { OnlyOutOfMemory result }
        ensures succeeds { IsSome self.bitmap → IsOk result }
    {
        let Validity { len, bitmap } = self;
        let Some(bitmap) = bitmap else {
            return Ok(Either::Right(MutableBitmap::from_len_set(alloc, len)?));
        };
        match bitmap.into_mut() {
            Either::Left(bitmap) => Ok(Either::Left(Validity::new(len, Some(bitmap)))),
            Either::Right(bitmap) => Ok(Either::Right(bitmap)),
        }
    }

    /// Appends to `grown` the validity of the `len` items from item `start` on. Requires that `start + len` is at most
    /// the length. Within the capacity it does not allocate.
    ///
    /// # Errors
    ///
    /// `Overflow` exactly where the new length would pass `usize::MAX`, else only `OutOfMemory`. After either error,
    /// `grown` holds the items that it held.
    pub fn append_to(&self, start: usize, len: usize, grown: &mut MutableBitmap) -> Result<()>
        requires inside { start + len ≤ length (valid_items self.now) }
        ensures { Appends error_of result grown.old grown.new (part (valid_items self.now) start len) }
    {
        match &self.bitmap {
            Some(bitmap) => append_part(bitmap, start, len, grown),
            None => grown.extend_constant(len, true),
        }
    }

    /// Returns a validity in which an item is null exactly where it is null in `self` or in `other`. The result has no
    /// bitmap exactly where neither has one. Requires that both have equal lengths.
    ///
    /// # Errors
    ///
    /// Only `OutOfMemory`. Where neither has a bitmap it never fails. The code returns `OutOfMemory` only where both
    /// have a bitmap, or where a reference count would overflow; no clause states that.
    pub fn both(&self, other: &Validity) -> Result<Validity>
        requires same_length { length (valid_items self.now) ≡ length (valid_items other.now) }
        ensures items { IfOk result (λ v.
            valid_items v ≡ each 8 (valid_items self.now ∷ valid_items other.now ∷ [])) }
        ensures len { IfOk result (λ v. length (valid_items v) ≡ length (valid_items self.now)) }
        ensures bitmap { IfOk result (λ v.
            IsNone v.bitmap ↔ (IsNone self.now.bitmap × IsNone other.now.bitmap)) }
        ensures only { OnlyOutOfMemory result }
        ensures succeeds { IsNone self.now.bitmap → IsNone other.now.bitmap → IsOk result }
    {
        match (&self.bitmap, &other.bitmap) {
            (None, _) => Ok(other.clone()?),
            (_, None) => Ok(self.clone()?),
            (Some(left), Some(right)) => Ok(Validity::new(self.len, Some(and(left, right)?))),
        }
    }
}

/// Shares the bytes. Does not allocate. It fails only if a reference count would overflow, which no clause states.
/// Without a bitmap it never fails.
impl Clone for Validity {
    ghost is_clone = { λ a copy. copy ≡ a };

    ghost is_infallible = { λ a. IsNone a.bitmap };

    fn clone(&self) -> std::result::Result<Validity, AllocError> {
        Ok(Validity {
            len: self.len,
            bitmap: self.bitmap.clone()?,
        })
    }
}

/// Appends to `grown` the `len` items of a bitmap from item `start` on. Requires that `start + len` is at most the
/// bitmap's length.
#[tactic(auto, using(arrow2_model::proofs::Cursors::parts))]
fn append_part(bitmap: &Bitmap, start: usize, len: usize, grown: &mut MutableBitmap) -> Result<()>
    requires inside { start + len ≤ length (items_of bitmap.now) }
    ensures { Appends error_of result grown.old grown.new (part (items_of bitmap.now) start len) }
{
    let (bytes, offset, _) = bitmap.as_slice();
    let whole = bitmap.len();
    prove!(start <= whole && len <= whole - start);
    grown.extend_from_slice(bytes, offset + start, len)
}

/// Returns `Ok` exactly if a validity bitmap has `values` items, one for each value.
///
/// # Errors
///
/// `InvalidArgumentError` or `OutOfMemory`. The code returns `OutOfMemory` only if the message cannot be allocated; no
/// clause states that.
pub fn check_same_length(values: usize, validity: &Bitmap) -> Result<()>
    ensures accepted { IsOk result ↔ (length (items_of validity.now) ≡ values) }
    ensures rejected { FailsOnlyWith result (unequal_lengths_message (length (items_of validity.now)) values) }
{
    if validity.len() != values {
        let text = message(validity.allocator(), validity.len(), values)?;
        return Err(Error::InvalidArgumentError(text));
    }
    Ok(())
}

/// Returns the message for a validity of `validity` items where there are `values` values.
#[tactic(auto, unfolding(crate::specs::Failures::unequal_lengths_message))]
fn message(alloc: Global, validity: usize, values: usize) -> std::result::Result<String, AllocError>
    ensures { IfOk result (λ text. string_bytes text ≡ unequal_lengths_message validity values) }
{
    format!(in alloc;
        "The length of the validity ({validity}) must equal the length of the values ({values})"
    )
}
