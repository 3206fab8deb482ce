//! Which items of an array are null.
ghost use Rattle.std.specs.Prelude.{◌≡◌, Bool, List, Some, map, not, IfOk, IfSome, IsNone, is_some};
ghost use Rattle.arrow2_model.specs.Lists.{items_of};
ghost use Rattle.arrow2_array.specs.Items.{boolean_items};
ghost use Rattle.arrow2_primitive.specs.Primitive.{primitive_items};
ghost use Rattle.arrow2_text.specs.Binary.{binary_items};
ghost use Rattle.arrow2_validity.specs.OptionalValidity.{OptionalValidity, valid_items};
ghost use Rattle.arrow2_types.specs.Failures.{OnlyOutOfMemory};

use arrow2_array::BooleanArray;
use arrow2_bitmap::{Bitmap, MutableBitmap};
use arrow2_index::OffsetNumber;
use arrow2_primitive::PrimitiveArray;
use arrow2_text::{ByteArrayType, GenericByteArray};
use arrow2_types::{NativeType, Result};
use arrow2_validity::Validity;
use std::alloc::Global;
use std::convert::TryFrom;

/// An array of any type, whose items may be null. In arrow2 it is `dyn Array`.
pub trait Nullable {
    // The validity that the array stores.
    ghost stored: { Self → OptionalValidity };

    // For each item, whether it is not null.
    ghost known: { Self → List Bool };

    /// Returns the validity of the items.
    fn known_validity(&self) -> &Validity
        ensures value { result.now ≡ stored self.now }
        ensures items { valid_items result.now ≡ known self.now };

    /// Returns the allocator of the values.
    fn allocator(&self) -> Global;
}

impl<T: NativeType> Nullable for PrimitiveArray<T> {
    ghost stored = { λ a. a.validity };

    ghost known = { λ a. map is_some (primitive_items a) };

    fn known_validity(&self) -> &Validity {
        self.optional_validity()
    }

    fn allocator(&self) -> Global {
        self.values().allocator()
    }
}

impl Nullable for BooleanArray {
    ghost stored = { λ a. a.validity };

    ghost known = { λ a. map is_some (boolean_items a) };

    fn known_validity(&self) -> &Validity {
        self.optional_validity()
    }

    fn allocator(&self) -> Global {
        self.values().allocator()
    }
}

impl<T: ByteArrayType, O: OffsetNumber> Nullable for GenericByteArray<T, O> {
    ghost stored = { λ a. a.validity };

    ghost known = { λ a. map is_some (binary_items a) };

    fn known_validity(&self) -> &Validity {
        self.optional_validity()
    }

    fn allocator(&self) -> Global {
        self.values().allocator()
    }
}

/// Returns, item by item, whether the item is null. The result has no validity bitmap.
///
/// Differs from arrow2, which takes a `dyn Array`.
///
/// # Errors
///
/// Only `OutOfMemory`.
pub fn is_null<A: Nullable>(array: &A) -> Result<BooleanArray>
    ensures items { IfOk result (λ a. boolean_items a ≡ map (λ known. Some (not known)) (A.known array.now)) }
    ensures validity { IfOk result (λ a. IsNone a.validity.bitmap) }
    ensures only { OnlyOutOfMemory result }
{
    let nulls = nulls_of(array.allocator(), array.known_validity())?;
    Ok(BooleanArray::new(nulls, None))
}

/// Returns, item by item, whether the item is not null. The result has no validity bitmap. If the array has one, the
/// values of the result are a clone of it.
///
/// Differs from arrow2, which takes a `dyn Array`.
///
/// # Errors
///
/// Only `OutOfMemory`.
pub fn is_not_null<A: Nullable>(array: &A) -> Result<BooleanArray>
    ensures items { IfOk result (λ a. boolean_items a ≡ map (λ known. Some known) (A.known array.now)) }
    ensures values { IfSome (A.stored array.now).bitmap (λ bitmap. IfOk result (λ a. a.values ≡ bitmap)) }
    ensures validity { IfOk result (λ a. IsNone a.validity.bitmap) }
    ensures only { OnlyOutOfMemory result }
{
    let known = known_of(array.allocator(), array.known_validity())?;
    Ok(BooleanArray::new(known, None))
}

/// Returns, for each item of an array with this validity, whether it is null.
fn nulls_of(alloc: Global, validity: &Validity) -> Result<Bitmap>
    ensures items { IfOk result (λ b. items_of b ≡ map not (valid_items validity.now)) }
    ensures only { OnlyOutOfMemory result }
{
    match validity.bitmap() {
        Some(bitmap) => !bitmap,
        None => Bitmap::new_zeroed(alloc, validity.len()),
    }
}

/// Returns, for each item of an array with this validity, whether it is not null.
fn known_of(alloc: Global, validity: &Validity) -> Result<Bitmap>
    ensures items { IfOk result (λ b. items_of b ≡ valid_items validity.now) }
    ensures same { IfSome validity.now.bitmap (λ bitmap. IfOk result (λ b. b ≡ bitmap)) }
    ensures only { OnlyOutOfMemory result }
{
    match validity.bitmap() {
        Some(bitmap) => Ok(bitmap.clone()?),
        None => Bitmap::try_from(MutableBitmap::from_len_set(alloc, validity.len())?),
    }
}
