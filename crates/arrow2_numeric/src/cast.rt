//! Casts of numbers from one native type to another.
ghost use Rattle.std.specs.Prelude.{◌≡◌, ◌↔◌, ℕ, count_by, IfOk, IfErr, IsNone, IsOk, MatchBool, OnOk, All, is_none};
ghost use Rattle.std.specs.List.{AllZip};
ghost use Rattle.arrow2_types.specs.Failures.{IsInvalidArgumentOrOutOfMemory, OnlyOutOfMemory};
ghost use Rattle.arrow2_datatypes.specs.Types.{physical};
ghost use Rattle.arrow2_datatypes.specs.declared.physical_type.PhysicalType.TheVariants.{Primitive};
ghost use Rattle.arrow2_numeric.specs.Casts.{IsCast, IsSameNumber, IsFirstMisfit, Fits, not_fitting_message};
ghost use Rattle.arrow2_primitive.specs.Primitive.{primitive_items};

use arrow2_datatypes::DataType;
use arrow2_primitive::{MutablePrimitiveArray, PrimitiveArray};
use arrow2_types::{Error, NativeType, Result};
use num_traits::{Integral, NumCast};
use std::alloc::Global;
use std::rc::Rc;

/// Casts each item to `O`, as the same number. An item of the result is null where the item of `array` is null, or
/// where its value does not fit `O`. The result has a validity bitmap exactly if an item of it is null. Requires that
/// the physical type of `data_type` is that of `O`.
///
/// Differs from arrow2, which takes floats too.
///
/// # Errors
///
/// Only `OutOfMemory`.
pub fn primitive_to_primitive<
    I: NativeType + NumCast + Integral,
    O: NativeType + NumCast + Integral,
>(array: &PrimitiveArray<I>, data_type: Rc<DataType>) -> Result<PrimitiveArray<O>>
    requires layout { physical data_type.value ≡ Primitive O.PRIMITIVE }
    ensures items { IfOk result (λ a. AllZip (IsCast I.value O.value O.fits)
        (primitive_items array.now) (primitive_items a)) }
    ensures data_type { IfOk result (λ a. a.data_type ≡ data_type.value) }
    ensures bitmap { IfOk result (λ a.
        IsNone a.validity.bitmap ↔ (count_by is_none (primitive_items a) ≡ 0)) }
    ensures only { OnlyOutOfMemory result }
{
    let mut numbers = MutablePrimitiveArray::of_type(array.values().allocator(), data_type);
    numbers.reserve(array.len())?;
    for index in 0..array.len() {
        numbers.push(cast_item(array.get(index)))?;
    }
    numbers.freeze()
}

/// Casts each item to `O`, as the same number, or fails if the value of an item does not fit. An item of the result is
/// null where the item of `array` is null. The result has a validity bitmap exactly if an item of it is null. Requires
/// that the physical type of `data_type` is that of `O`.
///
/// Reads the values twice: first it checks that all of them fit, then it allocates and casts. arrow2 has no such call.
///
/// # Errors
///
/// If the value of an item does not fit `O`, it fails: with `InvalidArgumentError`, whose message has the index of the
/// first such item, or with `OutOfMemory` if the message cannot be allocated. Otherwise the only error is
/// `OutOfMemory`.
pub fn try_primitive_to_primitive<
    I: NativeType + NumCast + Integral,
    O: NativeType + NumCast + Integral,
>(array: &PrimitiveArray<I>, data_type: Rc<DataType>) -> Result<PrimitiveArray<O>>
    requires layout { physical data_type.value ≡ Primitive O.PRIMITIVE }
    // The same numbers, the given logical type, and whether there is a bitmap.
    ensures items { IfOk result (λ a. AllZip (IsSameNumber I.value O.value)
        (primitive_items array.now) (primitive_items a)) }
    ensures data_type { IfOk result (λ a. a.data_type ≡ data_type.value) }
    ensures bitmap { IfOk result (λ a.
        IsNone a.validity.bitmap ↔ (count_by is_none (primitive_items a) ≡ 0)) }
    // `Ok` only if all numbers fit; else the message names the first one that does not.
    ensures accepted { OnOk result (All (Fits I.value O.fits) (primitive_items array.now)) }
    ensures rejected { IfErr result (λ e. (index : ℕ) →
        IsFirstMisfit I.value O.fits (primitive_items array.now) index →
        IsInvalidArgumentOrOutOfMemory e (not_fitting_message index)) }
    ensures only { All (Fits I.value O.fits) (primitive_items array.now) →
        OnlyOutOfMemory result }
{
    check_fits::<I, O>(array)?;
    primitive_to_primitive(array, data_type)
}

/// Returns an error if the number of an item does not fit `O`.
fn check_fits<I: NativeType + NumCast + Integral, O: NativeType + NumCast + Integral>(
    array: &PrimitiveArray<I>,
) -> Result<()>
    ensures accepted { OnOk result (All (Fits I.value O.fits) (primitive_items array.now)) }
    ensures rejected { IfErr result (λ e. (index : ℕ) →
        IsFirstMisfit I.value O.fits (primitive_items array.now) index →
        IsInvalidArgumentOrOutOfMemory e (not_fitting_message index)) }
    ensures only { All (Fits I.value O.fits) (primitive_items array.now) → IsOk result }
{
    for index in 0..array.len() {
        if !item_fits::<I, O>(array.get(index)) {
            return Err(misfit(array.values().allocator(), index));
        }
    }
    Ok(())
}

/// Returns whether the item is null or its number fits `O`.
fn item_fits<I: NativeType + NumCast + Integral, O: NativeType + NumCast + Integral>(
    item: Option<I>,
) -> bool
    ensures { MatchBool result (Fits I.value O.fits item) (¬ (Fits I.value O.fits item)) }
{
    match item {
        Some(value) => num_traits::cast::<I, O>(value).is_some(),
        None => true,
    }
}

/// Returns the same number as an `O`, or `None` where the item is null, or where its number does not fit `O`.
fn cast_item<I: NativeType + NumCast + Integral, O: NativeType + NumCast + Integral>(
    item: Option<I>,
) -> Option<O>
    ensures { IsCast I.value O.value O.fits item result }
{
    match item {
        Some(value) => num_traits::cast(value),
        None => None,
    }
}

/// Returns the error that names the index of an item whose number does not fit.
#[tactic(auto, unfolding(crate::specs::Casts::not_fitting_message))]
fn misfit(alloc: Global, index: usize) -> Error
    ensures { IsInvalidArgumentOrOutOfMemory result (not_fitting_message index) }
{
    match format!(in alloc; "item {index} does not fit the type") {
        Ok(text) => Error::InvalidArgumentError(text),
        Err(_) => Error::OutOfMemory,
    }
}
