//! Checks of the parts of an array, and the errors for parts that do not fit.
ghost use Rattle.std.specs.Prelude.{◌≡◌, ◌<◌, ◌≤◌, ◌↔◌, length, IfOk, IsOk};
ghost use Rattle.arrow2_model.specs.Lists.{buffer_items};
ghost use Rattle.arrow2_offset.specs.Offsets.{last_of};
ghost use Rattle.arrow2_types.specs.Failures.{FailsOnlyWith, IsInvalidArgumentOrOutOfMemory};
ghost use Rattle.arrow2_datatypes.specs.Types.{physical};
ghost use Rattle.arrow2_utf8.specs.Texts.{AreTexts};
ghost use Rattle.arrow2_validity.specs.OptionalValidity.{valid_items};
ghost use Rattle.arrow2_text.specs.Binary.{slots_between};
ghost use Rattle.arrow2_text.specs.Failures.{RejectsParts, not_utf8, past_the_values_message};

use crate::byte_array_type::ByteArrayType;
use arrow2_bitmap::Bitmap;
use arrow2_buffer::Buffer;
use arrow2_datatypes::DataType;
use arrow2_index::OffsetNumber;
use arrow2_offset::OffsetsBuffer;
use arrow2_types::{Error, Result};
use arrow2_utf8::{BrokenTexts, try_check_utf8};
use arrow2_validity::Validity;
use std::alloc::Global;

/// Returns `InvalidArgumentError` with this message, or `OutOfMemory`. The code returns `OutOfMemory` only if the
/// message cannot be allocated.
fn invalid_argument(alloc: Global, words: &str) -> Error
    ensures { IsInvalidArgumentOrOutOfMemory result words.now }
{
    match String::from_str(alloc, words) {
        Ok(text) => Error::InvalidArgumentError(text),
        Err(_) => Error::OutOfMemory,
    }
}

/// Returns an error exactly if the last offset is above the number of values.
pub(crate) fn check_bounds<O: OffsetNumber>(
    alloc: Global,
    offsets: &OffsetsBuffer<O>,
    values: usize,
) -> Result<()>
    ensures accepted { IsOk result ↔ (last_of (buffer_items offsets.now) ≤ values) }
    ensures rejected { FailsOnlyWith result past_the_values_message }
{
    if offsets.last().as_usize() > values {
        return Err(invalid_argument(alloc, "offsets must not exceed the values length"));
    }
    Ok(())
}

/// Returns an error exactly if the last offset is past the values, or the values between two neighbouring offsets are
/// not UTF-8.
pub(crate) fn check_texts<O: OffsetNumber>(
    alloc: Global,
    offsets: &OffsetsBuffer<O>,
    values: &[u8],
) -> Result<()>
    ensures accepted { IsOk result ↔ AreTexts (buffer_items offsets.now) values.now }
    ensures past { length values.now < last_of (buffer_items offsets.now) →
        FailsOnlyWith result past_the_values_message }
    ensures broken { last_of (buffer_items offsets.now) ≤ length values.now →
        FailsOnlyWith result not_utf8 }
{
    match try_check_utf8(offsets, values) {
        Ok(()) => Ok(()),
        Err(BrokenTexts::PastTheValues) => {
            Err(invalid_argument(alloc, "offsets must not exceed the values length"))
        }
        Err(BrokenTexts::NotUtf8(_)) => Err(invalid_argument(
            alloc,
            "the values of each slot must be UTF-8",
        )),
    }
}

/// Returns an error exactly if the physical type of `data_type` is not that of arrays for `T` with offsets of type `O`.
fn check_layout<T: ByteArrayType, O: OffsetNumber>(
    alloc: Global,
    data_type: &DataType,
) -> Result<()>
    ensures accepted { IsOk result ↔ (physical data_type.now ≡ T.layout O.IS_LARGE) }
    ensures rejected { FailsOnlyWith result T.other_layout_message }
{
    if !T::is_layout(data_type.to_physical_type(), O::IS_LARGE) {
        return Err(invalid_argument(alloc, T::other_layout()));
    }
    Ok(())
}

/// Returns the validity of the slots of these parts, or an error for parts that are no array for `T`.
pub(crate) fn check_parts<T: ByteArrayType, O: OffsetNumber>(
    data_type: &DataType,
    offsets: &OffsetsBuffer<O>,
    values: &Buffer<u8>,
    validity: Option<Bitmap>,
) -> Result<Validity>
    ensures ok { IfOk result (λ v. v ≡ record {
      len = slots_between offsets.now;
      bitmap = validity;
    }) }
    ensures len { IfOk result (λ v. length (valid_items v) ≡ slots_between offsets.now) }
    ensures past { length (buffer_items values.now) < last_of (buffer_items offsets.now) →
        FailsOnlyWith result past_the_values_message }
    ensures broken { last_of (buffer_items offsets.now) ≤ length (buffer_items values.now) →
        ¬ T.Fits (buffer_items offsets.now) (buffer_items values.now) → FailsOnlyWith result not_utf8 }
    ensures rejected { RejectsParts result offsets.now validity
        (T.Fits (buffer_items offsets.now) (buffer_items values.now))
        (physical data_type.now ≡ T.layout O.IS_LARGE) T.other_layout_message }
{
    let alloc = values.allocator();
    T::check(alloc, offsets, values.as_slice())?;
    let validity = Validity::try_new(offsets.len_proxy(), validity)?;
    check_layout::<T, O>(alloc, data_type)?;
    Ok(validity)
}
