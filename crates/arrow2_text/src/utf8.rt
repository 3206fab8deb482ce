//! An array of nullable texts.
ghost use Rattle.std.specs.Prelude.{◌≡◌, ◌<◌, ◌↔◌, [], None, Some, length, map, count_by, slice_index_or, sum, IsErrOf, IsNone, IfOk, IsTrue, is_none, is_some, option_copied};
ghost use Rattle.arrow2_model.specs.Lists.{buffer_items};
ghost use Rattle.arrow2_walks.specs.Selections.{non_null_values};
ghost use Rattle.arrow2_text.specs.Binary.{binary_items, binary_values, default_binary, default_text, IsCompact};
ghost use Rattle.arrow2_text.specs.Growth.{bytes_of_items, items_by_bytes};
ghost use Rattle.arrow2_types.specs.Failures.{OnlyOutOfMemory, OnlyOverflowOrOutOfMemory};

use crate::binary::BinaryArray;
use crate::byte_array_type::{BinaryType, ByteArrayType, Utf8Type};
use crate::generic_byte_array::GenericByteArray;
use crate::iterator::{Utf8Iter, Utf8ValuesIter};
use crate::slots::Slots;
use arrow2_index::OffsetNumber;
use arrow2_types::{Error, Result};
use arrow2_walks::{ArrayIter, ArrayValuesIter, NonNullValuesIter};
use std::alloc::Global;
use std::rc::Rc;
use std::str;

/// An array of nullable texts. Each slot is UTF-8, also under a null. It has the calls of [`GenericByteArray`]. The
/// calls below build it from texts, read its values as `&str`, and turn it into a [`BinaryArray`].
pub type Utf8Array<O> = GenericByteArray<Utf8Type, O>;

impl<O: OffsetNumber> GenericByteArray<Utf8Type, O> {
    /// Returns an array of a copy of these texts. No item is null, and there is no validity bitmap. The array stores
    /// its slots alone: its offsets go from 0 to the number of bytes. The logical type is `Utf8`, or `LargeUtf8` where
    /// `O` has 64 bits.
    ///
    /// # Errors
    ///
    /// `Overflow` or `OutOfMemory`. `Overflow` is possible only if the items together have more than `O::MAX` bytes.
    pub fn from_slice(alloc: Global, values: &[&str]) -> Result<Utf8Array<O>>
        // The values as items, the logical type, no bitmap, and how the items are stored.
        ensures items { IfOk result (λ a. binary_items a ≡ map (λ value. Some value.now) values.entry.now) }
        ensures data_type { IfOk result (λ a. a.data_type ≡ default_text O.IS_LARGE) }
        ensures bitmap { IfOk result (λ a. IsNone a.validity.bitmap) }
        ensures compact { IfOk result (λ a. IsCompact a) }
        ensures bytes { IfOk result (λ a.
            length (buffer_items a.values) ≡ sum (map (λ value. length value.now) values.entry.now)) }
        // When `Overflow` can come, and which errors can come.
        ensures overflow { IsErrOf result Error.Overflow →
            O.MAX < sum (map (λ value. length value.now) values.entry.now) }
        ensures only { OnlyOverflowOrOutOfMemory result }
    {
        GenericByteArray::from_items(alloc, values)
    }

    /// Returns an array of a copy of these items. The array has a validity bitmap exactly if an item is null. It stores
    /// its slots alone: its offsets go from 0 to the number of bytes. The logical type is `Utf8`, or `LargeUtf8` where
    /// `O` has 64 bits.
    ///
    /// Stands for arrow2's `from`.
    ///
    /// # Errors
    ///
    /// `Overflow` or `OutOfMemory`. `Overflow` is possible only if the items together have more than `O::MAX` bytes.
    pub fn from_options(alloc: Global, items: &[Option<&str>]) -> Result<Utf8Array<O>>
        // The items, the logical type, when there is a bitmap, and how the items are stored.
        ensures items { IfOk result (λ a. binary_items a ≡ items_by_bytes items.entry.now) }
        ensures data_type { IfOk result (λ a. a.data_type ≡ default_text O.IS_LARGE) }
        ensures bitmap { IfOk result (λ a.
            IsNone a.validity.bitmap ↔ (count_by is_none (items_by_bytes items.entry.now) ≡ 0)) }
        ensures compact { IfOk result (λ a. IsCompact a) }
        ensures bytes { IfOk result (λ a.
            length (buffer_items a.values) ≡ bytes_of_items (items_by_bytes items.entry.now)) }
        // When `Overflow` can come, and which errors can come.
        ensures overflow { IsErrOf result Error.Overflow → O.MAX < bytes_of_items (items_by_bytes items.entry.now) }
        ensures only { OnlyOverflowOrOutOfMemory result }
    {
        GenericByteArray::from_items(alloc, items)
    }

    /// Returns the text of item `index`, or `None` where it is null. Requires that `index` is below the length.
    pub fn get(&self, index: usize) -> Option<&str>
        requires below { index < length (binary_items self.now) }
        ensures { option_copied result ≡ slice_index_or (binary_items self.now) index None }
    {
        let value = self.value(index);
        self.is_valid(index).then_some(value)
    }

    /// Returns the text of slot `index`, also under a null. Requires that `index` is below the length.
    pub fn value(&self, index: usize) -> &str
        requires below { index < length (binary_items self.now) }
        ensures value { result.now ≡ slice_index_or (binary_values self.now) index [] }
        ensures item { IsTrue (is_some (slice_index_or (binary_items self.now) index None)) →
            slice_index_or (binary_items self.now) index None ≡ Some result.now }
    {
        let bytes = self.value_bytes(index);
        unsafe { str::from_utf8_unchecked(bytes) }
    }

    /// Returns a double-ended iterator over the items.
    pub fn iter(&self) -> Utf8Iter<'_, O>
        ensures { result ≡ binary_items self.now }
    {
        ArrayIter::new(self)
    }

    /// Returns an iterator over the texts that are not null, in their order.
    pub fn non_null_values_iter(&self) -> NonNullValuesIter<&Utf8Array<O>>
        ensures { result ≡ non_null_values (binary_items self.now) }
    {
        NonNullValuesIter::new(self)
    }

    /// Returns a double-ended iterator over the texts, those under nulls too.
    pub fn values_iter(&self) -> Utf8ValuesIter<'_, O>
        ensures { result ≡ binary_values self.now }
    {
        ArrayValuesIter::new(self)
    }

    /// Returns a `BinaryArray` of the same slots over the same storage. Its logical type is `Binary`, or `LargeBinary`
    /// where `O` has 64 bits. Allocates only the `Rc` of this type.
    ///
    /// # Errors
    ///
    /// Only `OutOfMemory`.
    pub fn to_binary(&self) -> Result<BinaryArray<O>>
        ensures ok { IfOk result (λ a.
            a ≡ record self.now { data_type = default_binary O.IS_LARGE }) }
        ensures only { OnlyOutOfMemory result }
    {
        to_byte_strings(self.slots().clone()?)
    }

    /// Returns a `BinaryArray` of the same slots over the same storage. Its logical type is `Binary`, or `LargeBinary`
    /// where `O` has 64 bits. Allocates only the `Rc` of this type. arrow2 has `to_binary` alone.
    ///
    /// # Errors
    ///
    /// Only `OutOfMemory`. The array is then dropped.
    pub fn into_binary(self) -> Result<BinaryArray<O>>
        ensures ok { IfOk result (λ a. a ≡ record self { data_type = default_binary O.IS_LARGE }) }
        ensures only { OnlyOutOfMemory result }
    {
        to_byte_strings(self.into_slots())
    }
}

/// Returns a `BinaryArray` of these slots. Its logical type is `Binary`, or `LargeBinary` where `O` has 64 bits.
fn to_byte_strings<O: OffsetNumber>(slots: Slots<O>) -> Result<BinaryArray<O>>
    ensures ok { IfOk result (λ a. a ≡ record slots { data_type = default_binary O.IS_LARGE }) }
    ensures only { OnlyOutOfMemory result }
{
    let (_, offsets, values, validity) = slots.into_parts();
    let data_type = Rc::new(
        values.allocator(),
        BinaryType::default_data_type(O::IS_LARGE),
    )?;
    Ok(BinaryArray::of_slots(Slots::new(data_type, offsets, values, validity)))
}
