//! An array of nullable byte strings.
ghost use Rattle.std.specs.Prelude.{◌≡◌, ◌<◌, ◌↔◌, [], None, Some, length, map, count_by, slice_index_or, sum, IsErrOf, IsNone, IfOk, IsTrue, is_none, is_some, option_copied};
ghost use Rattle.arrow2_model.specs.Lists.{buffer_items};
ghost use Rattle.arrow2_walks.specs.Selections.{non_null_values};
ghost use Rattle.arrow2_text.specs.Binary.{binary_items, binary_values, default_binary, IsCompact};
ghost use Rattle.arrow2_text.specs.Growth.{bytes_of_items, items_by_bytes};
ghost use Rattle.arrow2_types.specs.Failures.{OnlyOverflowOrOutOfMemory};

use crate::byte_array_type::BinaryType;
use crate::generic_byte_array::GenericByteArray;
use crate::iterator::{BinaryIter, BinaryValueIter};
use arrow2_index::OffsetNumber;
use arrow2_types::{Error, Result};
use arrow2_walks::{ArrayIter, ArrayValuesIter, NonNullValuesIter};
use std::alloc::Global;

/// An array of nullable byte strings. It has the calls of [`GenericByteArray`]. The calls below build it from byte
/// strings, and read its values as `&[u8]`.
pub type BinaryArray<O> = GenericByteArray<BinaryType, O>;

impl<O: OffsetNumber> GenericByteArray<BinaryType, O> {
    /// Returns an array of a copy of these byte strings. No item is null, and there is no validity bitmap. The array
    /// stores its slots alone: its offsets go from 0 to the number of bytes. The logical type is `Binary`, or
    /// `LargeBinary` where `O` has 64 bits.
    ///
    /// # Errors
    ///
    /// `Overflow` or `OutOfMemory`. `Overflow` is possible only if the items together have more than `O::MAX` bytes.
    pub fn from_slice(alloc: Global, values: &[&[u8]]) -> Result<BinaryArray<O>>
        // The values as items, the logical type, no bitmap, and how the items are stored.
        ensures items { IfOk result (λ a. binary_items a ≡ map (λ value. Some value.now) values.entry.now) }
        ensures data_type { IfOk result (λ a. a.data_type ≡ default_binary O.IS_LARGE) }
        ensures bitmap { IfOk result (λ a. IsNone a.validity.bitmap) }
        ensures compact { IfOk result (λ a. IsCompact a) }
        ensures bytes { IfOk result (λ a.
            length (buffer_items a.values) ≡ sum (map (λ value. length value.now) values.entry.now)) }
        // When `Overflow` can come, and which errors can come.
        ensures overflow { IsErrOf result Error.Overflow →
            O.MAX < sum (map (λ value. length value.now) values.entry.now) }
        ensures only { OnlyOverflowOrOutOfMemory result }
    {
        GenericByteArray::from_items(alloc, values)
    }

    /// Returns an array of a copy of these items. The array has a validity bitmap exactly if an item is null. It stores
    /// its slots alone: its offsets go from 0 to the number of bytes. The logical type is `Binary`, or `LargeBinary`
    /// where `O` has 64 bits.
    ///
    /// Stands for arrow2's `from`.
    ///
    /// # Errors
    ///
    /// `Overflow` or `OutOfMemory`. `Overflow` is possible only if the items together have more than `O::MAX` bytes.
    pub fn from_options(alloc: Global, items: &[Option<&[u8]>]) -> Result<BinaryArray<O>>
        // The items, the logical type, when there is a bitmap, and how the items are stored.
        ensures items { IfOk result (λ a. binary_items a ≡ items_by_bytes items.entry.now) }
        ensures data_type { IfOk result (λ a. a.data_type ≡ default_binary O.IS_LARGE) }
        ensures bitmap { IfOk result (λ a.
            IsNone a.validity.bitmap ↔ (count_by is_none (items_by_bytes items.entry.now) ≡ 0)) }
        ensures compact { IfOk result (λ a. IsCompact a) }
        ensures bytes { IfOk result (λ a.
            length (buffer_items a.values) ≡ bytes_of_items (items_by_bytes items.entry.now)) }
        // When `Overflow` can come, and which errors can come.
        ensures overflow { IsErrOf result Error.Overflow → O.MAX < bytes_of_items (items_by_bytes items.entry.now) }
        ensures only { OnlyOverflowOrOutOfMemory result }
    {
        GenericByteArray::from_items(alloc, items)
    }

    /// Returns the bytes of item `index`, or `None` where it is null. Requires that `index` is below the length.
    pub fn get(&self, index: usize) -> Option<&[u8]>
        requires below { index < length (binary_items self.now) }
        ensures { option_copied result ≡ slice_index_or (binary_items self.now) index None }
    {
        self.get_bytes(index)
    }

    /// Returns the bytes of slot `index`, also under a null. Requires that `index` is below the length.
    pub fn value(&self, index: usize) -> &[u8]
        requires below { index < length (binary_items self.now) }
        ensures value { result.now ≡ slice_index_or (binary_values self.now) index [] }
        ensures item { IsTrue (is_some (slice_index_or (binary_items self.now) index None)) →
            slice_index_or (binary_items self.now) index None ≡ Some result.now }
    {
        self.value_bytes(index)
    }

    /// Returns a double-ended iterator over the items.
    pub fn iter(&self) -> BinaryIter<'_, O>
        ensures { result ≡ binary_items self.now }
    {
        ArrayIter::new(self)
    }

    /// Returns an iterator over the byte strings that are not null, in their order.
    pub fn non_null_values_iter(&self) -> NonNullValuesIter<&BinaryArray<O>>
        ensures { result ≡ non_null_values (binary_items self.now) }
    {
        NonNullValuesIter::new(self)
    }

    /// Returns a double-ended iterator over the byte strings, those under nulls too.
    pub fn values_iter(&self) -> BinaryValueIter<'_, O>
        ensures { result ≡ binary_values self.now }
    {
        ArrayValuesIter::new(self)
    }
}
