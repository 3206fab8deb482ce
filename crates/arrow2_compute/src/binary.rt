//! Arrays of byte strings and of texts, as kernels read and build them.
ghost use Rattle.std.specs.Prelude.{◌≡◌, ◌<◌, ◌≤◌, [], None, length, IfOk};
ghost use Rattle.arrow2_compute.specs.Sizes.{AppendsItem, binary_item, slot_bytes, with_bitmap};
ghost use Rattle.arrow2_text.specs.Binary.{binary_items, binary_values, slots_between};
ghost use Rattle.arrow2_types.specs.Failures.{OnlyOutOfMemory};

use arrow2_index::OffsetNumber;
use arrow2_text::{ByteArrayType, GenericByteArray, MutableGenericByteArray};
use arrow2_types::Result;

/// Returns the number of items, nulls too. The slots together have at most `O::MAX` bytes.
pub(crate) fn count<T: ByteArrayType, O: OffsetNumber>(array: &GenericByteArray<T, O>) -> usize
    ensures items { result ≡ length (binary_items array.now) }
    ensures values { result ≡ length (binary_values array.now) }
    ensures slots { result ≡ slots_between array.now.offsets }
    ensures fits { slot_bytes array.now ≤ O.MAX }
{
    // For the proof alone: reading the last offset brings the invariant that it is at most the greatest one.
    let _ = array.offsets().last();
    array.len()
}

/// Returns the array of the same slots, over the same storage, none of them null. Does not allocate. The only error is
/// `OutOfMemory`: in the code only if a reference count would overflow.
pub(crate) fn without_validity<T: ByteArrayType, O: OffsetNumber>(
    array: &GenericByteArray<T, O>,
) -> Result<GenericByteArray<T, O>>
    ensures value { IfOk result (λ a. a ≡ with_bitmap array.now None) }
    ensures only { OnlyOutOfMemory result }
{
    Ok(array.clone()?.with_validity(None))
}

/// Returns an array without items, of the same logical type, with capacity for at least `capacity` items. The only
/// error is `OutOfMemory`. Requires that `capacity` is at most the number of items.
pub(crate) fn like<T: ByteArrayType, O: OffsetNumber>(
    array: &GenericByteArray<T, O>,
    capacity: usize,
) -> Result<MutableGenericByteArray<T, O>>
    requires few { capacity ≤ length (binary_items array.now) }
    ensures items { IfOk result (λ a. (a.items ≡ []) × (a.bytes ≡ 0)) }
    ensures capacity { IfOk result (λ a. capacity ≤ a.capacity) }
    ensures data_type { IfOk result (λ a. a.data_type ≡ array.now.data_type) }
    ensures only { OnlyOutOfMemory result }
{
    // For the proof alone: the number of offsets, one more than that of items, fits a `usize`.
    let _ = array.offsets().len();
    let data_type = array.data_type().clone()?;
    MutableGenericByteArray::with_capacity_from(array.values().allocator(), data_type, capacity, 0)
}

/// Appends item `index` of `array`. The errors are those of `MutableGenericByteArray::push_bytes`. Requires that
/// `index` is below the length of `array`.
pub(crate) fn push_item<T: ByteArrayType, O: OffsetNumber>(
    grown: &mut MutableGenericByteArray<T, O>,
    array: &GenericByteArray<T, O>,
    index: usize,
) -> Result<()>
    requires below { index < length (binary_items array.now) }
    ensures { AppendsItem O.MAX result grown.old grown.new (binary_item array.now index) }
{
    grown.push_bytes(array.get_bytes(index))
}
