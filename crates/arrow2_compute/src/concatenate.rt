//! The items of several arrays, one after the other.
ghost use Rattle.std.specs.Prelude.{◌≡◌, ◌+◌, ◌<◌, ◌≤◌, ◌^◌, ◌++◌, length, IfOk, IsErrOf, OnOk, ◌↔◌, IsNone, count_by, flat_map, is_none};
ghost use Rattle.arrow2_array.specs.Items.{boolean_items, nulls};
ghost use Rattle.arrow2_compute.specs.Sizes.{AreTooLarge, joined_bytes, joined_items};
ghost use Rattle.arrow2_model.specs.Lists.{buffer_items};
ghost use Rattle.arrow2_primitive.specs.Primitive.{primitive_items};
ghost use Rattle.arrow2_text.specs.Binary.{IsCompact, binary_items};
ghost use Rattle.arrow2_types.specs.Failures.{OnlyOverflowOrOutOfMemory};

use crate::binary::{count, like};
use arrow2_array::{BooleanArray, MutableBooleanArray};
use arrow2_index::OffsetNumber;
use arrow2_primitive::{MutablePrimitiveArray, PrimitiveArray};
use arrow2_text::{ByteArrayType, GenericByteArray};
use arrow2_types::{Error, NativeType, Result};

/// Returns the items of `first` and then of each of `others`, one after the other, with the logical type of `first`.
/// The result has a validity bitmap exactly if an item of it is null.
///
/// Differs from arrow2: the first array is a parameter of its own, so there is at least one. Logical types are not
/// compared.
///
/// # Errors
///
/// `Overflow` or `OutOfMemory`. `Overflow` is possible only if a `usize` cannot count the items.
#[tactic(auto, using(crate::proofs::KernelLoops::joining))]
pub fn concatenate<T: NativeType>(
    first: &PrimitiveArray<T>,
    others: &[&PrimitiveArray<T>],
) -> Result<PrimitiveArray<T>>
    ensures items { IfOk result (λ a. primitive_items a
        ≡ primitive_items first.now ++ flat_map (λ array. primitive_items array.now) others.now) }
    ensures data_type { IfOk result (λ a. a.data_type ≡ first.now.data_type) }
    ensures overflow { IsErrOf result Error.Overflow → 2 ^ 64 ≤ length (primitive_items first.now
        ++ flat_map (λ array. primitive_items array.now) others.now) }
    ensures bitmap { IfOk result (λ a.
        IsNone a.validity.bitmap ↔ (count_by is_none (primitive_items a) ≡ 0)) }
    ensures only { OnlyOverflowOrOutOfMemory result }
{
    let mut joined = MutablePrimitiveArray::like(first)?;
    joined.extend_from_array(first, 0, first.len())?;
    for array in others {
        joined.extend_from_array(array, 0, array.len())?;
    }
    joined.freeze()
}

/// Returns the byte strings or texts of `first` and then of each of `others`, one after the other, with the logical
/// type of `first`. The result has a validity bitmap exactly if an item of it is null. It stores no bytes outside its
/// slots. Copies the bytes under nulls too; the contract states only their number.
///
/// In arrow2 it is `concatenate`. Here the logical types are not compared.
///
/// # Errors
///
/// If all slots together, null slots too, have more bytes than an offset of the arrays can count, or if a `usize`
/// cannot count the items, it fails with `Overflow` or `OutOfMemory`. Otherwise the only error is `OutOfMemory`.
#[tactic(auto, using(crate::proofs::KernelLoops::joining))]
pub fn concatenate_binary<T: ByteArrayType, O: OffsetNumber>(
    first: &GenericByteArray<T, O>,
    others: &[&GenericByteArray<T, O>],
) -> Result<GenericByteArray<T, O>>
    // The items of all arrays in turn, the logical type, and how the items are stored.
    ensures items { IfOk result (λ a.
        binary_items a ≡ joined_items first.now others.now) }
    ensures data_type { IfOk result (λ a. a.data_type ≡ first.now.data_type) }
    ensures compact { IfOk result (λ a. IsCompact a) }
    ensures bytes { IfOk result (λ a. length (buffer_items a.values)
        ≡ joined_bytes first.now others.now) }
    // When `Overflow` may come, what fits after `Ok`, and which errors can come.
    ensures overflow { IsErrOf result Error.Overflow →
        AreTooLarge O.MAX first.now others.now }
    ensures fits { OnOk result
        ((joined_bytes first.now others.now ≤ O.MAX)
        × (length (joined_items first.now others.now) < 2 ^ 64)) }
    ensures only { OnlyOverflowOrOutOfMemory result }
{
    let len = count(first);
    let mut joined = like(first, len)?;
    joined.extend_from_array(first, 0, len)?;
    for array in others {
        joined.extend_from_array(array, 0, count(*array))?;
    }
    joined.freeze()
}

/// Returns the booleans of `first` and then of each of `others`, one after the other. The result has a validity bitmap
/// exactly if an item of it is null.
///
/// In arrow2 it is `concatenate`.
///
/// # Errors
///
/// `Overflow` or `OutOfMemory`. `Overflow` is possible only if a `usize` cannot count the items.
#[tactic(auto, using(crate::proofs::KernelLoops::joining))]
pub fn concatenate_boolean(first: &BooleanArray, others: &[&BooleanArray]) -> Result<BooleanArray>
    ensures items { IfOk result (λ a. boolean_items a
        ≡ boolean_items first.now ++ flat_map (λ array. boolean_items array.now) others.now) }
    ensures overflow { IsErrOf result Error.Overflow → 2 ^ 64 ≤ length (boolean_items first.now
        ++ flat_map (λ array. boolean_items array.now) others.now) }
    ensures bitmap { IfOk result (λ a. IsNone a.validity.bitmap ↔ (nulls (boolean_items a) ≡ 0)) }
    ensures only { OnlyOverflowOrOutOfMemory result }
{
    let mut items = MutableBooleanArray::new(first.values().allocator());
    items.extend_from_array(first, 0, first.len())?;
    for array in others {
        items.extend_from_array(array, 0, array.len())?;
    }
    items.freeze()
}
