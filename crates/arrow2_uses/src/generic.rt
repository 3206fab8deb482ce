//! Functions over any type of value and of index.
ghost use Rattle.std.specs.Prelude.{◌≡◌, ◌↔◌, ◌≤ℤ◌, ◌<ℤ◌, pos, All, IfOk, IsTrue, flat_map};
ghost use Rattle.arrow2.specs.Failures.{OnlyOutOfMemory};

use arrow2::error::Result;
use arrow2::types::{Index, NativeType};
use std::alloc::Global;
use std::convert::AsSlice;

/// Returns the bytes of the values one after the other, the lowest byte of each first.
///
/// # Errors
///
/// Only `OutOfMemory`.
pub fn low_first<T: NativeType>(alloc: Global, values: &[T]) -> Result<Vec<u8>>
    ensures bytes { IfOk result (λ v. v.items ≡ flat_map T.le_digits values.now) }
    ensures only { OnlyOutOfMemory result }
{
    let mut bytes = Vec::new(alloc);
    for value in values {
        bytes.extend_from_slice(value.to_le_bytes().as_slice())?;
    }
    Ok(bytes)
}

/// Returns whether each index is below `bound`. Requires that none is negative.
pub fn all_below<I: Index>(indices: &[I], bound: usize) -> bool
    requires natural { All (λ x. pos 0 ≤ℤ I.value x) indices.now }
    ensures { IsTrue result ↔ All (λ x. I.value x <ℤ pos bound) indices.now }
{
    for index in indices {
        if index.to_usize() >= bound {
            return false;
        }
    }
    true
}
