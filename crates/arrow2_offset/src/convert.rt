//! Offsets of 32 bits as offsets of 64 bits, and back.
ghost use Rattle.std.specs.Prelude.{◌≡◌, ◌<◌, ◌≤◌, ◌↔◌, ◌⊎◌, IfOk, IsErrOf, MatchResult};
ghost use Rattle.arrow2_types.specs.declared.error.Error.TheVariants.{Overflow, OutOfMemory};
ghost use Rattle.arrow2_model.specs.Lists.{buffer_items, whole_buffer};
ghost use Rattle.arrow2_offset.specs.Offsets.{AreOffsetsUpTo, last_of, last_of_growing, SameOffsets};

use crate::immutable::OffsetsBuffer;
use crate::mutable::Offsets;
use crate::widths::write_narrow;
use arrow2_types::{Error, Result};
use std::alloc::{AllocError, Global};

/// Returns a copy of the same offsets, in 64 bits each. The last one is at most 2147483647, since it had 32 bits. No
/// clause states the capacity of the copy.
///
/// Stands for arrow2's `From`.
///
/// # Errors
///
/// Only `OutOfMemory`. The offsets are then dropped.
impl TryFrom<Offsets<i32>> for Offsets<i64> {
    type Error = Error;

    ghost try_from_gives = { λ offsets r. MatchResult r (λ o. SameOffsets offsets o
        × (last_of_growing o ≤ 2147483647)) (λ e. e ≡ OutOfMemory) };

    fn try_from(offsets: Offsets<i32>) -> Result<Self> {
        let offsets = offsets.into_inner();
        let wide = widen(*offsets.allocator(), offsets.as_slice())?;
        Ok(Offsets::of_vec(wide))
    }
}

/// Returns a copy of the same offsets, in 32 bits each. No clause states the capacity of the copy.
///
/// # Errors
///
/// `Overflow` exactly where the last offset is above 2147483647, else only `OutOfMemory`. After either error the
/// offsets are dropped.
impl TryFrom<Offsets<i64>> for Offsets<i32> {
    type Error = Error;

    // The last line holds for every result.
    ghost try_from_gives = { λ offsets r. MatchResult r (λ o. SameOffsets offsets o) (λ e.
        (e ≡ Overflow) ⊎ (e ≡ OutOfMemory))
        × (IsErrOf r Overflow ↔ (2147483647 < last_of_growing offsets)) };

    fn try_from(offsets: Offsets<i64>) -> Result<Self> {
        if *offsets.last() > i64::from(i32::MAX) {
            return Err(Error::Overflow);
        }
        let offsets = offsets.into_inner();
        let narrow = narrow(*offsets.allocator(), offsets.as_slice())?;
        Ok(Offsets::of_vec(narrow))
    }
}

/// Returns a copy of the same offsets, in 64 bits each. The last one is at most 2147483647, since it had 32 bits. The
/// storage of the copy has these offsets alone, also where `offsets` is sliced.
///
/// Stands for arrow2's `From`.
///
/// # Errors
///
/// Only `OutOfMemory`.
impl<'a> TryFrom<&'a OffsetsBuffer<i32>> for OffsetsBuffer<i64> {
    type Error = Error;

    ghost try_from_gives = { λ offsets r. MatchResult r (λ b.
        (b ≡ whole_buffer (buffer_items offsets.now))
        × (last_of (buffer_items offsets.now) ≤ 2147483647)) (λ e. e ≡ OutOfMemory) };

    fn try_from(offsets: &'a OffsetsBuffer<i32>) -> Result<Self> {
        let wide = widen(offsets.buffer().allocator(), offsets.as_slice())?;
        OffsetsBuffer::try_from(Offsets::of_vec(wide))
    }
}

/// Returns a copy of the same offsets, in 32 bits each. The storage of the copy has these offsets alone, also where
/// `offsets` is sliced.
///
/// # Errors
///
/// `Overflow` exactly where the last offset is above 2147483647, else only `OutOfMemory`.
impl<'a> TryFrom<&'a OffsetsBuffer<i64>> for OffsetsBuffer<i32> {
    type Error = Error;

    // The last line holds for every result.
    ghost try_from_gives = { λ offsets r. MatchResult r (λ b.
        b ≡ whole_buffer (buffer_items offsets.now)) (λ e. (e ≡ Overflow) ⊎ (e ≡ OutOfMemory))
        × (IsErrOf r Overflow ↔ (2147483647 < last_of (buffer_items offsets.now))) };

    fn try_from(offsets: &'a OffsetsBuffer<i64>) -> Result<Self> {
        if *offsets.last() > i64::from(i32::MAX) {
            return Err(Error::Overflow);
        }
        let narrow = narrow(offsets.buffer().allocator(), offsets.as_slice())?;
        OffsetsBuffer::try_from(Offsets::of_vec(narrow))
    }
}

/// Returns the same numbers, in 64 bits each. Writes each number once: to fill a vector with zeros first would take a
/// third longer.
fn widen(alloc: Global, offsets: &[i32]) -> std::result::Result<Vec<i64>, AllocError>
    ensures { IfOk result (λ wide. wide.items ≡ offsets.now) }
{
    let mut wide = Vec::with_capacity(alloc, offsets.len())?;
    for i in 0..offsets.len() {
        wide.push_reserved(i64::from(offsets[i]));
    }
    Ok(wide)
}

/// Returns the same numbers, in 32 bits each. Requires that they are offsets of at most 2147483647.
fn narrow(alloc: Global, offsets: &[i64]) -> std::result::Result<Vec<i32>, AllocError>
    requires { AreOffsetsUpTo 2147483647 offsets.now }
    ensures { IfOk result (λ narrow. narrow.items ≡ offsets.now) }
{
    let mut narrow = vec![in alloc; 0i32; offsets.len()]?;
    write_narrow(offsets, narrow.as_mut_slice());
    Ok(narrow)
}
