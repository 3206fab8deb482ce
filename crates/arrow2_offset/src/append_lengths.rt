//! Lengths appended to a vector of offsets.
ghost use Rattle.std.specs.Prelude.{◌≡◌, ◌-◌, ◌<◌, ◌≤◌, length, map, take, OnOk, IsErrOf, vec_len, vec_capacity};
ghost use Rattle.std.specs.Iterator.{IsFinite};
ghost use Rattle.std.specs.Iterator.Runs.{WholeRun};
ghost use Rattle.arrow2_offset.specs.Offsets.{AreOffsetsUpTo, last_of, lengths_of};
ghost use Rattle.arrow2_offset.specs.Iterators.{MayYieldMoreThan, MayYieldPast};
ghost use Rattle.arrow2_offset.specs.Growth.{GrowsByIterator};
ghost use Rattle.arrow2_offset.specs.Lengths.{LengthenedBy};
ghost use Rattle.arrow2_offset.specs.NewOffsets.{offsets_of_vec};
ghost use Rattle.arrow2_types.specs.declared.growth_error.GrowthError.TheVariants as growth_error;

use arrow2_index::OffsetNumber;
use arrow2_types::GrowthError;
use std::alloc::AllocError;
use std::mem;

/// The number of lengths for which the first allocation reserves capacity. Offsets of 64 bits then have a block of 968
/// bytes, a little less than the largest that glibc caches.
pub(crate) const LEAST_CAPACITY: usize = 120;

/// The total capacity, in lengths, after the second allocation, if the first reserved capacity for `LEAST_CAPACITY`
/// lengths.
const SECOND_CAPACITY: usize = 512;

/// Appends the lengths that an iterator yields. On an error, removes the appended lengths again. Requires that the
/// items of the vector are offsets, that the iterator ends, and that its `next` may be called a first time. (By std's
/// contract of `next`, it may then be called again after each item.) Does not read the iterator's size hint.
///
/// # Errors
///
/// `Overflow` or `OutOfMemory`. `Overflow` is possible only if the iterator may yield lengths whose sum, added to the
/// last offset, passes `O::MAX`; `OutOfMemory` only if it may yield more lengths than the spare capacity.
pub(crate) fn append_lengths<O: OffsetNumber, I: Iterator<Item = usize> + Drop>(
    offsets: &mut Vec<O>,
    lengths: I,
) -> Result<(), GrowthError>
    requires valid { AreOffsetsUpTo O.MAX (map O.value offsets.old.items) }
    requires can { I.can_next lengths }
    requires ends { IsFinite (I.remaining lengths) }
    ensures valid { AreOffsetsUpTo O.MAX (map O.value offsets.new.items) }
    ensures grows { GrowsByIterator (λ e. e) result (offsets_of_vec O.value offsets.old)
        (offsets_of_vec O.value offsets.new) I.next_gives lengths O.MAX }
{
    let count = offsets.len();
    let empty = Vec::new(*offsets.allocator());
    let (grown, all) = append_sums(mem::replace(offsets, empty), lengths);
    *offsets = grown;
    if all.is_err() {
        offsets.truncate(count);
    }
    all
}

/// Appends the lengths that an iterator yields. Returns the vector, also after an error: then it begins with the old
/// offsets, and the items after these are unspecified.
///
/// The vector is passed by value, so that its length stays in a register from item to item. The sum of lengths is
/// exact, in a type wider than `O`, and never falls. If a sum is at most `O::MAX`, so are all sums before it. So the
/// sum is compared with `O::MAX` only before capacity is reserved, and after the loop.
#[inline(never)]
fn append_sums<O: OffsetNumber, I: Iterator<Item = usize> + Drop>(
    mut offsets: Vec<O>,
    lengths: I,
) -> (Vec<O>, Result<(), GrowthError>)
    // The vector holds offsets. The iterator may be advanced, and it ends.
    requires valid { AreOffsetsUpTo O.MAX (map O.value offsets.items) }
    requires can { I.can_next lengths }
    requires ends { IsFinite (I.remaining lengths) }
    // After `Ok` the items are offsets. In any case they begin with the old ones; after `Ok`, a new offset for each
    // yielded length follows these.
    ensures valid { OnOk result.1 (AreOffsetsUpTo O.MAX (map O.value result.0.items)) }
    ensures front { take (length offsets.items) result.0.items ≡ offsets.items }
    ensures ok { OnOk result.1 (WholeRun I.next_gives lengths (λ p.
        LengthenedBy p.items (map O.value offsets.items) (map O.value result.0.items))) }
    // `Overflow` comes only where the iterator may yield lengths whose sum plus the last offset passes `O::MAX`,
    // `OutOfMemory` only where it may yield more lengths than still fit in the old vector. A vector of capacity c fits
    // c - 1 lengths; those that it already holds are subtracted.
    ensures overflow { IsErrOf result.1 growth_error.Overflow →
        MayYieldPast O.MAX (last_of (map O.value offsets.items)) I.next_gives lengths }
    ensures out_of_memory { IsErrOf result.1 growth_error.OutOfMemory →
        MayYieldMoreThan (vec_capacity offsets - 1
        - length (lengths_of (map O.value offsets.items))) I.next_gives lengths }
    // The capacity never falls.
    ensures capacity { vec_capacity offsets ≤ vec_capacity result.0 }
{
    let greatest = O::MAX as u128;
    let mut last = offsets[offsets.len() - 1].as_usize() as u128;
    for length in lengths {
        last += length as u128;
        if offsets.len() == offsets.capacity() {
            if last > greatest {
                return (offsets, Err(GrowthError::Overflow));
            }
            let (reserved, outcome) = with_spare_capacity(offsets);
            offsets = reserved;
            if outcome.is_err() {
                return (offsets, Err(GrowthError::OutOfMemory));
            }
        }
        offsets.push_reserved(O::from_low_bits(last));
    }
    if last > greatest {
        return (offsets, Err(GrowthError::Overflow));
    }
    (offsets, Ok(()))
}

/// Reserves capacity for more lengths. Returns the vector with the same items, also where the allocation fails. The
/// capacity never falls. After `Ok` there is spare capacity.
fn with_spare_capacity<O>(mut offsets: Vec<O>) -> (Vec<O>, Result<(), AllocError>)
    ensures items { result.0.items ≡ offsets.items }
    ensures capacity { vec_capacity offsets ≤ vec_capacity result.0 }
    ensures ok { OnOk result.1 (vec_len result.0 < vec_capacity result.0) }
{
    let outcome = grow_capacity(&mut offsets);
    (offsets, outcome)
}

/// Reserves capacity for `additional_lengths(n - 1)` more lengths, where the vector has n offsets. The contract
/// states only that the items stay, that the capacity never falls, and that there is spare capacity after `Ok`.
#[cold]
#[inline(never)]
fn grow_capacity<O>(offsets: &mut Vec<O>) -> Result<(), AllocError>
    ensures items { offsets.new.items ≡ offsets.old.items }
    ensures capacity { vec_capacity offsets.old ≤ vec_capacity offsets.new }
    ensures ok { OnOk result (vec_len offsets.new < vec_capacity offsets.new) }
{
    offsets.reserve_exact(additional_lengths(offsets.len().saturating_sub(1)))
}

/// Returns for how many lengths more capacity is reserved where there are n lengths: for `LEAST_CAPACITY` if n is below
/// `LEAST_CAPACITY`, else for the greater of `3 * n` and `SECOND_CAPACITY - LEAST_CAPACITY`. The contract states only
/// that it is at least one.
fn additional_lengths(n: usize) -> usize
    ensures { 0 < result }
{
    if n < LEAST_CAPACITY {
        LEAST_CAPACITY
    } else {
        n.saturating_mul(3).max(SECOND_CAPACITY - LEAST_CAPACITY)
    }
}
