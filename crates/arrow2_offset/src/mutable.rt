//! Offsets that grow.
ghost use Rattle.std.specs.Prelude.{◌≡◌, ◌+◌, ◌-◌, ◌<◌, ◌≤◌, ◌^◌, ◌≤ℤ◌, ◌↔◌, ◌⊎◌, [], ◌∷◌, length, map, sum, take, pos, replicate, slice_index_or, unsigned_abs, OnOk, IsOk, IfOk, IsErrOf, IsTrue, MatchOption, MatchResult, vec_capacity, nat_eq};
ghost use Rattle.std.specs.Iterator.{IsFinite, IsFiniteIterable};
ghost use Rattle.std.specs.Iterator.Runs.{WholeRun};
ghost use Rattle.std.specs.Ordering.{on};
ghost use Rattle.std.specs.Cmp.{partial_equiv_from_equiv, nat_eq_equiv, on_equiv};
ghost use Rattle.std.specs.Cmp.Lexicographic.{pointwise, lists_equiv};
ghost use Rattle.arrow2_model.specs.Lists.{part, buffer_items};
ghost use Rattle.arrow2_offset.specs.Offsets.{AreOffsets, offset_at, AreOffsetsUpTo, offsets_of, last_of_growing, start_of, lengths_of, slots, SameOffsets, GrownBy};
ghost use Rattle.arrow2_offset.specs.Iterators.{MayYieldPast};
ghost use Rattle.arrow2_offset.specs.Growth.{Grows, GrowsUpTo, GrowsByIterator};
ghost use Rattle.arrow2_offset.specs.NewOffsets.{offsets_of_vec};
ghost use Rattle.arrow2_offset.specs.Failures.{RejectsNumbers};
ghost use Rattle.arrow2_types.specs.Failures.{error_of, OnlyOutOfMemory, OnlyOverflowOrOutOfMemory};
ghost use Rattle.arrow2_types.specs.declared.growth_error.GrowthError.TheVariants as growth_error;

use crate::append_lengths::{LEAST_CAPACITY, append_lengths};
use crate::check::try_check_offsets;
use crate::immutable::OffsetsBuffer;
use crate::iterator::Lengths;
use crate::slot::{slot_span, total_length};
use arrow2_index::OffsetNumber;
use arrow2_types::{Error, GrowthError, Result};
use std::alloc::{AllocError, Global};
use std::marker::Model;
use std::ops::Index;

/// Offsets that grow. Contracts see their first offset (`start`), the lengths of their slots (`lengths`), and how many
/// lengths they have capacity for (`capacity`).
///
/// There is always at least one offset, none is negative, and none is below the one before it. Each slot spans from one
/// offset to the next, so there is one slot fewer than there are offsets, and one slot for each length.
///
/// Differs from arrow2: sums are exact, and a call that takes `&mut self` and returns an error leaves the offsets as
/// they were.
///
/// # Examples
///
/// ```rust
/// use arrow2::offset::Offsets;
///
/// let mut offsets = Offsets::<i32>::new(alloc)?;
/// offsets.try_push_usize(3)?;
/// offsets.try_push_usize(4)?;
/// assert_eq!(rt; offsets.as_slice(), [0, 3, 7].as_slice());
/// ```
#[derive(Debug, Drop)]
pub struct Offsets<O: OffsetNumber> {
    offsets: Vec<O>,
}

impl<O: OffsetNumber> Model for Offsets<O> {
    ghost use Rattle.std.specs.Prelude.{map};
    ghost use Rattle.arrow2_offset.specs.NewOffsets.{offsets_of_vec};
    ghost use Rattle.arrow2_offset.specs.Offsets.{GrowingOffsets, AreOffsetsUpTo};

    ghost Value = { GrowingOffsets };

    ghost view = { λ o. offsets_of_vec O.value o.offsets };

    ghost invariant = { λ o. AreOffsetsUpTo O.MAX (map O.value o.offsets.items) };
}

#[tactic(auto, using(crate::proofs::Growing::growing))]
impl<O: OffsetNumber> Offsets<O> {
    /// Returns the offsets of no slot: the single offset 0.
    ///
    /// # Errors
    ///
    /// Only `OutOfMemory`.
    pub fn new(alloc: Global) -> Result<Self>
        ensures ok { IfOk result (λ o. (o.start ≡ 0) × (o.lengths ≡ [])) }
        ensures only { OnlyOutOfMemory result }
    {
        Offsets::with_capacity(alloc, 0)
    }

    /// Returns `len + 1` offsets, all 0: those of `len` empty slots.
    ///
    /// # Errors
    ///
    /// `Overflow` exactly where `len` is `usize::MAX`, since there is one offset more than slots; else only
    /// `OutOfMemory`. arrow2 wraps at `usize::MAX`.
    pub fn new_zeroed(alloc: Global, len: usize) -> Result<Self>
        ensures ok { IfOk result (λ o. (o.start ≡ 0) × (o.lengths ≡ replicate len 0)) }
        ensures overflow { IsErrOf result Error.Overflow ↔ (2 ^ 64 ≤ len + 1) }
        ensures only { OnlyOverflowOrOutOfMemory result }
    {
        let mut offsets = Offsets::with_capacity(alloc, len)?;
        offsets.extend_constant(len)?;
        Ok(offsets)
    }

    /// Returns the single offset 0, with capacity for at least `capacity` lengths.
    ///
    /// # Errors
    ///
    /// `Overflow` exactly where `capacity` is `usize::MAX`, since there is one offset more than lengths; else
    /// only `OutOfMemory`. arrow2 wraps at `usize::MAX`.
    pub fn with_capacity(alloc: Global, capacity: usize) -> Result<Self>
        ensures ok { IfOk result (λ o. (o.start ≡ 0) × (o.lengths ≡ [])) }
        ensures capacity { IfOk result (λ o. capacity ≤ o.capacity) }
        ensures overflow { IsErrOf result Error.Overflow ↔ (2 ^ 64 ≤ capacity + 1) }
        ensures only { OnlyOverflowOrOutOfMemory result }
    {
        let Some(count) = capacity.checked_add(1) else {
            return Err(Error::Overflow);
        };
        let mut offsets = Vec::with_capacity(alloc, count)?;
        offsets.push(O::usize_as(0))?;
        Ok(Offsets { offsets })
    }

    /// Returns offsets that start at 0, with the lengths that an iterator yields. Requires that the iterator ends, and
    /// that its `next` may be called a first time. (By std's contract of `next`, it may then be called again after each
    /// item.) The size hint is not read.
    ///
    /// # Errors
    ///
    /// `Overflow` or `OutOfMemory`. `Overflow` is possible only if the iterator may yield lengths whose sum passes
    /// `O::MAX`. Where this sum passes it, one of the two comes. After either error, the iterator and the lengths so
    /// far are dropped.
    pub fn try_from_iter<I: IntoIterator<Item = usize>>(alloc: Global, iter: I) -> Result<Self>
        requires { IsFiniteIterable I.into_iter_gives I.IntoIter.can_next I.IntoIter.remaining iter }
        // `it` is an iterator that `iter` may turn into, and `p` a run of it: calls of `next` up to the first `None`.
        // The lengths are the items of `p`.
        ensures ok { IfOk result (λ o. (it : I.IntoIter) × I.into_iter_gives iter it
            × WholeRun I.IntoIter.next_gives it (λ p. (o.start ≡ 0) × (o.lengths ≡ p.items))) }
        ensures fits { IfOk result (λ o. last_of_growing o ≤ O.MAX) }
        // `Overflow` comes only where the iterator may yield lengths whose sum passes `O::MAX`. The argument 0 is the
        // last offset before any length is appended.
        ensures overflow { IsErrOf result Error.Overflow →
            (it : I.IntoIter) × I.into_iter_gives iter it
            × MayYieldPast O.MAX 0 I.IntoIter.next_gives it }
        ensures only { OnlyOverflowOrOutOfMemory result }
    {
        Offsets::try_from_lengths(alloc, iter.into_iter())
    }

    /// Returns the same as [`Offsets::try_from_iter`], for a value that already is an iterator, and requires the same.
    ///
    /// # Errors
    ///
    /// `Overflow` or `OutOfMemory`. `Overflow` is possible only if the iterator may yield lengths whose sum passes
    /// `O::MAX`. Where this sum passes it, one of the two comes. After either error, the iterator and the lengths so
    /// far are dropped; no clause states how far the iterator was read.
    pub fn try_from_lengths<I: Iterator<Item = usize> + Drop>(
        alloc: Global,
        lengths: I,
    ) -> Result<Self>
        requires can { I.can_next lengths }
        requires ends { IsFinite (I.remaining lengths) }
        // The lengths are those of a run: all items that the iterator yields up to `None`.
        ensures ok { IfOk result (λ o.
            WholeRun I.next_gives lengths (λ p. (o.start ≡ 0) × (o.lengths ≡ p.items))) }
        ensures fits { IfOk result (λ o. last_of_growing o ≤ O.MAX) }
        // `Overflow` comes only where the iterator may yield lengths whose sum passes `O::MAX`. The argument 0 is the
        // last offset before any length is appended.
        ensures overflow { IsErrOf result Error.Overflow → MayYieldPast O.MAX 0 I.next_gives lengths }
        ensures only { OnlyOverflowOrOutOfMemory result }
    {
        let mut offsets = Offsets::with_capacity(alloc, LEAST_CAPACITY)?;
        offsets.extend_lengths(lengths)?;
        Ok(offsets)
    }

    /// Returns the number of lengths that the offsets can hold before a push allocates. It is at least the number of
    /// slots.
    pub fn capacity(&self) -> usize
        ensures capacity { result ≡ self.now.capacity }
        ensures within_capacity { slots self.now ≤ result }
    {
        self.offsets.capacity().saturating_sub(1)
    }

    /// Reserves capacity for `additional` more lengths. Within the capacity it does not allocate. arrow2 returns no
    /// `Result`.
    ///
    /// # Errors
    ///
    /// Only `OutOfMemory`, and only where the number of slots plus `additional` passes the capacity. There is no
    /// `Overflow`: where a `usize` cannot count the offsets, the error is `OutOfMemory` too. After an error, the
    /// offsets are as they were. The capacity never falls.
    pub fn reserve(&mut self, additional: usize) -> Result<()>
        // The offsets stay. After `Ok`, `additional` more lengths fit.
        ensures items { SameOffsets self.old self.new }
        ensures ok { OnOk result (slots self.old + additional ≤ self.new.capacity) }
        // The capacity never falls. The number of slots is at most the capacity, since the length of a `Vec` is at most
        // its capacity.
        ensures capacity { self.old.capacity ≤ self.new.capacity }
        ensures within_capacity { slots self.old ≤ self.old.capacity }
        // Within the capacity it succeeds. `OutOfMemory` is the only error.
        ensures succeeds { slots self.old + additional ≤ self.old.capacity → IsOk result }
        ensures only { OnlyOutOfMemory result }
    {
        self.reserve_capacity(additional)?;
        Ok(())
    }

    /// Frees unused capacity if the allocator can: no clause states that any is freed. The offsets stay, and the
    /// capacity never rises. Always returns `Ok`, also if a smaller block cannot be allocated. arrow2 returns no
    /// `Result`.
    pub fn shrink_to_fit(&mut self) -> Result<()>
        ensures ok { IsOk result }
        ensures items { SameOffsets self.old self.new }
        ensures capacity { self.new.capacity ≤ self.old.capacity }
    {
        self.offsets.shrink_to_fit();
        Ok(())
    }

    /// Appends one length. Requires that the length is not negative. Does not allocate where the number of slots is
    /// below the capacity.
    ///
    /// arrow2's documentation requires a length above 0.
    ///
    /// # Errors
    ///
    /// `Overflow` exactly where the last offset would pass `O::MAX`. Otherwise `OutOfMemory` is the only error, also
    /// where a `usize` cannot count the offsets, and it comes only where there is no spare capacity. After either
    /// error, the offsets are as they were. The capacity never falls.
    pub fn try_push(&mut self, len: O) -> Result<()>
        requires { pos 0 ≤ℤ O.value len }
        ensures { GrowsUpTo error_of result self.old self.new
            (unsigned_abs (O.value len) ∷ []) O.MAX }
    {
        self.push_length(len.as_usize())?;
        Ok(())
    }

    /// Appends one length. Does not allocate where the number of slots is below the capacity.
    ///
    /// # Errors
    ///
    /// `Overflow` exactly where the last offset would pass `O::MAX`. Otherwise `OutOfMemory` is the only error, also
    /// where a `usize` cannot count the offsets, and it comes only where there is no spare capacity. After either
    /// error, the offsets are as they were. The capacity never falls.
    pub fn try_push_usize(&mut self, len: usize) -> Result<()>
        ensures { GrowsUpTo error_of result self.old self.new (len ∷ []) O.MAX }
    {
        self.push_length(len)?;
        Ok(())
    }

    /// Appends the lengths that an iterator yields. Requires that the iterator ends, and that its `next` may be called
    /// a first time. (By std's contract of `next`, it may then be called again after each item.) Its size hint is not
    /// read. Within the capacity the call does not allocate.
    ///
    /// Differs from arrow2, which wraps in its sums, and which keeps the appended lengths where it returns `Overflow`.
    ///
    /// # Errors
    ///
    /// `Overflow` or `OutOfMemory`. `Overflow` is possible only if the iterator may yield lengths whose sum, added to
    /// the last offset, passes `O::MAX`; `OutOfMemory` only if it may yield more lengths than the spare capacity. Where
    /// the sum of the yielded lengths, added to the last offset, passes `O::MAX`, one of the two comes. After either
    /// error, the offsets are as they were, and the iterator is dropped; no clause states how far it was read. The
    /// capacity never falls.
    pub fn try_extend_from_lengths<I: Iterator<Item = usize> + Drop>(
        &mut self,
        lengths: I,
    ) -> Result<()>
        requires can { I.can_next lengths }
        requires ends { IsFinite (I.remaining lengths) }
        ensures { GrowsByIterator error_of result self.old self.new I.next_gives lengths O.MAX }
    {
        self.extend_lengths(lengths)?;
        Ok(())
    }

    /// Appends the lengths of other offsets. Within the capacity it does not allocate.
    ///
    /// Differs from arrow2, which tests the other's last offset instead of the sum of its lengths.
    ///
    /// # Errors
    ///
    /// `Overflow` exactly where the last offset plus the sum of the lengths exceeds `O::MAX`, else only `OutOfMemory`,
    /// and only where the new number of lengths passes the capacity. After either error, the offsets are as they were.
    /// The capacity never falls.
    pub fn try_extend_from_self(&mut self, other: &Self) -> Result<()>
        ensures { GrowsUpTo error_of result self.old self.new other.now.lengths O.MAX }
    {
        self.append(other.as_slice())?;
        Ok(())
    }

    /// Appends `len` lengths of other offsets, those of the slots from slot `start` on. Requires that `len` is 0, or
    /// that `start + len` is at most `other.len_proxy()`. Both `start` and `len` count slots. Within the capacity it
    /// does not allocate.
    ///
    /// Differs from arrow2, which tests the last offset of these slots instead of the sum of their lengths.
    ///
    /// # Errors
    ///
    /// `Overflow` exactly where the last offset plus the sum of these lengths exceeds `O::MAX`, else only
    /// `OutOfMemory`, and only where the new number of lengths passes the capacity. After either error, the offsets are
    /// as they were. The capacity never falls.
    pub fn try_extend_from_slice(
        &mut self,
        other: &OffsetsBuffer<O>,
        start: usize,
        len: usize,
    ) -> Result<()>
        requires inside { (len ≡ 0) ⊎ (start + len < length (buffer_items other.now)) }
        ensures { GrowsUpTo error_of result self.old self.new
            (part (lengths_of (buffer_items other.now)) start len) O.MAX }
    {
        // For the proof alone: reading the last offset brings the facts that it is at most `O::MAX`, and that the
        // number of slots is at most the capacity.
        let _ = self.last_number();
        if len == 0 {
            return Ok(());
        }
        self.append(other.offsets_of_slots(start, len))?;
        Ok(())
    }

    /// Appends `additional` lengths, each of them 0: the last offset comes `additional` times more. Within the capacity
    /// it does not allocate.
    ///
    /// # Errors
    ///
    /// `Overflow` exactly where the number of offsets would pass `usize::MAX`, else only `OutOfMemory`, and only where
    /// the new number of lengths passes the capacity. After either error, the offsets are as they were. The capacity
    /// never falls. In arrow2 the number of offsets wraps, and the list is cut to the wrapped number of offsets.
    pub fn extend_constant(&mut self, additional: usize) -> Result<()>
        // `Overflow` exactly where the number of offsets would be above 2 ^ 64 - 1.
        ensures { Grows error_of result self.old self.new (replicate additional 0)
            (slots self.old + 1 + additional) (2 ^ 64 - 1) }
    {
        let Some(count) = self.offsets.len().checked_add(additional) else {
            return Err(Error::Overflow);
        };
        let last = *self.last();
        self.offsets.resize(count, last)?;
        Ok(())
    }

    /// Returns the last offset.
    pub fn last(&self) -> &O
        ensures value { O.value result.now ≡ pos (last_of_growing self.now) }
        ensures fits { last_of_growing self.now ≤ O.MAX }
    {
        &self.offsets[self.offsets.len() - 1]
    }

    /// Returns where slot `index` starts and where it ends: it has the values from the start up to, and without, the
    /// end. The end is at most the last offset. Requires that `index` is below [`Offsets::len_proxy`].
    ///
    /// arrow2's documentation states [`Offsets::len`] as the bound.
    pub fn start_end(&self, index: usize) -> (usize, usize)
        requires { index < slots self.now }
        ensures start { result.0 ≡ offset_at self.now.start self.now.lengths index }
        ensures end { result.1 ≡ result.0 + slice_index_or self.now.lengths index 0 }
        ensures within { result.1 ≤ last_of_growing self.now }
    {
        slot_span(self.as_slice(), index)
    }

    /// Returns the number of slots: one for each length.
    pub fn len_proxy(&self) -> usize
        ensures { result ≡ slots self.now }
    {
        self.offsets.len() - 1
    }

    /// Returns the number of offsets: one more than there are slots.
    pub fn len(&self) -> usize
        ensures offsets { result ≡ length (offsets_of self.now) }
        ensures slots { result ≡ slots self.now + 1 }
    {
        self.offsets.len()
    }

    /// Returns the offsets.
    pub fn as_slice(&self) -> &[O]
        ensures offsets { map O.value result.now ≡ map pos (offsets_of self.now) }
        ensures lengths { lengths_of (map O.value result.now) ≡ self.now.lengths }
        ensures valid { AreOffsets (map O.value result.now) }
        ensures fits { last_of_growing self.now ≤ O.MAX }
    {
        self.offsets.as_slice()
    }

    /// Removes the last offset and returns it, or returns `None` where only the first is left; then nothing changes.
    /// The capacity stays.
    pub fn pop(&mut self) -> Option<O>
        ensures last { MatchOption result (self.old.lengths ≡ []) (λ offset.
            (0 < slots self.old) × (O.value offset ≡ pos (last_of_growing self.old))) }
        ensures start { self.new.start ≡ self.old.start }
        ensures lengths { self.new.lengths ≡ take (slots self.old - 1) self.old.lengths }
        ensures capacity { self.new.capacity ≡ self.old.capacity }
    {
        let left = self.len_proxy().checked_sub(1)?;
        let offset = *self.last();
        self.truncate(left);
        Some(offset)
    }

    /// Returns the vector of the offsets. Its capacity counts offsets, so it is one more than that of `self`, which
    /// counts lengths. Does not allocate.
    pub fn into_inner(self) -> Vec<O>
        ensures offsets { map O.value result.items ≡ map pos (offsets_of self) }
        ensures lengths { lengths_of (map O.value result.items) ≡ self.lengths }
        ensures valid { AreOffsetsUpTo O.MAX (map O.value result.items) }
        ensures fits { last_of_growing self ≤ O.MAX }
        ensures capacity { vec_capacity result ≡ self.capacity + 1 }
    {
        let Offsets { offsets } = self;
        offsets
    }

    /// Returns the vector as `Offsets`, without a copy. Requires that the vector holds offsets.
    pub(crate) fn of_vec(offsets: Vec<O>) -> Self
        requires { AreOffsetsUpTo O.MAX (map O.value offsets.items) }
        ensures { result ≡ offsets_of_vec O.value offsets }
    {
        Offsets { offsets }
    }

    /// Returns the last offset, as a number.
    fn last_number(&self) -> usize
        ensures value { result ≡ last_of_growing self.now }
        ensures fits { last_of_growing self.now ≤ O.MAX }
        ensures within_capacity { slots self.now ≤ self.now.capacity }
    {
        // For the proof alone: reading the field brings the fact that the number of slots is at most the capacity.
        let _ = &self.offsets;
        self.last().as_usize()
    }

    /// Appends one length. The error type is one byte in size.
    fn push_length(&mut self, len: usize) -> std::result::Result<(), GrowthError>
        ensures { GrowsUpTo (λ error. error) result self.old self.new (len ∷ []) O.MAX }
    {
        let last = self.last_number();
        if len > O::MAX - last {
            return Err(GrowthError::Overflow);
        }
        self.offsets.push(O::usize_as(last + len))?;
        Ok(())
    }

    /// Reserves capacity for `additional` more lengths.
    fn reserve_capacity(&mut self, additional: usize) -> std::result::Result<(), AllocError>
        ensures items { SameOffsets self.old self.new }
        ensures ok { OnOk result (slots self.old + additional ≤ self.new.capacity) }
        ensures capacity { self.old.capacity ≤ self.new.capacity }
        ensures within_capacity { slots self.old ≤ self.old.capacity }
        ensures succeeds { slots self.old + additional ≤ self.old.capacity → IsOk result }
    {
        self.offsets.reserve(additional)
    }

    /// Appends one length. Requires spare capacity for it, and that the last offset plus `len` is at most `O::MAX`.
    fn push_within(&mut self, len: usize)
        requires spare { slots self.old < self.old.capacity }
        requires fits { last_of_growing self.old + len ≤ O.MAX }
        ensures grown { GrownBy (len ∷ []) self.old self.new }
        ensures capacity { self.new.capacity ≡ self.old.capacity }
    {
        let last = self.last_number();
        self.offsets.push_reserved(O::usize_as(last + len));
    }

    /// Keeps the first `count` slots. Requires that `count` is at most the number of slots. The capacity stays.
    fn truncate(&mut self, count: usize)
        requires { count ≤ slots self.old }
        ensures start { self.new.start ≡ self.old.start }
        ensures lengths { self.new.lengths ≡ take count self.old.lengths }
        ensures capacity { self.new.capacity ≡ self.old.capacity }
    {
        self.offsets.truncate(count + 1);
    }

    /// Appends the lengths that an iterator yields. On an error, removes the appended lengths again. Requires that the
    /// iterator ends, and that its `next` may be called a first time. (By std's contract of `next`, it may then be
    /// called again after each item.)
    fn extend_lengths<I: Iterator<Item = usize> + Drop>(
        &mut self,
        lengths: I,
    ) -> std::result::Result<(), GrowthError>
        requires can { I.can_next lengths }
        requires ends { IsFinite (I.remaining lengths) }
        ensures { GrowsByIterator (λ error. error) result self.old self.new
            I.next_gives lengths O.MAX }
    {
        append_lengths(&mut self.offsets, lengths)
    }

    /// Appends the length of each slot of other offsets. Requires that the numbers are offsets. Tests their sum before
    /// it allocates, which no clause states.
    fn append(&mut self, offsets: &[O]) -> std::result::Result<(), GrowthError>
        requires { AreOffsets (map O.value offsets.now) }
        ensures { GrowsUpTo (λ error. error) result self.old self.new
            (lengths_of (map O.value offsets.now)) O.MAX }
    {
        let count = offsets.len() - 1;
        let total = total_length(offsets);
        if total > O::MAX - self.last_number() {
            return Err(GrowthError::Overflow);
        }
        self.reserve_capacity(count)?;
        for length in Lengths::new(offsets) {
            self.push_within(length);
        }
        Ok(())
    }
}

/// Makes offsets of the vector, without a copy. The capacity counts lengths, so it is one less than that of the vector.
///
/// # Errors
///
/// Exactly where the items are not offsets: `OutOfSpec` with the text of the first rule of
/// [`BrokenRule`](crate::BrokenRule) that they break, or `OutOfMemory`. In the code `OutOfMemory` comes only if that
/// text cannot be allocated; no clause states that. After either error the vector is dropped.
impl<O: OffsetNumber> TryFrom<Vec<O>> for Offsets<O> {
    type Error = Error;

    ghost try_from_gives = { λ vector r. MatchResult r (λ o. AreOffsets (map O.value vector.items)
        × (o ≡ offsets_of_vec O.value vector))
        (λ e. RejectsNumbers e (map O.value vector.items)) };

    fn try_from(offsets: Vec<O>) -> Result<Self> {
        try_check_offsets(*offsets.allocator(), offsets.as_slice())?;
        Ok(Offsets { offsets })
    }
}

/// Returns a copy of the offsets. No clause states its capacity.
///
/// # Errors
///
/// `AllocError`. The code returns it only if an allocation fails; no clause states that.
impl<O: OffsetNumber> Clone for Offsets<O> {
    ghost is_clone = { SameOffsets };

    fn clone(&self) -> std::result::Result<Self, AllocError> {
        let offsets = Vec::from_slice(*self.offsets.allocator(), self.offsets.as_slice())?;
        Ok(Offsets { offsets })
    }
}

/// Returns the offset at an index. Requires that the index is at most the number of slots: there is one offset more
/// than there are slots.
impl<O: OffsetNumber> Index<usize> for Offsets<O> {
    type Output = O;

    ghost can_index = { λ o position. position ≤ slots o };

    ghost index_gives = { λ o position offset.
        O.value offset ≡ pos (offset_at o.start o.lengths position) };

    fn index(&self, position: usize) -> &O {
        &self.as_slice()[position]
    }
}

/// Two `Offsets` are equal exactly if their lists of offsets are, whatever their capacities are.
impl<O: OffsetNumber> PartialEq for Offsets<O> {
    ghost eq = { on offsets_of (pointwise nat_eq) };

    // The proof that `eq` is symmetric and transitive.
    ghost laws = { partial_equiv_from_equiv (on_equiv offsets_of (lists_equiv nat_eq_equiv)) };

    fn eq(&self, other: &Self) -> bool
        ensures value { result ≡ pointwise nat_eq (offsets_of self.now) (offsets_of other.now) }
        ensures lists { IsTrue result ↔ (offsets_of self.now ≡ offsets_of other.now) }
    {
        self.as_slice() == other.as_slice()
    }
}

/// Equality is reflexive too.
impl<O: OffsetNumber> Eq for Offsets<O> {
    ghost laws = { on_equiv offsets_of (lists_equiv nat_eq_equiv) };
}
