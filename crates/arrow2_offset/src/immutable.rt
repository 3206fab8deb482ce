//! Offsets that are shared.
ghost use Rattle.std.specs.Prelude.{◌≡◌, ◌+◌, ◌-◌, ◌<◌, ◌≤◌, ◌↔◌, ⊤, [], ◌∷◌, length, map, sum, MatchResult, pos, slice_index_or, IfOk, IsTrue, nat_eq};
ghost use Rattle.std.specs.Ordering.{on, int_eq};
ghost use Rattle.std.specs.Cmp.{partial_equiv_from_equiv, int_eq_equiv, on_equiv};
ghost use Rattle.std.specs.Cmp.Lexicographic.{pointwise, lists_equiv};
ghost use Rattle.either.specs.Either.{MatchEither};
ghost use Rattle.arrow2_types.specs.declared.error.Error.TheVariants.{OutOfMemory};
ghost use Rattle.arrow2_offset.specs.Failures.{RejectsNumbers, RejectsOrRunsOut};
ghost use Rattle.arrow2_model.specs.Lists.{part, buffer_items, whole_buffer};
ghost use Rattle.arrow2_offset.specs.Offsets.{AreOffsets, AreOffsetsUpTo, offset_at, offsets_of, offsets_list, start_of, lengths_of, last_of, numbers_of};
ghost use Rattle.arrow2_types.specs.Failures.{OnlyOutOfMemory};

use crate::check::try_check_offsets;
use crate::iterator::Lengths;
use crate::mutable::Offsets;
use crate::slot::slot_span;
use arrow2_buffer::Buffer;
use arrow2_index::OffsetNumber;
use arrow2_types::{Error, Result};
use either::Either;
use std::alloc::{AllocError, Global};
use std::marker::Model;
use std::ops::Index;

/// Offsets over a shared buffer: contracts see the numbers of its storage, the index of the first offset there, and the
/// number of offsets.
///
/// There is always at least one offset, none is negative, and none is below the one before it. Clones and slices share
/// the storage, and do not allocate.
///
/// Differs from arrow2: there is no `Deref` to a slice. [`OffsetsBuffer::as_slice`] returns the offsets as a slice.
///
/// # Examples
///
/// ```rust
/// use arrow2::offset::OffsetsBuffer;
///
/// let offsets = OffsetsBuffer::<i32>::try_from(vec![in alloc; 0, 3, 3, 7]?)?;
/// assert!(rt; offsets.len_proxy() == 3);
/// assert!(rt; offsets.start_end(2) == (3, 7));
/// ```
#[derive(Debug, Drop)]
pub struct OffsetsBuffer<O: OffsetNumber> {
    buffer: Buffer<O>,
}

impl<O: OffsetNumber> Model for OffsetsBuffer<O> {
    ghost use Rattle.std.specs.Prelude.{ℤ};
    ghost use Rattle.arrow2_model.specs.Lists.{BufferStorage, buffer_items};
    ghost use Rattle.arrow2_offset.specs.Offsets.{AreOffsetsUpTo, numbers_of};

    ghost Value = { BufferStorage ℤ };

    ghost view = { λ b. numbers_of O.value b.buffer };

    ghost invariant = { λ b. AreOffsetsUpTo O.MAX (buffer_items (numbers_of O.value b.buffer)) };
}

#[tactic(auto, using(crate::proofs::BufferParts::frozen))]
impl<O: OffsetNumber> OffsetsBuffer<O> {
    /// Returns the offsets of no slot: the single offset 0.
    ///
    /// # Errors
    ///
    /// Only `OutOfMemory`.
    pub fn new(alloc: Global) -> Result<Self>
        ensures ok { IfOk result (λ b. b ≡ whole_buffer (pos 0 ∷ [])) }
        ensures only { OnlyOutOfMemory result }
    {
        OffsetsBuffer::try_from(Offsets::new(alloc)?)
    }

    /// Returns `Right` of offsets that grow, with the same list, if nothing is sliced off and nobody shares the
    /// storage. Otherwise returns `Left` of the offsets as they were. Does not allocate. No clause states the capacity
    /// of `Right`.
    ///
    /// It is proved that `Left` has the offsets as they were, and that `Right` has the same list and comes only if
    /// nothing is sliced off. No clause mentions sharing: it is not proved that `Right` comes only if nobody shares the
    /// storage, nor that it comes whenever nobody shares it and nothing is sliced off.
    ///
    /// Differs from arrow2, which returns the whole storage, also where the offsets are sliced.
    pub fn into_mut(self) -> Either<Self, Offsets<O>>
        ensures items { MatchEither result (λ b. b ≡ self) (λ o.
            (map pos (offsets_of o) ≡ buffer_items self) × (o.start ≡ start_of (buffer_items self))
            × (o.lengths ≡ lengths_of (buffer_items self))) }
        // The list of `Right` is the whole storage: so, with `items`, nothing is sliced off.
        ensures whole { MatchEither result (λ _. ⊤) (λ o. map pos (offsets_of o) ≡ self.storage) }
    {
        let OffsetsBuffer { buffer } = self;
        match buffer.into_mut() {
            Either::Left(buffer) => Either::Left(OffsetsBuffer { buffer }),
            Either::Right(offsets) => Either::Right(Offsets::of_vec(offsets)),
        }
    }

    /// Returns the buffer whose items are the offsets. It is sliced as these are.
    pub fn buffer(&self) -> &Buffer<O>
        // `numbers`: the storage, the offset and the length are those of the offsets, with each number of the type read
        // as an integer. `valid`: the items are offsets. No number of the type is above `O.MAX`.
        ensures numbers { numbers_of O.value result.now ≡ self.now }
        ensures valid { AreOffsetsUpTo O.MAX (map O.value (buffer_items result.now)) }
    {
        &self.buffer
    }

    /// Returns the number of slots: one fewer than there are offsets.
    pub fn len_proxy(&self) -> usize
        ensures offsets { result + 1 ≡ self.now.len }
        ensures slots { result ≡ length (lengths_of (buffer_items self.now)) }
    {
        self.buffer.len() - 1
    }

    /// Returns the number of offsets.
    pub fn len(&self) -> usize
        ensures value { result ≡ self.now.len }
        ensures offsets { result ≡ length (buffer_items self.now) }
        ensures slots { result ≡ length (lengths_of (buffer_items self.now)) + 1 }
        ensures some { 0 < result }
    {
        self.buffer.len()
    }

    /// Returns the offsets.
    pub fn as_slice(&self) -> &[O]
        ensures offsets { map O.value result.now ≡ buffer_items self.now }
        // `valid`, `by_lengths` and `fits` hold for every `OffsetsBuffer`. `by_lengths`: offset k is the first offset
        // plus the first k lengths.
        ensures valid { AreOffsets (buffer_items self.now) }
        ensures by_lengths { buffer_items self.now
            ≡ map pos (offsets_list (start_of (buffer_items self.now))
            (lengths_of (buffer_items self.now))) }
        ensures fits { last_of (buffer_items self.now) ≤ O.MAX }
        ensures len { length result.now ≡ self.now.len }
    {
        let offsets = self.buffer.as_slice();
        prove!(offsets.len() == self.buffer.len());
        offsets
    }

    /// Returns the `len + 1` offsets of the `len` slots from slot `start` on. Requires that `start + len` is below the
    /// number of offsets. The clauses state the lengths of these slots; no clause states the first offset.
    pub(crate) fn offsets_of_slots(&self, start: usize, len: usize) -> &[O]
        requires { start + len < length (buffer_items self.now) }
        ensures valid { AreOffsets (map O.value result.now) }
        ensures lengths { lengths_of (map O.value result.now)
            ≡ part (lengths_of (buffer_items self.now)) start len }
    {
        &self.as_slice()[start..start + len + 1]
    }

    /// Returns how far the last offset is above the first: the sum of all lengths.
    pub fn range(&self) -> O
        ensures value { O.value result ≡ pos (last_of (buffer_items self.now)
            - start_of (buffer_items self.now)) }
        ensures lengths { O.value result ≡ pos (sum (lengths_of (buffer_items self.now))) }
    {
        O::usize_as(self.first().distance(*self.last()))
    }

    /// Returns the first offset.
    pub fn first(&self) -> &O
        ensures { O.value result.now ≡ pos (start_of (buffer_items self.now)) }
    {
        &self.as_slice()[0]
    }

    /// Returns the last offset.
    pub fn last(&self) -> &O
        ensures value { O.value result.now ≡ pos (last_of (buffer_items self.now)) }
        ensures fits { last_of (buffer_items self.now) ≤ O.MAX }
    {
        let offsets = self.as_slice();
        &offsets[offsets.len() - 1]
    }

    /// Returns where slot `index` starts and where it ends: it has the values from the start up to, and without, the
    /// end. The end is at most the last offset. Requires that `index` is below [`OffsetsBuffer::len_proxy`].
    ///
    /// arrow2's documentation states [`OffsetsBuffer::len`] as the bound.
    pub fn start_end(&self, index: usize) -> (usize, usize)
        requires { index < length (lengths_of (buffer_items self.now)) }
        ensures start { result.0 ≡ offset_at (start_of (buffer_items self.now))
            (lengths_of (buffer_items self.now)) index }
        ensures end { result.1 ≡ result.0
            + slice_index_or (lengths_of (buffer_items self.now)) index 0 }
        ensures within { result.1 ≤ last_of (buffer_items self.now) }
    {
        slot_span(self.as_slice(), index)
    }

    /// Keeps only the `len` offsets from the one at index `offset` on, those of `len - 1` slots, over the same storage.
    /// Does not allocate.
    ///
    /// Requires that `len` is above 0, and that `offset + len` is at most [`OffsetsBuffer::len`].
    pub fn slice(&mut self, offset: usize, len: usize)
        requires not_empty { 0 < len }
        requires inside { offset + len ≤ length (buffer_items self.old) }
        ensures offsets { buffer_items self.new ≡ part (buffer_items self.old) offset len }
        ensures storage { self.new ≡ record self.old {
          offset = self.old.offset + offset;
          len = len;
        } }
        ensures start { start_of (buffer_items self.new)
            ≡ offset_at (start_of (buffer_items self.old))
            (lengths_of (buffer_items self.old)) offset }
        ensures lengths { lengths_of (buffer_items self.new)
            ≡ part (lengths_of (buffer_items self.old)) offset (len - 1) }
    {
        prove!(len <= self.buffer.len());
        self.buffer.slice(offset, len);
    }

    /// Returns the `len` offsets from the one at index `offset` on, those of `len - 1` slots, over the same storage.
    /// Does not allocate.
    ///
    /// Requires what [`OffsetsBuffer::slice`] requires. arrow2 has `slice` alone.
    pub fn sliced(mut self, offset: usize, len: usize) -> Self
        requires not_empty { 0 < len }
        requires inside { offset + len ≤ length (buffer_items self) }
        ensures offsets { buffer_items result ≡ part (buffer_items self) offset len }
        ensures storage { result ≡ record self { offset = self.offset + offset; len = len } }
        ensures start { start_of (buffer_items result)
            ≡ offset_at (start_of (buffer_items self)) (lengths_of (buffer_items self)) offset }
        ensures lengths { lengths_of (buffer_items result)
            ≡ part (lengths_of (buffer_items self)) offset (len - 1) }
    {
        self.slice(offset, len);
        self
    }

    /// Keeps only the `slots` slots from slot `start` on, with their `slots + 1` offsets, over the same storage. Does
    /// not allocate.
    ///
    /// Requires that `start + slots` is at most [`OffsetsBuffer::len_proxy`]. arrow2 has [`OffsetsBuffer::slice`]
    /// alone, which counts offsets.
    pub fn slice_slots(&mut self, start: usize, slots: usize)
        requires inside { start + slots ≤ length (lengths_of (buffer_items self.old)) }
        ensures lengths { lengths_of (buffer_items self.new)
            ≡ part (lengths_of (buffer_items self.old)) start slots }
        ensures first { start_of (buffer_items self.new)
            ≡ offset_at (start_of (buffer_items self.old))
            (lengths_of (buffer_items self.old)) start }
        ensures offsets { buffer_items self.new
            ≡ part (buffer_items self.old) start (slots + 1) }
        ensures storage { self.new ≡ record self.old {
          offset = self.old.offset + start;
          len = slots + 1;
        } }
    {
        prove!(slots < self.len());
        self.slice(start, slots + 1);
    }

    /// Returns a double-ended iterator over the lengths of the slots, in order.
    pub fn lengths(&self) -> Lengths<'_, O>
        ensures { result ≡ lengths_of (buffer_items self.now) }
    {
        Lengths::new(self.as_slice())
    }

    /// Returns the buffer whose items are the offsets. It is sliced as these are. Does not allocate.
    pub fn into_inner(self) -> Buffer<O>
        // `numbers`: the storage, the offset and the length are those of the offsets, with each number of the type read
        // as an integer. `valid`: the items are offsets. No number of the type is above `O.MAX`.
        ensures numbers { numbers_of O.value result ≡ self }
        ensures valid { AreOffsetsUpTo O.MAX (map O.value (buffer_items result)) }
    {
        let OffsetsBuffer { buffer } = self;
        buffer
    }
}

/// Makes offsets of the buffer, without a copy.
///
/// # Errors
///
/// Exactly where the items are not offsets: `OutOfSpec` with the text of the first rule of
/// [`BrokenRule`](crate::BrokenRule) that they break, or `OutOfMemory`. In the code `OutOfMemory` comes only if that
/// text cannot be allocated; no clause states that. After either error the buffer is dropped.
impl<O: OffsetNumber> TryFrom<Buffer<O>> for OffsetsBuffer<O> {
    type Error = Error;

    ghost try_from_gives = { λ buffer r. MatchResult r (λ b. AreOffsets (buffer_items b)
        × (b ≡ numbers_of O.value buffer))
        (λ e. RejectsNumbers e (map O.value (buffer_items buffer))) };

    fn try_from(buffer: Buffer<O>) -> Result<Self> {
        try_check_offsets(buffer.allocator(), buffer.as_slice())?;
        Ok(OffsetsBuffer { buffer })
    }
}

/// Makes offsets of the whole vector, without a copy.
///
/// # Errors
///
/// Where the items are not offsets: `OutOfSpec` with the text of the first rule of [`BrokenRule`](crate::BrokenRule)
/// that they break, or `OutOfMemory`. Where they are offsets: only `OutOfMemory`. In the code `OutOfMemory` comes only
/// if that text, or the `Rc` of the storage, cannot be allocated; no clause states that. After an error the vector is
/// dropped.
impl<O: OffsetNumber> TryFrom<Vec<O>> for OffsetsBuffer<O> {
    type Error = Error;

    ghost try_from_gives = { λ vector r. MatchResult r (λ b. AreOffsets (buffer_items b)
        × (b ≡ whole_buffer (map O.value vector.items)))
        (λ e. RejectsOrRunsOut e (map O.value vector.items)) };

    fn try_from(offsets: Vec<O>) -> Result<Self> {
        OffsetsBuffer::try_from(Offsets::try_from(offsets)?)
    }
}

/// Makes shared offsets of offsets that grow, without a copy.
///
/// Stands for arrow2's `From`.
///
/// # Errors
///
/// Only `OutOfMemory`. In the code it comes only where the `Rc` of the storage cannot be allocated; no clause states
/// that. After an error the offsets are dropped.
impl<O: OffsetNumber> TryFrom<Offsets<O>> for OffsetsBuffer<O> {
    type Error = Error;

    ghost try_from_gives = { λ from r. MatchResult r (λ b.
        (b ≡ whole_buffer (map pos (offsets_of from)))
        × (start_of (buffer_items b) ≡ from.start)
        × (lengths_of (buffer_items b) ≡ from.lengths)) (λ e. e ≡ OutOfMemory) };

    fn try_from(offsets: Offsets<O>) -> Result<Self> {
        let buffer = Buffer::try_from(offsets.into_inner())?;
        Ok(OffsetsBuffer { buffer })
    }
}

/// Returns the offset at an index. Requires that the index is below the number of offsets.
impl<O: OffsetNumber> Index<usize> for OffsetsBuffer<O> {
    type Output = O;

    ghost can_index = { λ b position. position < length (buffer_items b) };

    ghost index_gives = { λ b position offset.
        O.value offset ≡ slice_index_or (buffer_items b) position (pos 0) };

    fn index(&self, position: usize) -> &O {
        &self.as_slice()[position]
    }
}

/// Returns the same offsets, over the same storage. Does not allocate.
///
/// # Errors
///
/// `AllocError`. The code returns it only if the reference count would overflow; no clause states that.
impl<O: OffsetNumber> Clone for OffsetsBuffer<O> {
    ghost is_clone = { λ b copy. copy ≡ b };

    fn clone(&self) -> std::result::Result<Self, AllocError> {
        Ok(OffsetsBuffer {
            buffer: self.buffer.clone()?,
        })
    }
}

/// Two `OffsetsBuffer`s are equal exactly if their lists of offsets are, whatever their storage is.
impl<O: OffsetNumber> PartialEq for OffsetsBuffer<O> {
    ghost eq = { on buffer_items (pointwise int_eq) };

    // The proof that `eq` is symmetric and transitive.
    ghost laws = { partial_equiv_from_equiv (on_equiv buffer_items (lists_equiv int_eq_equiv)) };

    fn eq(&self, other: &Self) -> bool
        ensures value { result ≡ pointwise int_eq (buffer_items self.now) (buffer_items other.now) }
        ensures lists { IsTrue result ↔ (buffer_items self.now ≡ buffer_items other.now) }
        // The same as `value`, for the lists that the first offsets and the lengths give.
        ensures by_lengths { let xs = buffer_items self.now in let ys = buffer_items other.now in
            result ≡ pointwise nat_eq (offsets_list (start_of xs) (lengths_of xs))
            (offsets_list (start_of ys) (lengths_of ys)) }
    {
        self.as_slice() == other.as_slice()
    }
}
