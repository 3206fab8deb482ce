//! A list that is shared, cloned and sliced in constant time.
ghost use Rattle.std.specs.Prelude.{◌≡◌, ◌≢◌, ◌+◌, ◌-◌, ◌^◌, ◌<◌, ◌≤◌, ◌↔◌, List, [], length, slice_index_or, IsTrue, IfOk, IfSome, MatchResult, ⊤, vec_len, vec_capacity};
ghost use Rattle.std.specs.Bool.{OnTrue, OnFalse, Decides};
ghost use Rattle.std.specs.Borrow.{sem};
ghost use Rattle.std.specs.Fmt.{debug_list};
ghost use Rattle.std.specs.Fn.{FnOnceReturnsAtMut, FnOnceTakesAtMut};
ghost use Rattle.std.specs.Iterator.{IsFiniteIterable};
ghost use Rattle.std.specs.Iterator.Adapters.{IterYieldsInOrder};
ghost use Rattle.std.specs.Iterator.Runs.{WholeRun};
ghost use Rattle.std.specs.Ordering.{on};
ghost use Rattle.std.specs.Slice.Iter.{iter_rest};
ghost use Rattle.std.specs.Cmp.{on_per, on_equiv};
ghost use Rattle.std.specs.Cmp.Lexicographic.{pointwise, lists_per, lists_equiv};
ghost use Rattle.arrow2_types.specs.declared.error.Error.TheVariants.{OutOfMemory};
ghost use Rattle.arrow2_model.specs.Lists.{part, buffer_items, whole_buffer, overwrite};
ghost use Rattle.arrow2_buffer.specs.Loans.{LendsOwnedPart, ReplacesPart};
ghost use Rattle.either.specs.Either.{MatchEither};
ghost use Rattle.std.specs.declared.alloc.Global.{Global};
ghost use Rattle.arrow2_types.specs.Failures.{OnlyOutOfMemory};

use crate::bytes::Bytes;
use crate::collect::collect_items;
use arrow2_types::{Error, Result};
use either::Either;
use std::alloc::{AllocError, Global};
use std::fmt;
use std::marker::Model;
use std::ops::Index;
use std::rc::Rc;
use std::slice::Iter;

/// A list of items that several owners share.
///
/// It is a part of the storage that an `Rc` holds: clones and slices share that storage, and do not allocate. Lengths
/// and offsets count items.
///
/// Differs from arrow2: it shares by `Rc` and not across threads, and does not deref to a slice: call
/// [`Buffer::as_slice`].
///
/// # Examples
///
/// ```rust
/// use arrow2::buffer::Buffer;
///
/// let buffer = Buffer::try_from(vec![in alloc; 1u32, 2, 3]?)?;
/// assert!(rt; buffer.len() == 3);
/// let part = buffer.sliced(1, 2);
/// assert_eq!(rt; part.as_slice(), [2, 3].as_slice());
/// ```
#[derive(Drop)]
pub struct Buffer<T> {
    storage: Rc<Bytes<T>>,
    offset: usize,
    len: usize,
}

impl<T> Model for Buffer<T> {
    ghost use Rattle.std.specs.Prelude.{◌+◌, ◌≤◌, ◌<◌, ◌^◌, length};
    ghost use Rattle.arrow2_model.specs.Lists.{BufferStorage};

    ghost Value = { BufferStorage T };

    ghost view = { λ b. record { storage = b.storage.value; offset = b.offset; len = b.len } };

    ghost invariant = { λ b. (b.offset + b.len ≤ length b.storage.value)
        × (b.offset + b.len < 2 ^ 64) };
}

#[tactic(auto, using(crate::proofs::Part::slicing))]
impl<T> Buffer<T> {
    ghost use Rattle.arrow2_buffer.specs.ItemLoans.{LendsItems};

    /// Returns the number of items.
    ///
    /// arrow2's `len` returns this number too; its documentation says bytes.
    pub fn len(&self) -> usize
        ensures items { result ≡ length (buffer_items self.now) }
        ensures value { result ≡ self.now.len }
        ensures inside { self.now.offset + result ≤ length self.now.storage }
        ensures fits { self.now.offset + result < 2 ^ 64 }
    {
        self.len
    }

    /// Returns the allocator of the buffer's storage, which can be used to make a new buffer.
    ///
    /// arrow2 has no such call: there, code allocates without naming an allocator.
    pub fn allocator(&self) -> Global
        ensures { (other : Global) → result ≡ other }
    {
        self.storage.allocator()
    }

    /// Returns whether it has no items.
    pub fn is_empty(&self) -> bool
        ensures { IsTrue result ↔ (buffer_items self.now ≡ []) }
    {
        self.len == 0
    }

    /// Returns whether the storage holds more items than the buffer has.
    pub fn is_sliced(&self) -> bool
        ensures sliced { IsTrue result ↔ (buffer_items self.now ≢ self.now.storage) }
        ensures whole { OnFalse result (buffer_items self.now ≡ self.now.storage) }
    {
        self.storage.as_slice().len() != self.len
    }

    /// Returns the items.
    pub fn as_slice(&self) -> &[T]
        ensures { result.now ≡ buffer_items self.now }
    {
        &self.storage.as_slice()[self.offset..self.offset + self.len]
    }

    /// Returns a double-ended iterator over references to the items.
    pub fn iter(&self) -> Iter<'_, T>
        ensures items { iter_rest result ≡ buffer_items self.now }
        ensures runs { IterYieldsInOrder T }
    {
        self.as_slice().iter()
    }

    /// Returns the number of items of the storage that come before the buffer's first item.
    pub fn offset(&self) -> usize
        ensures { result ≡ self.now.offset }
    {
        self.offset
    }

    /// Keeps `len` items from item `offset` on, over the same storage. Does not allocate.
    ///
    /// Requires that `offset + len` is at most [`Buffer::len`]; arrow2's documentation states a bound for the offset
    /// alone.
    pub fn slice(&mut self, offset: usize, len: usize)
        requires inside { offset + len ≤ length (buffer_items self.old) }
        ensures items { buffer_items self.new ≡ part (buffer_items self.old) offset len }
        ensures len { length (buffer_items self.new) ≡ len }
        ensures storage { self.new ≡ record self.old {
          offset = self.old.offset + offset;
          len = len;
        } }
    {
        prove!(offset <= self.len && len <= self.len - offset);
        self.offset += offset;
        self.len = len;
    }

    /// Returns the `len` items from item `offset` on, over the same storage. Does not allocate.
    ///
    /// Requires that `offset + len` is at most [`Buffer::len`].
    pub fn sliced(mut self, offset: usize, len: usize) -> Self
        requires inside { offset + len ≤ length (buffer_items self) }
        ensures items { buffer_items result ≡ part (buffer_items self) offset len }
        ensures len { length (buffer_items result) ≡ len }
        ensures storage { result ≡ record self { offset = self.offset + offset; len = len } }
    {
        self.slice(offset, len);
        self
    }

    /// Returns the items as a mutable slice if nobody else shares the storage, otherwise `None`. Does not allocate.
    /// When the borrow ends, the buffer holds the items that the caller wrote through the slice, and the rest of the
    /// storage is as it was. Where the result is `None`, the buffer is as it was. No clause states when the result is
    /// `Some`.
    ///
    /// A caller with a contract of its own uses [`Buffer::change_slice`], since the prover does not by itself prove
    /// facts on items that are written through a `&mut` inside an `Option`.
    pub fn get_mut_slice(&mut self) -> Option<&mut [T]>
        ensures* writes_back { sem 𝓛 (LendsItems T.row self.entry result) }
        ensures value { IfSome result (λ r. r.now ≡ buffer_items self.old) }
    {
        let start = self.offset;
        let end = start + self.len;
        lend_unshared(&mut self.storage, start, end)
    }

    /// Calls `change` on the items in place if nobody else shares the storage, and returns whether it did. No clause
    /// states when the result is true. Does not allocate, unless `change` does. Requires that `change` may be called on
    /// the items.
    ///
    /// arrow2 has [`Buffer::get_mut_slice`] alone.
    pub fn change_slice<F: FnOnce(&mut [T])>(&mut self, change: F) -> bool
        requires { FnOnceTakesAtMut F.FnOnce change (buffer_items self.old) }
        ensures changed { OnTrue result (FnOnceReturnsAtMut F.FnOnce change (buffer_items self.old)
            tt (buffer_items self.new)) }
        ensures others { OnTrue result (self.new
            ≡ record self.old
            { storage = overwrite self.old.storage self.old.offset (buffer_items self.new) }) }
        ensures same { OnFalse result (self.new ≡ self.old) }
    {
        let start = self.offset;
        let end = start + self.len;
        change_unshared(&mut self.storage, start, end, change)
    }

    /// Returns the whole storage, the index of the buffer's first item in it, and the number of items of the buffer.
    pub fn into_inner(self) -> (Rc<Bytes<T>>, usize, usize)
        ensures storage { (result.0.value ≡ self.storage) × (result.1 ≡ self.offset)
            × (result.2 ≡ self.len) }
        ensures inside { result.1 + result.2 ≤ length result.0.value }
    {
        (self.storage, self.offset, self.len)
    }

    /// Returns the vector as `Right` if nobody else shares the storage and nothing is sliced off, otherwise the buffer
    /// as it was, as `Left`. Does not allocate.
    ///
    /// It is proved that `Left` has the buffer as it was, and that `Right` has the same items and comes only if nothing
    /// is sliced off. The contract does not mention sharing. So two things are not proved: that a buffer whose storage
    /// is shared always gives `Left`, and that a whole buffer whose storage is not shared always gives `Right`.
    ///
    /// Differs from arrow2, which gives the whole vector of a sliced buffer.
    pub fn into_mut(self) -> Either<Self, Vec<T>>
        ensures items { MatchEither result (λ b. b ≡ self) (λ v. v.items ≡ buffer_items self) }
        ensures whole { MatchEither result (λ _. ⊤) (λ v. v.items ≡ self.storage) }
    {
        if self.is_sliced() {
            return Either::Left(self);
        }
        let Buffer {
            storage,
            offset,
            len,
        } = self;
        match Rc::try_unwrap(storage) {
            Ok(bytes) => Either::Right(bytes.into_vec()),
            Err(storage) => Either::Left(Buffer {
                storage,
                offset,
                len,
            }),
        }
    }
}

/// Returns the items from `start` up to `end` as a mutable slice if nobody else shares the storage, otherwise `None`.
fn lend_unshared<T>(shared: &mut Rc<Bytes<T>>, start: usize, end: usize) -> Option<&mut [T]>
    requires order { start ≤ end }
    requires within { end ≤ length shared.old.value }
    ensures* writes_back { sem 𝓛 (LendsOwnedPart T.row shared.entry start result) }
    ensures value { IfSome result (λ r. r.now ≡ part shared.old.value start (end - start)) }
{
    match Bytes::get_mut(shared) {
        Some(bytes) => Some(bytes.part_mut(start, end)),
        None => None,
    }
}

/// Calls `change` on the items from `start` up to `end` in place if nobody else shares the storage, and returns whether
/// it did.
fn change_unshared<T, F: FnOnce(&mut [T])>(
    shared: &mut Rc<Bytes<T>>,
    start: usize,
    end: usize,
    change: F,
) -> bool
    requires order { start ≤ end }
    requires within { end ≤ length shared.old.value }
    requires callable { FnOnceTakesAtMut F.FnOnce change
        (part shared.old.value start (end - start)) }
    ensures written { OnTrue result (ReplacesPart (λ old new. FnOnceReturnsAtMut F.FnOnce change old tt new)
        start (end - start) shared.old.value shared.new.value) }
    ensures same { OnFalse result (shared.new ≡ shared.old) }
{
    match Bytes::get_mut(shared) {
        Some(bytes) => {
            change(bytes.part_mut(start, end));
            true
        }
        None => false,
    }
}

impl<T: Drop> Buffer<T> {
    /// Returns an empty buffer.
    ///
    /// # Errors
    ///
    /// `OutOfMemory` where the allocation of the reference count fails.
    pub fn new(alloc: Global) -> Result<Self>
        ensures made { IfOk result (λ b. b ≡ whole_buffer []) }
        ensures only { OnlyOutOfMemory result }
    {
        Buffer::try_from(Vec::new(alloc))
    }

    /// Returns a buffer of the items of an iterator, in order. Requires that the iterator ends, and that its `next` may
    /// be called until then. Does not read the size hint.
    ///
    /// Stands for arrow2's `FromIterator`.
    ///
    /// # Errors
    ///
    /// `OutOfMemory` where the allocation of the items or of their reference count fails.
    pub fn try_from_iter<I: IntoIterator<Item = T>>(alloc: Global, iter: I) -> Result<Self>
        requires { IsFiniteIterable I.into_iter_gives I.IntoIter.can_next I.IntoIter.remaining iter }
        // All items of a run of the iterator.
        ensures items { IfOk result (λ b. (it : I.IntoIter) × I.into_iter_gives iter it
            × WholeRun I.IntoIter.next_gives it (λ p. b ≡ whole_buffer p.items)) }
        ensures only { OnlyOutOfMemory result }
    {
        let items = collect_items(alloc, iter.into_iter())?;
        Buffer::try_from(items)
    }
}

/// Returns a buffer of the whole vector, which is moved and not copied.
///
/// # Errors
///
/// `OutOfMemory` where the allocation of the reference count fails. The vector is then dropped.
impl<T: Drop> TryFrom<Vec<T>> for Buffer<T> {
    type Error = Error;

    ghost try_from_gives = { λ items r. MatchResult r (λ b.
        b ≡ whole_buffer items.items) (λ e. e ≡ OutOfMemory) };

    fn try_from(items: Vec<T>) -> Result<Self> {
        let alloc = *items.allocator();
        let len = items.len();
        let storage = Rc::new(alloc, Bytes::from(items))?;
        Ok(Buffer {
            storage,
            offset: 0,
            len,
        })
    }
}

/// Returns the item at an index. Requires that the index is below [`Buffer::len`].
impl<T> Index<usize> for Buffer<T> {
    type Output = T;

    ghost can_index = { λ b position. position < length (buffer_items b) };

    ghost index_gives = { λ b position item. item ≡ slice_index_or (buffer_items b) position item };

    fn index(&self, position: usize) -> &T {
        &self.as_slice()[position]
    }
}

/// Two buffers are equal where their lists of items are equal by the items' own `==`, whatever their storage is.
impl<T: PartialEq> PartialEq for Buffer<T> {
    ghost eq = { on buffer_items (pointwise T.eq) };

    ghost laws = { on_per buffer_items (lists_per T.laws) };

    /// For item types whose `==` is true exactly for identical values, such as integers, two buffers are equal exactly
    /// if their lists of items are identical.
    fn eq(&self, other: &Self) -> bool
        ensures items { result ≡ pointwise T.eq (buffer_items self.now) (buffer_items other.now) }
        ensures same { ((x y : T) → Decides (T.eq x y) (x ≡ y)) →
            IsTrue result ↔ (buffer_items self.now ≡ buffer_items other.now) }
    {
        self.as_slice() == other.as_slice()
    }
}

impl<T: Eq> Eq for Buffer<T> {
    ghost laws = { on_equiv buffer_items (lists_equiv T.Eq.laws) };
}

/// Prints the buffer as a slice of its items.
impl<T: fmt::Debug> fmt::Debug for Buffer<T> {
    ghost debug_output = { λ b. debug_list T.debug_output (buffer_items b) };

    fn fmt<W: fmt::Write>(&self, f: &mut fmt::Formatter<W>) -> fmt::Result {
        fmt::Debug::fmt(&self.as_slice(), f)
    }
}

/// Returns a buffer of the same storage, offset and length. Does not allocate: it fails only if the reference count
/// would overflow. No clause states this.
impl<T: Drop> Clone for Buffer<T> {
    ghost is_clone = { λ b copy. copy ≡ b };

    fn clone(&self) -> std::result::Result<Self, AllocError> {
        Ok(Buffer {
            storage: self.storage.clone()?,
            offset: self.offset,
            len: self.len,
        })
    }
}
