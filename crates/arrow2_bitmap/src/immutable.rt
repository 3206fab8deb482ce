//! A bitmap over shared bytes.
ghost use Rattle.std.specs.Prelude.{◌≡◌, ℕ, List, Bool, map, ◌+◌, ◌*◌, ◌/◌, ◌%◌, ◌<◌, ◌≤◌, ◌↔◌, [], false, length, replicate, slice_index_or, take, OnOk, IfOk, IsTrue, Some, MatchResult, vec_len, codes, IsErrOf, ◌^◌, IsNone, IfSome};
ghost use Rattle.std.specs.Bool.{beq};
ghost use Rattle.std.specs.Ordering.{on};
ghost use Rattle.std.specs.Cmp.{partial_equiv_from_equiv, bool_eq_equiv, on_equiv};
ghost use Rattle.std.specs.Cmp.Lexicographic.{pointwise, lists_equiv};
ghost use Rattle.std.specs.List.{slice_get, range_with_len};
ghost use Rattle.std.specs.Simd.Lanes.{zip2};
ghost use Rattle.std.specs.Iterator.{IsFiniteIterable};
ghost use Rattle.std.specs.Iterator.Runs.{WholeRun};
ghost use Rattle.either.specs.Either.{MatchEither};
ghost use Rattle.arrow2_model.specs.Lists.{bits, part, falses, spill, BitmapStorage, items_of};
ghost use Rattle.arrow2_model.specs.Shown.{shown};
ghost use Rattle.arrow2_model.specs.Touched.{slice_reads};
ghost use Rattle.arrow2_types.specs.Failures.{FailsOnlyWith, OnlyOutOfMemory, OnlyOverflowOrOutOfMemory};
ghost use Rattle.arrow2_types.specs.declared.error.Error.TheVariants.{OutOfMemory};
ghost use Rattle.arrow2_bitmap.specs.Predicates.{ReturnsBelow, ReturnsOnEach, ReturnsOnPairs, IsResultAt, IsPairResultAt, IsCallableWithEach, IsCallableWithPairs};
ghost use Rattle.arrow2_bitmap.specs.Iterators.{MayYieldTooMany};
ghost use Rattle.arrow2_bitmap.specs.PackedBitmaps.{IsPacked, MakesOfBytes, packed_storage};
ghost use Rattle.arrow2_bitmap.specs.Failures.{too_long};
ghost use Rattle.std.specs.declared.alloc.Global.{Global};
ghost use Rattle.std.specs.Fmt.{WritesStyledOnOk};

use crate::check::check_length;
use crate::mutable::MutableBitmap;
use arrow2_bits::{
    BitChunks, BitmapIter, Reads, Stored, bytes_for, count_zeros, get_bit, recount, same_bits,
};
use arrow2_buffer::Bytes;
use arrow2_chunk::BitChunk;
use arrow2_packed_bits::from_fn::pack_results;
use arrow2_types::{Error, NativeType, Result};
use either::Either;
use std::alloc::{AllocError, Global};
use std::convert::TryFrom;
use std::marker::Model;
use std::rc::Rc;
use std::{fmt, mem};

/// A bitmap over shared bytes: contracts see the bytes, the bit at which its items begin, and the number of items.
/// Slices and clones share the bytes through an `Rc`, so all of them stay on one thread. arrow2 has an `Arc`.
///
/// # Examples
///
/// ```rust
/// use arrow2::bitmap::Bitmap;
///
/// let bitmap = Bitmap::from_bools(alloc, &[true, false, true, true])?;
/// assert!(rt; bitmap.len() == 4 && bitmap.unset_bits() == 1);
/// let part = bitmap.sliced(1, 3);
/// assert!(rt; part.get(0) == Some(false) && part.get(3).is_none());
/// ```
#[derive(Drop)]
pub struct Bitmap {
    bytes: Rc<Bytes<u8>>,
    offset: usize,
    length: usize,
    unset_bits: usize,
}

impl Model for Bitmap {
    ghost use Rattle.std.specs.Prelude.{◌≡◌, ◌+◌, ◌*◌, ◌≤◌, ◌<◌, ◌^◌, length as count};
    ghost use Rattle.arrow2_model.specs.Lists.{bits, part, falses, BitmapStorage};

    ghost Value = { BitmapStorage };

    ghost view = { λ b. record { bytes = b.bytes.value; offset = b.offset; len = b.length } };

    ghost invariant = { λ b. (b.offset + b.length ≤ 8 * count b.bytes.value)
        × (b.offset + b.length < 2 ^ 64)
        × (b.unset_bits ≡ falses (part (bits b.bytes.value) b.offset b.length)) };
}

#[tactic(auto, using(arrow2_model::proofs::Cursors::parts))]
impl Bitmap {
    /// Returns an empty bitmap: no bytes, bit offset 0.
    ///
    /// # Errors
    ///
    /// Only `OutOfMemory`.
    pub fn new(alloc: Global) -> Result<Bitmap>
        ensures items { IfOk result (λ b. items_of b ≡ []) }
        ensures storage { IfOk result (λ b. b ≡ record { bytes = []; offset = 0; len = 0 }) }
        ensures only { OnlyOutOfMemory result }
    {
        Bitmap::from_u8_vec(Vec::new(alloc), 0)
    }

    /// Returns a bitmap of the first `len` bits of `bytes`. The bitmap keeps the whole vector.
    ///
    /// # Errors
    ///
    /// If `len` is above eight times the number of bytes: `InvalidArgumentError` with the message that the definition
    /// `too_long` gives, which begins with "The offset + length"; or `OutOfMemory` if this message cannot be allocated.
    /// (No clause states that this is the only reason for `OutOfMemory`.) Otherwise `OutOfMemory` is the only error.
    /// After an error the bytes are dropped.
    pub fn try_new(bytes: Vec<u8>, len: usize) -> Result<Bitmap>
        // By `accepted`, the call fails where `len` is too great. `rejected` states with which errors.
        ensures accepted { OnOk result (len ≤ 8 * vec_len bytes) }
        ensures ok { IfOk result (λ b. b ≡ record {
          bytes = bytes.items;
          offset = 0;
          len = len;
        }) }
        ensures items { IfOk result (λ b. items_of b ≡ take len (bits bytes.items)) }
        ensures len { IfOk result (λ b. length (items_of b) ≡ len) }
        ensures rejected { 8 * vec_len bytes < len →
            FailsOnlyWith result (too_long (codes "The offset + length") len (vec_len bytes)) }
        ensures only { len ≤ 8 * vec_len bytes → OnlyOutOfMemory result }
    {
        check_length("The offset + length", len, &bytes)?;
        Bitmap::from_u8_vec(bytes, len)
    }

    /// Returns a bitmap of the first `len` bits of `bytes`. The bitmap keeps the whole vector. Requires `len` to be at
    /// most eight times the number of bytes; arrow2's documentation has the comparison the other way round.
    ///
    /// # Errors
    ///
    /// Only `OutOfMemory`. The bytes are then dropped.
    pub fn from_u8_vec(bytes: Vec<u8>, len: usize) -> Result<Bitmap>
        requires inside { len ≤ 8 * vec_len bytes }
        ensures { MakesOfBytes result bytes.items len }
    {
        prove!(bytes_for(len) <= bytes.len());
        let unset_bits = count_zeros(bytes.as_slice(), 0, len);
        Bitmap::from_counted(bytes, len, unset_bits)
    }

    /// Returns the bitmap that [`Bitmap::from_u8_vec`] returns, but does not count its unset bits: the caller passes
    /// their number as `unset_bits`. Requires `len` to be at most eight times the number of bytes, and `unset_bits` to
    /// be the number of unset bits among the first `len`.
    pub(crate) fn from_counted(bytes: Vec<u8>, len: usize, unset_bits: usize) -> Result<Bitmap>
        requires inside { len ≤ 8 * vec_len bytes }
        requires counted { unset_bits ≡ falses (take len (bits bytes.items)) }
        ensures { MakesOfBytes result bytes.items len }
    {
        let alloc = *bytes.allocator();
        let bytes = Rc::new(alloc, Bytes::from(bytes))?;
        Ok(Bitmap {
            bytes,
            offset: 0,
            length: len,
            unset_bits,
        })
    }

    /// Returns a bitmap of the first `len` bits of a copy of `bytes`. The bitmap keeps the whole copy. Requires `len`
    /// to be at most eight times the number of bytes; arrow2's documentation has the comparison the other way round.
    ///
    /// # Errors
    ///
    /// Only `OutOfMemory`.
    pub fn from_u8_slice(alloc: Global, bytes: &[u8], len: usize) -> Result<Bitmap>
        requires inside { len ≤ 8 * length bytes.now }
        ensures { MakesOfBytes result bytes.now len }
    {
        Bitmap::from_u8_vec(Vec::from_slice(alloc, bytes)?, len)
    }

    /// Returns a bitmap of `len` items, all false, stored in canonical bytes, from bit 0 on.
    ///
    /// # Errors
    ///
    /// Only `OutOfMemory`.
    pub fn new_zeroed(alloc: Global, len: usize) -> Result<Bitmap>
        ensures items { IfOk result (λ b. items_of b ≡ replicate len false) }
        ensures storage { IfOk result (λ b. b ≡ record {
          bytes = replicate ((len + 7) / 8) 0;
          offset = 0;
          len = len;
        }) }
        ensures only { OnlyOutOfMemory result }
    {
        let zeros = vec![in alloc; 0u8; bytes_for(len)]?;
        Bitmap::from_counted(zeros, len, len)
    }

    /// Returns the bitmap of the items, stored in canonical bytes, from bit 0 on.
    ///
    /// Stands for arrow2's `From` of a slice of booleans.
    ///
    /// # Errors
    ///
    /// Only `OutOfMemory`.
    pub fn from_bools(alloc: Global, items: &[bool]) -> Result<Bitmap>
        ensures items { IfOk result (λ b. items_of b ≡ items.now) }
        ensures storage { IfOk result (λ b. b ≡ packed_storage items.now) }
        ensures only { OnlyOutOfMemory result }
    {
        Bitmap::try_from(MutableBitmap::from_bools(alloc, items)?)
    }

    /// Returns the bitmap of the items of an iterator, in its order. Requires that the iterator ends, and that its
    /// `next` may be called a first time. (By std's contract of `next`, it may then be called again after each item.)
    ///
    /// Stands for arrow2's `FromIterator`, which allocates by the size hint. Here the size hint is not read.
    ///
    /// The bitmap is stored in canonical bytes, from bit 0 on.
    ///
    /// # Errors
    ///
    /// `Overflow` or `OutOfMemory`. `Overflow` comes only if the contract of the iterator allows more than `usize::MAX`
    /// items. Where it yields more, one of the two comes. After either error, the iterator and the items so far are
    /// dropped; no clause states how far the iterator was read.
    pub fn try_from_iter<I: IntoIterator<Item = bool>>(alloc: Global, iter: I) -> Result<Bitmap>
        requires { IsFiniteIterable I.into_iter_gives I.IntoIter.can_next I.IntoIter.remaining iter }
        // `it` is an iterator that `iter` may turn into, and `p` a run of it: calls of `next` up to the first `None`.
        // The items are those of `p`.
        ensures items { IfOk result (λ b. (it : I.IntoIter) × I.into_iter_gives iter it
            × WholeRun I.IntoIter.next_gives it (λ p. items_of b ≡ p.items)) }
        ensures storage { IfOk result (λ b. IsPacked b) }
        ensures fits { IfOk result (λ b. length (items_of b) < 2 ^ 64) }
        // `Overflow` comes only where the iterator may yield too many items.
        ensures overflow { IsErrOf result Error.Overflow →
            (it : I.IntoIter) × I.into_iter_gives iter it × MayYieldTooMany I.IntoIter.next_gives it }
        ensures only { OnlyOverflowOrOutOfMemory result }
    {
        Bitmap::try_from(MutableBitmap::try_from_iter(alloc, iter)?)
    }

    /// Returns the bitmap of the results of `f` for each number below `len`, in order.
    ///
    /// Packs 64 results at a time. The bitmap is stored in canonical bytes, from bit 0 on. Requires that `f` may be
    /// called with each of these numbers. arrow2 has no such call: it collects an iterator.
    ///
    /// # Errors
    ///
    /// Only `OutOfMemory`.
    pub fn try_from_fn<F: Fn(usize) -> bool>(alloc: Global, len: usize, f: F) -> Result<Bitmap>
        requires callable { (index : ℕ) → index < len → F.pre f index }
        // If the results of `f` are those of a mathematical function `test`:
        ensures items { (test : ℕ → Bool) → ReturnsBelow len (F.post f) test →
            IfOk result (λ b. items_of b ≡ map test (range_with_len 0 len)) }
        // For any `f`: each item is a result that the contract of `f` allows at its index.
        ensures results { IfOk result (λ b. (index : ℕ) → index < len →
            F.post f index (slice_index_or (items_of b) index false)) }
        // There is one item for each result. The bitmap is stored in canonical bytes, from bit 0 on. The only error is
        // `OutOfMemory`.
        ensures len { IfOk result (λ b. length (items_of b) ≡ len) }
        ensures storage { IfOk result (λ b. IsPacked b) }
        ensures only { OnlyOutOfMemory result }
    {
        let bytes = pack_results(alloc, len, f)?;
        Bitmap::try_from(MutableBitmap::from_vec(bytes, len))
    }

    /// Returns the bitmap of the results of `f` for each item of a slice, in order. `f` is a comparison, for example.
    ///
    /// Packs 64 results at a time. The bitmap is stored in canonical bytes, from bit 0 on. Requires that `f` may be
    /// called with each item. arrow2 has no such call: it collects an iterator.
    ///
    /// # Errors
    ///
    /// Only `OutOfMemory`.
    pub fn from_slice_with<T, F: Fn(&T) -> bool>(alloc: Global, items: &[T], f: F) -> Result<Bitmap>
        requires callable { IsCallableWithEach items.now (F.pre f) }
        // If the results of `f` are those of a mathematical function `test`:
        ensures items { (test : T → Bool) → ReturnsOnEach items.now (F.post f) test →
            IfOk result (λ b. items_of b ≡ map test items.now) }
        // For any `f`: each item is a result that the contract of `f` allows at its index.
        ensures results { IfOk result (λ b. (index : ℕ) → index < length items.now →
            IsResultAt items.now (F.post f) index (slice_index_or (items_of b) index false)) }
        // There is one item for each result. The bitmap is stored in canonical bytes, from bit 0 on. The only error is
        // `OutOfMemory`.
        ensures len { IfOk result (λ b. length (items_of b) ≡ length items.now) }
        ensures storage { IfOk result (λ b. IsPacked b) }
        ensures only { OnlyOutOfMemory result }
    {
        Bitmap::try_from_fn(
            alloc,
            items.len(),
            |index|
                requires inside { index < length items.now }
                requires callable { IsCallableWithEach items.now (F.pre f) }
                ensures { IsResultAt items.entry.now (F.post f) index result }
            { f(&items[index]) },
        )
    }

    /// Returns the bitmap of the results of `f` for the two items at each index of two slices, in order.
    ///
    /// Packs 64 results at a time. The bitmap is stored in canonical bytes, from bit 0 on. Requires equal lengths, and
    /// that `f` may be called with each pair. arrow2 has no such call: it collects an iterator.
    ///
    /// # Errors
    ///
    /// Only `OutOfMemory`.
    pub fn from_slices_with<S, T, F: Fn(&S, &T) -> bool>(
        alloc: Global,
        left: &[S],
        right: &[T],
        f: F,
    ) -> Result<Bitmap>
        requires same_length { length left.now ≡ length right.now }
        requires callable { IsCallableWithPairs left.now right.now (F.pre f) }
        // If the results of `f` are those of a mathematical function `test`:
        ensures items { (test : S → T → Bool) → ReturnsOnPairs left.now right.now (F.post f) test →
            IfOk result (λ b. items_of b ≡ zip2 test left.now right.now) }
        // For any `f`: each item is a result that the contract of `f` allows at its index.
        ensures results { IfOk result (λ b. (index : ℕ) → index < length left.now →
            IsPairResultAt left.now right.now (F.post f) index
            (slice_index_or (items_of b) index false)) }
        // There is one item for each result. The bitmap is stored in canonical bytes, from bit 0 on. The only error is
        // `OutOfMemory`.
        ensures len { IfOk result (λ b. length (items_of b) ≡ length left.now) }
        ensures storage { IfOk result (λ b. IsPacked b) }
        ensures only { OnlyOutOfMemory result }
    {
        Bitmap::try_from_fn(
            alloc,
            left.len(),
            |index|
                requires inside { (index < length left.now) × (index < length right.now) }
                requires callable { IsCallableWithPairs left.now right.now (F.pre f) }
                ensures { IsPairResultAt left.entry.now right.entry.now (F.post f) index result }
            { f(&left[index], &right[index]) },
        )
    }

    /// Returns the number of items.
    pub fn len(&self) -> usize
        ensures items { result ≡ length (items_of self.now) }
        ensures storage { result ≡ self.now.len }
    {
        self.length
    }

    /// Returns the allocator of its bytes. A new bitmap can be made with it.
    ///
    /// arrow2 has no such call, since its calls take no allocator.
    pub fn allocator(&self) -> Global
        // `Global` has one value only, so the result equals each `Global`. The clause states nothing more.
        ensures { (other : Global) → result ≡ other }
    {
        self.bytes.allocator()
    }

    /// Returns whether it has no item.
    pub fn is_empty(&self) -> bool
        ensures { IsTrue result ↔ (length (items_of self.now) ≡ 0) }
    {
        self.len() == 0
    }

    /// Returns a double-ended iterator over the items.
    pub fn iter(&self) -> BitmapIter<'_>
        ensures items { result ≡ items_of self.now }
        // `fits` holds for every `Bitmap`: a `usize` counts its items.
        ensures fits { length (items_of self.now) < 2 ^ 64 }
    {
        BitmapIter::within(self.bytes.as_slice(), self.offset, self.length)
    }

    /// Returns item `index`, or `None` if `index` is not below the length.
    pub fn get(&self, index: usize) -> Option<bool>
        ensures { result ≡ slice_get (items_of self.now) index }
    {
        if index < self.length {
            Some(self.get_bit(index))
        } else {
            None
        }
    }

    /// Returns item `index`. Requires that `index` is below the length. arrow2 also accepts an index past the length,
    /// if its bit is inside the bytes.
    pub fn get_bit(&self, index: usize) -> bool
        requires below { index < length (items_of self.now) }
        ensures { result ≡ slice_index_or (items_of self.now) index false }
    {
        prove!(index < self.length);
        get_bit(self.bytes.as_slice(), self.offset + index)
    }

    /// Returns the bytes that hold its items, the bit offset of the first item in these bytes (below 8), and the number
    /// of items. For an empty bitmap, the slice is empty if the bit offset is 0, and has one byte otherwise.
    pub fn as_slice(&self) -> (&[u8], usize, usize)
        ensures bytes { result.0.now ≡ part self.now.bytes (self.now.offset / 8)
            ((self.now.offset % 8 + self.now.len + 7) / 8) }
        ensures offset { result.1 ≡ self.now.offset % 8 }
        ensures len { result.2 ≡ self.now.len }
        ensures inside { result.1 + result.2 ≤ 8 * length result.0.now }
        ensures fits { result.1 + result.2 < 2 ^ 64 }
        ensures items { part (bits result.0.now) result.1 result.2 ≡ items_of self.now }
    {
        let start = self.offset / 8;
        let within = self.offset % 8;
        let count = bytes_for(within + self.length);
        (
            &self.bytes.as_slice()[start..start + count],
            within,
            self.length,
        )
    }

    /// Returns an iterator that reads the items as full words of type `T`. The first item of a word is its lowest bit.
    ///
    /// The word that `remainder` returns has the items after the full words in its lowest bits. Its bits above these
    /// items are not cleared: mask it to `remainder_len` bits.
    ///
    /// In the contract, `spill` is this word. It has the items after the full words, then stored bits that are no
    /// items, then zeros, and is cut at its width. If the bitmap has a full word, the stored bits end with the byte of
    /// the last item. Otherwise they end with the storage.
    pub fn chunks<T: BitChunk>(&self) -> BitChunks<'_, T>
        ensures items { result.items ≡ items_of self.now }
        ensures fits { length (items_of self.now) < 2 ^ 64 }
        ensures spill { result.spill ≡ spill T.SIZE self.now.bytes
            self.now.offset self.now.len }
    {
        BitChunks::new(self.bytes.as_slice(), self.offset, self.length)
    }

    /// Returns the number of unset bits. The number is stored: the call reads no bits. No clause states this.
    pub fn unset_bits(&self) -> usize
        ensures { result ≡ falses (items_of self.now) }
    {
        self.unset_bits
    }

    /// Returns the same as [`Bitmap::unset_bits`].
    pub fn null_count(&self) -> usize
        ensures { result ≡ falses (items_of self.now) }
    {
        self.unset_bits()
    }

    /// Returns the bitmap as the validity of an array: as it is, or `None` where no item is false. Does not allocate.
    ///
    /// arrow2 has no such call.
    pub fn into_validity(self) -> Option<Bitmap>
        ensures none { IsNone result ↔ (falses (items_of self) ≡ 0) }
        ensures value { IfSome result (λ b. b ≡ self) }
    {
        (self.unset_bits > 0).then_some(self)
    }

    /// Returns how many of the `len` items from item `offset` on are false. Counts them at each call; no clause states
    /// how many bytes it reads. Requires that `offset + len` is at most the length. arrow2 also accepts a range that
    /// ends past the length, if its bits are inside the bytes.
    pub fn null_count_range(&self, offset: usize, len: usize) -> usize
        requires inside { offset + len ≤ length (items_of self.now) }
        ensures { result ≡ falses (part (items_of self.now) offset len) }
    {
        prove!(offset <= self.length && len <= self.length - offset);
        count_zeros(self.bytes.as_slice(), self.offset + offset, len)
    }

    /// Keeps only the `len` items from item `offset` on, over the same bytes. Requires that `offset + len` is at most
    /// the length. Does not allocate.
    pub fn slice(&mut self, offset: usize, len: usize)
        requires inside { offset + len ≤ length (items_of self.old) }
        ensures storage { self.new ≡ record {
          bytes = self.old.bytes;
          offset = self.old.offset + offset;
          len = len;
        } }
        ensures items { items_of self.new ≡ part (items_of self.old) offset len }
        ensures len { length (items_of self.new) ≡ len }
    {
        self.slice_counted(offset, len, &mut Reads::new());
    }

    /// Slices as [`Bitmap::slice`] does. Adds to `reads` the number of bytes that it reads to count the false items of
    /// the slice. Where `L` is the length before the call, this number (`slice_reads`) is:
    ///
    /// - 0 where `len` is `L`,
    /// - the number of bytes that hold the slice where `len` is below `L / 2`, rounded down,
    /// - else the number of bytes that hold the items before the slice, plus the number of bytes that hold the items
    ///   after it: a byte that holds items of both counts twice.
    ///
    /// It is at most `L / 16 + 4`. No clause states that every byte that the call reads is counted.
    ///
    /// arrow2 counts no reads.
    pub fn slice_counted(&mut self, offset: usize, len: usize, reads: &mut Reads)
        requires inside { offset + len ≤ length (items_of self.old) }
        ensures storage { self.new ≡ record {
          bytes = self.old.bytes;
          offset = self.old.offset + offset;
          len = len;
        } }
        ensures items { items_of self.new ≡ part (items_of self.old) offset len }
        ensures len { length (items_of self.new) ≡ len }
        ensures reads { reads.new ≡ reads.old
            + slice_reads self.old.offset (length (items_of self.old)) offset len }
        ensures bound { reads.new ≤ reads.old + length (items_of self.old) / 16 + 4 }
    {
        prove!(offset <= self.length && len <= self.length - offset);
        let mut stored = Stored::new(self.bytes.as_slice(), mem::replace(reads, Reads::new()));
        let unset_bits = recount(
            &mut stored,
            self.offset,
            self.length,
            self.unset_bits,
            offset,
            len,
        );
        *reads = stored.into_reads();
        self.offset += offset;
        self.length = len;
        self.unset_bits = unset_bits;
    }

    /// Returns the `len` items from item `offset` on, over the same bytes. Requires that `offset + len` is at most the
    /// length. Does not allocate.
    pub fn sliced(self, offset: usize, len: usize) -> Bitmap
        requires inside { offset + len ≤ length (items_of self) }
        ensures storage { result ≡ record {
          bytes = self.bytes;
          offset = self.offset + offset;
          len = len;
        } }
        ensures items { items_of result ≡ part (items_of self) offset len }
        ensures len { length (items_of result) ≡ len }
    {
        let mut bitmap = self;
        bitmap.slice(offset, len);
        bitmap
    }

    /// Returns the whole storage: the bytes, the bit at which the items begin, the number of items, and how many of
    /// them are false.
    pub fn into_inner(self) -> (Rc<Bytes<u8>>, usize, usize, usize)
        ensures bytes { result.0.value ≡ self.bytes }
        ensures offset { result.1 ≡ self.offset }
        ensures len { result.2 ≡ self.len }
        ensures inside { result.1 + result.2 ≤ 8 * length result.0.value }
        ensures fits { result.1 + result.2 < 2 ^ 64 }
        ensures unset_bits { result.3 ≡ falses (items_of self) }
    {
        (self.bytes, self.offset, self.length, self.unset_bits)
    }

    /// Returns `Right` of a bitmap that can be changed in place, if the items begin at bit 0 and nobody shares the
    /// bytes. Otherwise returns `Left` of the bitmap as it was. Does not allocate. No clause states the capacity of
    /// `Right`.
    ///
    /// It is proved that `Left` has the bitmap as it was, and that `Right` has the same items and comes only where they
    /// begin at bit 0. No clause is on sharing: it is not proved that `Right` comes only if nobody shares the bytes,
    /// nor that it comes whenever nobody shares them and the items begin at bit 0.
    pub fn into_mut(self) -> Either<Bitmap, MutableBitmap>
        // Which of the two is returned where the offset is 0 is not stated.
        ensures { MatchEither result (λ b. b ≡ self) (λ m. (self.offset ≡ 0)
            × (m.items ≡ items_of self)) }
    {
        if self.offset != 0 {
            return Either::Left(self);
        }
        let Bitmap {
            bytes,
            offset,
            length,
            unset_bits,
        } = self;
        match Rc::try_unwrap(bytes) {
            Ok(bytes) => Either::Right(MutableBitmap::from_vec(bytes.into_vec(), length)),
            Err(bytes) => Either::Left(Bitmap {
                bytes,
                offset,
                length,
                unset_bits,
            }),
        }
    }

    /// Returns a bitmap that can be changed, with the same items. In the code it is over the same vector
    /// if [`Bitmap::into_mut`] returns `Right`, otherwise a copy; no clause states that. arrow2 returns no `Result`.
    ///
    /// # Errors
    ///
    /// Only `OutOfMemory`. The bitmap is then dropped.
    pub fn make_mut(self) -> Result<MutableBitmap>
        ensures ok { IfOk result (λ m. m.items ≡ items_of self) }
        ensures only { OnlyOutOfMemory result }
    {
        match self.into_mut() {
            Either::Left(shared) => copy_items(&shared),
            Either::Right(own) => Ok(own),
        }
    }
}

/// Returns a bitmap that grows, with a copy of the items. Allocates at most once. The only error is `OutOfMemory`.
fn copy_items(bitmap: &Bitmap) -> Result<MutableBitmap>
    ensures ok { IfOk result (λ m. m.items ≡ items_of bitmap.now) }
    ensures only { OnlyOutOfMemory result }
{
    if bitmap.offset % 8 == 0 {
        return copy_bytes(bitmap);
    }
    let mut copy = MutableBitmap::with_capacity(bitmap.allocator(), bitmap.len())?;
    copy.extend_from_bitmap(bitmap)?;
    Ok(copy)
}

/// Returns a bitmap that grows, with a copy of the items. Requires that they begin at a byte boundary. Copies all bytes
/// at once.
fn copy_bytes(bitmap: &Bitmap) -> Result<MutableBitmap>
    requires { bitmap.now.offset % 8 ≡ 0 }
    ensures ok { IfOk result (λ m. m.items ≡ items_of bitmap.now) }
    ensures only { OnlyOutOfMemory result }
{
    let (stored, _, length) = bitmap.as_slice();
    let bytes = Vec::from_slice(bitmap.allocator(), stored)?;
    Ok(MutableBitmap::from_vec(bytes, length))
}

/// Returns an iterator over the items, as [`Bitmap::iter`] does.
impl<'a> IntoIterator for &'a Bitmap {
    type Item = bool;

    type IntoIter = BitmapIter<'a>;

    ghost into_iter_gives = { λ b cursor. cursor ≡ items_of b.now };

    fn into_iter(self) -> BitmapIter<'a> {
        self.iter()
    }
}

/// Two bitmaps are equal exactly if their items are, whatever their bytes, bit offsets and padding bits are.
impl PartialEq for Bitmap {
    ghost eq = { on items_of (pointwise beq) };

    // The proof that `eq` is symmetric and transitive.
    ghost laws = { partial_equiv_from_equiv (on_equiv items_of (lists_equiv bool_eq_equiv)) };

    fn eq(&self, other: &Bitmap) -> bool
        ensures equality { result ≡ pointwise beq (items_of self.now) (items_of other.now) }
        ensures same { IsTrue result ↔ (items_of self.now ≡ items_of other.now) }
    {
        self.len() == other.len()
            && same_bits(
                self.bytes.as_slice(),
                self.offset,
                other.bytes.as_slice(),
                other.offset,
                self.length,
            )
    }
}

/// Equality is reflexive too.
impl Eq for Bitmap {
    // The proof that `eq` is reflexive, symmetric and transitive.
    ghost laws = { on_equiv items_of (lists_equiv bool_eq_equiv) };
}

/// Returns a bitmap with the same bytes, bit offset and length. Shares the bytes. Does not allocate.
///
/// # Errors
///
/// `AllocError`. The code returns it only if the reference count would overflow; no clause states that.
impl Clone for Bitmap {
    ghost is_clone = { λ a b. b ≡ a };

    fn clone(&self) -> std::result::Result<Bitmap, AllocError> {
        Ok(Bitmap {
            bytes: self.bytes.clone()?,
            offset: self.offset,
            length: self.length,
            unset_bits: self.unset_bits,
        })
    }
}

/// Makes a bitmap with the same items. It is over the same bytes, which are canonical. The only error is `OutOfMemory`.
/// The items are then dropped. arrow2 has `From`, which aborts if memory runs out.
impl TryFrom<MutableBitmap> for Bitmap {
    type Error = Error;

    ghost try_from_gives = { λ m r. MatchResult r (λ b. (items_of b ≡ m.items)
        × (b ≡ packed_storage m.items)) (λ e. e ≡ OutOfMemory) };

    fn try_from(bitmap: MutableBitmap) -> Result<Bitmap> {
        let (bytes, length) = bitmap.into_parts();
        Bitmap::from_u8_vec(bytes, length)
    }
}

/// Writes the items as [`arrow2_bits::fmt::fmt`] does for the bytes, the bit offset and the length that
/// [`Bitmap::as_slice`] returns.
impl fmt::Debug for Bitmap {
    ghost debug_output = { λ b. Some (shown
        (part b.bytes (b.offset / 8) ((b.offset % 8 + b.len + 7) / 8)) (b.offset % 8) b.len) };

    /// If it returns `Ok`, it wrote exactly the text that the definition `shown` gives for the bytes, the bit offset
    /// and the length: width, precision and flags of the formatter, `#` too, change nothing. The clause states nothing
    /// where the bitmap is printed as a part of another value by `{:#?}`: that formatter indents each line.
    fn fmt<W: fmt::Write>(&self, f: &mut fmt::Formatter<W>) -> fmt::Result
        ensures styled { let b = self.now in WritesStyledOnOk W.write_str_gives f.old result (shown
            (part b.bytes (b.offset / 8) ((b.offset % 8 + b.len + 7) / 8)) (b.offset % 8) b.len) f.new }
    {
        let (bytes, offset, length) = self.as_slice();
        arrow2_bits::fmt::fmt(bytes, offset, length, f)
    }
}
