//! A bitmap that grows.
ghost use Rattle.std.specs.Prelude.{◌≡◌, ◌+◌, ◌-◌, ◌*◌, ◌/◌, ◌<◌, ◌≤◌, ◌^◌, ◌↔◌, [], ◌∷◌, ◌++◌, false, length, take, slice_index_or, slice_set, OnOk, IsOk, IfOk, IsErrOf, IsTrue, IfNone, IfSome, IsNone, MatchOption, Some, codes, vec_len, vec_capacity, min, Bool, true, replicate};
ghost use Rattle.std.specs.Iterator.{IsFiniteIterable};
ghost use Rattle.std.specs.Iterator.Runs.{WholeRun};
ghost use Rattle.std.specs.Bool.{beq};
ghost use Rattle.std.specs.Ordering.{on};
ghost use Rattle.std.specs.Cmp.{partial_equiv_from_equiv, bool_eq_equiv, on_equiv};
ghost use Rattle.std.specs.Cmp.Lexicographic.{pointwise, lists_equiv};
ghost use Rattle.arrow2_model.specs.Lists.{bits, falses, part, canonical_bytes, GrowingBitmap, items_of};
ghost use Rattle.arrow2_bitmap.specs.PackedBitmaps.{packed_storage};
ghost use Rattle.arrow2_model.specs.Shown.{shown};
ghost use Rattle.arrow2_model.specs.Tables.{each};
ghost use Rattle.arrow2_types.specs.Failures.{FailsOnlyWith, error_of, OnlyOutOfMemory, OnlyOverflowOrOutOfMemory};
ghost use Rattle.arrow2_packed_bits.specs.Growth.{Appends, Reserves};
ghost use Rattle.arrow2_bitmap.specs.Iterators.{MayYieldTooMany};
ghost use Rattle.arrow2_bitmap.specs.Failures.{too_long};
ghost use Rattle.std.specs.declared.alloc.Global.{Global};
ghost use Rattle.std.specs.Fmt.{WritesStyledOnOk};

use crate::check::check_length;
use crate::immutable::Bitmap;
use arrow2_bits::{BitmapIter, bytes_for, count_zeros, get_bit};
use arrow2_packed_bits::PackedBits;
use arrow2_packed_bits::packing::{collect_bits, pack_bits};
use arrow2_types::{Error, Result};
use std::alloc::{AllocError, Global};
use std::convert::TryFrom;
use std::fmt;
use std::marker::Model;

/// A bitmap that grows: contracts see its items and its capacity.
///
/// Its bytes are always exactly those that its items need, and padding bits are false. arrow2 keeps the spare bytes and
/// the padding bits of a vector that it is given.
///
/// # Examples
///
/// ```rust
/// use arrow2::bitmap::MutableBitmap;
///
/// let mut bitmap = MutableBitmap::new(alloc);
/// bitmap.push(true)?;
/// bitmap.extend_constant(2, false)?;
/// assert_eq!(rt; bitmap.as_slice(), [0b001].as_slice());
/// assert!(rt; bitmap.pop() == Some(false) && bitmap.len() == 2);
/// ```
#[derive(Drop)]
pub struct MutableBitmap {
    pub(crate) bits: PackedBits,
}

impl Model for MutableBitmap {
    ghost use Rattle.arrow2_model.specs.Lists.{GrowingBitmap};

    ghost Value = { GrowingBitmap };

    // The value of its private field `bits`, which are packed bits.
    ghost view = { λ m. m.bits };
}

impl MutableBitmap {
    /// Returns an empty bitmap. Its capacity is 0. Does not allocate.
    pub fn new(alloc: Global) -> MutableBitmap
        ensures items { result.items ≡ [] }
        ensures capacity { result.capacity ≡ 0 }
    {
        MutableBitmap {
            bits: PackedBits::new(alloc),
        }
    }

    /// Returns a bitmap of the first `len` bits of `bytes`, over the same vector. Cuts spare bytes off and clears
    /// padding bits. The capacity is eight times that of the vector, but at most `usize::MAX`. Does not allocate where
    /// the bytes have at least `len` bits. In arrow2 spare bytes stay, and `push` may write into the wrong byte.
    ///
    /// # Errors
    ///
    /// If `len` is above eight times the number of bytes: `InvalidArgumentError` with the message that the definition
    /// `too_long` gives, which begins with "The length"; or `OutOfMemory` if this message cannot be allocated. (No
    /// clause states that this is the only reason for `OutOfMemory`.) Otherwise there is no error. After an error the
    /// bytes are dropped.
    pub fn try_new(bytes: Vec<u8>, len: usize) -> Result<MutableBitmap>
        ensures accepted { IsOk result ↔ (len ≤ 8 * vec_len bytes) }
        ensures ok { IfOk result (λ m. m.items ≡ take len (bits bytes.items)) }
        ensures len { IfOk result (λ m. length m.items ≡ len) }
        ensures capacity { IfOk result (λ m. m.capacity ≡ min (8 * vec_capacity bytes) (2 ^ 64 - 1)) }
        ensures rejected { FailsOnlyWith result (too_long (codes "The length") len (vec_len bytes)) }
    {
        check_length("The length", len, &bytes)?;
        Ok(MutableBitmap::from_vec(bytes, len))
    }

    /// Returns a bitmap of the first `len` bits of `bytes`, over the same vector. Cuts spare bytes off and clears
    /// padding bits. The capacity is eight times that of the vector, but at most `usize::MAX`. Requires `len` to be at
    /// most eight times the number of bytes. Does not allocate. In arrow2 spare bytes stay, and `push` may write into
    /// the wrong byte.
    pub fn from_vec(bytes: Vec<u8>, len: usize) -> MutableBitmap
        requires inside { len ≤ 8 * vec_len bytes }
        ensures items { result.items ≡ take len (bits bytes.items) }
        ensures len { length result.items ≡ len }
        ensures capacity { result.capacity ≡ min (8 * vec_capacity bytes) (2 ^ 64 - 1) }
    {
        prove!(bytes_for(len) <= bytes.len());
        MutableBitmap {
            bits: PackedBits::from_vec(bytes, len),
        }
    }

    /// Returns an empty bitmap with capacity for at least `capacity` items.
    ///
    /// # Errors
    ///
    /// Only `OutOfMemory`. It never comes for a capacity of 0.
    pub fn with_capacity(alloc: Global, capacity: usize) -> Result<MutableBitmap>
        ensures ok { IfOk result (λ m. m.items ≡ []) }
        ensures capacity { IfOk result (λ m. capacity ≤ m.capacity) }
        ensures only { OnlyOutOfMemory result }
        ensures succeeds { capacity ≡ 0 → IsOk result }
    {
        let bits = PackedBits::with_capacity(alloc, capacity)?;
        Ok(MutableBitmap { bits })
    }

    /// Returns a bitmap of `len` items, all false.
    ///
    /// # Errors
    ///
    /// Only `OutOfMemory`.
    #[tactic(auto, using(arrow2_packed_bits::proofs::ConstantBytes::filling))]
    pub fn from_len_zeroed(alloc: Global, len: usize) -> Result<MutableBitmap>
        ensures ok { IfOk result (λ m. m.items ≡ replicate len false) }
        ensures only { OnlyOutOfMemory result }
    {
        let zeros = constant_bytes(alloc, 0, bytes_for(len))?;
        Ok(MutableBitmap::from_vec(zeros, len))
    }

    /// Returns a bitmap of `len` items, all true.
    ///
    /// # Errors
    ///
    /// Only `OutOfMemory`.
    #[tactic(auto, using(arrow2_packed_bits::proofs::ConstantBytes::filling))]
    pub fn from_len_set(alloc: Global, len: usize) -> Result<MutableBitmap>
        ensures ok { IfOk result (λ m. m.items ≡ replicate len true) }
        ensures only { OnlyOutOfMemory result }
    {
        let ones = constant_bytes(alloc, u8::MAX, bytes_for(len))?;
        Ok(MutableBitmap::from_vec(ones, len))
    }

    /// Returns the bitmap of the items of an iterator, in its order. Requires that the iterator ends, and that its
    /// `next` may be called a first time. (By std's contract of `next`, it may then be called again after each item.)
    ///
    /// Stands for arrow2's `FromIterator`, which allocates by the size hint. Here the size hint is not read.
    ///
    /// # Errors
    ///
    /// `Overflow` or `OutOfMemory`. `Overflow` comes only if the contract of the iterator allows more than `usize::MAX`
    /// items. Where it yields more, one of the two comes. After either error, the iterator and the items so far are
    /// dropped; no clause states how far the iterator was read.
    pub fn try_from_iter<I: IntoIterator<Item = bool>>(
        alloc: Global,
        iter: I,
    ) -> Result<MutableBitmap>
        requires { IsFiniteIterable I.into_iter_gives I.IntoIter.can_next I.IntoIter.remaining iter }
        // `it` is an iterator that `iter` may turn into, and `p` a run of it: calls of `next` up to the first `None`.
        // The items are those of `p`.
        ensures items { IfOk result (λ m. (it : I.IntoIter) × I.into_iter_gives iter it
            × WholeRun I.IntoIter.next_gives it (λ p. m.items ≡ p.items)) }
        ensures fits { IfOk result (λ m. length m.items < 2 ^ 64) }
        // `Overflow` comes only where the iterator may yield too many items.
        ensures overflow { IsErrOf result Error.Overflow →
            (it : I.IntoIter) × I.into_iter_gives iter it × MayYieldTooMany I.IntoIter.next_gives it }
        ensures only { OnlyOverflowOrOutOfMemory result }
    {
        let (bytes, length) = collect_bits(alloc, iter.into_iter())?;
        Ok(MutableBitmap::from_vec(bytes, length))
    }

    /// Returns the bitmap of the items.
    ///
    /// Stands for arrow2's `From` of a slice of booleans.
    ///
    /// # Errors
    ///
    /// Only `OutOfMemory`.
    pub fn from_bools(alloc: Global, items: &[bool]) -> Result<MutableBitmap>
        ensures ok { IfOk result (λ m. m.items ≡ items.now) }
        ensures only { OnlyOutOfMemory result }
    {
        Ok(MutableBitmap::from_vec(pack_bits(alloc, items)?, items.len()))
    }

    /// Appends one item. Does not allocate where the length is below the capacity. arrow2 returns no `Result`, and its
    /// length may wrap.
    ///
    /// # Errors
    ///
    /// `Overflow` exactly where the length is `usize::MAX`. Else only `OutOfMemory`, and only where the new length
    /// passes the capacity. After either error, the bitmap holds the items that it held. The capacity never falls.
    pub fn push(&mut self, value: bool) -> Result<()>
        ensures { Appends error_of result self.old self.new (value ∷ []) }
    {
        self.bits.push(value)?;
        Ok(())
    }

    /// Appends `additional` items, each of them `value`. Within the capacity it does not allocate, else it allocates
    /// once, before it writes. arrow2 returns no `Result`.
    ///
    /// # Errors
    ///
    /// `Overflow` exactly where the new length would pass `usize::MAX`. Else only `OutOfMemory`, and only where the
    /// new length passes the capacity. After either error, the bitmap holds the items that it held. The capacity never
    /// falls.
    pub fn extend_constant(&mut self, additional: usize, value: bool) -> Result<()>
        ensures { Appends error_of result self.old self.new (replicate additional value) }
    {
        self.bits.extend_constant(additional, value)?;
        Ok(())
    }

    /// Appends the `len` bits from bit `offset` of `slice` on. Requires that `offset + len` is at most eight times the
    /// number of bytes. Within the capacity it does not allocate, else it allocates once, before it writes. arrow2
    /// returns no `Result`, and copies the padding bits of the last byte.
    ///
    /// # Errors
    ///
    /// `Overflow` exactly where the new length would pass `usize::MAX`. Else only `OutOfMemory`, and only where the
    /// new length passes the capacity. After either error, the bitmap holds the items that it held. The capacity never
    /// falls.
    pub fn extend_from_slice(&mut self, slice: &[u8], offset: usize, len: usize) -> Result<()>
        requires inside { offset + len ≤ 8 * length slice.now }
        ensures { Appends error_of result self.old self.new (part (bits slice.now) offset len) }
    {
        self.bits.extend_from_slice(slice, offset, len)?;
        Ok(())
    }

    /// Appends the items of a slice. Within the capacity it does not allocate, else it allocates once, before it
    /// writes. Stands for arrow2's `extend_from_trusted_len_iter`, which takes an iterator and returns no `Result`.
    ///
    /// # Errors
    ///
    /// `Overflow` exactly where the new length would pass `usize::MAX`. Else only `OutOfMemory`, and only where the
    /// new length passes the capacity. After either error, the bitmap holds the items that it held. The capacity never
    /// falls.
    pub fn extend_from_bools(&mut self, items: &[bool]) -> Result<()>
        ensures { Appends error_of result self.old self.new items.now }
    {
        self.bits.extend_from_bools(items)?;
        Ok(())
    }

    /// Appends the items of a bitmap, as [`MutableBitmap::extend_from_slice`] does. Within the capacity it does not
    /// allocate, else it allocates once, before it writes. arrow2 returns no `Result`.
    ///
    /// # Errors
    ///
    /// `Overflow` exactly where the new length would pass `usize::MAX`. Else only `OutOfMemory`, and only where the
    /// new length passes the capacity. After either error, the bitmap holds the items that it held. The capacity never
    /// falls.
    pub fn extend_from_bitmap(&mut self, bitmap: &Bitmap) -> Result<()>
        ensures { Appends error_of result self.old self.new (items_of bitmap.now) }
    {
        let (slice, offset, _) = bitmap.as_slice();
        self.extend_from_slice(slice, offset, bitmap.len())
    }

    /// Reserves capacity for `additional` more items. Within the capacity it does not allocate. arrow2 returns no
    /// `Result`.
    ///
    /// # Errors
    ///
    /// `Overflow` exactly where the length plus `additional` would pass `usize::MAX`. Else only `OutOfMemory`, and
    /// only where the length plus `additional` passes the capacity. After either error, the bitmap holds the items that
    /// it held. The capacity never falls.
    pub fn reserve(&mut self, additional: usize) -> Result<()>
        ensures { Reserves error_of result self.old.items self.new.items additional
            self.old.capacity self.new.capacity }
    {
        self.bits.reserve(additional)?;
        Ok(())
    }

    /// Keeps the items. Frees all capacity where there is no item. Else frees unused capacity if the allocator can; the
    /// clauses then state only that the capacity does not rise. Always returns `Ok`, also if a smaller block cannot be
    /// allocated. arrow2 returns no `Result`.
    pub fn shrink_to_fit(&mut self) -> Result<()>
        ensures ok { IsOk result }
        ensures items { self.new.items ≡ self.old.items }
        ensures capacity { self.new.capacity ≤ self.old.capacity }
        ensures frees { self.old.items ≡ [] → self.new.capacity ≡ 0 }
    {
        self.bits.shrink_to_fit();
        Ok(())
    }

    /// Returns the items as a validity bitmap over the same bytes, which are canonical, or `None` where no item is
    /// false.
    ///
    /// Stands for arrow2's `From<MutableBitmap>` for `Option<Bitmap>`.
    ///
    /// # Errors
    ///
    /// Only `OutOfMemory`, and only where an item is false. The items are then dropped.
    pub fn into_validity(self) -> Result<Option<Bitmap>>
        ensures none { IfOk result (λ validity. IsNone validity ↔ (falses self.items ≡ 0)) }
        ensures items { IfOk result (λ validity. IfSome validity (λ b. items_of b ≡ self.items)) }
        ensures storage { IfOk result (λ validity.
            IfSome validity (λ b. b ≡ packed_storage self.items)) }
        ensures only { OnlyOutOfMemory result }
        ensures succeeds { falses self.items ≡ 0 → IsOk result }
    {
        let unset_bits = self.unset_bits();
        if unset_bits == 0 {
            return Ok(None);
        }
        let (bytes, length) = self.into_parts();
        Ok(Some(Bitmap::from_counted(bytes, length, unset_bits)?))
    }

    /// Removes the last item and returns it, or returns `None` where there is none. The capacity stays.
    pub fn pop(&mut self) -> Option<bool>
        ensures last { MatchOption result (self.old.items ≡ []) (λ item.
            self.old.items ≡ self.new.items ++ item ∷ []) }
        ensures none { IfNone result (self.new.items ≡ []) }
        ensures capacity { self.new.capacity ≡ self.old.capacity }
    {
        self.bits.pop()
    }

    /// Returns item `index`. Requires that `index` is below the length. arrow2 also accepts an index past the length,
    /// if its bit is inside the bytes.
    pub fn get(&self, index: usize) -> bool
        requires below { index < length self.now.items }
        ensures { result ≡ slice_index_or self.now.items index false }
    {
        prove!(index < self.len());
        get_bit(self.as_slice(), index)
    }

    /// Sets item `index` to `value`. No other item changes. The capacity stays. Requires that `index` is below the
    /// length. arrow2 also accepts an index past the length, if its bit is inside the bytes.
    pub fn set(&mut self, index: usize, value: bool)
        requires below { index < length self.old.items }
        ensures items { self.new.items ≡ slice_set self.old.items index value }
        ensures capacity { self.new.capacity ≡ self.old.capacity }
    {
        prove!(index < self.len());
        self.bits.set(index, value);
    }

    /// Removes all items. The capacity stays.
    pub fn clear(&mut self)
        ensures items { self.new.items ≡ [] }
        ensures capacity { self.new.capacity ≡ self.old.capacity }
    {
        self.bits.clear();
    }

    /// Returns a double-ended iterator over the items.
    pub fn iter(&self) -> BitmapIter<'_>
        ensures items { result ≡ self.now.items }
        // `fits` holds for every `MutableBitmap`: a `usize` counts its items.
        ensures fits { length self.now.items < 2 ^ 64 }
    {
        BitmapIter::within(self.as_slice(), 0, self.len())
    }

    /// Returns the capacity in items: eight times the capacity of the vector of bytes, but at most `usize::MAX`. It is
    /// at least the length. arrow2's capacity may wrap.
    pub fn capacity(&self) -> usize
        ensures capacity { result ≡ self.now.capacity }
        ensures within_capacity { length self.now.items ≤ result }
    {
        self.bits.capacity()
    }

    /// Returns the number of items.
    pub fn len(&self) -> usize
        ensures { result ≡ length self.now.items }
    {
        self.bits.len()
    }

    /// Returns the allocator of its bytes. A new bitmap can be made with it.
    ///
    /// arrow2 has no such call, since its calls take no allocator.
    pub fn allocator(&self) -> Global
        // `Global` has one value only, so the result equals each `Global`. The clause states nothing more.
        ensures { (other : Global) → result ≡ other }
    {
        self.bits.allocator()
    }

    /// Returns whether it has no item.
    pub fn is_empty(&self) -> bool
        ensures { IsTrue result ↔ (length self.now.items ≡ 0) }
    {
        self.len() == 0
    }

    /// Returns the number of unset bits. Counts them at each call.
    pub fn unset_bits(&self) -> usize
        ensures { result ≡ falses self.now.items }
    {
        count_zeros(self.as_slice(), 0, self.len())
    }

    /// Returns the same as [`MutableBitmap::unset_bits`].
    pub fn null_count(&self) -> usize
        ensures { result ≡ falses self.now.items }
    {
        self.unset_bits()
    }

    /// Returns the bytes that its items need, with padding bits false. arrow2 also returns only these bytes, but
    /// padding bits may be true there.
    pub fn as_slice(&self) -> &[u8]
        ensures bytes { result.now ≡ canonical_bytes self.now.items }
        ensures items { take (length self.now.items) (bits result.now) ≡ self.now.items }
        ensures len { length result.now ≡ (length self.now.items + 7) / 8 }
    {
        self.bits.as_slice()
    }

    /// Returns its bytes, and the number of items that they hold.
    pub(crate) fn into_parts(self) -> (Vec<u8>, usize)
        ensures bytes { result.0.items ≡ canonical_bytes self.items }
        ensures items { take result.1 (bits result.0.items) ≡ self.items }
        ensures len { result.1 ≡ length self.items }
        ensures inside { result.1 ≤ 8 * vec_len result.0 }
    {
        let MutableBitmap { bits } = self;
        bits.into_parts()
    }
}

/// A copy of the items. Nothing is stated of its capacity.
///
/// # Errors
///
/// `AllocError`. In the code it comes only if an allocation fails; no clause states that.
impl Clone for MutableBitmap {
    ghost is_clone = { λ a b. b.items ≡ a.items };

    fn clone(&self) -> std::result::Result<MutableBitmap, AllocError> {
        Ok(MutableBitmap {
            bits: self.bits.clone()?,
        })
    }
}

/// Returns an iterator over the items, as [`MutableBitmap::iter`] does.
impl<'a> IntoIterator for &'a MutableBitmap {
    type Item = bool;

    type IntoIter = BitmapIter<'a>;

    ghost into_iter_gives = { λ m cursor. cursor ≡ m.now.items };

    fn into_iter(self) -> BitmapIter<'a> {
        self.iter()
    }
}

/// Two bitmaps are equal exactly if their items are. Compares the lengths, then the bytes.
impl PartialEq for MutableBitmap {
    ghost eq = { on (λ m. m.items) (pointwise beq) };

    // The proof that `eq` is symmetric and transitive.
    ghost laws = { partial_equiv_from_equiv (on_equiv (λ m. m.items) (lists_equiv bool_eq_equiv)) };

    fn eq(&self, other: &MutableBitmap) -> bool
        ensures equality { result ≡ pointwise beq self.now.items other.now.items }
        ensures same { IsTrue result ↔ (self.now.items ≡ other.now.items) }
    {
        self.len() == other.len() && self.as_slice() == other.as_slice()
    }
}

/// Equality is reflexive too.
impl Eq for MutableBitmap {
    // The proof that `eq` is reflexive, symmetric and transitive.
    ghost laws = { on_equiv (λ m. m.items) (lists_equiv bool_eq_equiv) };
}

/// Returns `count` bytes, each of them `byte`.
fn constant_bytes(alloc: Global, byte: u8, count: usize) -> std::result::Result<Vec<u8>, AllocError>
    ensures { IfOk result (λ bytes. bytes.items ≡ replicate count byte) }
{
    vec![in alloc; byte; count]
}

/// Writes the items as [`arrow2_bits::fmt::fmt`] does, from bit 0 of the first byte on.
impl fmt::Debug for MutableBitmap {
    ghost debug_output = { λ m. Some (shown (canonical_bytes m.items) 0 (length m.items)) };

    /// If it returns `Ok`, it wrote exactly the text that the definition `shown` gives for the items: width, precision
    /// and flags of the formatter, `#` too, change nothing. The clause states nothing where the bitmap is printed as a
    /// part of another value by `{:#?}`: that formatter indents each line.
    fn fmt<W: fmt::Write>(&self, f: &mut fmt::Formatter<W>) -> fmt::Result
        ensures styled { WritesStyledOnOk W.write_str_gives f.old result
            (shown (canonical_bytes self.now.items) 0 (length self.now.items)) f.new }
    {
        arrow2_bits::fmt::fmt(self.as_slice(), 0, self.len(), f)
    }
}
