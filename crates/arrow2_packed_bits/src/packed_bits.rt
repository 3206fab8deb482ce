//! A growing list of booleans, packed into bytes.
ghost use Rattle.std.specs.Prelude.{◌≡◌, ◌+◌, ◌-◌, ◌*◌, ◌/◌, ◌%◌, ◌<◌, ◌≤◌, ◌^◌, ◌⊎◌, ℕ, List, Bool, [], ◌∷◌, ◌++◌, true, false, slice_index_or, length, take, replicate, slice_set, min, OnOk, OnErr, IsOk, IfOk, IfNone, MatchOption, vec_len, vec_capacity};
ghost use Rattle.arrow2_model.specs.Lists.{bit, bits, unnum, canonical_bytes, IsCanonical, word};
ghost use Rattle.arrow2_model.specs.Kernels.{kernel};
ghost use Rattle.arrow2_model.specs.Rows.{AreWordsOf, ComputesOwnRows, IsBitwiseOnOwnRows};
ghost use Rattle.arrow2_kernels.specs.WordResults.{AreJoinedResults, MayReturnOwn};
ghost use Rattle.arrow2_model.specs.Tables.{each};
ghost use Rattle.arrow2_packed_bits.specs.Growth.{Appends, Pushes, Reserves};
ghost use Rattle.arrow2_types.specs.declared.growth_error.GrowthError.TheVariants as growth_error;
ghost use Rattle.std.specs.declared.alloc.Global.{Global};

mod extend;

use arrow2_bits::{bytes_for, is_set, set};
use arrow2_chunk::BitChunk;
use arrow2_kernels::WordRows;
use arrow2_kernels::assign::assign_rows;
use arrow2_kernels::simd_assign::{assign_binary, assign_unary, clear_padding};
use arrow2_types::GrowthError;
use std::alloc::{AllocError, Global};
use std::marker::Model;

/// At index i, the byte with the bits below bit i set. A read of this table takes the place of a shift by a variable.
const BELOW: [u8; 8] = [0, 1, 3, 7, 15, 31, 63, 127];

/// At index i, the byte with bit i and the bits above it set.
const ABOVE: [u8; 8] = [255, 254, 252, 248, 240, 224, 192, 128];

/// A growing list of booleans, packed into bytes: contracts see the items and the capacity.
///
/// There is no spare byte, and every padding bit is false.
#[derive(Drop)]
pub struct PackedBits {
    bytes: Vec<u8>,
    length: usize,
}

impl Model for PackedBits {
    ghost use Rattle.std.specs.Prelude.{◌-◌, ◌*◌, ◌^◌, vec_capacity, min, take};
    ghost use Rattle.arrow2_model.specs.Lists.{bits, IsCanonical, GrowingBitmap};

    ghost Value = { GrowingBitmap };

    ghost view = { λ b. record {
      items = take b.length (bits b.bytes.items);
      capacity = min (8 * vec_capacity b.bytes) (2 ^ 64 - 1);
    } };

    ghost invariant = { λ b. IsCanonical b.bytes.items b.length };
}

#[tactic(auto, using(crate::proofs::Buffer::buffers))]
impl PackedBits {
    /// Returns an empty list. Its capacity is 0. Does not allocate.
    pub fn new(alloc: Global) -> PackedBits
        ensures items { result.items ≡ [] }
        ensures capacity { result.capacity ≡ 0 }
    {
        PackedBits {
            bytes: Vec::new(alloc),
            length: 0,
        }
    }

    /// Returns an empty list with capacity for at least `capacity` items.
    ///
    /// # Errors
    ///
    /// If an allocation fails. Does not allocate for a capacity of 0.
    pub fn with_capacity(alloc: Global, capacity: usize) -> Result<PackedBits, AllocError>
        ensures items { IfOk result (λ b. b.items ≡ []) }
        ensures capacity { IfOk result (λ b. capacity ≤ b.capacity) }
        ensures succeeds { capacity ≡ 0 → IsOk result }
    {
        let bytes = Vec::with_capacity(alloc, bytes_for(capacity))?;
        Ok(PackedBits { bytes, length: 0 })
    }

    /// Returns the list of the first `len` bits of the bytes. Cuts spare bytes and clears padding bits, in place; the
    /// capacity of the vector stays. Requires that `len` is at most eight times the number of bytes. Does not allocate.
    pub fn from_vec(bytes: Vec<u8>, len: usize) -> PackedBits
        requires inside { len ≤ 8 * vec_len bytes }
        ensures items { result.items ≡ take len (bits bytes.items) }
        ensures len { length result.items ≡ len }
        ensures capacity { result.capacity ≡ min (8 * vec_capacity bytes) (2 ^ 64 - 1) }
    {
        let mut bytes = bytes;
        cut(&mut bytes, len);
        PackedBits { bytes, length: len }
    }

    /// Returns the number of items.
    pub fn len(&self) -> usize
        ensures { result ≡ length self.now.items }
    {
        self.length
    }

    /// Returns the capacity in items: eight times the capacity of the vector of bytes, but at most `usize::MAX`. It is
    /// at least the number of items.
    pub fn capacity(&self) -> usize
        ensures capacity { result ≡ self.now.capacity }
        ensures within_capacity { length self.now.items ≤ result }
    {
        // For the proof alone: reading the length brings the fact that the number of items fits a `usize`.
        let _ = self.len();
        self.bytes.capacity().saturating_mul(8)
    }

    /// Returns the allocator of the bytes. Contracts do not tell two values of `Global` apart, so the clause states
    /// that the result is equal to each of them.
    pub fn allocator(&self) -> Global
        ensures { (other : Global) → result ≡ other }
    {
        *self.bytes.allocator()
    }

    /// Returns the bytes of the items: exactly those that the items need, with padding bits false.
    pub fn as_slice(&self) -> &[u8]
        ensures bytes { result.now ≡ canonical_bytes self.now.items }
        ensures items { take (length self.now.items) (bits result.now) ≡ self.now.items }
        ensures len { length result.now ≡ (length self.now.items + 7) / 8 }
    {
        self.bytes.as_slice()
    }

    /// Returns the bytes of the items, as [`PackedBits::as_slice`] does, and the number of items. The capacity stays.
    /// Does not allocate.
    pub fn into_parts(self) -> (Vec<u8>, usize)
        ensures bytes { result.0.items ≡ canonical_bytes self.items }
        ensures items { take result.1 (bits result.0.items) ≡ self.items }
        ensures len { result.1 ≡ length self.items }
        ensures inside { result.1 ≤ 8 * vec_len result.0 }
        ensures capacity { min (8 * vec_capacity result.0) (2 ^ 64 - 1) ≡ self.capacity }
    {
        let PackedBits { bytes, length } = self;
        (bytes, length)
    }

    /// Reserves capacity for `additional` more items. Within the capacity it does not allocate.
    ///
    /// # Errors
    ///
    /// `Overflow` exactly where the length plus `additional` would pass `usize::MAX`. Else only `OutOfMemory`, and only
    /// where the length plus `additional` passes the capacity. After either error, the items are as before. The
    /// capacity never falls.
    pub fn reserve(&mut self, additional: usize) -> Result<(), GrowthError>
        ensures { Reserves (λ error. error) result self.old.items self.new.items additional
            self.old.capacity self.new.capacity }
    {
        let Some(total) = self.checked_total(additional) else {
            return Err(GrowthError::Overflow);
        };
        self.bytes.reserve(bytes_for(total) - self.bytes.len())?;
        Ok(())
    }

    /// Returns the number of items with `additional` more, or `None` where it exceeds `usize::MAX`.
    pub(crate) fn checked_total(&self, additional: usize) -> Option<usize>
        ensures total { MatchOption result (2 ^ 64 ≤ length self.now.items + additional) (λ total.
            total ≡ length self.now.items + additional) }
        // Facts that the type guarantees.
        ensures within_capacity { length self.now.items ≤ self.now.capacity }
        ensures fits { self.now.capacity < 2 ^ 64 }
    {
        self.length.checked_add(additional)
    }

    /// Frees all capacity where there is no item. Else frees unused capacity if the allocator can; no clause states
    /// that any is freed. The items stay.
    pub fn shrink_to_fit(&mut self)
        ensures items { self.new.items ≡ self.old.items }
        ensures capacity { self.new.capacity ≤ self.old.capacity }
        ensures frees { self.old.items ≡ [] → self.new.capacity ≡ 0 }
    {
        self.bytes.shrink_to_fit();
    }

    /// Removes all items. The capacity stays.
    pub fn clear(&mut self)
        ensures items { self.new.items ≡ [] }
        ensures capacity { self.new.capacity ≡ self.old.capacity }
    {
        self.bytes.clear();
        self.length = 0;
    }

    /// Appends one item. Where the length is below the capacity, it does not allocate.
    ///
    /// # Errors
    ///
    /// `Overflow` exactly where there are `usize::MAX` items already, else `OutOfMemory` where an allocation fails.
    /// After either error, the items are as before.
    pub fn push(&mut self, item: bool) -> Result<(), GrowthError>
        ensures { Appends (λ error. error) result self.old self.new (item ∷ []) }
    {
        if self.length == usize::MAX {
            return Err(GrowthError::Overflow);
        }
        let position = self.length % 8;
        if position == 0 {
            self.bytes.push(u8::from(item))?;
        } else {
            // Reads the number of bytes. To compute it from the length would wait for the last push's write to the
            // length.
            let last = self.bytes.len() - 1;
            self.bytes[last] |= u8::from(item) << position;
        }
        self.length += 1;
        Ok(())
    }

    /// Appends the lowest `count` bits of `word`. Bits that fit into the last byte go there, and the others go into new
    /// bytes. Padding bits stay false, whatever the higher bits of `word` are. Requires that `count` is at most 64, and
    /// that there are at most `usize::MAX` items afterwards.
    ///
    /// # Errors
    ///
    /// If an allocation fails. The items are then as before.
    pub(crate) fn push_word(&mut self, word: u64, count: usize) -> Result<(), AllocError>
        requires few { count ≤ 64 }
        requires fits { length self.old.items + count < 2 ^ 64 }
        ensures pushes { Pushes result self.old self.new (take count (unnum 64 word)) }
        ensures err { OnErr result (self.new.items ≡ self.old.items) }
    {
        let word = BitChunk::masked(word, count);
        let position = self.length % 8;
        if position == 0 {
            push_first(
                &mut self.bytes,
                &BitChunk::to_ne_bytes(word),
                bytes_for(count),
            )?;
        } else {
            let following = BitChunk::to_ne_bytes(BitChunk::down(word, 8 - position));
            push_first(&mut self.bytes, &following, bytes_for(position + count) - 1)?;
            let last = &mut self.bytes[self.length / 8];
            *last = merge_bits(*last, word, position);
        }
        self.length += count;
        Ok(())
    }

    /// Appends all bits of `slice`. Unless `slice` is empty, requires that the number of items is a multiple of 8.
    /// Requires that there are at most `usize::MAX` items afterwards.
    pub(crate) fn push_bytes(&mut self, slice: &[u8]) -> Result<(), AllocError>
        requires whole { 0 < length slice.now → length self.old.items % 8 ≡ 0 }
        requires fits { length self.old.items + 8 * length slice.now < 2 ^ 64 }
        ensures pushes { Pushes result self.old self.new (bits slice.now) }
        ensures err { OnErr result (self.new.items ≡ self.old.items) }
    {
        self.bytes.extend_from_slice(slice)?;
        self.length += 8 * slice.len();
        Ok(())
    }

    /// Appends false until there are `total` items. Requires that there are at most `total` items before.
    pub(crate) fn append_falses(&mut self, total: usize) -> Result<(), AllocError>
        requires more { length self.old.items ≤ total }
        ensures pushes { Pushes result self.old self.new
            (replicate (total - length self.old.items) false) }
        ensures err { OnErr result (self.new.items ≡ self.old.items) }
    {
        self.bytes.resize(bytes_for(total), 0)?;
        self.length = total;
        Ok(())
    }

    /// Appends true until there are `total` items: appends whole bytes, and then corrects the last byte of the old
    /// items and the last byte of all. Requires that there are at most `total` items before.
    pub(crate) fn append_trues(&mut self, total: usize) -> Result<(), AllocError>
        requires more { length self.old.items ≤ total }
        ensures pushes { Pushes result self.old self.new
            (replicate (total - length self.old.items) true) }
        ensures err { OnErr result (self.new.items ≡ self.old.items) }
    {
        self.bytes.resize(bytes_for(total), u8::MAX)?;
        set_above(&mut self.bytes, self.length);
        cut(&mut self.bytes, total);
        self.length = total;
        Ok(())
    }

    /// Removes and returns the last item, or returns `None` where there is no item.
    pub fn pop(&mut self) -> Option<bool>
        ensures last { MatchOption result (self.old.items ≡ []) (λ item.
            self.old.items ≡ self.new.items ++ item ∷ []) }
        ensures none { IfNone result (self.new.items ≡ []) }
        ensures capacity { self.new.capacity ≡ self.old.capacity }
    {
        let last = self.length.checked_sub(1)?;
        let byte = self.bytes[last / 8];
        self.bytes[last / 8] = byte & BELOW[last % 8];
        self.bytes.truncate(bytes_for(last));
        self.length = last;
        Some(is_set(byte, last % 8))
    }

    /// Sets item `index` to `value`, and leaves every other item as it was. Requires that `index` is below the number
    /// of items.
    pub fn set(&mut self, index: usize, value: bool)
        requires below { index < length self.old.items }
        ensures items { self.new.items ≡ slice_set self.old.items index value }
        ensures capacity { self.new.capacity ≡ self.old.capacity }
    {
        let byte = &mut self.bytes[index / 8];
        *byte = set(*byte, index % 8, value);
    }

    /// Replaces each word of the items by the result of `op` for this word and the row of words at its index. Where
    /// fewer items are left for the last words, `op` gets these words padded with false. Does not allocate. Requires
    /// that each list of `rows` has as many items still to come as this list has items, and that `op` accepts every
    /// word and row.
    pub fn assign_rows<T: BitChunk, S: WordRows<T>, F: Fn(T, S::Row) -> T>(
        &mut self,
        rows: S,
        op: F,
    )
        // `op` accepts every word and row, and each list of `rows` has the same length as this list.
        requires callable { F.IsAlwaysCallable op }
        requires same_lengths { S.same_lengths rows }
        requires len { S.len rows ≡ length self.old.items }
        // If the results of `op` are those of a mathematical function `f` of the own word and the words of a row, and
        // `xss` are lists whose words are those of the rows:
        ensures kernel { (f : List ℕ → ℕ) (xss : List (List Bool)) →
            ComputesOwnRows T.WIDTH S.words T.number (F.post op) f →
            AreWordsOf T.WIDTH xss (S.row_at rows) →
            self.new.items ≡ kernel T.WIDTH f (self.old.items ∷ xss) }
        // If `op` computes each bit by a truth table `t`, and `xss` are such lists: the items are the outputs of `t`
        // for the old items and the items of `xss`.
        ensures table { (t : ℕ) (xss : List (List Bool)) →
            IsBitwiseOnOwnRows T.WIDTH S.words T.number (F.post op) t →
            AreWordsOf T.WIDTH xss (S.row_at rows) →
            self.new.items ≡ each t (self.old.items ∷ xss) }
        // For any `op`: the word at each index is one that `op` may return for a word and a row with the words at this
        // index.
        ensures results { AreJoinedResults T.WIDTH (length self.old.items)
            (λ j. MayReturnOwn T.WIDTH S.words T.number (F.post op)
            (word T.WIDTH self.old.items j) (S.row_at rows j)) self.new.items }
        // The number of items and the capacity stay.
        ensures len { length self.new.items ≡ length self.old.items }
        ensures capacity { self.new.capacity ≡ self.old.capacity }
    {
        assign_rows(self.bytes.as_mut_slice(), self.length, rows, op);
    }

    /// Replaces each item by the output of the truth table `t`: bit `a + 2 * b` of `t`, where `a` is this item and `b`
    /// is the bit of `other` at its index, as 0 or 1. Reads only the four lowest bits of `t`. Processes 32 bytes at a
    /// time. Does not allocate. Requires that `other` has at least one bit for each item.
    pub fn apply_binary_table(&mut self, other: &[u8], t: u8)
        requires inside { length self.old.items ≤ 8 * length other.now }
        ensures items { self.new.items ≡ each t (self.old.items
            ∷ take (length self.old.items) (bits other.now) ∷ []) }
        ensures capacity { self.new.capacity ≡ self.old.capacity }
    {
        assign_binary(self.bytes.as_mut_slice(), other, self.length, t);
    }

    /// Replaces each item by the output of the truth table `t`: bit `a` of `t`, where `a` is this item as 0 or 1. Reads
    /// only the two lowest bits of `t`. Processes 32 bytes at a time. Does not allocate.
    pub fn apply_unary_table(&mut self, t: u8)
        ensures items { self.new.items ≡ each t (self.old.items ∷ []) }
        ensures capacity { self.new.capacity ≡ self.old.capacity }
    {
        assign_unary(self.bytes.as_mut_slice(), self.length, t);
    }

    /// Sets each item to `value`. Does not allocate.
    pub fn fill(&mut self, value: bool)
        ensures items { self.new.items ≡ replicate (length self.old.items) value }
        ensures capacity { self.new.capacity ≡ self.old.capacity }
    {
        fill_bytes(&mut self.bytes, if value { u8::MAX } else { 0 });
        cut(&mut self.bytes, self.length);
    }
}

/// Where the first `len` bits end within a byte, sets the later bits of this byte. Requires that there are at least
/// `len` bits.
fn set_above(bytes: &mut Vec<u8>, len: usize)
    requires inside { len ≤ 8 * length bytes.old.items }
    ensures kept { (k : ℕ) → (k < len) ⊎ (8 * ((len + 7) / 8) ≤ k) →
        slice_index_or (bits bytes.new.items) k false ≡ slice_index_or (bits bytes.old.items) k false }
    ensures written { (k : ℕ) → len ≤ k → k < 8 * ((len + 7) / 8) →
        slice_index_or (bits bytes.new.items) k false ≡ true }
    ensures len { length bytes.new.items ≡ length bytes.old.items }
    ensures capacity { vec_capacity bytes.new ≡ vec_capacity bytes.old }
{
    if len % 8 != 0 {
        let byte = &mut bytes[len / 8];
        *byte |= ABOVE[len % 8];
    }
}

/// Cuts the bytes after the first `len` bits, and clears the padding bits of the last byte. Requires that there are at
/// least `len` bits.
fn cut(bytes: &mut Vec<u8>, len: usize)
    requires { len ≤ 8 * vec_len bytes.old }
    ensures canonical { IsCanonical bytes.new.items len }
    ensures items { take len (bits bytes.new.items) ≡ take len (bits bytes.old.items) }
    ensures capacity { vec_capacity bytes.new ≡ vec_capacity bytes.old }
{
    bytes.truncate(bytes_for(len));
    clear_padding(bytes.as_mut_slice(), len);
}

/// Returns a copy of the items.
///
/// # Errors
///
/// If an allocation fails.
impl Clone for PackedBits {
    ghost is_clone = { λ a b. b.items ≡ a.items };

    fn clone(&self) -> std::result::Result<PackedBits, AllocError> {
        let bytes = Vec::from_slice(*self.bytes.allocator(), self.bytes.as_slice())?;
        Ok(PackedBits {
            bytes,
            length: self.length,
        })
    }
}

/// Sets each byte to `byte`.
fn fill_bytes(bytes: &mut Vec<u8>, byte: u8)
    ensures items { bytes.new.items ≡ replicate (vec_len bytes.old) byte }
    ensures capacity { vec_capacity bytes.new ≡ vec_capacity bytes.old }
{
    bytes.as_mut_slice().fill(byte);
}

/// Appends the first `count` of eight bytes. Appending all eight, the most common case, is one store. Requires that
/// `count` is at most 8.
fn push_first(bytes: &mut Vec<u8>, eight: &[u8; 8], count: usize) -> Result<(), AllocError>
    requires { count ≤ 8 }
    ensures ok { OnOk result (bytes.new.items ≡ bytes.old.items ++ take count eight.now) }
    ensures err { OnErr result (bytes.new.items ≡ bytes.old.items) }
    ensures succeeds { vec_len bytes.old + count ≤ vec_capacity bytes.old → IsOk result }
    ensures capacity { vec_capacity bytes.old ≤ vec_capacity bytes.new }
{
    if count == 8 {
        bytes.extend_from_slice(eight)
    } else {
        bytes.extend_from_slice(&eight[..count])
    }
}

/// Returns the byte with the lowest bits of `word` written from bit `position` on. Requires that `position` is below 8,
/// and that the bits of the byte from bit `position` on are not set.
fn merge_bits(byte: u8, word: u64, position: usize) -> u8
    requires position { position < 8 }
    requires clear { (i : ℕ) → position ≤ i → i < 8 → bit byte i ≡ false }
    ensures kept { (i : ℕ) → i < position → bit result i ≡ bit byte i }
    ensures written { (i : ℕ) → position + i < 8 → bit result (position + i) ≡ bit word i }
{
    let low = BitChunk::to_ne_bytes(BitChunk::up(word, position));
    BitChunk::bit_or(byte, low[0])
}
