//! New bitmaps from word functions and truth tables, and the operators on shared bitmaps.
ghost use Rattle.std.specs.Prelude.{◌≡◌, ℕ, List, Bool, [], ◌∷◌, length, replicate, IfOk, IfSome, IsTrue, MatchResult, ◌⊎◌};
ghost use Rattle.arrow2_model.specs.Kernels.{bits_of_words, kernel, unary_kernel, binary_kernel, ComputesUnary, ComputesBinary};
ghost use Rattle.arrow2_model.specs.Lists.{bitmap_word, items_of};
ghost use Rattle.arrow2_model.specs.Tables.{each, IsBitwiseUnary, IsBitwiseBinary};
ghost use Rattle.arrow2_types.specs.declared.error.Error.TheVariants.{OutOfMemory};
ghost use Rattle.arrow2_kernels.specs.WordResults.{AreJoinedResults, MayReturnRow};
ghost use Rattle.arrow2_bitmap.specs.PackedBitmaps.{IsPacked, MakesPacked};
ghost use Rattle.arrow2_model.specs.Rows.{AreRowsOf, IsBitwiseOnRows, ComputesRows};
ghost use Rattle.arrow2_types.specs.Failures.{OnlyOutOfMemory};

use crate::immutable::Bitmap;
use crate::mutable::MutableBitmap;
use arrow2_bits::{BitChunks, BitChunksExact, bytes_for};
use arrow2_kernels::map::map_rows;
use arrow2_kernels::simd_map::{map_binary, map_unary};
use arrow2_kernels::truth_tables::{binary_outputs, unary_outputs};
use arrow2_kernels::{OneList, WordRows, ZipRows};
use arrow2_types::Result;
use std::alloc::Global;
use std::convert::TryFrom;
use std::ops::{BitAnd, BitOr, BitXor, Not};

/// Applies `op` to each row of words, and returns a bitmap of the first `len` bits of the results. A row has one word
/// of 64 bits of each list of `rows`, all at the same index. The first item of a word is its lowest bit. Where fewer
/// than 64 items are left for the last row, its words are padded with false. `rows` is, for example,
/// `OneList { chunks: bitmap.chunks() }` of `arrow2_kernels`. Requires that each list has `len` items still to come,
/// and that the `requires` of `op` holds for any words, not only for those of these lists.
///
/// For any `op` the clauses state that the items are the bits of result words, and that each result word is one that
/// the contract of `op` allows for the input words at its index. If the contract of `op` determines each result word
/// (as a function of the input words, or by one truth table for all bits), the clauses determine each item.
///
/// The new bitmap is stored in canonical bytes, from bit 0 on.
///
/// arrow2 has no such call.
///
/// # Errors
///
/// Only `OutOfMemory`.
pub fn from_rows<S: WordRows<u64>, F: Fn(S::Row) -> u64>(
    alloc: Global,
    len: usize,
    rows: S,
    op: F,
) -> Result<Bitmap>
    // `op` accepts any row, and each list of `rows` has `len` items still to come.
    requires callable { F.IsAlwaysCallable op }
    requires same_lengths { S.same_lengths rows }
    requires len { S.len rows ≡ len }
    // If `op` computes a mathematical function `f`, that is, returns the 64 lowest bits of what `f` gives for the list
    // of the row's words: the items are the 64 lowest bits of the results of `f`, row after row, cut to `len`. The
    // number of a `u64` is the `u64` itself: `λ x. x`.
    ensures items { (f : List ℕ → ℕ) → ComputesRows 64 S.words (λ x. x) (F.post op) f →
        IfOk result (λ b. items_of b ≡ bits_of_words 64 (λ j. f (S.row_at rows j)) len) }
    // If, besides, the rows are the words of some `lists` of booleans, the first of which has `len` items: the items
    // are `kernel 64 f lists`.
    ensures kernel { (f : List ℕ → ℕ) (lists : List (List Bool)) →
        ComputesRows 64 S.words (λ x. x) (F.post op) f →
        AreRowsOf 64 lists (S.row_at rows) len →
        IfOk result (λ b. items_of b ≡ kernel 64 f lists) }
    // For such lists, and a truth table `t` by which `op` computes each bit: the items are the outputs of `t` for them.
    ensures table { (t : ℕ) (lists : List (List Bool)) →
        IsBitwiseOnRows 64 S.words (λ x. x) (F.post op) t → AreRowsOf 64 lists (S.row_at rows) len →
        IfOk result (λ b. items_of b ≡ each t lists) }
    // For any `op`: the items are the 64 lowest bits of words, cut to `len`. The word at each index is one that `op`
    // may return for a row that has the same words as the row at this index.
    ensures results { IfOk result (λ b. AreJoinedResults 64 len
        (λ j. MayReturnRow 64 S.words (λ x. x) (F.post op) (S.row_at rows j)) (items_of b)) }
    // A new bitmap of `len` items, in canonical bytes from bit 0 on; or `OutOfMemory`.
    ensures made { MakesPacked result len }
{
    let bytes = map_rows(alloc, len, rows, op)?;
    prove!(bytes_for(len) <= bytes.len());
    Bitmap::from_u8_vec(bytes, len)
}

/// Reads the items as words of 64 bits, the last one padded with false, applies `op` to each word, and returns the bits
/// of the results, cut to the length of the bitmap. The first item of a word is its lowest bit. Requires that the
/// `requires` of `op` holds for any word, not only for those of the bitmap.
///
/// For any `op` the clauses state that the items are the bits of result words, and that each result word is one that
/// the contract of `op` allows for the input word at its index. If the contract of `op` determines each result word
/// (as a function of the input word, or by one truth table for all bits), the clauses determine each item.
///
/// Differs from arrow2: the padding bits of the words count as false. Where no items follow the last full word, arrow2
/// calls `op` once more, and the code here does not; no clause states this. arrow2's `unary` returns no `Result`.
///
/// The new bitmap is stored in canonical bytes, from bit 0 on.
///
/// # Errors
///
/// Only `OutOfMemory`.
pub fn unary<F: Fn(u64) -> u64>(lhs: &Bitmap, op: F) -> Result<Bitmap>
    requires callable { F.IsAlwaysCallable op }
    // If the results of `op` are those of a mathematical function `f` on words: the items are the 64 lowest bits of the
    // results of `f` for the words of the list, one result after another, cut to the length of the list. The number of
    // a `u64` is the `u64` itself: `λ x. x`.
    ensures kernel { (f : ℕ → ℕ) → ComputesUnary 64 (λ x. x) (F.post op) f →
        IfOk result (λ b. items_of b ≡ unary_kernel 64 f (items_of lhs.now)) }
    // For every truth table `t` by which `op` computes each bit: the items are the outputs of `t`.
    ensures table { (t : ℕ) → IsBitwiseUnary 64 (λ x. x) (F.post op) t →
        IfOk result (λ b. items_of b ≡ each t (items_of lhs.now ∷ [])) }
    // For any `op`: the items are the bits of words, one word after another, cut to the length. The word at each index
    // is one that `op` may return for the word of the list at this index.
    ensures results { IfOk result (λ b. AreJoinedResults 64 (length (items_of lhs.now))
        (λ j. F.post op (bitmap_word 64 lhs.now j)) (items_of b)) }
    // A new bitmap of the same length, in canonical bytes from bit 0 on; or `OutOfMemory`.
    ensures made { MakesPacked result (length (items_of lhs.now)) }
{
    let alloc = lhs.allocator();
    let (bytes, offset, length) = lhs.as_slice();
    if offset == 0 {
        let chunks = BitChunksExact::<u64>::new(bytes, length);
        from_rows(alloc, length, OneList { chunks }, op)
    } else {
        let chunks = BitChunks::<u64>::new(bytes, offset, length);
        from_rows(alloc, length, OneList { chunks }, op)
    }
}

/// Reads the items of both bitmaps as words of 64 bits, the last ones padded with false, applies `op` to the two words
/// at each index, and returns the bits of the results, cut to their length. The first item of a word is its lowest bit.
/// Requires equal lengths, and that the `requires` of `op` holds for any two words, not only for those of the bitmaps.
///
/// For any `op` the clauses state that the items are the bits of result words, and that each result word is one that
/// the contract of `op` allows for the input words at its index. If the contract of `op` determines each result word
/// (as a function of the input words, or by one truth table for all bits), the clauses determine each item.
///
/// Differs from arrow2: the padding bits of the words count as false. Where no items follow the last full word, arrow2
/// calls `op` once more, and the code here does not; no clause states this. arrow2's `binary` returns no `Result`.
///
/// The new bitmap is stored in canonical bytes, from bit 0 on.
///
/// # Errors
///
/// Only `OutOfMemory`.
pub fn binary<F: Fn(u64, u64) -> u64>(lhs: &Bitmap, rhs: &Bitmap, op: F) -> Result<Bitmap>
    requires callable { F.IsAlwaysCallable op }
    requires same_length { length (items_of lhs.now) ≡ length (items_of rhs.now) }
    // If the results of `op` are those of a mathematical function `f` on words: the items are the 64 lowest bits of the
    // results of `f` for the words of both lists at each index, one result after another, cut to their length. The
    // number of a `u64` is the `u64` itself: `λ x. x`.
    ensures kernel { (f : ℕ → ℕ → ℕ) → ComputesBinary 64 (λ x. x) (F.post op) f →
        IfOk result (λ b. items_of b ≡ binary_kernel 64 f (items_of lhs.now) (items_of rhs.now)) }
    // For every truth table `t` by which `op` computes each bit: the items are the outputs of `t`.
    ensures table { (t : ℕ) → IsBitwiseBinary 64 (λ x. x) (F.post op) t →
        IfOk result (λ b. items_of b ≡ each t (items_of lhs.now ∷ items_of rhs.now ∷ [])) }
    // For any `op`: the items are the bits of words, one word after another, cut to the length. The word at each index
    // is one that `op` may return for the words of both lists at this index.
    ensures results { IfOk result (λ b. AreJoinedResults 64 (length (items_of lhs.now))
        (λ j. F.post op (bitmap_word 64 lhs.now j) (bitmap_word 64 rhs.now j)) (items_of b)) }
    // A new bitmap of the same length, in canonical bytes from bit 0 on; or `OutOfMemory`.
    ensures made { MakesPacked result (length (items_of lhs.now)) }
{
    let left = OneList {
        chunks: lhs.chunks::<u64>(),
    };
    let right = OneList {
        chunks: rhs.chunks::<u64>(),
    };
    from_rows(
        lhs.allocator(),
        lhs.len(),
        ZipRows { left, right },
        |(x, y)| op(x, y),
    )
}

/// Returns, item by item, the output of the truth table `t`: bit `a` of `t`, where `a` is the item as 0 or 1. Reads
/// only the two lowest bits of `t`. Processes 32 bytes at a time where the items begin at a byte boundary, else words
/// of 64 bits.
///
/// The new bitmap is stored in canonical bytes, from bit 0 on.
///
/// arrow2 has no such call.
///
/// # Errors
///
/// Only `OutOfMemory`.
#[inline(always)]
pub fn unary_table(lhs: &Bitmap, t: u8) -> Result<Bitmap>
    ensures items { IfOk result (λ b. items_of b ≡ each t (items_of lhs.now ∷ [])) }
    ensures made { MakesPacked result (length (items_of lhs.now)) }
{
    let (bytes, offset, length) = lhs.as_slice();
    if offset == 0 {
        let results = map_unary(lhs.allocator(), bytes, length, t)?;
        prove!(bytes_for(length) <= results.len());
        Bitmap::from_u8_vec(results, length)
    } else {
        unary(lhs, |x| unary_outputs(u16::from(t), x))
    }
}

/// Returns, item by item, the output of the truth table `t`: bit `a + 2 * b` of `t`, where `a` and `b` are the items of
/// `lhs` and `rhs` as 0 or 1. Reads only the four lowest bits of `t`. Requires that both have equal lengths. Processes
/// 32 bytes at a time where both begin at a byte boundary, else words of 64 bits.
///
/// The new bitmap is stored in canonical bytes, from bit 0 on.
///
/// arrow2 has no such call.
///
/// # Errors
///
/// Only `OutOfMemory`.
#[inline(always)]
pub fn binary_table(lhs: &Bitmap, rhs: &Bitmap, t: u8) -> Result<Bitmap>
    requires same_length { length (items_of lhs.now) ≡ length (items_of rhs.now) }
    ensures items { IfOk result (λ b. items_of b
        ≡ each t (items_of lhs.now ∷ items_of rhs.now ∷ [])) }
    ensures made { MakesPacked result (length (items_of lhs.now)) }
{
    let (left, left_offset, length) = lhs.as_slice();
    let (right, right_offset, _right_length) = rhs.as_slice();
    if left_offset == 0 && right_offset == 0 {
        let results = map_binary(lhs.allocator(), left, right, length, t)?;
        prove!(bytes_for(length) <= results.len());
        Bitmap::from_u8_vec(results, length)
    } else {
        binary(lhs, rhs, |x, y| binary_outputs(u16::from(t), x, y))
    }
}

/// Returns, item by item, whether both are true. Requires that both have equal lengths. arrow2 returns no `Result`.
///
/// The new bitmap is stored in canonical bytes, from bit 0 on.
///
/// # Errors
///
/// Only `OutOfMemory`.
pub fn and(lhs: &Bitmap, rhs: &Bitmap) -> Result<Bitmap>
    requires same_length { length (items_of lhs.now) ≡ length (items_of rhs.now) }
    // Table 8: true only for two true items.
    ensures items { IfOk result (λ b. items_of b
        ≡ each 8 (items_of lhs.now ∷ items_of rhs.now ∷ [])) }
    ensures made { MakesPacked result (length (items_of lhs.now)) }
{
    if one_is_all(lhs, rhs, false) {
        constant_bitmap(lhs.allocator(), lhs.len(), false)
    } else {
        binary_table(lhs, rhs, 0b1000)
    }
}

/// Returns, item by item, whether one or both are true. Requires that both have equal lengths. arrow2 returns no
/// `Result`.
///
/// The new bitmap is stored in canonical bytes, from bit 0 on.
///
/// # Errors
///
/// Only `OutOfMemory`.
pub fn or(lhs: &Bitmap, rhs: &Bitmap) -> Result<Bitmap>
    requires same_length { length (items_of lhs.now) ≡ length (items_of rhs.now) }
    // Table 14: false only for two false items.
    ensures items { IfOk result (λ b. items_of b
        ≡ each 14 (items_of lhs.now ∷ items_of rhs.now ∷ [])) }
    ensures made { MakesPacked result (length (items_of lhs.now)) }
{
    if one_is_all(lhs, rhs, true) {
        constant_bitmap(lhs.allocator(), lhs.len(), true)
    } else {
        binary_table(lhs, rhs, 0b1110)
    }
}

/// Returns, item by item, whether exactly one is true. Requires that both have equal lengths. arrow2 returns no
/// `Result`.
///
/// The new bitmap is stored in canonical bytes, from bit 0 on.
///
/// # Errors
///
/// Only `OutOfMemory`.
pub fn xor(lhs: &Bitmap, rhs: &Bitmap) -> Result<Bitmap>
    requires same_length { length (items_of lhs.now) ≡ length (items_of rhs.now) }
    // Table 6: true where the two items differ.
    ensures items { IfOk result (λ b. items_of b
        ≡ each 6 (items_of lhs.now ∷ items_of rhs.now ∷ [])) }
    ensures made { MakesPacked result (length (items_of lhs.now)) }
{
    let left = value_of_all(lhs);
    let right = value_of_all(rhs);
    match (left, right) {
        (Some(left), Some(right)) => constant_bitmap(lhs.allocator(), lhs.len(), left != right),
        _ => binary_table(lhs, rhs, 0b0110),
    }
}

/// Does what [`and`] does. arrow2's operator returns no `Result`.
impl<'a, 'b> BitAnd<&'b Bitmap> for &'a Bitmap {
    type Output = Result<Bitmap>;

    ghost can_bitand = { λ a b. length (items_of a.now) ≡ length (items_of b.now) };

    // Table 8: true only for two true items.
    ghost bitand_gives = { λ a b r. MatchResult r (λ m. IsPacked m × (items_of m
        ≡ each 8 (items_of a.now ∷ items_of b.now ∷ []))) (λ e. e ≡ OutOfMemory) };

    fn bitand(self, rhs: &'b Bitmap) -> Result<Bitmap> {
        and(self, rhs)
    }
}

/// Does what [`or`] does. arrow2's operator returns no `Result`.
impl<'a, 'b> BitOr<&'b Bitmap> for &'a Bitmap {
    type Output = Result<Bitmap>;

    ghost can_bitor = { λ a b. length (items_of a.now) ≡ length (items_of b.now) };

    // Table 14: false only for two false items.
    ghost bitor_gives = { λ a b r. MatchResult r (λ m. IsPacked m × (items_of m
        ≡ each 14 (items_of a.now ∷ items_of b.now ∷ []))) (λ e. e ≡ OutOfMemory) };

    fn bitor(self, rhs: &'b Bitmap) -> Result<Bitmap> {
        or(self, rhs)
    }
}

/// Does what [`xor`] does. arrow2's operator returns no `Result`.
impl<'a, 'b> BitXor<&'b Bitmap> for &'a Bitmap {
    type Output = Result<Bitmap>;

    ghost can_bitxor = { λ a b. length (items_of a.now) ≡ length (items_of b.now) };

    // Table 6: true where the two items differ.
    ghost bitxor_gives = { λ a b r. MatchResult r (λ m. IsPacked m × (items_of m
        ≡ each 6 (items_of a.now ∷ items_of b.now ∷ []))) (λ e. e ≡ OutOfMemory) };

    fn bitxor(self, rhs: &'b Bitmap) -> Result<Bitmap> {
        xor(self, rhs)
    }
}

/// Returns each item inverted. The new bitmap is stored in canonical bytes, from bit 0 on. arrow2 returns no `Result`.
///
/// # Errors
///
/// Only `OutOfMemory`.
impl<'a> Not for &'a Bitmap {
    type Output = Result<Bitmap>;

    // Table 1: true for a false item.
    ghost not_gives = { λ a r. MatchResult r (λ m. IsPacked m × (items_of m
        ≡ each 1 (items_of a.now ∷ []))) (λ e. e ≡ OutOfMemory) };

    fn not(self) -> Result<Bitmap> {
        complement(self)
    }
}

/// Returns each item inverted.
fn complement(bitmap: &Bitmap) -> Result<Bitmap>
    ensures items { IfOk result (λ b. items_of b ≡ each 1 (items_of bitmap.now ∷ [])) }
    ensures storage { IfOk result (λ b. IsPacked b) }
    ensures only { OnlyOutOfMemory result }
{
    unary_table(bitmap, 0b01)
}

/// If it returns true, all items of one of the two are `value`. No clause states the converse. Reads no bits.
fn one_is_all(lhs: &Bitmap, rhs: &Bitmap, value: bool) -> bool
    ensures { IsTrue result → (items_of lhs.now ≡ replicate (length (items_of lhs.now)) value)
        ⊎ (items_of rhs.now ≡ replicate (length (items_of rhs.now)) value) }
{
    are_all(lhs, value) || are_all(rhs, value)
}

/// If it returns true, all items are `value`. No clause states the converse. The number of unset bits is stored, so the
/// call reads no bits.
#[tactic(auto, using(crate::proofs::Constant::constant))]
pub(crate) fn are_all(bitmap: &Bitmap, value: bool) -> bool
    ensures { IsTrue result → items_of bitmap.now
        ≡ replicate (length (items_of bitmap.now)) value }
{
    if value {
        bitmap.unset_bits() == 0
    } else {
        bitmap.unset_bits() == bitmap.len()
    }
}

/// If it returns `Some` of a value, all items have it. No clause states the converse. The number of unset bits is
/// stored, so the call reads no bits.
fn value_of_all(bitmap: &Bitmap) -> Option<bool>
    ensures { IfSome result (λ value. items_of bitmap.now
        ≡ replicate (length (items_of bitmap.now)) value) }
{
    if are_all(bitmap, false) {
        Some(false)
    } else if are_all(bitmap, true) {
        Some(true)
    } else {
        None
    }
}

/// Returns a bitmap of `len` items, all of them `value`.
fn constant_bitmap(alloc: Global, len: usize, value: bool) -> Result<Bitmap>
    ensures items { IfOk result (λ b. items_of b ≡ replicate len value) }
    ensures storage { IfOk result (λ b. IsPacked b) }
    ensures only { OnlyOutOfMemory result }
{
    if value {
        Bitmap::try_from(MutableBitmap::from_len_set(alloc, len)?)
    } else {
        Bitmap::new_zeroed(alloc, len)
    }
}
