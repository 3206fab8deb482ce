//! Bitmaps that grow, changed in place by word functions and truth tables, and their operators. None of these calls
//! allocates.
ghost use Rattle.std.specs.Prelude.{◌≡◌, ℕ, [], ◌∷◌, length};
ghost use Rattle.arrow2_model.specs.Lists.{word, items_of};
ghost use Rattle.arrow2_model.specs.Kernels.{unary_kernel, binary_kernel, ComputesUnary, ComputesBinary};
ghost use Rattle.arrow2_kernels.specs.WordResults.{AreJoinedResults, MayReturnUnary, MayReturnBinary};
ghost use Rattle.arrow2_model.specs.Tables.{each, IsBitwiseUnary, IsBitwiseBinary};

use crate::bitmap_ops::are_all;
use crate::immutable::Bitmap;
use crate::mutable::MutableBitmap;
use arrow2_bits::{BitChunkIterExact, BitChunks, BitChunksExact};
use arrow2_chunk::BitChunk;
use arrow2_kernels::truth_tables::binary_outputs;
use arrow2_kernels::{NoList, OneList};
use std::ops::{BitAnd, BitAndAssign, BitOr, BitOrAssign, BitXor, BitXorAssign, Not};

/// Replaces each word of type `T` of the bitmap by the result of `op` for it. The first item of a word is its lowest
/// bit. The last word is padded with false, and bits that `op` sets in the padding are cleared. The length and the
/// capacity stay. Does not allocate. Requires that the `requires` of `op` holds for any word, not only for those of the
/// bitmap.
///
/// For any `op` the clauses state that the items are the bits of result words, and that each result word is one that
/// the contract of `op` allows for the input word at its index. If the contract of `op` determines each result word
/// (as a function of the input word, or by one truth table for all bits), the clauses determine each item.
///
/// Differs from arrow2: the padding bits of the words count as false, and are false afterwards.
pub fn unary_assign<T: BitChunk, F: Fn(T) -> T>(bitmap: &mut MutableBitmap, op: F)
    requires callable { F.IsAlwaysCallable op }
    // `T.WIDTH` is the number of bits of a `T`, and `T.number x` the number that a word `x` is. If the results of `op`
    // are those of a mathematical function `f` on words: the items are the `T.WIDTH` lowest bits of the results of `f`
    // for the words of the list, one result after another, cut to the length of the list.
    ensures kernel { (f : ℕ → ℕ) → ComputesUnary T.WIDTH T.number (F.post op) f →
        bitmap.new.items ≡ unary_kernel T.WIDTH f bitmap.old.items }
    // For every truth table `t` by which `op` computes each bit: the items are the outputs of `t`.
    ensures table { (t : ℕ) → IsBitwiseUnary T.WIDTH T.number (F.post op) t →
        bitmap.new.items ≡ each t (bitmap.old.items ∷ []) }
    // For any `op`: the items are the bits of words, one word after another, cut to the length. The word at each index
    // is one that `op` may return for the word of the list at this index.
    ensures results { AreJoinedResults T.WIDTH (length bitmap.old.items)
        (λ j. MayReturnUnary T.number (F.post op) (word T.WIDTH bitmap.old.items j)) bitmap.new.items }
    ensures len { length bitmap.new.items ≡ length bitmap.old.items }
    ensures capacity { bitmap.new.capacity ≡ bitmap.old.capacity }
{
    let rows = NoList { left: bitmap.len() };
    bitmap.bits.assign_rows(rows, |own: T, _none: ()| op(own));
}

/// Replaces each word of type `T` of `lhs` by the result of `op` for it and the word of `rhs` at the same index. The
/// first item of a word is its lowest bit. The last words are padded with false, and bits that `op` sets in the padding
/// are cleared. The length and the capacity stay. Does not allocate. Requires equal lengths, and that the `requires` of
/// `op` holds for any two words, not only for those of the bitmaps.
///
/// For any `op` the clauses state that the items are the bits of result words, and that each result word is one that
/// the contract of `op` allows for the input words at its index. If the contract of `op` determines each result word
/// (as a function of the input words, or by one truth table for all bits), the clauses determine each item.
///
/// Differs from arrow2: the padding bits of the words count as false, and are false afterwards.
pub fn binary_assign<T: BitChunk, F: Fn(T, T) -> T>(lhs: &mut MutableBitmap, rhs: &Bitmap, op: F)
    requires callable { F.IsAlwaysCallable op }
    requires same_length { length lhs.old.items ≡ length (items_of rhs.now) }
    // `T.WIDTH` is the number of bits of a `T`, and `T.number x` the number that a word `x` is. If the results of `op`
    // are those of a mathematical function `f` on words: the items are the `T.WIDTH` lowest bits of the results of `f`
    // for the words of both lists at each index, one result after another, cut to their length.
    ensures kernel { (f : ℕ → ℕ → ℕ) → ComputesBinary T.WIDTH T.number (F.post op) f →
        lhs.new.items ≡ binary_kernel T.WIDTH f lhs.old.items (items_of rhs.now) }
    // For every truth table `t` by which `op` computes each bit: the items are the outputs of `t`.
    ensures table { (t : ℕ) → IsBitwiseBinary T.WIDTH T.number (F.post op) t →
        lhs.new.items ≡ each t (lhs.old.items ∷ items_of rhs.now ∷ []) }
    // For any `op`: the items are the bits of words, one word after another, cut to the length. The word at each index
    // is one that `op` may return for the words of both lists at this index.
    ensures results { AreJoinedResults T.WIDTH (length lhs.old.items)
        (λ j. MayReturnBinary T.number (F.post op) (word T.WIDTH lhs.old.items j)
        (word T.WIDTH (items_of rhs.now) j)) lhs.new.items }
    ensures len { length lhs.new.items ≡ length lhs.old.items }
    ensures capacity { lhs.new.capacity ≡ lhs.old.capacity }
{
    let (bytes, offset, length) = rhs.as_slice();
    if offset == 0 {
        assign_chunks(lhs, BitChunksExact::<T>::new(bytes, length), op);
    } else {
        assign_chunks(lhs, BitChunks::<T>::new(bytes, offset, length), op);
    }
}

/// Replaces each word by the result of `op` for it and the word of `chunks` at the same index, as `binary_assign` does.
/// Requires that `chunks` has as many items left as the bitmap has, and that the `requires` of `op` holds for any two
/// words.
fn assign_chunks<T: BitChunk, I: BitChunkIterExact<T> + Drop, F: Fn(T, T) -> T>(
    lhs: &mut MutableBitmap,
    chunks: I,
    op: F,
)
    requires callable { F.IsAlwaysCallable op }
    requires same_length { length lhs.old.items ≡ length (I.cursor chunks).items }
    // `T.WIDTH` is the number of bits of a `T`, and `T.number x` the number that a word `x` is. If the results of `op`
    // are those of a mathematical function `f` on words: the items are the `T.WIDTH` lowest bits of the results of `f`
    // for the words of both lists at each index, one result after another, cut to their length.
    ensures kernel { (f : ℕ → ℕ → ℕ) → ComputesBinary T.WIDTH T.number (F.post op) f →
        lhs.new.items ≡ binary_kernel T.WIDTH f lhs.old.items (I.cursor chunks).items }
    // For every truth table `t` by which `op` computes each bit: the items are the outputs of `t`.
    ensures table { (t : ℕ) → IsBitwiseBinary T.WIDTH T.number (F.post op) t →
        lhs.new.items ≡ each t (lhs.old.items ∷ (I.cursor chunks).items ∷ []) }
    // For any `op`: the items are the bits of words, one word after another, cut to the length. The word at each index
    // is one that `op` may return for the words of both lists at this index.
    ensures results { AreJoinedResults T.WIDTH (length lhs.old.items)
        (λ j. MayReturnBinary T.number (F.post op) (word T.WIDTH lhs.old.items j)
        (word T.WIDTH (I.cursor chunks).items j)) lhs.new.items }
    ensures len { length lhs.new.items ≡ length lhs.old.items }
    ensures capacity { lhs.new.capacity ≡ lhs.old.capacity }
{
    lhs.bits.assign_rows(OneList { chunks }, op);
}

/// Replaces each item by the output of the truth table `t`: bit `a` of `t`, where `a` is the item as 0 or 1. Reads only
/// the two lowest bits of `t`. The capacity stays. Does not allocate.
///
/// The type parameter `W` has no effect: the call processes 32 bytes at a time, whatever `W` is. It is there since
/// `unary_assign` and `binary_assign` take a word type.
///
/// arrow2 has no such call.
pub fn unary_assign_table<W: BitChunk>(bitmap: &mut MutableBitmap, t: u8)
    ensures items { bitmap.new.items ≡ each t (bitmap.old.items ∷ []) }
    ensures capacity { bitmap.new.capacity ≡ bitmap.old.capacity }
{
    bitmap.bits.apply_unary_table(t);
}

/// Replaces each item by the output of the truth table `t`: bit `a + 2 * b` of `t`, where `a` and `b` are the items of
/// `lhs` and `rhs` as 0 or 1. Reads only the four lowest bits of `t`. The capacity stays. Requires that both have equal
/// lengths. Does not allocate.
///
/// Processes 32 bytes at a time where `rhs` begins at a byte boundary, else one word of `W` at a time. The result does
/// not depend on `W`.
///
/// arrow2 has no such call.
#[inline(always)]
pub fn binary_assign_table<W: BitChunk>(lhs: &mut MutableBitmap, rhs: &Bitmap, t: u8)
    requires same_length { length lhs.old.items ≡ length (items_of rhs.now) }
    ensures items { lhs.new.items ≡ each t (lhs.old.items ∷ items_of rhs.now ∷ []) }
    ensures capacity { lhs.new.capacity ≡ lhs.old.capacity }
{
    let (bytes, offset, _length) = rhs.as_slice();
    if offset == 0 {
        lhs.bits.apply_binary_table(bytes, t);
    } else {
        binary_assign(lhs, rhs, |x: W, y: W| binary_outputs(u16::from(t), x, y));
    }
}

/// Replaces each item by its AND with the item of `rhs` at the same index. The capacity stays. Does not allocate.
/// Requires that both bitmaps have equal lengths. arrow2 implements the operator on `&mut MutableBitmap`.
impl<'a> BitAndAssign<&'a Bitmap> for MutableBitmap {
    ghost can_bitand_assign = { λ m b. length m.items ≡ length (items_of b.now) };

    // Table 8: true only for two true items.
    ghost bitand_assign_gives = { λ old b new. (new.items
        ≡ each 8 (old.items ∷ items_of b.now ∷ [])) × (new.capacity ≡ old.capacity) };

    fn bitand_assign(&mut self, rhs: &'a Bitmap) {
        and_assign(self, rhs);
    }
}

/// Returns, item by item, whether both are true. The capacity is that of `self`. Does not allocate. Requires that both
/// have equal lengths.
impl<'a> BitAnd<&'a Bitmap> for MutableBitmap {
    type Output = MutableBitmap;

    ghost can_bitand = { λ m b. length m.items ≡ length (items_of b.now) };

    // Table 8: true only for two true items.
    ghost bitand_gives = { λ m b r. (r.items ≡ each 8 (m.items ∷ items_of b.now ∷ []))
        × (r.capacity ≡ m.capacity) };

    fn bitand(self, rhs: &'a Bitmap) -> MutableBitmap {
        let mut bitmap = self;
        and_assign(&mut bitmap, rhs);
        bitmap
    }
}

/// Replaces each item by its OR with the item of `rhs` at the same index. The capacity stays. Does not allocate.
/// Requires that both bitmaps have equal lengths. arrow2 implements the operator on `&mut MutableBitmap`.
impl<'a> BitOrAssign<&'a Bitmap> for MutableBitmap {
    ghost can_bitor_assign = { λ m b. length m.items ≡ length (items_of b.now) };

    // Table 14: false only for two false items.
    ghost bitor_assign_gives = { λ old b new. (new.items
        ≡ each 14 (old.items ∷ items_of b.now ∷ [])) × (new.capacity ≡ old.capacity) };

    fn bitor_assign(&mut self, rhs: &'a Bitmap) {
        or_assign(self, rhs);
    }
}

/// Returns, item by item, whether one or both are true. The capacity is that of `self`. Does not allocate. Requires
/// that both have equal lengths.
impl<'a> BitOr<&'a Bitmap> for MutableBitmap {
    type Output = MutableBitmap;

    ghost can_bitor = { λ m b. length m.items ≡ length (items_of b.now) };

    // Table 14: false only for two false items.
    ghost bitor_gives = { λ m b r. (r.items ≡ each 14 (m.items ∷ items_of b.now ∷ []))
        × (r.capacity ≡ m.capacity) };

    fn bitor(self, rhs: &'a Bitmap) -> MutableBitmap {
        let mut bitmap = self;
        or_assign(&mut bitmap, rhs);
        bitmap
    }
}

/// Replaces each item by its XOR with the item of `rhs` at the same index. The capacity stays. Does not allocate.
/// Requires that both bitmaps have equal lengths. arrow2 implements the operator on `&mut MutableBitmap`.
impl<'a> BitXorAssign<&'a Bitmap> for MutableBitmap {
    ghost can_bitxor_assign = { λ m b. length m.items ≡ length (items_of b.now) };

    // Table 6: true where the two items differ.
    ghost bitxor_assign_gives = { λ old b new. (new.items
        ≡ each 6 (old.items ∷ items_of b.now ∷ [])) × (new.capacity ≡ old.capacity) };

    fn bitxor_assign(&mut self, rhs: &'a Bitmap) {
        xor_assign(self, rhs);
    }
}

/// Returns, item by item, whether exactly one is true. The capacity is that of `self`. Does not allocate. Requires that
/// both have equal lengths.
impl<'a> BitXor<&'a Bitmap> for MutableBitmap {
    type Output = MutableBitmap;

    ghost can_bitxor = { λ m b. length m.items ≡ length (items_of b.now) };

    // Table 6: true where the two items differ.
    ghost bitxor_gives = { λ m b r. (r.items ≡ each 6 (m.items ∷ items_of b.now ∷ []))
        × (r.capacity ≡ m.capacity) };

    fn bitxor(self, rhs: &'a Bitmap) -> MutableBitmap {
        let mut bitmap = self;
        xor_assign(&mut bitmap, rhs);
        bitmap
    }
}

/// Returns each item inverted. The capacity is that of `self`. Does not allocate.
impl Not for MutableBitmap {
    type Output = MutableBitmap;

    // Table 1: true for a false item.
    ghost not_gives = { λ m r. (r.items ≡ each 1 (m.items ∷ [])) × (r.capacity ≡ m.capacity) };

    fn not(self) -> MutableBitmap {
        let mut bitmap = self;
        not_assign(&mut bitmap);
        bitmap
    }
}

/// Replaces each item by whether it and the item of `rhs` at the same index are both true. If every item of `rhs`
/// is true, writes nothing. Requires that both bitmaps have equal lengths.
fn and_assign(lhs: &mut MutableBitmap, rhs: &Bitmap)
    requires same_length { length lhs.old.items ≡ length (items_of rhs.now) }
    // Table 8: true only for two true items.
    ensures items { lhs.new.items ≡ each 8 (lhs.old.items ∷ items_of rhs.now ∷ []) }
    ensures capacity { lhs.new.capacity ≡ lhs.old.capacity }
{
    if are_all(rhs, false) {
        lhs.bits.fill(false);
    } else if !are_all(rhs, true) {
        binary_assign_table::<u64>(lhs, rhs, 0b1000);
    }
}

/// Replaces each item by whether it or the item of `rhs` at the same index is true, or both. If every item of
/// `rhs` is false, writes nothing. Requires that both bitmaps have equal lengths.
fn or_assign(lhs: &mut MutableBitmap, rhs: &Bitmap)
    requires same_length { length lhs.old.items ≡ length (items_of rhs.now) }
    // Table 14: false only for two false items.
    ensures items { lhs.new.items ≡ each 14 (lhs.old.items ∷ items_of rhs.now ∷ []) }
    ensures capacity { lhs.new.capacity ≡ lhs.old.capacity }
{
    if are_all(rhs, true) {
        lhs.bits.fill(true);
    } else if !are_all(rhs, false) {
        binary_assign_table::<u64>(lhs, rhs, 0b1110);
    }
}

/// Sets each item to true if it differs from the item of `rhs` at the same index, else to false. Requires that both
/// bitmaps have equal lengths.
fn xor_assign(lhs: &mut MutableBitmap, rhs: &Bitmap)
    requires same_length { length lhs.old.items ≡ length (items_of rhs.now) }
    // Table 6: true where the two items differ.
    ensures items { lhs.new.items ≡ each 6 (lhs.old.items ∷ items_of rhs.now ∷ []) }
    ensures capacity { lhs.new.capacity ≡ lhs.old.capacity }
{
    binary_assign_table::<u64>(lhs, rhs, 0b0110);
}

/// Inverts each item.
fn not_assign(bitmap: &mut MutableBitmap)
    // Table 1: true for a false item.
    ensures items { bitmap.new.items ≡ each 1 (bitmap.old.items ∷ []) }
    ensures capacity { bitmap.new.capacity ≡ bitmap.old.capacity }
{
    unary_assign_table::<u64>(bitmap, 0b01);
}
