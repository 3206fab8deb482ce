//! Replacing the words of bytes by the results of a word function.
ghost use Rattle.std.specs.Prelude.{◌≡◌, ◌+◌, ◌-◌, ◌*◌, ◌/◌, ◌<◌, ◌≤◌, ◌^◌, ◌⊎◌, ℕ, List, ◌∷◌, Bool, false, take, length, slice_index_or};
ghost use Rattle.arrow2_model.specs.Lists.{bit, bits, IsCanonical, word};
ghost use Rattle.arrow2_model.specs.Kernels.{own_kernel};
ghost use Rattle.arrow2_model.specs.Rows.{AreWordsOf, ComputesOwnRows, IsBitwiseOnOwnRows};
ghost use Rattle.arrow2_model.specs.Tables.{each};
ghost use Rattle.arrow2_kernels.specs.WordResults.{AreJoinedResults, MayReturnOwn};

use crate::rows::WordRows;
use arrow2_chunk::BitChunk;
use std::convert::AsSlice;

/// Replaces each word of the first `len` bits by the result of `op` for this word and the row of words at its index.
/// The first item of a word is its lowest bit. Where fewer bits are left than a word of type `T` has, `op` gets the
/// last word, and those of its row, padded with false. Padding bits of `bytes` are false afterwards, whatever they were
/// before and whatever `op` returns for them. Does not allocate. Requires that `bytes` has exactly the bytes that `len`
/// bits need, that each list of `rows` has `len` items still to come, and that `op` accepts every word and row.
pub fn assign_rows<T: BitChunk, S: WordRows<T>, F: Fn(T, S::Row) -> T>(
    bytes: &mut [u8],
    len: usize,
    rows: S,
    op: F,
)
    requires callable { F.IsAlwaysCallable op }
    requires same_lengths { S.same_lengths rows }
    requires len { S.len rows ≡ len }
    requires exact { length bytes.old ≡ (len + 7) / 8 }
    // Padding bits are false.
    ensures canonical { IsCanonical bytes.new len }
    // If `op` computes a mathematical function `f` of a list of words, first that of `bytes`, then those of the row:
    ensures items { (f : List ℕ → ℕ) →
        ComputesOwnRows T.WIDTH S.words T.number (F.post op) f →
        take len (bits bytes.new)
        ≡ own_kernel T.WIDTH f (take len (bits bytes.old)) (S.row_at rows) len }
    // If `op` computes each bit by a truth table `t`, and the rows have the words of `lists`: the outputs of `t`.
    ensures table { (t : ℕ) (lists : List (List Bool)) →
        IsBitwiseOnOwnRows T.WIDTH S.words T.number (F.post op) t → AreWordsOf T.WIDTH lists (S.row_at rows) →
        take len (bits bytes.new) ≡ each t (take len (bits bytes.old) ∷ lists) }
    // For any `op`: the word at each index is one that `op` may return for the word and the row at this index.
    ensures results { AreJoinedResults T.WIDTH len (λ j. MayReturnOwn T.WIDTH S.words T.number (F.post op)
        (word T.WIDTH (take len (bits bytes.old)) j) (S.row_at rows j)) (take len (bits bytes.new)) }
{
    let mut rows = rows;
    let mut at = 0;
    while let Some(row) = rows.next_row() {
        let output = op(word_at(bytes, at, T::SIZE), row);
        put_word(bytes, at, T::SIZE, output);
        at += T::SIZE;
    }
    let left = len - 8 * at;
    if left > 0 {
        let count = bytes.len() - at;
        let own = word_at::<T>(bytes, at, count).masked(left);
        put_word(bytes, at, count, op(own, rows.rest_row()).masked(left));
    }
}

/// Returns the word whose first bytes are the `count` bytes from byte `at` on. Requires that these are inside `bytes`,
/// and that `count` is at most the number of bytes of a word.
fn word_at<T: BitChunk>(bytes: &[u8], at: usize, count: usize) -> T
    requires inside { at + count ≤ length bytes.now }
    requires most { count ≤ T.SIZE }
    ensures items { (i : ℕ) → i < 8 * count → bit (T.number result) i
        ≡ slice_index_or (bits bytes.now) (8 * at + i) false }
    ensures fits { T.number result < 2 ^ T.WIDTH }
{
    let block = padded_bytes(&bytes[at..at + count]);
    T::from_ne_slice(&block[..T::SIZE])
}

/// Returns eight bytes that begin with these bytes. Requires that there are at most eight. The function is inlined,
/// since it is called for each word.
#[inline(always)]
fn padded_bytes(bytes: &[u8]) -> [u8; 8]
    requires { length bytes.now ≤ 8 }
    ensures front { take (length bytes.now) result ≡ bytes.now }
    ensures size { length result ≡ 8 }
{
    let mut block = [0; 8];
    block[..bytes.len()].copy_from_slice(bytes);
    block
}

/// Writes the first `count` bytes of `word` over the `count` bytes from byte `at` on. Requires that these are inside
/// `bytes`, and that `count` is at most the number of bytes of a word.
fn put_word<T: BitChunk>(bytes: &mut [u8], at: usize, count: usize, word: T)
    requires inside { at + count ≤ length bytes.old }
    requires most { count ≤ T.SIZE }
    ensures written { (i : ℕ) → i < 8 * count → slice_index_or (bits bytes.new) (8 * at + i) false
        ≡ bit (T.number word) i }
    ensures kept { (k : ℕ) → (k < 8 * at) ⊎ (8 * (at + count) ≤ k) →
        slice_index_or (bits bytes.new) k false ≡ slice_index_or (bits bytes.old) k false }
{
    let word = word.to_ne_bytes();
    write_over(&mut bytes[at..at + count], &word.as_slice()[..count]);
}

/// Replaces `bytes` by `word`. Requires that both have the same number of bytes. Stores a single byte by itself, since
/// a copy keeps LLVM from vectorizing a loop over bytes.
fn write_over(bytes: &mut [u8], word: &[u8])
    requires size { length word.now ≡ length bytes.old }
    ensures { bytes.new ≡ word.now }
{
    if word.len() == 1 {
        bytes[0] = word[0];
    } else {
        bytes.copy_from_slice(word);
    }
}
