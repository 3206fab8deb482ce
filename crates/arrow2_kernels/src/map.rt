//! The results of a word function, written over given bytes or into new bytes.
ghost use Rattle.std.specs.Prelude.{◌≡◌, ◌+◌, ◌/◌, ℕ, List, Bool, take, IfOk, length};
ghost use Rattle.arrow2_model.specs.Lists.{bits, IsCanonical};
ghost use Rattle.arrow2_model.specs.Kernels.{bits_of_words};
ghost use Rattle.arrow2_model.specs.Rows.{IsBitwiseOnRows, AreRowsOf, ComputesRows};
ghost use Rattle.arrow2_model.specs.Tables.{each};
ghost use Rattle.arrow2_kernels.specs.WordResults.{AreJoinedResults, MayReturnRow};

use crate::assign::assign_rows;
use crate::rows::WordRows;
use arrow2_bits::bytes_for;
use std::alloc::{AllocError, Global};

/// Overwrites `bytes` with the results of `op` for each row of words of 64 bits, from bit 0 on. The first item of a
/// word is its lowest bit. Where fewer items are left for the last row, `op` gets its words padded with false. Padding
/// bits of `bytes` are false afterwards. Does not allocate. Requires that `bytes` has exactly the bytes that `len` bits
/// need, that each list of `rows` has `len` items still to come, and that `op` accepts every row.
pub fn write_rows<S: WordRows<u64>, F: Fn(S::Row) -> u64>(
    bytes: &mut [u8],
    len: usize,
    rows: S,
    op: F,
)
    // `op` accepts each row, each list of `rows` has `len` items, and `bytes` has exactly the bytes that these need.
    requires callable { F.IsAlwaysCallable op }
    requires same_lengths { S.same_lengths rows }
    requires len { S.len rows ≡ len }
    requires exact { length bytes.old ≡ (len + 7) / 8 }
    // Padding bits are false.
    ensures canonical { IsCanonical bytes.new len }
    // If the results of `op` are those of a mathematical function `f` on words:
    ensures items { (f : List ℕ → ℕ) → ComputesRows 64 S.words (λ x. x) (F.post op) f →
        take len (bits bytes.new) ≡ bits_of_words 64 (λ j. f (S.row_at rows j)) len }
    // If `op` computes each bit by a truth table `t`, and `lists` are lists whose words are those of the rows: the
    // items are the outputs of `t` for the items of `lists`.
    ensures table { (t : ℕ) (lists : List (List Bool)) →
        IsBitwiseOnRows 64 S.words (λ x. x) (F.post op) t → AreRowsOf 64 lists (S.row_at rows) len →
        take len (bits bytes.new) ≡ each t lists }
    // For any `op`: the word at each index is one that `op` may return for some row with the words of the row at this
    // index.
    ensures results { AreJoinedResults 64 len (λ j. MayReturnRow 64 S.words (λ x. x) (F.post op) (S.row_at rows j))
        (take len (bits bytes.new)) }
{
    assign_rows(bytes, len, rows, |_own: u64, row| op(row));
}

/// Returns the bytes of the results of `op` for each row of words of 64 bits: exactly the bytes that `len` bits need,
/// with padding bits false. The first item of a word is its lowest bit. Where fewer items are left for the last row,
/// `op` gets its words padded with false. Allocates at most once. Requires that each list of `rows` has `len` items
/// still to come, and that `op` accepts every row. The clauses are those of [`write_rows`], but for `table`.
///
/// # Errors
///
/// If an allocation fails.
pub fn map_rows<S: WordRows<u64>, F: Fn(S::Row) -> u64>(
    alloc: Global,
    len: usize,
    rows: S,
    op: F,
) -> Result<Vec<u8>, AllocError>
    requires callable { F.IsAlwaysCallable op }
    requires same_lengths { S.same_lengths rows }
    requires len { S.len rows ≡ len }
    ensures canonical { IfOk result (λ v. IsCanonical v.items len) }
    ensures items { (f : List ℕ → ℕ) → ComputesRows 64 S.words (λ x. x) (F.post op) f →
        IfOk result (λ v. take len (bits v.items)
        ≡ bits_of_words 64 (λ j. f (S.row_at rows j)) len) }
    ensures results { IfOk result (λ v. AreJoinedResults 64 len
        (λ j. MayReturnRow 64 S.words (λ x. x) (F.post op) (S.row_at rows j)) (take len (bits v.items))) }
{
    let mut bytes = vec![in alloc; 0u8; bytes_for(len)]?;
    write_rows(bytes.as_mut_slice(), len, rows, op);
    Ok(bytes)
}
