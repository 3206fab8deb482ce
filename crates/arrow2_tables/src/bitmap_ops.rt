//! New bitmaps from three and four bitmaps: word functions, and truth tables.
ghost use Rattle.std.specs.Prelude.{◌≡◌, ℕ, [], ◌∷◌, length, IfOk};
ghost use Rattle.arrow2_model.specs.Kernels.{ternary_kernel, quaternary_kernel, ComputesTernary, ComputesQuaternary};
ghost use Rattle.arrow2_model.specs.Lists.{bitmap_word, items_of};
ghost use Rattle.arrow2_model.specs.Tables.{each, IsBitwiseTernary, IsBitwiseQuaternary};
ghost use Rattle.arrow2_kernels.specs.WordResults.{AreJoinedResults};
ghost use Rattle.arrow2_bitmap.specs.PackedBitmaps.{MakesPacked};

use arrow2_bitmap::Bitmap;
use arrow2_bitmap::bitmap_ops::from_rows;
use arrow2_kernels::truth_tables::{quaternary_outputs, ternary_outputs};
use arrow2_kernels::{OneList, Pair, ZipRows};
use arrow2_types::Result;

/// Reads the items of the three bitmaps as words of 64 bits, the last ones padded with false, applies `op` to the three
/// words at each index, and returns the bits of the results, cut to the length of the bitmaps. The first item of a word
/// is its lowest bit. Requires equal lengths, and that the `requires` of `op` holds for any three words, not only for
/// those of the bitmaps.
///
/// The clauses determine each item where the contract of `op` determines its result, as a function of the words or by
/// one truth table for all bits. For any other `op` they state only that each word of the result is one that the
/// contract of `op` allows for the words at its index.
///
/// Differs from arrow2: the padding bits of the words count as false. Where no items follow the last full word, arrow2
/// calls `op` once more, and the code here does not; no clause states this. arrow2's `ternary` returns no `Result`.
///
/// The new bitmap is stored in canonical bytes, from bit 0 on.
///
/// # Errors
///
/// Only `OutOfMemory`.
pub fn ternary<F: Fn(u64, u64, u64) -> u64>(
    a1: &Bitmap,
    a2: &Bitmap,
    a3: &Bitmap,
    op: F,
) -> Result<Bitmap>
    requires callable { F.IsAlwaysCallable op }
    requires same_length2 { length (items_of a1.now) ≡ length (items_of a2.now) }
    requires same_length3 { length (items_of a1.now) ≡ length (items_of a3.now) }
    // If the results of `op` are those of a mathematical function `f` on words:
    ensures kernel { (f : ℕ → ℕ → ℕ → ℕ) → ComputesTernary 64 (λ x. x) (F.post op) f →
        IfOk result (λ b.
        items_of b ≡ ternary_kernel 64 f (items_of a1.now) (items_of a2.now) (items_of a3.now)) }
    // For every truth table `t` by which `op` computes each bit: the items are the outputs of `t`.
    ensures table { (t : ℕ) → IsBitwiseTernary 64 (λ x. x) (F.post op) t →
        IfOk result (λ b.
        items_of b ≡ each t (items_of a1.now ∷ items_of a2.now ∷ items_of a3.now ∷ [])) }
    // For any `op`: the word at each index is one that `op` may return for the words of the lists at this index.
    ensures results { IfOk result (λ b. AreJoinedResults 64 (length (items_of a1.now))
        (λ j. F.post op (bitmap_word 64 a1.now j) (bitmap_word 64 a2.now j)
        (bitmap_word 64 a3.now j)) (items_of b)) }
    // A new bitmap of the same length, in canonical bytes from bit 0 on; or `OutOfMemory`.
    ensures made { MakesPacked result (length (items_of a1.now)) }
{
    let a1_words = OneList {
        chunks: a1.chunks::<u64>(),
    };
    let a2_words = OneList {
        chunks: a2.chunks::<u64>(),
    };
    let a3_words = OneList {
        chunks: a3.chunks::<u64>(),
    };
    let two = ZipRows {
        left: a1_words,
        right: a2_words,
    };
    let three = ZipRows {
        left: two,
        right: a3_words,
    };
    from_rows(a1.allocator(), a1.len(), three, |((x, y), z)| op(x, y, z))
}

/// Reads the items of the four bitmaps as words of 64 bits, the last ones padded with false, applies `op` to the four
/// words at each index, and returns the bits of the results, cut to the length of the bitmaps. The first item of a word
/// is its lowest bit. Requires equal lengths, and that the `requires` of `op` holds for any four words, not only for
/// those of the bitmaps.
///
/// The clauses determine each item where the contract of `op` determines its result, as a function of the words or by
/// one truth table for all bits. For any other `op` they state only that each word of the result is one that the
/// contract of `op` allows for the words at its index.
///
/// Differs from arrow2: the padding bits of the words count as false. Where no items follow the last full word, arrow2
/// calls `op` once more, and the code here does not; no clause states this. arrow2's `quaternary` returns no `Result`.
///
/// The new bitmap is stored in canonical bytes, from bit 0 on.
///
/// # Errors
///
/// Only `OutOfMemory`.
pub fn quaternary<F: Fn(u64, u64, u64, u64) -> u64>(
    a1: &Bitmap,
    a2: &Bitmap,
    a3: &Bitmap,
    a4: &Bitmap,
    op: F,
) -> Result<Bitmap>
    requires callable { F.IsAlwaysCallable op }
    requires same_length2 { length (items_of a1.now) ≡ length (items_of a2.now) }
    requires same_length3 { length (items_of a1.now) ≡ length (items_of a3.now) }
    requires same_length4 { length (items_of a1.now) ≡ length (items_of a4.now) }
    // If the results of `op` are those of a mathematical function `f` on words:
    ensures kernel { (f : ℕ → ℕ → ℕ → ℕ → ℕ) → ComputesQuaternary 64 (λ x. x) (F.post op) f →
        IfOk result (λ b.
        items_of b ≡ quaternary_kernel 64 f (items_of a1.now) (items_of a2.now)
        (items_of a3.now) (items_of a4.now)) }
    // For every truth table `t` by which `op` computes each bit: the items are the outputs of `t`.
    ensures table { (t : ℕ) → IsBitwiseQuaternary 64 (λ x. x) (F.post op) t →
        IfOk result (λ b.
        items_of b ≡ each t (items_of a1.now ∷ items_of a2.now ∷ items_of a3.now
        ∷ items_of a4.now ∷ [])) }
    // For any `op`: the word at each index is one that `op` may return for the words of the lists at this index.
    ensures results { IfOk result (λ b. AreJoinedResults 64 (length (items_of a1.now))
        (λ j. F.post op (bitmap_word 64 a1.now j) (bitmap_word 64 a2.now j)
        (bitmap_word 64 a3.now j) (bitmap_word 64 a4.now j)) (items_of b)) }
    // A new bitmap of the same length, in canonical bytes from bit 0 on; or `OutOfMemory`.
    ensures made { MakesPacked result (length (items_of a1.now)) }
{
    let rows = ZipRows {
        left: pair(a1, a2),
        right: pair(a3, a4),
    };
    from_rows(a1.allocator(), a1.len(), rows, |((x, y), (z, v))| {
        op(x, y, z, v)
    })
}

/// Returns the words of `left`, paired with those of `right`.
fn pair<'a>(left: &'a Bitmap, right: &'a Bitmap) -> Pair<'a>
    ensures left { result.lists.left.chunks.items ≡ items_of left.now }
    ensures right { result.lists.right.chunks.items ≡ items_of right.now }
{
    Pair {
        lists: ZipRows {
            left: OneList {
                chunks: left.chunks::<u64>(),
            },
            right: OneList {
                chunks: right.chunks::<u64>(),
            },
        },
    }
}

/// Returns, item by item, the output of the truth table `t`: bit `a + 2 * b + 4 * c` of `t`, where `a`, `b` and `c` are
/// the items of `a1`, `a2` and `a3` as 0 or 1. Requires that all have equal lengths.
///
/// The new bitmap is stored in canonical bytes, from bit 0 on.
///
/// arrow2 has no such call.
///
/// # Errors
///
/// Only `OutOfMemory`.
pub fn ternary_table(a1: &Bitmap, a2: &Bitmap, a3: &Bitmap, t: u8) -> Result<Bitmap>
    requires same_length2 { length (items_of a1.now) ≡ length (items_of a2.now) }
    requires same_length3 { length (items_of a1.now) ≡ length (items_of a3.now) }
    ensures items { IfOk result (λ b. items_of b
        ≡ each t (items_of a1.now ∷ items_of a2.now ∷ items_of a3.now ∷ [])) }
    ensures made { MakesPacked result (length (items_of a1.now)) }
{
    ternary(a1, a2, a3, |x, y, z| ternary_outputs(u16::from(t), x, y, z))
}

/// Returns, item by item, the output of the truth table `t`: bit `a + 2 * b + 4 * c + 8 * d` of `t`, where `a` to `d`
/// are the items of `a1` to `a4` as 0 or 1. Requires that all have equal lengths.
///
/// The new bitmap is stored in canonical bytes, from bit 0 on.
///
/// arrow2 has no such call.
///
/// # Errors
///
/// Only `OutOfMemory`.
pub fn quaternary_table(
    a1: &Bitmap,
    a2: &Bitmap,
    a3: &Bitmap,
    a4: &Bitmap,
    t: u16,
) -> Result<Bitmap>
    requires same_length2 { length (items_of a1.now) ≡ length (items_of a2.now) }
    requires same_length3 { length (items_of a1.now) ≡ length (items_of a3.now) }
    requires same_length4 { length (items_of a1.now) ≡ length (items_of a4.now) }
    // The outputs of the table, item by item.
    ensures items { IfOk result (λ b. items_of b
        ≡ each t (items_of a1.now ∷ items_of a2.now ∷ items_of a3.now ∷ items_of a4.now ∷ [])) }
    // A new bitmap of the same length, in canonical bytes from bit 0 on; or `OutOfMemory`.
    ensures made { MakesPacked result (length (items_of a1.now)) }
{
    quaternary(
        a1,
        a2,
        a3,
        a4,
        |x, y, z, v| quaternary_outputs(t, x, y, z, v),
    )
}
