//! Bitmaps combined.
ghost use Rattle.std.specs.Prelude.{◌≡◌, ◌+◌, ◌%◌, ◌^◌, [], ◌∷◌, length, IfOk};
ghost use Rattle.arrow2.specs.Failures.{OnlyOutOfMemory};
ghost use Rattle.arrow2.specs.Kernels.{unary_kernel};
ghost use Rattle.arrow2.specs.Lists.{items_of};
ghost use Rattle.arrow2.specs.Tables.{each};

use arrow2::bitmap::{Bitmap, MutableBitmap, binary_assign_table, binary_table, unary};
use arrow2::error::Result;

/// Returns a bitmap that is true where `bitmap` is true and `other` is false. Bit 1 of the truth table is the output
/// for these inputs. Only this bit is set, so the table is the number 0b10 = 2. Requires that both have equal lengths.
///
/// # Errors
///
/// Only `OutOfMemory`.
pub fn without(bitmap: &Bitmap, other: &Bitmap) -> Result<Bitmap>
    requires same_length { length (items_of bitmap.now) ≡ length (items_of other.now) }
    ensures items { IfOk result (λ b. items_of b
        ≡ each 2 (items_of bitmap.now ∷ items_of other.now ∷ [])) }
    ensures only { OnlyOutOfMemory result }
{
    binary_table(bitmap, other, 2)
}

/// Makes each item of `bitmap` false where `other` is true, in place. Requires that both have equal lengths. Does not
/// allocate.
pub fn remove(bitmap: &mut MutableBitmap, other: &Bitmap)
    requires same_length { length bitmap.old.items ≡ length (items_of other.now) }
    ensures { bitmap.new.items ≡ each 2 (bitmap.old.items ∷ items_of other.now ∷ []) }
{
    binary_assign_table::<u64>(bitmap, other, 2);
}

/// Returns the bitmap whose words of 64 items are those of `bitmap` plus 1, modulo 2 ^ 64. A word function need not act
/// bit by bit.
///
/// # Errors
///
/// Only `OutOfMemory`.
pub fn next_words(bitmap: &Bitmap) -> Result<Bitmap>
    ensures items { IfOk result (λ b. items_of b
        ≡ unary_kernel 64 (λ x. (x + 1) % 2 ^ 64) (items_of bitmap.now)) }
    ensures only { OnlyOutOfMemory result }
{
    unary(bitmap, |x| x.wrapping_add(1))
}
