//! Validity bitmaps.
ghost use Rattle.std.specs.Prelude.{◌≡◌, ◌+◌, length, map, is_some, IfOk, true, false, [], ◌∷◌};
ghost use Rattle.arrow2.specs.Failures.{OnlyOutOfMemory};
ghost use Rattle.arrow2.specs.Lists.{falses, items_of};

use arrow2::bitmap::{Bitmap, MutableBitmap};
use arrow2::error::Result;
use std::alloc::Global;

/// Returns which of the values are not null, as a validity bitmap.
///
/// # Errors
///
/// Only `OutOfMemory`.
pub fn validity_of(alloc: Global, values: &[Option<i64>]) -> Result<Bitmap>
    ensures items { IfOk result (λ b. items_of b ≡ map is_some values.now) }
    ensures only { OnlyOutOfMemory result }
{
    let mut validity = MutableBitmap::with_capacity(alloc, values.len())?;
    for value in values {
        validity.push(value.is_some())?;
    }
    Bitmap::try_from(validity)
}

/// Returns the number of values that are not null.
pub fn valid_count(validity: &Bitmap) -> usize
    ensures { result + falses (items_of validity.now) ≡ length (items_of validity.now) }
{
    validity.len() - validity.unset_bits()
}

/// Returns the number of nulls, counted in both halves. A ruleset of counts proves that the sum is right.
#[tactic(auto, using(arrow2::proofs::Rulesets::counting))]
pub fn nulls_by_halves(validity: &Bitmap) -> usize
    ensures { result ≡ falses (items_of validity.now) }
{
    let middle = validity.len() / 2;
    let rest = validity.len() - middle;
    validity.null_count_range(0, middle) + validity.null_count_range(middle, rest)
}

/// Returns the validity of three items. Only the middle one is null. The items of literal bytes are computed
/// by `unfolding`.
///
/// # Errors
///
/// Only `OutOfMemory`.
#[tactic(auto, unfolding(arrow2::specs::Bits::bits, arrow2::specs::Bits::unnum))]
pub fn one_null_of_three(alloc: Global) -> Result<Bitmap>
    ensures items { IfOk result (λ b. items_of b ≡ true ∷ false ∷ true ∷ []) }
    ensures only { OnlyOutOfMemory result }
{
    Bitmap::from_u8_slice(alloc, &[0b101], 3)
}
