//! Truth tables of Kleene's `and` and `or`. For each operator, one table gives the value of the result, and two others
//! give whether the result is not null.
ghost use Rattle.std.specs.Prelude.{◌≡◌, ◌<◌, ◌↔◌, ℕ, [], ◌∷◌, length, Some, IsNone, IfOk, IfSome};
ghost use Rattle.arrow2_model.specs.Lists.{bit, items_of};
ghost use Rattle.arrow2_model.specs.Tables.{answer, each};
ghost use Rattle.arrow2_validity.specs.OptionalValidity.{valid_items};
ghost use Rattle.arrow2_array.specs.Kleene.{AgreesWhereOneIsValid};
ghost use Rattle.arrow2_bitmap.specs.PackedBitmaps.{IsPacked};
ghost use Rattle.arrow2_types.specs.Failures.{OnlyOutOfMemory};

use arrow2_bitmap::Bitmap;
use arrow2_kernels::truth_tables::{quaternary_outputs, ternary_outputs};
use arrow2_tables::bitmap_ops::{quaternary, ternary};
use arrow2_types::Result;
use arrow2_validity::Validity;

/// The truth table of `and` on two values: bit `left + 2 * right` is its result.
pub const AND_VALUES: u8 = 0b1000;

/// The truth table of `or` on two values: bit `left + 2 * right` is its result.
pub const OR_VALUES: u8 = 0b1110;

/// The truth table of whether the result of `and` is known, that is, not null. Its bit
/// `left + 2 * left_validity + 4 * right + 8 * right_validity` is the output for these inputs.
///
/// The literal has four groups of four bits. In the order in which they are written, they are for a right item that is
/// true, false, a null over a stored true, and a null over a stored false. Within a group, the bits are for the same
/// four cases of the left item, in the same order.
pub const AND_KNOWN: u16 = 0b1100_1111_0100_0100;

/// The truth table of whether the result of `or` is known, with the same inputs as [`AND_KNOWN`].
pub const OR_KNOWN: u16 = 0b1111_1100_1000_1000;

/// The truth table of whether the result of `and` is known, where one array has no validity bitmap, so that its item is
/// not null. Its bit `value + 2 * validity + 4 * other` is the output for these inputs: `other` is the value of the
/// item that is not null, `value` and `validity` are those of the item that may be null.
pub const AND_KNOWN_PAIRED: u8 = 0b1100_1111;

/// The truth table of whether the result of `or` is known, where one array has no validity bitmap. Its inputs are those
/// of [`AND_KNOWN_PAIRED`].
pub const OR_KNOWN_PAIRED: u8 = 0b1111_1100;

/// Returns the validity of the results of an operator for the items of two arrays. `KNOWN` is its table of both values
/// and validities. Where exactly one array has a validity bitmap, uses table `PAIRED`. Where neither has one, the
/// returned validity has none. Requires that `PAIRED` agrees with `KNOWN`, and that both bitmaps and both validities
/// have equal lengths.
///
/// The tables are const parameters, so that the compiler simplifies each to a few operations on words.
pub(crate) fn validity_by<const KNOWN: u16, const PAIRED: u8>(
    left: &Bitmap,
    left_validity: &Validity,
    right: &Bitmap,
    right_validity: &Validity,
) -> Result<Validity>
    requires paired { AgreesWhereOneIsValid PAIRED KNOWN }
    // All four have equal lengths.
    requires same_length { length (items_of left.now) ≡ length (items_of right.now) }
    requires left_length { length (valid_items left_validity.now) ≡ length (items_of left.now) }
    requires right_length { length (valid_items right_validity.now) ≡ length (items_of right.now) }
    // Which results are not null.
    ensures items { IfOk result (λ v. valid_items v
        ≡ each KNOWN (items_of left.now ∷ valid_items left_validity.now
        ∷ items_of right.now ∷ valid_items right_validity.now ∷ [])) }
    ensures len { IfOk result (λ v. length (valid_items v) ≡ length (items_of left.now)) }
    // It has no bitmap exactly where neither input has one.
    ensures bitmap { IfOk result (λ v. IsNone v.bitmap
        ↔ (IsNone left_validity.now.bitmap × IsNone right_validity.now.bitmap)) }
    ensures packed { IfOk result (λ v. IfSome v.bitmap (λ b. IsPacked b)) }
    // The only error is `OutOfMemory`.
    ensures only { OnlyOutOfMemory result }
{
    let len = left.len();
    match (left_validity.bitmap(), right_validity.bitmap()) {
        (None, None) => Ok(Validity::all_valid(len)),
        (Some(valid), None) => Ok(known_by(len, ternary_bitmap::<PAIRED>(left, valid, right)?)),
        (None, Some(valid)) => Ok(known_by(len, ternary_bitmap::<PAIRED>(right, valid, left)?)),
        (Some(valid), Some(other)) => {
            Ok(known_by(len, quaternary_bitmap::<KNOWN>(left, valid, right, other)?))
        }
    }
}

/// Returns, item by item, the output of the truth table `T` of three inputs. Requires that all have equal lengths.
fn ternary_bitmap<const T: u8>(a1: &Bitmap, a2: &Bitmap, a3: &Bitmap) -> Result<Bitmap>
    requires same_length2 { length (items_of a1.now) ≡ length (items_of a2.now) }
    requires same_length3 { length (items_of a1.now) ≡ length (items_of a3.now) }
    ensures items { IfOk result (λ b. items_of b
        ≡ each T (items_of a1.now ∷ items_of a2.now ∷ items_of a3.now ∷ [])) }
    ensures len { IfOk result (λ b. length (items_of b) ≡ length (items_of a1.now)) }
    ensures storage { IfOk result (λ b. IsPacked b) }
    ensures only { OnlyOutOfMemory result }
{
    ternary(
        a1,
        a2,
        a3,
        |x, y, z| -> u64
            ensures { (i : ℕ) → i < 64 → bit result i
                ≡ answer T (bit x i ∷ bit y i ∷ bit z i ∷ []) }
        { ternary_outputs(u16::from(T), x, y, z) },
    )
}

/// Returns, item by item, the output of the truth table `T` of four inputs. Requires that all have equal lengths.
fn quaternary_bitmap<const T: u16>(
    a1: &Bitmap,
    a2: &Bitmap,
    a3: &Bitmap,
    a4: &Bitmap,
) -> Result<Bitmap>
    // The four inputs have equal lengths.
    requires same_length2 { length (items_of a1.now) ≡ length (items_of a2.now) }
    requires same_length3 { length (items_of a1.now) ≡ length (items_of a3.now) }
    requires same_length4 { length (items_of a1.now) ≡ length (items_of a4.now) }
    // The outputs item by item, their number, and how they are stored.
    ensures items { IfOk result (λ b. items_of b
        ≡ each T (items_of a1.now ∷ items_of a2.now ∷ items_of a3.now ∷ items_of a4.now ∷ [])) }
    ensures len { IfOk result (λ b. length (items_of b) ≡ length (items_of a1.now)) }
    ensures storage { IfOk result (λ b. IsPacked b) }
    // The only error is `OutOfMemory`.
    ensures only { OnlyOutOfMemory result }
{
    quaternary(
        a1,
        a2,
        a3,
        a4,
        |x, y, z, v| -> u64
            ensures { (i : ℕ) → i < 64 → bit result i
                ≡ answer T (bit x i ∷ bit y i ∷ bit z i ∷ bit v i ∷ []) }
        { quaternary_outputs(T, x, y, z, v) },
    )
}

/// Returns the validity of `len` items whose bitmap is `known`. Requires that the bitmap has `len` items.
#[tactic(auto, using(arrow2_validity::proofs::ValidItems::validities))]
fn known_by(len: usize, known: Bitmap) -> Validity
    requires same_length { length (items_of known) ≡ len }
    ensures items { valid_items result ≡ items_of known }
    ensures bitmap { result.bitmap ≡ Some known }
{
    Validity::new(len, Some(known))
}
