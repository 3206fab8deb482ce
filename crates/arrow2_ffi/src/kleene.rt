//! Kleene's logic on values with their validity: an item is null where its validity bit is not set. Only the
//! `_optional` calls accept a side without a validity, by `lhs_all_valid` and `rhs_all_valid`: no item of that side is
//! null, and its validity needs no bytes.
//!
//! The values of the result are written over `values` and its validity over `validity`, from bit 0 on. Both slices must
//! have exactly the number of bytes that hold `length` bits. Their padding bits become 0. Each value of the result is
//! the operator applied to the two values, also where the result is null. With another code than `ARROW2_OK` nothing is
//! written.
ghost use Rattle.std.specs.Prelude.{◌≡◌, ◌≢◌, ◌↔◌, false, IsTrue};
ghost use Rattle.arrow2_model.specs.Tables.{each};
ghost use Rattle.arrow2_array.specs.Kleene.{AgreesWhereOneIsValid, NullableOperator, TablesCompute};
ghost use Rattle.arrow2_ffi.specs.Kleene.{GivesAnd, GivesOr, IsWholeInside, WritesKleene, first_parts, side, side_of};
ghost use Rattle.arrow2_ffi.specs.Ranges.{HasBytesForBits};
ghost use Rattle.arrow2_ffi.specs.Writes.{Stores};

use crate::bits_input::{Bits, are_inside, hold};
use crate::codes::{ARROW2_LENGTH, ARROW2_OK, ARROW2_RANGE};
use crate::in_place::{write_four, write_three, write_two};
use crate::validities::{covers_items, given_validity};
use arrow2_array::kleene::{
    AND_KNOWN, AND_KNOWN_PAIRED, AND_VALUES, OR_KNOWN, OR_KNOWN_PAIRED, OR_VALUES,
};

/// The table of two inputs whose output is true for all inputs.
const ALWAYS: u8 = 0b1111;

/// Values, and their validity where some may be null.
#[derive(Clone, Copy)]
struct Side<'a> {
    values: Bits<'a>,
    validity: Option<Bits<'a>>,
}

impl<'a> Side<'a> {
    /// Returns the side that a call was given. If `all_valid` is true, it has no validity.
    fn new(
        values: &'a [u8],
        offset: usize,
        validity: &'a [u8],
        validity_offset: usize,
        all_valid: bool,
    ) -> Side<'a>
        ensures { side_of result ≡ side values.now offset validity.now validity_offset all_valid }
    {
        Side {
            values: Bits(values, offset),
            validity: given_validity(all_valid, validity, validity_offset),
        }
    }
}

/// Combines `length` items of both sides by AND, index by index. Writes to `values` the values of the results, and to
/// `validity` which results are not null. A result is false where at least one of its two items is false and not null;
/// else null where at least one of them is null; else true. The value under a null is the AND of both values.
///
/// Returns `ARROW2_RANGE` exactly where `length` bits of the values or of the validity of a side, each from its offset
/// on, are not inside their bytes, also for a `length` of 0; else `ARROW2_LENGTH` exactly where the number of bytes of
/// `values` or of `validity` is not the one that `length` bits need.
#[unsafe(no_mangle)]
pub extern "C" fn arrow2_and_kleene(
    lhs: &[u8],
    lhs_offset: usize,
    lhs_validity: &[u8],
    lhs_validity_offset: usize,
    rhs: &[u8],
    rhs_offset: usize,
    rhs_validity: &[u8],
    rhs_validity_offset: usize,
    length: usize,
    values: &mut [u8],
    validity: &mut [u8],
) -> u32
    // `written`: when each code comes, and both outputs with `ARROW2_OK`. `side`: the values and the validity of a
    // side. `rejected`: with another code both outputs stay.
    ensures written { GivesAnd result length
        (side lhs.now lhs_offset lhs_validity.now lhs_validity_offset false)
        (side rhs.now rhs_offset rhs_validity.now rhs_validity_offset false)
        values.new validity.new }
    ensures rejected { result ≢ ARROW2_OK →
        (values.new ≡ values.old) × (validity.new ≡ validity.old) }
{
    let lhs = Side::new(lhs, lhs_offset, lhs_validity, lhs_validity_offset, false);
    let rhs = Side::new(rhs, rhs_offset, rhs_validity, rhs_validity_offset, false);
    write::<AND_VALUES, AND_KNOWN, AND_KNOWN_PAIRED>(lhs, rhs, length, values, validity)
}

/// Combines `length` items of both sides by OR, index by index. Writes to `values` the values of the results, and to
/// `validity` which results are not null. A result is true where at least one of its two items is true and not null;
/// else null where at least one of them is null; else false. The value under a null is the OR of both values.
///
/// Returns the codes of `arrow2_and_kleene`, in the same cases.
#[unsafe(no_mangle)]
pub extern "C" fn arrow2_or_kleene(
    lhs: &[u8],
    lhs_offset: usize,
    lhs_validity: &[u8],
    lhs_validity_offset: usize,
    rhs: &[u8],
    rhs_offset: usize,
    rhs_validity: &[u8],
    rhs_validity_offset: usize,
    length: usize,
    values: &mut [u8],
    validity: &mut [u8],
) -> u32
    // `written`: when each code comes, and both outputs with `ARROW2_OK`. `side`: the values and the validity of a
    // side. `rejected`: with another code both outputs stay.
    ensures written { GivesOr result length
        (side lhs.now lhs_offset lhs_validity.now lhs_validity_offset false)
        (side rhs.now rhs_offset rhs_validity.now rhs_validity_offset false)
        values.new validity.new }
    ensures rejected { result ≢ ARROW2_OK →
        (values.new ≡ values.old) × (validity.new ≡ validity.old) }
{
    let lhs = Side::new(lhs, lhs_offset, lhs_validity, lhs_validity_offset, false);
    let rhs = Side::new(rhs, rhs_offset, rhs_validity, rhs_validity_offset, false);
    write::<OR_VALUES, OR_KNOWN, OR_KNOWN_PAIRED>(lhs, rhs, length, values, validity)
}

/// Writes AND, item by item, as `arrow2_and_kleene` does. If `lhs_all_valid` is true, no item of the left side is null,
/// and `lhs_validity` and its offset are ignored. The same holds for the right side.
///
/// Returns `ARROW2_RANGE` exactly where `length` bits of the values of a side, or of a validity that is not ignored,
/// each from its offset on, are not inside their bytes, also for a `length` of 0; else `ARROW2_LENGTH` exactly where
/// the number of bytes of `values` or of `validity` is not the one that `length` bits need.
#[unsafe(no_mangle)]
pub extern "C" fn arrow2_and_kleene_optional(
    lhs: &[u8],
    lhs_offset: usize,
    lhs_validity: &[u8],
    lhs_validity_offset: usize,
    lhs_all_valid: bool,
    rhs: &[u8],
    rhs_offset: usize,
    rhs_validity: &[u8],
    rhs_validity_offset: usize,
    rhs_all_valid: bool,
    length: usize,
    values: &mut [u8],
    validity: &mut [u8],
) -> u32
    // `written`: when each code comes, and both outputs with `ARROW2_OK`. `side`: the values and the validity of a
    // side. `rejected`: with another code both outputs stay.
    ensures written { GivesAnd result length
        (side lhs.now lhs_offset lhs_validity.now lhs_validity_offset lhs_all_valid)
        (side rhs.now rhs_offset rhs_validity.now rhs_validity_offset rhs_all_valid)
        values.new validity.new }
    ensures rejected { result ≢ ARROW2_OK →
        (values.new ≡ values.old) × (validity.new ≡ validity.old) }
{
    let lhs = Side::new(
        lhs,
        lhs_offset,
        lhs_validity,
        lhs_validity_offset,
        lhs_all_valid,
    );
    let rhs = Side::new(
        rhs,
        rhs_offset,
        rhs_validity,
        rhs_validity_offset,
        rhs_all_valid,
    );
    write::<AND_VALUES, AND_KNOWN, AND_KNOWN_PAIRED>(lhs, rhs, length, values, validity)
}

/// Writes OR, item by item, as `arrow2_or_kleene` does. If `lhs_all_valid` is true, no item of the left side is null,
/// and `lhs_validity` and its offset are ignored. The same holds for the right side.
///
/// Returns the codes of `arrow2_and_kleene_optional`, in the same cases.
#[unsafe(no_mangle)]
pub extern "C" fn arrow2_or_kleene_optional(
    lhs: &[u8],
    lhs_offset: usize,
    lhs_validity: &[u8],
    lhs_validity_offset: usize,
    lhs_all_valid: bool,
    rhs: &[u8],
    rhs_offset: usize,
    rhs_validity: &[u8],
    rhs_validity_offset: usize,
    rhs_all_valid: bool,
    length: usize,
    values: &mut [u8],
    validity: &mut [u8],
) -> u32
    // `written`: when each code comes, and both outputs with `ARROW2_OK`. `side`: the values and the validity of a
    // side. `rejected`: with another code both outputs stay.
    ensures written { GivesOr result length
        (side lhs.now lhs_offset lhs_validity.now lhs_validity_offset lhs_all_valid)
        (side rhs.now rhs_offset rhs_validity.now rhs_validity_offset rhs_all_valid)
        values.new validity.new }
    ensures rejected { result ≢ ARROW2_OK →
        (values.new ≡ values.old) × (validity.new ≡ validity.old) }
{
    let lhs = Side::new(
        lhs,
        lhs_offset,
        lhs_validity,
        lhs_validity_offset,
        lhs_all_valid,
    );
    let rhs = Side::new(
        rhs,
        rhs_offset,
        rhs_validity,
        rhs_validity_offset,
        rhs_all_valid,
    );
    write::<OR_VALUES, OR_KNOWN, OR_KNOWN_PAIRED>(lhs, rhs, length, values, validity)
}

/// Writes the values by table `VALUES`, and the validity by tables `KNOWN` and `PAIRED`, as `write_known` does.
/// Requires of `KNOWN` and `PAIRED` what `write_known` requires of them.
///
/// With another code than `ARROW2_OK` both outputs stay as they were. The clause `written` states codes and outputs, as
/// `WritesKleene` has them, for each operator `f` that `VALUES` and `KNOWN` compute. For AND and for OR there is one.
/// If there is none, `written` states nothing.
fn write<const VALUES: u8, const KNOWN: u16, const PAIRED: u8>(
    lhs: Side<'_>,
    rhs: Side<'_>,
    length: usize,
    values: &mut [u8],
    validity: &mut [u8],
) -> u32
    requires paired { AgreesWhereOneIsValid PAIRED KNOWN }
    ensures written { (f : NullableOperator) → TablesCompute VALUES KNOWN f →
        WritesKleene result f VALUES KNOWN length (side_of lhs.entry) (side_of rhs.entry)
        values.new validity.new }
    ensures rejected { result ≢ ARROW2_OK →
        (values.new ≡ values.old) × (validity.new ≡ validity.old) }
{
    if !is_inside(lhs, length) || !is_inside(rhs, length) {
        return ARROW2_RANGE;
    }
    if !hold(values, length) || !hold(validity, length) {
        return ARROW2_LENGTH;
    }
    write_two::<VALUES>(values, length, lhs.values, rhs.values);
    write_known::<KNOWN, PAIRED>(validity, length, lhs, rhs);
    ARROW2_OK
}

/// Returns whether the first `length` bits of the values, and of the validity if there is one, are inside their bytes.
fn is_inside(side: Side<'_>, length: usize) -> bool
    ensures { IsTrue result ↔ IsWholeInside length (side_of side.entry) }
{
    are_inside(side.values, length) && covers_items(side.validity, length)
}

/// Writes which results are not null: the outputs of table `KNOWN` for value and validity of the left side, then of the
/// right side. A missing validity counts as true. Padding bits become 0.
///
/// Requires two things of the tables. Where the item of one side is not null, the output of `PAIRED` is that of
/// `KNOWN`: the inputs of `PAIRED` are value and validity of the other side, be it the left or the right one, then the
/// value of the side that is not null. Where neither item is null, the output of `KNOWN` is true. Also requires that
/// `out` has exactly the bytes that `length` bits need, and that `length` bits of the values of each side, and of its
/// validity if it has one, are inside their bytes.
///
/// In the code, `KNOWN` is used where both sides have a validity, `PAIRED` where only one side has one, and a table
/// that is always true where neither has one.
fn write_known<const KNOWN: u16, const PAIRED: u8>(
    out: &mut [u8],
    length: usize,
    lhs: Side<'_>,
    rhs: Side<'_>,
)
    requires exact { HasBytesForBits out.old length }
    requires lhs { IsWholeInside length (side_of lhs) }
    requires rhs { IsWholeInside length (side_of rhs) }
    requires paired { AgreesWhereOneIsValid PAIRED KNOWN }
    ensures { Stores out.new length
        (each KNOWN (first_parts length (side_of lhs.entry) (side_of rhs.entry))) }
{
    match (lhs.validity, rhs.validity) {
        (None, None) => write_two::<ALWAYS>(out, length, lhs.values, rhs.values),
        (Some(known), None) => {
            write_three::<PAIRED>(out, length, lhs.values, known, rhs.values);
        }
        (None, Some(known)) => {
            write_three::<PAIRED>(out, length, rhs.values, known, lhs.values);
        }
        (Some(known), Some(other)) => {
            write_four::<KNOWN>(out, length, lhs.values, known, rhs.values, other);
        }
    }
}
