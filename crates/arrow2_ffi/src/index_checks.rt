//! The bodies of the exports on indices, for any width.
ghost use Rattle.std.specs.Prelude.{◌≡◌, ◌<◌, ◌↔◌, ℕ, pos, map, length, slice_index_or, IsTrue};
ghost use Rattle.arrow2_ffi.specs.Indices.{ChecksIndices, FindsFirstOutside, IsFirstOutside, IsIndex, IsIndexOrNull};
ghost use Rattle.arrow2_ffi.specs.Validities.{CoversItems, items_not_null, validity_bits};

use crate::bits_input::Bits;
use crate::codes::{ARROW2_INDEX, ARROW2_OK, ARROW2_RANGE};
use crate::validities::{covers_items, is_valid};
use arrow2_index::Index;

/// Checks that each item is null or an index below `items`. Returns `ARROW2_RANGE` exactly where there is a validity
/// that does not have a bit for each item, else `ARROW2_INDEX` exactly where an item is neither null nor such an index.
/// With `ARROW2_INDEX` writes to `slot` the position of the first such item. With any other code writes nothing.
pub(crate) fn check<I: Index>(
    indices: &[I],
    validity: Option<Bits<'_>>,
    items: usize,
    slot: &mut usize,
) -> u32
    ensures { ChecksIndices result (map I.value indices.now) (validity_bits validity.entry) items
        slot.old slot.new }
{
    if !covers_items(validity, indices.len()) {
        return ARROW2_RANGE;
    }
    match first_outside(indices, validity, items) {
        None => ARROW2_OK,
        Some(first) => {
            *slot = first;
            ARROW2_INDEX
        }
    }
}

/// Returns the position of the first item that is neither null nor an index below `items`. Requires that the validity,
/// if there is one, has a bit for each index.
fn first_outside<I: Index>(indices: &[I], validity: Option<Bits<'_>>, items: usize) -> Option<usize>
    requires covers { CoversItems (validity_bits validity) (length indices.now) }
    ensures { FindsFirstOutside result (map I.value indices.now) (validity_bits validity.entry) items }
{
    for slot in 0..indices.len() {
        if is_valid(validity, slot, indices.len()) && !is_index(indices[slot], items) {
            return Some(slot);
        }
    }
    None
}

/// Returns whether the number is at least 0 and below `items`.
fn is_index<I: Index>(number: I, items: usize) -> bool
    ensures { IsTrue result ↔ IsIndex (I.value number) items }
{
    if number < I::zero() {
        return false;
    }
    number.to_usize() < items
}
