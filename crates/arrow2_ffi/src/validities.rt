//! A validity that may be missing: without one no item is null.
ghost use Rattle.std.specs.Prelude.{◌≡◌, ◌<◌, ◌↔◌, false, slice_index_or, IsTrue};
ghost use Rattle.arrow2_ffi.specs.Validities.{CoversItems, given_validity, items_not_null, validity_bits};

use crate::bits_input::{Bits, are_inside};
use arrow2_bits::get_bit_from;

/// Returns the validity that a call was given, or `None` if `all_valid` is true.
pub(crate) fn given_validity(all_valid: bool, bytes: &[u8], offset: usize) -> Option<Bits<'_>>
    ensures { validity_bits result ≡ given_validity all_valid bytes.now offset }
{
    if all_valid {
        return None;
    }
    Some(Bits(bytes, offset))
}

/// Returns whether there is no validity, or its first `len` bits are inside its bytes.
pub(crate) fn covers_items(validity: Option<Bits<'_>>, len: usize) -> bool
    ensures { IsTrue result ↔ CoversItems (validity_bits validity.entry) len }
{
    match validity {
        None => true,
        Some(bits) => are_inside(bits, len),
    }
}

/// Returns whether item `index` of `len` is not null. Requires that `index` is below `len`, and that the validity, if
/// there is one, has a bit for each item.
pub(crate) fn is_valid(validity: Option<Bits<'_>>, index: usize, len: usize) -> bool
    requires covers { CoversItems (validity_bits validity) len }
    requires below { index < len }
    ensures { result ≡ slice_index_or (items_not_null (validity_bits validity.entry) len) index
        false }
{
    match validity {
        None => true,
        Some(Bits(bytes, offset)) => get_bit_from(bytes, offset, index),
    }
}
