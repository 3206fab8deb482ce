//! Checks of the indices of a dictionary array: each index that is not null must be below the length of the dictionary.
ghost use Rattle.std.specs.Prelude.{map, pos};
ghost use Rattle.arrow2_ffi.specs.Indices.{ChecksIndices};
ghost use Rattle.arrow2_ffi.specs.Validities.{given_validity};

use crate::index_checks::check;
use crate::validities::given_validity;

/// Checks that each index that is not null is at least 0 and below `items`, the length of the dictionary. Bit
/// `validity_offset + i` of `validity` is the validity of `indices[i]`. If `all_valid` is true, no index is null, and
/// nothing of the validity is read.
///
/// Returns `ARROW2_RANGE` exactly where `all_valid` is false and the bits from bit `validity_offset` on, one for each
/// index, are not inside the validity. Else returns `ARROW2_INDEX` exactly where an index that is not null is negative
/// or not below `items`, and writes the position of the first such index to `slot`. With any other code `slot` stays as
/// it was.
#[unsafe(no_mangle)]
pub extern "C" fn arrow2_indices_i8_check(
    indices: &[i8],
    validity: &[u8],
    validity_offset: usize,
    all_valid: bool,
    items: usize,
    slot: &mut usize,
) -> u32
    ensures { ChecksIndices result indices.now
        (given_validity all_valid validity.now validity_offset) items slot.old slot.new }
{
    let validity = given_validity(all_valid, validity, validity_offset);
    check(indices, validity, items, slot)
}

/// Does what `arrow2_indices_i8_check` does, for indices of type `u8`.
#[unsafe(no_mangle)]
pub extern "C" fn arrow2_indices_u8_check(
    indices: &[u8],
    validity: &[u8],
    validity_offset: usize,
    all_valid: bool,
    items: usize,
    slot: &mut usize,
) -> u32
    ensures { ChecksIndices result (map pos indices.now)
        (given_validity all_valid validity.now validity_offset) items slot.old slot.new }
{
    let validity = given_validity(all_valid, validity, validity_offset);
    check(indices, validity, items, slot)
}

/// Does what `arrow2_indices_i8_check` does, for indices of type `i16`.
#[unsafe(no_mangle)]
pub extern "C" fn arrow2_indices_i16_check(
    indices: &[i16],
    validity: &[u8],
    validity_offset: usize,
    all_valid: bool,
    items: usize,
    slot: &mut usize,
) -> u32
    ensures { ChecksIndices result indices.now
        (given_validity all_valid validity.now validity_offset) items slot.old slot.new }
{
    let validity = given_validity(all_valid, validity, validity_offset);
    check(indices, validity, items, slot)
}

/// Does what `arrow2_indices_i8_check` does, for indices of type `u16`.
#[unsafe(no_mangle)]
pub extern "C" fn arrow2_indices_u16_check(
    indices: &[u16],
    validity: &[u8],
    validity_offset: usize,
    all_valid: bool,
    items: usize,
    slot: &mut usize,
) -> u32
    ensures { ChecksIndices result (map pos indices.now)
        (given_validity all_valid validity.now validity_offset) items slot.old slot.new }
{
    let validity = given_validity(all_valid, validity, validity_offset);
    check(indices, validity, items, slot)
}

/// Does what `arrow2_indices_i8_check` does, for indices of type `i32`.
#[unsafe(no_mangle)]
pub extern "C" fn arrow2_indices_i32_check(
    indices: &[i32],
    validity: &[u8],
    validity_offset: usize,
    all_valid: bool,
    items: usize,
    slot: &mut usize,
) -> u32
    ensures { ChecksIndices result indices.now
        (given_validity all_valid validity.now validity_offset) items slot.old slot.new }
{
    let validity = given_validity(all_valid, validity, validity_offset);
    check(indices, validity, items, slot)
}

/// Does what `arrow2_indices_i8_check` does, for indices of type `u32`.
#[unsafe(no_mangle)]
pub extern "C" fn arrow2_indices_u32_check(
    indices: &[u32],
    validity: &[u8],
    validity_offset: usize,
    all_valid: bool,
    items: usize,
    slot: &mut usize,
) -> u32
    ensures { ChecksIndices result (map pos indices.now)
        (given_validity all_valid validity.now validity_offset) items slot.old slot.new }
{
    let validity = given_validity(all_valid, validity, validity_offset);
    check(indices, validity, items, slot)
}

/// Does what `arrow2_indices_i8_check` does, for indices of type `i64`.
#[unsafe(no_mangle)]
pub extern "C" fn arrow2_indices_i64_check(
    indices: &[i64],
    validity: &[u8],
    validity_offset: usize,
    all_valid: bool,
    items: usize,
    slot: &mut usize,
) -> u32
    ensures { ChecksIndices result indices.now
        (given_validity all_valid validity.now validity_offset) items slot.old slot.new }
{
    let validity = given_validity(all_valid, validity, validity_offset);
    check(indices, validity, items, slot)
}

/// Does what `arrow2_indices_i8_check` does, for indices of type `u64`.
#[unsafe(no_mangle)]
pub extern "C" fn arrow2_indices_u64_check(
    indices: &[u64],
    validity: &[u8],
    validity_offset: usize,
    all_valid: bool,
    items: usize,
    slot: &mut usize,
) -> u32
    ensures { ChecksIndices result (map pos indices.now)
        (given_validity all_valid validity.now validity_offset) items slot.old slot.new }
{
    let validity = given_validity(all_valid, validity, validity_offset);
    check(indices, validity, items, slot)
}
