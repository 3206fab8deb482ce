//! Converts booleans, one byte each, to bits and back.
ghost use Rattle.std.specs.Prelude.{◌≡◌, length};
ghost use Rattle.arrow2_model.specs.Lists.{bits, part};
ghost use Rattle.arrow2_ffi.specs.Ranges.{IsInside, HasBits, first_bits, HasBytesForBits};
ghost use Rattle.arrow2_ffi.specs.Writes.{Stores, WritesIf};

use crate::bits_input::{Bits, are_inside, hold};
use crate::bool_words::BoolWords;
use crate::codes::{ARROW2_LENGTH, ARROW2_OK, ARROW2_RANGE};
use arrow2_bits::get_bit_from;
use arrow2_kernels::map::write_rows;

/// Writes the booleans as bits to `out`, from bit 0 on. `out` must have exactly the number of bytes that hold these
/// bits. Its padding bits become 0.
///
/// Returns `ARROW2_LENGTH` exactly where `out` has another number of bytes.
#[unsafe(no_mangle)]
pub extern "C" fn arrow2_pack(items: &[bool], out: &mut [u8]) -> u32
    ensures { WritesIf result (HasBytesForBits out.old (length items.now)) ARROW2_LENGTH
        (Stores out.new (length items.now) items.now) (out.new ≡ out.old) }
{
    if !hold(out, items.len()) {
        return ARROW2_LENGTH;
    }
    write_packed(items, out);
    ARROW2_OK
}

/// Fills `out` with booleans: the bits from bit `offset` on, one for each item of `out`.
///
/// Returns `ARROW2_RANGE` exactly where these bits are not inside the bytes.
#[unsafe(no_mangle)]
pub extern "C" fn arrow2_unpack(bytes: &[u8], offset: usize, out: &mut [bool]) -> u32
    ensures { WritesIf result (IsInside bytes.now offset (length out.old)) ARROW2_RANGE
        (out.new ≡ part (bits bytes.now) offset (length out.old)) (out.new ≡ out.old) }
{
    let items = Bits(bytes, offset);
    if !are_inside(items, out.len()) {
        return ARROW2_RANGE;
    }
    write_unpacked(items, out);
    ARROW2_OK
}

/// Writes the booleans as bits, word by word. Requires that `out` has exactly the bytes that hold them.
fn write_packed(items: &[bool], out: &mut [u8])
    requires exact { HasBytesForBits out.old (length items.now) }
    ensures { Stores out.new (length items.now) items.now }
{
    write_rows(out, items.len(), BoolWords { items }, |word| word);
}

/// Fills `out` with the first bits, as booleans. Requires that these bits are inside their bytes.
fn write_unpacked(bits: Bits<'_>, out: &mut [bool])
    requires inside { HasBits bits (length out.old) }
    ensures { out.new ≡ first_bits bits.entry (length out.old) }
{
    let Bits(bytes, offset) = bits;
    for i in 0..out.len() {
        out[i] = get_bit_from(bytes, offset, i);
    }
}
