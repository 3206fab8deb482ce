//! The text of bits: whole bytes, each from its highest bit to its lowest.
ghost use Rattle.std.specs.Prelude.{◌≡◌, ◌+◌, ◌*◌, ◌<◌, ◌≤◌, ◌∷◌, [], length};
ghost use Rattle.std.specs.Fmt.{WritesOnOk, WritesStyledOnOk};
ghost use Rattle.arrow2_model.specs.Lists.{bit};
ghost use Rattle.arrow2_model.specs.Shown.{is_shown, bit_character, shown_byte, shown};
ghost use Rattle.arrow2_bits.specs.Digits.{four_digits};

use crate::is_set;
use std::fmt;

/// Writes the `len` bits from bit `offset` on, byte by byte. Each byte that holds one of these bits is written as `0b`
/// and its eight bits, from the highest to the lowest, with `_` for a bit that is not one of these. The bytes are
/// joined by a comma and a space, and enclosed in brackets. Where `len` is 0, the text is `[]`. Ignores the formatter's
/// options, such as a width or `#`. No clause states the text of bits that are printed as a part of another value by
/// `{:#?}`: that formatter indents each line.
///
/// Requires that `offset` is below 8 and, unless `len` is 0, that the bits are inside the bytes. arrow2 may print a
/// byte after the bits in place of their last byte.
///
/// # Errors
///
/// Any error of the formatter's writer. No clause states that there is no other.
pub fn fmt<W: fmt::Write>(
    bytes: &[u8],
    offset: usize,
    len: usize,
    f: &mut fmt::Formatter<W>,
) -> fmt::Result
    requires offset { offset < 8 }
    requires inside { 0 < len → offset + len ≤ 8 * length bytes.now }
    ensures writes { WritesOnOk W.write_str_gives f.old result
        (shown bytes.now offset len) f.new }
    ensures styled { WritesStyledOnOk W.write_str_gives f.old result
        (shown bytes.now offset len) f.new }
{
    f.write_str("[")?;
    let mut start = offset;
    let mut left = len;
    for byte in bytes {
        if left == 0 {
            break;
        }
        if left < len {
            f.write_str(", ")?;
        }
        let here = left.min(8 - start);
        write_byte(*byte, start, here, f)?;
        left -= here;
        start = 0;
    }
    f.write_str("]")
}

/// Returns the digits of the four bits of `half`, from the highest to the lowest. Requires that `half` is below 16.
#[tactic(auto, unfolding(arrow2_model::specs::Lists::bit))]
fn digits(half: u8) -> &'static str
    requires { half < 16 }
    ensures { result.now ≡ four_digits half }
{
    match half {
        0 => "0000",
        1 => "0001",
        2 => "0010",
        3 => "0011",
        4 => "0100",
        5 => "0101",
        6 => "0110",
        7 => "0111",
        8 => "1000",
        9 => "1001",
        10 => "1010",
        11 => "1011",
        12 => "1100",
        13 => "1101",
        14 => "1110",
        _ => "1111",
    }
}

/// Writes one byte with all its bits shown.
fn write_whole_byte<W: fmt::Write>(byte: u8, f: &mut fmt::Formatter<W>) -> fmt::Result
    ensures { WritesStyledOnOk W.write_str_gives f.old result (shown_byte (byte ∷ []) 0 8 0) f.new }
{
    f.write_str("0b")?;
    f.write_str(digits(byte >> 4))?;
    f.write_str(digits(byte % 16))
}

/// Writes one byte: its `len` bits from bit `start` on, and `_` for each other bit.
fn write_byte<W: fmt::Write>(
    byte: u8,
    start: usize,
    len: usize,
    f: &mut fmt::Formatter<W>,
) -> fmt::Result
    requires { start + len ≤ 8 }
    ensures { WritesStyledOnOk W.write_str_gives f.old result
        (shown_byte (byte ∷ []) start len 0) f.new }
{
    if len == 8 {
        return write_whole_byte(byte, f);
    }
    f.write_str("0b")?;
    for i in (0..8).rev() {
        f.write_char(character(byte, i, start, len))?;
    }
    Ok(())
}

/// Returns the character for bit `i` of a byte: its digit, if it is one of the `len` bits from bit `start` on, else
/// `_`.
fn character(byte: u8, i: usize, start: usize, len: usize) -> char
    requires bit { i < 8 }
    requires inside { start + len ≤ 8 }
    ensures { result ≡ bit_character (is_shown start len i) (bit byte i) }
{
    if i < start || start + len <= i {
        '_'
    } else if is_set(byte, i) {
        '1'
    } else {
        '0'
    }
}
