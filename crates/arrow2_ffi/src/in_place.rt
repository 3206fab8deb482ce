//! Copies bits and writes the outputs of truth tables, in the caller's memory.
ghost use Rattle.std.specs.Prelude.{◌≡◌, ◌*◌, ◌<◌, ◌≤◌, ℕ, [], ◌∷◌, take, length};
ghost use Rattle.arrow2_model.specs.Lists.{bit, bits};
ghost use Rattle.arrow2_model.specs.Tables.{answer, each};
ghost use Rattle.arrow2_ffi.specs.Ranges.{HasBits, first_bits, HasBytesForBits};
ghost use Rattle.arrow2_ffi.specs.Writes.{Stores};

use crate::bits_input::Bits;
use arrow2_bits::BitChunks;
use arrow2_kernels::assign::assign_rows;
use arrow2_kernels::map::write_rows;
use arrow2_kernels::simd_assign::{assign_binary, clear_padding};
use arrow2_kernels::truth_tables::{binary_outputs, quaternary_outputs, ternary_outputs};
use arrow2_kernels::{OneList, Pair, ZipRows};

/// Returns the first `len` bits, word by word. Requires that they are inside their bytes.
fn words(bits: Bits<'_>, len: usize) -> OneList<BitChunks<'_, u64>>
    requires inside { HasBits bits len }
    ensures items { result.chunks.items ≡ first_bits bits.entry len }
    ensures count { length result.chunks.items ≡ len }
{
    OneList {
        chunks: BitChunks::new(bits.0, bits.1, len),
    }
}

/// Returns the first `len` bits of both, word by word. Requires that they are inside their bytes.
fn pair<'a>(first: Bits<'a>, second: Bits<'a>, len: usize) -> Pair<'a>
    requires first { HasBits first len }
    requires second { HasBits second len }
    ensures left { result.lists.left.chunks.items ≡ first_bits first.entry len }
    ensures right { result.lists.right.chunks.items ≡ first_bits second.entry len }
    ensures left_count { length result.lists.left.chunks.items ≡ len }
    ensures right_count { length result.lists.right.chunks.items ≡ len }
{
    Pair {
        lists: ZipRows {
            left: words(first, len),
            right: words(second, len),
        },
    }
}

/// Overwrites `out`, from bit 0 on, with the outputs of table `T` for the first `len` bits of two inputs. Requires that
/// these bits are inside their bytes, and that `out` has exactly the bytes that `len` bits need. The compiler makes one
/// loop for each table.
pub(crate) fn write_two<const T: u8>(out: &mut [u8], len: usize, first: Bits<'_>, second: Bits<'_>)
    requires exact { HasBytesForBits out.old len }
    requires first { HasBits first len }
    requires second { HasBits second len }
    ensures { Stores out.new len
        (each T (first_bits first.entry len ∷ first_bits second.entry len ∷ [])) }
{
    write_rows(
        out,
        len,
        pair(first, second, len),
        |(x, y)| -> u64
            ensures { (i : ℕ) → i < 64 → bit result i ≡ answer T (bit x i ∷ bit y i ∷ []) }
        { binary_outputs(u16::from(T), x, y) },
    );
}

/// The same for a table of three inputs.
pub(crate) fn write_three<const T: u8>(
    out: &mut [u8],
    len: usize,
    first: Bits<'_>,
    second: Bits<'_>,
    third: Bits<'_>,
)
    requires exact { HasBytesForBits out.old len }
    requires first { HasBits first len }
    requires second { HasBits second len }
    requires third { HasBits third len }
    ensures { Stores out.new len (each T (first_bits first.entry len
        ∷ first_bits second.entry len ∷ first_bits third.entry len ∷ [])) }
{
    let left = pair(first, second, len);
    let right = words(third, len);
    write_rows(
        out,
        len,
        ZipRows { left, right },
        |((x, y), z)| -> u64
            ensures { (i : ℕ) → i < 64 → bit result i
                ≡ answer T (bit x i ∷ bit y i ∷ bit z i ∷ []) }
        { ternary_outputs(u16::from(T), x, y, z) },
    );
}

/// The same for a table of four inputs.
pub(crate) fn write_four<const T: u16>(
    out: &mut [u8],
    len: usize,
    first: Bits<'_>,
    second: Bits<'_>,
    third: Bits<'_>,
    fourth: Bits<'_>,
)
    requires exact { HasBytesForBits out.old len }
    requires first { HasBits first len }
    requires second { HasBits second len }
    requires third { HasBits third len }
    requires fourth { HasBits fourth len }
    ensures { Stores out.new len (each T (first_bits first.entry len
        ∷ first_bits second.entry len ∷ first_bits third.entry len
        ∷ first_bits fourth.entry len ∷ [])) }
{
    let left = pair(first, second, len);
    let right = pair(third, fourth, len);
    write_rows(
        out,
        len,
        ZipRows { left, right },
        |((x, y), (z, v))| -> u64
            ensures { (i : ℕ) → i < 64 → bit result i
                ≡ answer T (bit x i ∷ bit y i ∷ bit z i ∷ bit v i ∷ []) }
        { quaternary_outputs(T, x, y, z, v) },
    );
}

/// Overwrites `out`, from bit 0 on, with the first `len` bits. Requires that they are inside their bytes, and that
/// `out` has exactly the bytes that they need. Padding bits become 0. The function is inlined: for 64 bytes a call
/// would be a fifth of the run time.
#[inline(always)]
pub(crate) fn copy(bits: Bits<'_>, len: usize, out: &mut [u8])
    requires inside { HasBits bits len }
    requires exact { HasBytesForBits out.old len }
    ensures { Stores out.new len (first_bits bits.entry len) }
{
    if bits.1 % 8 == 0 {
        copy_bytes(&bits.0[bits.1 / 8..], len, out);
    } else {
        copy_words(bits, len, out);
    }
}

/// Overwrites `out`, from bit 0 on, with the first `len` bits, word by word. Requires that they are inside their bytes,
/// and that `out` has exactly the bytes that they need. The function is not inlined: else `copy` would save the
/// registers of this loop also where it copies whole bytes.
#[inline(never)]
fn copy_words(bits: Bits<'_>, len: usize, out: &mut [u8])
    requires inside { HasBits bits len }
    requires exact { HasBytesForBits out.old len }
    ensures { Stores out.new len (first_bits bits.entry len) }
{
    write_rows(out, len, words(bits, len), |word| word);
}

/// Overwrites `out` with the first `len` bits of `bytes`, all bytes at once. Requires that they are inside, and that
/// `out` has exactly the bytes that they need.
fn copy_bytes(bytes: &[u8], len: usize, out: &mut [u8])
    requires inside { len ≤ 8 * length bytes.now }
    requires exact { HasBytesForBits out.old len }
    ensures { Stores out.new len (take len (bits bytes.now)) }
{
    out.copy_from_slice(&bytes[..out.len()]);
    clear_padding(out, len);
}

/// Replaces the first `len` bits of `bytes` by the outputs of table `t` for them and the first `len` bits of the second
/// input. Padding bits become 0. Requires that `bytes` has exactly the bytes that `len` bits need, and that the bits of
/// the second input are inside their bytes.
pub(crate) fn assign_two(bytes: &mut [u8], len: usize, second: Bits<'_>, t: u8)
    requires exact { HasBytesForBits bytes.old len }
    requires second { HasBits second len }
    ensures { Stores bytes.new len
        (each t (take len (bits bytes.old) ∷ first_bits second.entry len ∷ [])) }
{
    if second.1 % 8 == 0 {
        assign_binary(bytes, &second.0[second.1 / 8..], len, t);
    } else {
        assign_rows(
            bytes,
            len,
            words(second, len),
            |x: u64, y| binary_outputs(u16::from(t), x, y),
        );
    }
}

/// The same for a table of three inputs.
pub(crate) fn assign_three(bytes: &mut [u8], len: usize, second: Bits<'_>, third: Bits<'_>, t: u8)
    requires exact { HasBytesForBits bytes.old len }
    requires second { HasBits second len }
    requires third { HasBits third len }
    ensures { Stores bytes.new len (each t (take len (bits bytes.old)
        ∷ first_bits second.entry len ∷ first_bits third.entry len ∷ [])) }
{
    let left = words(second, len);
    let right = words(third, len);
    assign_rows(
        bytes,
        len,
        ZipRows { left, right },
        |x: u64, (y, z)| ternary_outputs(u16::from(t), x, y, z),
    );
}

/// The same for a table of four inputs.
pub(crate) fn assign_four(
    bytes: &mut [u8],
    len: usize,
    second: Bits<'_>,
    third: Bits<'_>,
    fourth: Bits<'_>,
    t: u16,
)
    requires exact { HasBytesForBits bytes.old len }
    requires second { HasBits second len }
    requires third { HasBits third len }
    requires fourth { HasBits fourth len }
    ensures { Stores bytes.new len (each t (take len (bits bytes.old)
        ∷ first_bits second.entry len ∷ first_bits third.entry len
        ∷ first_bits fourth.entry len ∷ [])) }
{
    let left = words(second, len);
    let middle = words(third, len);
    let right = words(fourth, len);
    let two = ZipRows {
        left,
        right: middle,
    };
    assign_rows(
        bytes,
        len,
        ZipRows { left: two, right },
        |x: u64, ((y, z), v)| quaternary_outputs(t, x, y, z, v),
    );
}
