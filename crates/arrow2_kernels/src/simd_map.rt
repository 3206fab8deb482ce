//! New lists from truth tables, 32 bytes at a time.
ghost use Rattle.std.specs.Prelude.{◌≡◌, ◌+◌, ◌*◌, ◌/◌, ◌≤◌, [], ◌∷◌, ◌++◌, take, length, IfOk, OnOk, vec_len};
ghost use Rattle.arrow2_model.specs.Lists.{bits, IsCanonical};
ghost use Rattle.arrow2_model.specs.Tables.{each};

use crate::simd_assign::{assign_unary, clear_padding, write_by_table};
use arrow2_bits::bytes_for;
use std::alloc::{AllocError, Global};

/// The number of bytes that are copied before their outputs are computed: few enough to stay in the first-level cache.
const BLOCK: usize = 4096;

/// Returns the bytes of the outputs of the truth table `t` for the first `len` bits of `left` and `right`: bit
/// `a + 2 * b` of `t`, where `a` and `b` are the bits of `left` and `right` at the same index, as 0 or 1. Reads only
/// the four lowest bits of `t`. The result has exactly the bytes that `len` bits need, with padding bits false.
/// Allocates at most once. Requires that `left` and `right` have at least `len` bits each.
///
/// # Errors
///
/// If an allocation fails.
pub fn map_binary(
    alloc: Global,
    left: &[u8],
    right: &[u8],
    len: usize,
    t: u8,
) -> Result<Vec<u8>, AllocError>
    requires left { len ≤ 8 * length left.now }
    requires right { len ≤ 8 * length right.now }
    ensures canonical { IfOk result (λ v. IsCanonical v.items len) }
    ensures items { IfOk result (λ v. take len (bits v.items)
        ≡ each t (take len (bits left.now) ∷ take len (bits right.now) ∷ [])) }
{
    let count = bytes_for(len);
    let mut bytes = Vec::with_capacity(alloc, count)?;
    append_blocks(&mut bytes, &left[..count], &right[..count], t)?;
    clear_padding(bytes.as_mut_slice(), len);
    Ok(bytes)
}

/// Returns the bytes of the outputs of the truth table `t` for the first `len` bits of `list`: bit `a` of `t`, where
/// `a` is the bit as 0 or 1. Reads only the two lowest bits of `t`. The result has exactly the bytes that `len` bits
/// need, with padding bits false. Allocates at most once. Requires that `list` has at least `len` bits.
///
/// # Errors
///
/// If an allocation fails.
pub fn map_unary(alloc: Global, list: &[u8], len: usize, t: u8) -> Result<Vec<u8>, AllocError>
    requires { len ≤ 8 * length list.now }
    ensures canonical { IfOk result (λ v. IsCanonical v.items len) }
    ensures items { IfOk result (λ v. take len (bits v.items)
        ≡ each t (take len (bits list.now) ∷ [])) }
{
    let mut bytes = Vec::from_slice(alloc, &list[..bytes_for(len)])?;
    assign_unary(bytes.as_mut_slice(), len, t);
    Ok(bytes)
}

/// Appends the outputs of table `t` for each bit of `left` and `right`, a block at a time. Requires that `bytes` is
/// empty, and that `left` and `right` have the same number of bytes.
fn append_blocks(bytes: &mut Vec<u8>, left: &[u8], right: &[u8], t: u8) -> Result<(), AllocError>
    requires empty { bytes.old.items ≡ [] }
    requires same_lengths { length left.now ≡ length right.now }
    ensures { OnOk result (bits bytes.new.items ≡ each t (bits left.now ∷ bits right.now ∷ [])) }
{
    let whole = left.len() / BLOCK;
    for k in 0..whole {
        let at = BLOCK * k;
        append_binary(bytes, &left[at..at + BLOCK], &right[at..at + BLOCK], t)?;
    }
    append_binary(bytes, &left[BLOCK * whole..], &right[BLOCK * whole..], t)
}

/// Appends the outputs of table `t` for each bit of `left` and `right`. Requires that both have the same number of
/// bytes.
fn append_binary(bytes: &mut Vec<u8>, left: &[u8], right: &[u8], t: u8) -> Result<(), AllocError>
    requires same_lengths { length left.now ≡ length right.now }
    ensures { OnOk result (bits bytes.new.items ≡ bits bytes.old.items
        ++ each t (bits left.now ∷ bits right.now ∷ [])) }
{
    let at = bytes.len();
    bytes.extend_from_slice(left)?;
    write_by_table(&mut bytes[at..], right, t);
    Ok(())
}
