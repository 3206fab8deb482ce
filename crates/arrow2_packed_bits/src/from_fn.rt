//! Booleans that a function returns, packed 64 at a time.
ghost use Rattle.std.specs.Prelude.{◌≡◌, ℕ, ◌+◌, ◌*◌, ◌<◌, ◌≤◌, ◌^◌, false, length, slice_index_or, IfOk, vec_len};
ghost use Rattle.arrow2_model.specs.Lists.{bits};

use crate::packing::word_of;
use arrow2_chunk::BitChunk;
use std::alloc::{AllocError, Global};

/// Packs the results of `f` into bytes: bit `k` is the result of `f(k)`, for each `k` below `len`. After these `len`
/// bits there may be more bits; no clause states how many, or their values. Allocates once, before it calls `f`.
/// Requires that `f` may be called with each number below `len`.
///
/// # Errors
///
/// If an allocation fails.
pub fn pack_results<F: Fn(usize) -> bool>(
    alloc: Global,
    len: usize,
    f: F,
) -> Result<Vec<u8>, AllocError>
    requires callable { (k : ℕ) → k < len → F.pre f k }
    ensures enough { IfOk result (λ bytes. len ≤ 8 * vec_len bytes) }
    ensures results { IfOk result (λ bytes. (k : ℕ) → k < len →
        F.post f k (slice_index_or (bits bytes.items) k false)) }
{
    let mut bytes = Vec::with_capacity(alloc, 8 * (len / 64) + 8)?;
    for block in 0..len / 64 {
        let word = word_of(&block_of(64 * block, 64, &f));
        bytes.extend_from_slice(&BitChunk::to_ne_bytes(word))?;
    }
    let last = word_of(&block_of(64 * (len / 64), len % 64, &f));
    bytes.extend_from_slice(&BitChunk::to_ne_bytes(last))?;
    Ok(bytes)
}

/// Returns the results of `f` for `count` numbers from `start` on, followed by false.
fn block_of<F: Fn(usize) -> bool>(start: usize, count: usize, f: &F) -> [bool; 64]
    requires few { count ≤ 64 }
    requires fits { start + count < 2 ^ 64 }
    requires callable { (k : ℕ) → k < count → F.pre f.now (start + k) }
    ensures size { length result ≡ 64 }
    ensures results { (k : ℕ) → k < count →
        F.post f.now (start + k) (slice_index_or result k false) }
{
    let mut block = [false; 64];
    for k in 0..count {
        block[k] = f(start + k);
    }
    block
}
