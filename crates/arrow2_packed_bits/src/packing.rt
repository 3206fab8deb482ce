//! Booleans packed into bytes, 64 at a time.
ghost use Rattle.std.specs.Prelude.{◌≡◌, ◌-◌, ◌*◌, ◌<◌, ◌≤◌, ◌^◌, List, Bool, Some, None, length, map, take, IfOk, IsErrOf, vec_len, drop, replicate, false};
ghost use Rattle.std.specs.Iterator.{IsFinite, IsNearerEnd, Yields, YieldsThen};
ghost use Rattle.std.specs.Iterator.Runs.{WholeRun};
ghost use Rattle.std.specs.Int.{from_bool};
ghost use Rattle.arrow2_model.specs.Lists.{bits, num};
ghost use Rattle.arrow2_types.specs.declared.growth_error.GrowthError.TheVariants as growth_error;

use arrow2_bits::bytes_for;
use arrow2_chunk::BitChunk;
use arrow2_types::GrowthError;
use std::alloc::{AllocError, Global};
use std::simd::prelude::*;

/// Packs the items of an iterator. Returns the bytes and the number of items. The bits after the items are unspecified,
/// and so is the number of spare bytes. Allocates while it reads the items. Requires that the iterator ends, and that
/// its `next` may be called a first time. (By std's contract of `next`, it may then be called again after each item.)
/// Does not read the size hint.
///
/// # Errors
///
/// `Overflow` only if the iterator may yield more than `usize::MAX` items. `OutOfMemory` where an allocation fails.
pub fn collect_bits<I: Iterator<Item = bool> + Drop>(
    alloc: Global,
    items: I,
) -> Result<(Vec<u8>, usize), GrowthError>
    requires can { I.can_next items }
    requires ends { IsFinite (I.remaining items) }
    ensures enough { IfOk result (λ r. r.1 ≤ 8 * vec_len r.0) }
    ensures items { IfOk result (λ r.
        WholeRun I.next_gives items (λ p. take r.1 (bits r.0.items) ≡ p.items)) }
    ensures overflow { IsErrOf result growth_error.Overflow →
        (xs : List Bool) × (x : Bool) × (t : I) × YieldsThen I.next_gives items xs (Some x) t
        × (length xs ≡ 2 ^ 64 - 1) }
{
    let mut items = items;
    let mut bytes = Vec::new(alloc);
    let mut block = [false; 64];
    'words: loop {
        let count = fill(&mut items, &mut block);
        let word = BitChunk::to_ne_bytes(word_of(&block));
        if count < 64 {
            let length = 8 * bytes.len() + count;
            bytes.extend_from_slice(&word[..bytes_for(count)])?;
            return Ok((bytes, length));
        }
        if bytes.len() == usize::MAX / 8 - 7 {
            return Err(GrowthError::Overflow);
        }
        bytes.extend_from_slice(&word)?;
    }
}

/// Writes the next items into a block, from its first slot on, until the block is full or the iterator ends. Returns
/// the number of items written.
fn fill<I: Iterator<Item = bool>>(items: &mut I, block: &mut [bool; 64]) -> usize
    // The iterator can be advanced, and ends.
    requires can { I.can_next items.old }
    requires ends { IsFinite (I.remaining items.old) }
    // A full block has the next 64 items.
    ensures size { length block.new ≡ 64 }
    ensures few { result ≤ 64 }
    ensures full { result ≡ 64 → Yields I.next_gives items.old block.new items.new }
    ensures goes { result ≡ 64 → IsNearerEnd I.can_next I.remaining items.old items.new }
    // Else the iterator ended after the first `result` items of the block.
    ensures ended { result < 64 → YieldsThen I.next_gives items.old
        (take result block.new) None items.new }
{
    for k in 0..64 {
        let Some(item) = items.next() else {
            return k;
        };
        block[k] = item;
    }
    64
}

/// Returns the bytes of the items. After the items there are at most 64 bits, all of them false; no clause states this.
/// Allocates once.
///
/// # Errors
///
/// If an allocation fails.
pub fn pack_bits(alloc: Global, items: &[bool]) -> Result<Vec<u8>, AllocError>
    ensures enough { IfOk result (λ bytes. length items.now ≤ 8 * vec_len bytes) }
    ensures items { IfOk result (λ bytes. take (length items.now) (bits bytes.items) ≡ items.now) }
{
    let (blocks, rest) = items.as_chunks::<64>();
    let mut bytes = Vec::with_capacity(alloc, 8 * blocks.len() + 8)?;
    for block in blocks {
        bytes.extend_from_slice(&BitChunk::to_ne_bytes(word_of(block)))?;
    }
    let last = word_of(&padded_block(rest));
    bytes.extend_from_slice(&BitChunk::to_ne_bytes(last))?;
    Ok(bytes)
}

/// Returns the word of 64 items, the first item as its lowest bit. Computes it by one comparison of 64 lanes.
pub fn word_of(items: &[bool; 64]) -> u64
    ensures { result ≡ num items.now }
{
    let lanes = u8x64::from_array(lanes_of(items));
    lanes.simd_ne(u8x64::splat(0)).to_bitmask()
}

/// Returns the items as numbers, 1 for true.
fn lanes_of(items: &[bool; 64]) -> [u8; 64]
    ensures { result ≡ map from_bool items.now }
{
    let mut lanes = [0; 64];
    for i in 0..64 {
        lanes[i] = u8::from(items[i]);
    }
    lanes
}

/// Returns the items, followed by false. Requires that there are at most 64 items.
pub fn padded_block(items: &[bool]) -> [bool; 64]
    requires { length items.now ≤ 64 }
    ensures front { take (length items.now) result ≡ items.now }
    ensures rest { drop (length items.now) result ≡ replicate (64 - length items.now) false }
    ensures size { length result ≡ 64 }
{
    let mut block = [false; 64];
    block[..items.len()].copy_from_slice(items);
    block
}
