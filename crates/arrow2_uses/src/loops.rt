//! Loops over a bitmap, by its items and by its words, over the words of bytes, and over a buffer.
ghost use Rattle.std.specs.Prelude.{◌≡◌, ◌+◌, ◌*◌, ◌≤◌, int_lt, length, map, not, count_by, IfOk};
ghost use Rattle.arrow2.specs.Lists.{buffer_items, falses, items_of};
ghost use Rattle.arrow2.specs.Failures.{OnlyOverflowOrOutOfMemory};

use arrow2::bitmap::utils::BitChunksExactMut;
use arrow2::bitmap::{Bitmap, MutableBitmap};
use arrow2::buffer::Buffer;
use arrow2::error::Result;
use arrow2::types::BitChunk;
use std::alloc::Global;
use std::convert::TryFrom;

/// Returns each item inverted, pushed one by one.
///
/// # Errors
///
/// `Overflow` or `OutOfMemory`.
pub fn negation(alloc: Global, b: &Bitmap) -> Result<Bitmap>
    ensures items { IfOk result (λ r. items_of r ≡ map not (items_of b.now)) }
    ensures only { OnlyOverflowOrOutOfMemory result }
{
    let mut negated = MutableBitmap::with_capacity(alloc, b.len())?;
    for item in b.iter() {
        negated.push(!item)?;
    }
    Bitmap::try_from(negated)
}

/// Returns the number of true items, counted word by word.
#[tactic(auto, using(arrow2::proofs::Words::words))]
pub fn true_items(b: &Bitmap) -> usize
    ensures { result + falses (items_of b.now) ≡ length (items_of b.now) }
{
    let mut total = 0;
    let mut words = b.chunks::<u64>();
    while let Some(word) = words.next() {
        total += word.ones_count();
    }
    let last = BitChunk::masked(words.remainder(), words.remainder_len());
    total + last.ones_count()
}

/// Inverts the full words of the first `len` bits, in place. Requires that the bytes have at least `len` bits.
pub fn invert_words(bytes: &mut [u8], len: usize)
    requires inside { len ≤ 8 * length bytes.old }
{
    let mut chunks = BitChunksExactMut::<u64>::new(bytes, len);
    while chunks.change_next(invert) {}
}

/// Inverts each byte.
fn invert(bytes: &mut [u8])
    ensures { length bytes.new ≡ length bytes.old }
{
    for byte in bytes.iter_mut() {
        *byte = !*byte;
    }
}

/// Returns the number of values below `bound`.
pub fn count_below(values: &Buffer<i64>, bound: i64) -> usize
    ensures { result ≡ count_by (λ value. int_lt value bound) (buffer_items values.now) }
{
    let values = values.as_slice();
    let mut count = 0;
    for value in values {
        if *value < bound {
            count += 1;
        }
    }
    count
}
