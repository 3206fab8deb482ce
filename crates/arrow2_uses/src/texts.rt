//! Columns of texts: built, measured, and cut into lists.
ghost use Rattle.std.specs.Prelude.{◌≡◌, ◌<◌, ◌≤◌, [], Some, drop, length, map, slice_index_or, option_map, IfOk, option_copied};
ghost use Rattle.arrow2.specs.Binary.{binary_items};
ghost use Rattle.arrow2.specs.Lists.{buffer_items, items_of};
ghost use Rattle.arrow2.specs.Failures.{OnlyOutOfMemory, OnlyOverflowOrOutOfMemory};
ghost use Rattle.arrow2.specs.NestedLists.{cut};
ghost use Rattle.arrow2.specs.Offsets.{start_of, lengths_of, last_of};
ghost use Rattle.arrow2.specs.Primitive.{primitive_items};
ghost use Rattle.arrow2.specs.Zipped.{zipped};

use arrow2::array::{MutablePrimitiveArray, MutableUtf8Array, PrimitiveArray, Utf8Array};
use arrow2::bitmap::Bitmap;
use arrow2::bitmap::utils::ZipValidityIter;
use arrow2::error::Result;
use arrow2::offset::OffsetsBuffer;
use std::alloc::Global;

/// Returns the column of these texts.
///
/// # Errors
///
/// `Overflow` or `OutOfMemory`.
pub fn gather(alloc: Global, texts: &[&str]) -> Result<Utf8Array<i32>>
    ensures ok { IfOk result (λ t. binary_items t ≡ map (λ text. Some text.now) texts.entry.now) }
    ensures only { OnlyOverflowOrOutOfMemory result }
{
    let mut gathered = MutableUtf8Array::new(alloc)?;
    for text in texts {
        gathered.push(Some(*text))?;
    }
    Ok(gathered.freeze()?)
}

/// Returns the number of bytes of each text, null where the text is null.
///
/// # Errors
///
/// `Overflow` or `OutOfMemory`.
pub fn lengths(alloc: Global, texts: &Utf8Array<i32>) -> Result<PrimitiveArray<u64>>
    ensures ok { IfOk result (λ c. primitive_items c
        ≡ map (option_map (λ text. length text)) (binary_items texts.now)) }
    ensures only { OnlyOverflowOrOutOfMemory result }
{
    let mut lengths = MutablePrimitiveArray::<u64>::new(alloc)?;
    for text in texts.iter() {
        lengths.push(length_of(text))?;
    }
    lengths.freeze()
}

/// Returns the number of bytes of a text, or `None` where it is null.
fn length_of(text: Option<&str>) -> Option<u64>
    ensures { result ≡ option_map (λ text. length text) (option_copied text.entry) }
{
    match text {
        Some(text) => Some(text.len() as u64),
        None => None,
    }
}

/// The offsets cut the column of texts into lists. Returns list `index`, as a slice of the column over the same
/// storage. Requires that `index` is below the number of lists, and that no offset is above the length of the column.
///
/// # Errors
///
/// Only `OutOfMemory`.
#[tactic(auto, using(arrow2::proofs::NestedLists::nested))]
pub fn list_at(
    offsets: &OffsetsBuffer<i32>,
    texts: &Utf8Array<i32>,
    index: usize,
) -> Result<Utf8Array<i32>>
    requires below { index < length (lengths_of (buffer_items offsets.now)) }
    requires inside { last_of (buffer_items offsets.now) ≤ length (binary_items texts.now) }
    ensures ok { IfOk result (λ list. binary_items list ≡ slice_index_or
        (cut (drop (start_of (buffer_items offsets.now)) (binary_items texts.now))
        (lengths_of (buffer_items offsets.now))) index []) }
    ensures only { OnlyOutOfMemory result }
{
    let (start, end) = offsets.start_end(index);
    Ok(texts.clone()?.sliced(start, end - start))
}

/// Returns the number of bytes of each text, or `None` where it is null. Requires that the validity has one item for
/// each text.
///
/// # Errors
///
/// Only `OutOfMemory`.
pub fn valid_lengths(
    alloc: Global,
    offsets: &OffsetsBuffer<i32>,
    validity: &Bitmap,
) -> Result<Vec<Option<usize>>>
    requires same_length { length (lengths_of (buffer_items offsets.now))
        ≡ length (items_of validity.now) }
    ensures lengths { IfOk result (λ v.
        v.items ≡ zipped (lengths_of (buffer_items offsets.now)) (items_of validity.now)) }
    ensures only { OnlyOutOfMemory result }
{
    let slots = ZipValidityIter::new(offsets.lengths(), validity.iter());
    Ok(slots.collect(alloc)?)
}
