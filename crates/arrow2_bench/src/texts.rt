//! Columns of texts, with nulls and without.
use crate::columns::bitmap;
use crate::runs::on_each;
use arrow2_bitmap::Bitmap;
use arrow2_bitmap::bitmap_ops::and;
use arrow2_buffer::Buffer;
use arrow2_compute::aggregate::min_binary;
use arrow2_compute::comparison::binary::eq_scalar;
use arrow2_compute::filter::filter_binary;
use arrow2_datatypes::DataType;
use arrow2_offset::OffsetsBuffer;
use arrow2_text::{MutableUtf8Array, Utf8Array};
use arrow2_types::Result;
use std::alloc::Global;
use std::convert::TryFrom;

/// Calls on prefixes of a column of texts and of the mask, whose length each run chooses. If `validity` is empty, the
/// column has no nulls.
#[unsafe(no_mangle)]
pub extern "C" fn bench_texts(
    alloc: Global,
    call: &[u8],
    bytes: &[u8],
    offsets: &[i64],
    validity: &[u8],
    mask: &[u8],
    runs: &[usize],
) -> usize {
    let inputs = Inputs {
        bytes,
        offsets,
        validity,
        mask,
        runs,
    };
    let sum = if call == b"try_new".as_slice() {
        make_each_run(alloc, &inputs)
    } else if call == b"push".as_slice() {
        built_each(alloc, &inputs)
    } else if call == b"options".as_slice() {
        built_together(alloc, &inputs)
    } else if call == b"compared".as_slice() {
        compared_each(alloc, &inputs)
    } else if call == b"sliced".as_slice() {
        sliced_each(alloc, &inputs)
    } else if call == b"filter".as_slice() {
        filtered_each(alloc, &inputs)
    } else if call == b"values".as_slice() {
        read_each(alloc, &inputs)
    } else if call == b"least".as_slice() {
        least_each(alloc, &inputs)
    } else {
        Ok(usize::MAX)
    };
    sum.unwrap_or(0)
}

/// The inputs of a call on texts.
#[derive(Drop)]
struct Inputs<'a> {
    bytes: &'a [u8],
    offsets: &'a [i64],
    validity: &'a [u8],
    mask: &'a [u8],
    runs: &'a [usize],
}

/// Makes the column of all texts again for each run, and adds up their numbers.
fn make_each_run(alloc: Global, inputs: &Inputs<'_>) -> Result<usize> {
    let mut sum = 0usize;
    for _ in inputs.runs {
        sum = sum.wrapping_add(texts(alloc, inputs)?.len());
    }
    Ok(sum)
}

/// Adds up the bytes of copies of prefixes.
fn built_each(alloc: Global, inputs: &Inputs<'_>) -> Result<usize> {
    let texts = texts(alloc, inputs)?;
    Ok(on_each(inputs.runs, |run| push_each(&first(&texts, *run)?)))
}

/// Adds up the bytes of copies of prefixes that are made of all texts at once.
fn built_together(alloc: Global, inputs: &Inputs<'_>) -> Result<usize> {
    let texts = texts(alloc, inputs)?;
    Ok(on_each(inputs.runs, |run| extend_once(&first(&texts, *run)?)))
}

/// Compares each text of prefixes with the first one.
fn compared_each(alloc: Global, inputs: &Inputs<'_>) -> Result<usize> {
    let texts = texts(alloc, inputs)?;
    Ok(on_each(inputs.runs, |run| compare_with_first(&first(&texts, *run)?)))
}

/// Compares slices of prefixes.
fn sliced_each(alloc: Global, inputs: &Inputs<'_>) -> Result<usize> {
    let texts = texts(alloc, inputs)?;
    Ok(on_each(inputs.runs, |run| slice_and_compare(&first(&texts, *run)?)))
}

/// Filters prefixes by a prefix of the mask.
fn filtered_each(alloc: Global, inputs: &Inputs<'_>) -> Result<usize> {
    let texts = texts(alloc, inputs)?;
    let mask = bitmap(alloc, inputs.mask, texts.len())?;
    Ok(on_each(inputs.runs, |run| {
        let mask = mask.clone()?.sliced(0, (*run).min(mask.len()));
        filter_texts(&first(&texts, *run)?, &mask)
    }))
}

/// Adds up the bytes of the texts of prefixes that are not null.
fn read_each(alloc: Global, inputs: &Inputs<'_>) -> Result<usize> {
    let texts = texts(alloc, inputs)?;
    Ok(on_each(inputs.runs, |run| Ok(sum_of_lengths(&first(&texts, *run)?))))
}

/// Adds up the bytes of the least text of each prefix.
fn least_each(alloc: Global, inputs: &Inputs<'_>) -> Result<usize> {
    let texts = texts(alloc, inputs)?;
    Ok(on_each(inputs.runs, |run| Ok(least_len(&first(&texts, *run)?))))
}

/// Returns a prefix of the texts, at most as long as a run states.
fn first(whole: &Utf8Array<i64>, len: usize) -> Result<Utf8Array<i64>> {
    Ok(whole.clone()?.sliced(0, len.min(whole.len())))
}

/// The texts between the offsets, null where the bits of the validity are not set.
fn texts(alloc: Global, inputs: &Inputs<'_>) -> Result<Utf8Array<i64>> {
    let offsets = Buffer::try_from(Vec::from_slice(alloc, inputs.offsets)?)?;
    let offsets = OffsetsBuffer::try_from(offsets)?;
    let values = Buffer::try_from(Vec::from_slice(alloc, inputs.bytes)?)?;
    let validity = if inputs.validity.is_empty() {
        None
    } else {
        Some(bitmap(alloc, inputs.validity, offsets.len_proxy())?)
    };
    Utf8Array::try_new(DataType::LargeUtf8, offsets, values, validity)
}

/// The number of bytes of a copy that is pushed text by text.
fn push_each(texts: &Utf8Array<i64>) -> Result<usize> {
    let mut copy = MutableUtf8Array::<i64>::new(texts.values().allocator())?;
    for index in 0..texts.len() {
        copy.push(texts.get(index))?;
    }
    Ok(copy.freeze()?.values().len())
}

/// The number of bytes of a copy to which all texts are appended at once.
fn extend_once(texts: &Utf8Array<i64>) -> Result<usize> {
    let alloc = texts.values().allocator();
    let items: Vec<Option<&str>> = texts.iter().collect(alloc)?;
    let mut copy = MutableUtf8Array::<i64>::new(alloc)?;
    copy.extend_from_options(items.as_slice())?;
    Ok(copy.freeze()?.values().len())
}

/// Counts the texts that are null or differ from the first slot.
fn compare_with_first(texts: &Utf8Array<i64>) -> Result<usize> {
    if texts.is_empty() {
        return Ok(0);
    }
    let same = eq_scalar(texts, texts.value(0).as_bytes())?;
    match same.validity() {
        Some(validity) => Ok(and(same.values(), validity)?.unset_bits()),
        None => Ok(same.values().unset_bits()),
    }
}

/// Returns 1 where a copy of the texts, sliced as the texts are, is equal to them.
fn slice_and_compare(texts: &Utf8Array<i64>) -> Result<usize> {
    let Some(len) = texts.len().checked_sub(1) else {
        return Ok(0);
    };
    let (left, right) = (texts.clone()?.sliced(1, len), texts.clone()?.sliced(1, len));
    Ok(usize::from(left == right))
}

/// The number of bytes of the texts that are not null.
fn sum_of_lengths(texts: &Utf8Array<i64>) -> usize {
    let mut sum = 0usize;
    for text in texts.non_null_values_iter() {
        sum = sum.wrapping_add(text.len());
    }
    sum
}

/// The number of bytes of the least text, 0 where each is null.
fn least_len(texts: &Utf8Array<i64>) -> usize {
    match min_binary(texts) {
        Some(least) => least.len(),
        None => 0,
    }
}

/// The number of bytes of the texts that the mask selects.
fn filter_texts(texts: &Utf8Array<i64>, mask: &Bitmap) -> Result<usize> {
    if texts.len() != mask.len() {
        return Ok(0);
    }
    Ok(filter_binary(texts, mask)?.values().len())
}
