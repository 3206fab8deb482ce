//! Columns of numbers, with nulls and without.

use crate::runs::on_each;
use arrow2_bitmap::Bitmap;
use arrow2_buffer::Buffer;
use arrow2_compute::filter::filter;
use arrow2_compute::take::take;
use arrow2_datatypes::DataType;
use arrow2_numeric::aggregate::{min, sum};
use arrow2_numeric::comparison::{lt, lt_scalar};
use arrow2_primitive::{MutablePrimitiveArray, PrimitiveArray};
use arrow2_types::Result;
use std::alloc::Global;
use std::convert::TryFrom;

/// Calls on prefixes of a column and of the mask, whose length each run chooses. If `validity` is empty, the column has
/// no nulls.
#[unsafe(no_mangle)]
pub extern "C" fn bench_columns(
    alloc: Global,
    call: &[u8],
    values: &[i64],
    validity: &[u8],
    mask: &[u8],
    runs: &[usize],
) -> usize {
    let inputs = Inputs {
        values,
        validity,
        mask,
        runs,
    };
    if call == b"filter".as_slice() {
        on_columns(alloc, &inputs, filter_and_add)
    } else if call == b"lt_scalar".as_slice() {
        on_columns(alloc, &inputs, below)
    } else if call == b"lt".as_slice() {
        on_columns(alloc, &inputs, below_next)
    } else if call == b"sum".as_slice() {
        on_columns(alloc, &inputs, added_up)
    } else if call == b"min".as_slice() {
        on_columns(alloc, &inputs, least)
    } else if call == b"copy".as_slice() {
        on_columns(alloc, &inputs, copy_values)
    } else {
        usize::MAX
    }
}

/// The inputs of a call on columns.
#[derive(Drop)]
struct Inputs<'a> {
    values: &'a [i64],
    validity: &'a [u8],
    mask: &'a [u8],
    runs: &'a [usize],
}

/// Makes the call on prefixes of the items and of the mask, whose length each run chooses.
fn on_columns<F: Fn(&PrimitiveArray<i64>, &Bitmap) -> Result<usize>>(
    alloc: Global,
    inputs: &Inputs<'_>,
    call: F,
) -> usize
    requires { F.IsAlwaysCallable call }
{
    let (Ok(column), Ok(mask)) = (
        column(alloc, inputs.values, inputs.validity),
        bitmap(alloc, inputs.mask, inputs.values.len()),
    ) else {
        return 0;
    };
    on_each(inputs.runs, |run| {
        if *run > column.len() || *run > mask.len() {
            return Ok(0);
        }
        call(
            &column.clone()?.sliced(0, *run),
            &mask.clone()?.sliced(0, *run),
        )
    })
}

/// The column of these values, null where the bits of the validity are not set. Without a byte of validity no item is
/// null.
fn column(alloc: Global, values: &[i64], validity: &[u8]) -> Result<PrimitiveArray<i64>> {
    let validity = if validity.is_empty() {
        None
    } else {
        Some(bitmap(alloc, validity, values.len())?)
    };
    let values = Buffer::try_from(Vec::from_slice(alloc, values)?)?;
    PrimitiveArray::try_new(DataType::Int64, values, validity)
}

/// The bitmap of the first `len` bits.
pub(crate) fn bitmap(alloc: Global, bytes: &[u8], len: usize) -> Result<Bitmap> {
    Bitmap::try_new(Vec::from_slice(alloc, bytes)?, len)
}

/// Counts the items that the mask selects, and adds the last value.
fn filter_and_add(column: &PrimitiveArray<i64>, mask: &Bitmap) -> Result<usize> {
    if column.len() != mask.len() {
        return Ok(0);
    }
    last_and_count(&filter(column, mask)?)
}

/// Returns the number of items, plus the absolute value of the last one if it is not null.
fn last_and_count(column: &PrimitiveArray<i64>) -> Result<usize> {
    let Some(last) = column.len().checked_sub(1) else {
        return Ok(0);
    };
    let value = column.get(last).unwrap_or(0);
    Ok(column.len().wrapping_add(value.unsigned_abs() as usize))
}

/// Counts the values that are not below 0.
fn below(column: &PrimitiveArray<i64>, _: &Bitmap) -> Result<usize> {
    Ok(lt_scalar(column, 0)?.values().unset_bits())
}

/// Counts the values that are not below the next one.
fn below_next(column: &PrimitiveArray<i64>, _: &Bitmap) -> Result<usize> {
    let Some(len) = column.len().checked_sub(1) else {
        return Ok(0);
    };
    let first = column.clone()?.sliced(0, len);
    let next = column.clone()?.sliced(1, len);
    Ok(lt(&first, &next)?.values().unset_bits())
}

/// The least item, or 0 where there is none.
fn least(column: &PrimitiveArray<i64>, _: &Bitmap) -> Result<usize> {
    match min(column) {
        Some(value) => Ok(value.unsigned_abs() as usize),
        None => Ok(0),
    }
}

/// The absolute value of the last value of a copy, or 0 where there is none.
fn copy_values(column: &PrimitiveArray<i64>, _: &Bitmap) -> Result<usize> {
    let values = column.values();
    let copy = Buffer::try_from(Vec::from_slice(values.allocator(), values.as_slice())?)?;
    match copy.as_slice().last() {
        Some(value) => Ok(value.unsigned_abs() as usize),
        None => Ok(0),
    }
}

/// The lowest bits of the absolute value of the sum.
fn added_up(column: &PrimitiveArray<i64>, _: &Bitmap) -> Result<usize> {
    Ok((sum(column).unsigned_abs() % (1 << 64)) as usize)
}

/// Takes the items at a prefix of these indices, whose length each run chooses.
#[unsafe(no_mangle)]
pub extern "C" fn bench_take(
    alloc: Global,
    values: &[i64],
    validity: &[u8],
    indices: &[usize],
    runs: &[usize],
) -> usize {
    let Ok(column) = column(alloc, values, validity) else {
        return 0;
    };
    if indices.iter().any(|index| *index >= column.len()) {
        return 0;
    }
    on_each(runs, |run| match indices.get(..*run) {
        Some(firsts) => last_and_count(&take(&column, firsts)?),
        None => Ok(0),
    })
}

/// Builds columns of a prefix of the options, whose length each run chooses. An option has a value where the item at
/// its index is true.
#[unsafe(no_mangle)]
pub extern "C" fn bench_options(
    alloc: Global,
    values: &[i64],
    valid: &[bool],
    runs: &[usize],
) -> usize {
    on_each(runs, |run| match (values.get(..*run), valid.get(..*run)) {
        (Some(values), Some(valid)) => last_and_count(&build(alloc, values, valid)?),
        _ => Ok(0),
    })
}

/// The column of the options, pushed one by one.
fn build(alloc: Global, values: &[i64], valid: &[bool]) -> Result<PrimitiveArray<i64>> {
    let mut column = MutablePrimitiveArray::with_capacity(alloc, values.len())?;
    for (value, valid) in values.iter().zip(valid) {
        column.push(valid.then_some(*value))?;
    }
    column.freeze()
}
