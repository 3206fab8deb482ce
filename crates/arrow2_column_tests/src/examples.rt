//! The examples of the layer's docs, each line word for word: `tests/pages` checks it.
use arrow2::array::{BooleanArray, MutablePrimitiveArray, MutableUtf8Array};
use arrow2::bitmap::utils::SlicesIterator;
use arrow2::bitmap::{Bitmap, MutableBitmap};
use arrow2::buffer::Buffer;
use arrow2::datatypes::{DataType, Field, Schema};
use arrow2::error::Result;
use arrow2::offset::{Offsets, OffsetsBuffer};
use std::alloc::Global;
use std::convert::TryFrom;
use std::process::Abort;

/// Checks that an example ran to its end.
fn passes(rt: &impl Abort, example: Result<()>) {
    assert!(rt; example.is_ok());
}

/// The example of `Bitmap`.
fn bitmap(rt: &impl Abort, alloc: Global) -> Result<()> {
    let bitmap = Bitmap::from_bools(alloc, &[true, false, true, true])?;
    assert!(rt; bitmap.len() == 4 && bitmap.unset_bits() == 1);
    let part = bitmap.sliced(1, 3);
    assert!(rt; part.get(0) == Some(false) && part.get(3).is_none());
    Ok(())
}

/// The example of `MutableBitmap`.
fn mutable_bitmap(rt: &impl Abort, alloc: Global) -> Result<()> {
    let mut bitmap = MutableBitmap::new(alloc);
    bitmap.push(true)?;
    bitmap.extend_constant(2, false)?;
    assert_eq!(rt; bitmap.as_slice(), [0b001].as_slice());
    assert!(rt; bitmap.pop() == Some(false) && bitmap.len() == 2);
    Ok(())
}

/// The example of `SlicesIterator`.
fn slices_iterator(rt: &impl Abort, alloc: Global) -> Result<()> {
    let mask = Bitmap::from_bools(alloc, &[true, true, false, true])?;
    let runs: Vec<(usize, usize)> = SlicesIterator::new(&mask).collect(alloc)?;
    assert_eq!(rt; runs.as_slice(), [(0, 2), (3, 1)].as_slice());
    Ok(())
}

#[test]
fn bitmaps(rt: HostRuntime) {
    passes(&rt, bitmap(&rt, rt.alloc()));
    passes(&rt, mutable_bitmap(&rt, rt.alloc()));
    passes(&rt, slices_iterator(&rt, rt.alloc()));
}

/// The example of `Buffer`.
fn buffer(rt: &impl Abort, alloc: Global) -> Result<()> {
    let buffer = Buffer::try_from(vec![in alloc; 1u32, 2, 3]?)?;
    assert!(rt; buffer.len() == 3);
    let part = buffer.sliced(1, 2);
    assert_eq!(rt; part.as_slice(), [2, 3].as_slice());
    Ok(())
}

/// The example of `Offsets`.
fn offsets(rt: &impl Abort, alloc: Global) -> Result<()> {
    let mut offsets = Offsets::<i32>::new(alloc)?;
    offsets.try_push_usize(3)?;
    offsets.try_push_usize(4)?;
    assert_eq!(rt; offsets.as_slice(), [0, 3, 7].as_slice());
    Ok(())
}

/// The example of `OffsetsBuffer`.
fn offsets_buffer(rt: &impl Abort, alloc: Global) -> Result<()> {
    let offsets = OffsetsBuffer::<i32>::try_from(vec![in alloc; 0, 3, 3, 7]?)?;
    assert!(rt; offsets.len_proxy() == 3);
    assert!(rt; offsets.start_end(2) == (3, 7));
    Ok(())
}

#[test]
fn buffers_and_offsets(rt: HostRuntime) {
    passes(&rt, buffer(&rt, rt.alloc()));
    passes(&rt, offsets(&rt, rt.alloc()));
    passes(&rt, offsets_buffer(&rt, rt.alloc()));
}

/// The example of `BooleanArray`.
fn boolean_array(rt: &impl Abort, alloc: Global) -> Result<()> {
    let array = BooleanArray::from_options(alloc, &[Some(true), None, Some(false)])?;
    assert!(rt; array.len() == 3 && array.null_count() == 1);
    assert!(rt; array.get(1).is_none() && array.get(2) == Some(false));
    Ok(())
}

/// The example of `Field` and of `Schema`.
fn schema(rt: &impl Abort, alloc: Global) -> Result<()> {
    let name = String::from_str(alloc, "price")?;
    let price = Field::new(alloc, name, DataType::Int64, true);
    let schema = Schema::from_fields(alloc, vec![in alloc; price]?);
    assert!(rt; schema.fields.len() == 1);
    Ok(())
}

/// The example of `arrow2`, of `PrimitiveArray` and of `MutablePrimitiveArray`.
fn column(rt: &impl Abort, alloc: Global) -> Result<()> {
    let mut prices = MutablePrimitiveArray::<i64>::new(alloc)?;
    prices.push(Some(30))?;
    prices.push(None)?;
    let column = prices.freeze()?;
    assert!(rt; column.len() == 2 && column.null_count() == 1);
    Ok(())
}

/// The example of `Utf8Array` and of `MutableUtf8Array`.
fn texts(rt: &impl Abort, alloc: Global) -> Result<()> {
    let mut names = MutableUtf8Array::<i32>::new(alloc)?;
    names.push(Some("Ada"))?;
    names.push(None)?;
    let names = names.freeze()?;
    assert!(rt; names.get(0) == Some("Ada") && names.get(1).is_none());
    Ok(())
}

#[test]
fn columns(rt: HostRuntime) {
    passes(&rt, boolean_array(&rt, rt.alloc()));
    passes(&rt, schema(&rt, rt.alloc()));
    passes(&rt, column(&rt, rt.alloc()));
    passes(&rt, texts(&rt, rt.alloc()));
}
