//! Items of the one crate that users name, at their paths: this file compiles. Other tests name the arrays of numbers,
//! of byte strings and of texts, and `compute`.
use super::checks::{assert_text, assert_that};
pub use arrow2::array::{
    ArrayAccessor, ArrayIter, ArrayValuesIter, BinaryIter, BinaryValueIter, BooleanArray,
    BooleanIter, MutableBooleanArray, NonNullValuesIter, PrimitiveIter, SeenBytes, Utf8Iter,
    Utf8ValuesIter,
};
pub use arrow2::bitmap::utils::{
    BitChunkIterExact, BitChunks, BitChunksExact, BitChunksExactMut, BitmapIter, Reads,
    SlicesIterator, Stored, ZipValidity, ZipValidityIter, count_zeros_counted, recount,
};
pub use arrow2::bitmap::{
    Bitmap, IntoIter, MutableBitmap, Pieces, and, binary, binary_assign, binary_assign_table,
    binary_table, or, quaternary, quaternary_table, ternary, ternary_table, unary, unary_assign,
    unary_assign_table, unary_table, utils, xor,
};
pub use arrow2::buffer::{Buffer, Bytes, IntoIter as BufferIntoIter};
pub use arrow2::datatypes::{
    DataType, Field, IntegerType, IntervalUnit, Metadata, PhysicalType, PrimitiveType, Schema,
    SchemaRef, TimeUnit, UnionMode, get_extension,
};
pub use arrow2::error::{Error, Result as ErrorResult};
use arrow2::laws;
pub use arrow2::offset::{
    BrokenRule, Lengths, Offset, OffsetNumber, Offsets, OffsetsBuffer, broken_rule,
};
pub use arrow2::types::{
    BitChunk, BitChunkIter, BitChunkOnes, Index, IndexRange, NativeType, days_ms, i256,
    months_days_ns,
};
use std::fmt;
use std::test::Fail;

/// Bits that print.
#[derive(Drop)]
struct Bits;

impl fmt::Display for Bits {
    fn fmt<W: fmt::Write>(&self, f: &mut fmt::Formatter<W>) -> fmt::Result {
        utils::fmt(&[0b101], 0, 3, f)
    }
}

#[test]
fn each_item_has_its_path(rt: HostRuntime) {
    let mut bytes = [0b101u8];
    utils::set_bit(&mut bytes, 1, true);
    let bits = [
        utils::get_bit(&bytes, 1),
        utils::get_bit_from(&bytes, 1, 1),
        utils::is_set(utils::set(0, 3, true), 3),
    ];
    assert_that(&rt, bits == [true; 3]);
    let counts = [utils::bytes_for(9), utils::count_zeros(&bytes, 0, 8)];
    assert_that(&rt, counts == [2, 5]);
    assert_text(&rt, Bits.to_string(rt.alloc()), "[0b_____101]");
    laws::lists::part_of_a_part();
    laws::buffers::written_items_are_the_items::<u8>();
    laws::offsets::offset_is_a_sum();
    laws::datatypes::a_logical_type_is_its_own();
}

#[test]
fn a_bitmap_is_sliced_and_grows(rt: HostRuntime) -> Result<(), Fail> {
    let alloc = rt.alloc();
    let bitmap = Bitmap::try_new(vec![in alloc; 0b00001101u8]?, 5)?;
    assert!(rt; bitmap.len() == 5);
    let part = bitmap.sliced(1, 4);
    let mut grown = part.make_mut()?;
    grown.push(true)?;
    let items: Vec<bool> = grown.iter().collect(alloc)?;
    assert_eq!(rt;
        items.as_slice(),
        [false, true, true, false, true].as_slice()
    );
    Ok(())
}
