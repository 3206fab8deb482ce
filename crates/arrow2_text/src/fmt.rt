//! `Debug` output of arrays.
ghost use Rattle.std.specs.Prelude.{Some, IfSome, option_copied};
ghost use Rattle.std.specs.Fmt.{DisplaysOnOk, ◌++?◌, debug_list};
ghost use Rattle.arrow2_validity.specs.ItemTexts.{item_output};
ghost use Rattle.arrow2_text.specs.Binary.{binary_items};

use crate::byte_array_type::ByteArrayType;
use crate::generic_byte_array::GenericByteArray;
use arrow2_index::OffsetNumber;
use arrow2_validity::fmt::write_separator;
use std::fmt;

/// Writes the name of the alias, then the items in brackets, with `None` for a null. A byte string is written as the
/// list of its bytes: `BinaryArray[[1, 2], None, []]`. A text is written as it is: `Utf8Array[é, None, abc]`. With
/// 64-bit offsets the name is `LargeBinaryArray` or `LargeUtf8Array`. No clause states what formatter flags do.
impl<T: ByteArrayType, O: OffsetNumber> fmt::Debug for GenericByteArray<T, O> {
    ghost debug_output = { λ a. Some (T.head O.IS_LARGE) ++? debug_list (item_output T.output) (binary_items a) };

    fn fmt<W: fmt::Write>(&self, f: &mut fmt::Formatter<W>) -> fmt::Result {
        f.write_str(T::name(O::IS_LARGE))?;
        write_items(self, f)
    }
}

/// Writes the items in brackets, with a comma between.
fn write_items<T: ByteArrayType, O: OffsetNumber, W: fmt::Write>(
    array: &GenericByteArray<T, O>,
    f: &mut fmt::Formatter<W>,
) -> fmt::Result
    ensures { DisplaysOnOk W.write_str_gives f.old result
        (debug_list (item_output T.output) (binary_items array.now)) f.new }
{
    f.write_str("[")?;
    for position in 0..array.len() {
        write_separator(position, f)?;
        write_item::<T, W>(array.get_bytes(position), f)?;
    }
    f.write_str("]")
}

/// Writes an item, or `None` where it is null. Requires that its bytes are allowed by `T`.
fn write_item<T: ByteArrayType, W: fmt::Write>(
    item: Option<&[u8]>,
    f: &mut fmt::Formatter<W>,
) -> fmt::Result
    requires known { IfSome (option_copied item) T.IsValue }
    ensures { DisplaysOnOk W.write_str_gives f.old result
        (item_output T.output (option_copied item.entry)) f.new }
{
    match item {
        Some(bytes) => T::write_value(bytes, f),
        None => f.write_str("None"),
    }
}
