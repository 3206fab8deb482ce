//! The text of an array.
ghost use Rattle.std.specs.Fmt.{DisplaysOnOk, ◌++?◌, debug_list};
ghost use Rattle.arrow2_validity.specs.ItemTexts.{item_output};
ghost use Rattle.arrow2_primitive.specs.Primitive.{primitive_items};
ghost use Rattle.arrow2_primitive.specs.TypeTexts.{type_output};

use crate::array::PrimitiveArray;
use crate::type_text::write_type;
use arrow2_types::NativeType;
use arrow2_validity::fmt::write_separator;
use std::fmt;

/// Writes the logical type, then the items in brackets, with `None` for a null: `Int32[1, None, -3]`. No clause states
/// the effect of formatter flags, nor the text of an extension or of a type with a time zone.
///
/// Differs from arrow2, which prints dates, times, durations and decimals by their logical type: here each value is
/// printed by its own `Debug`.
impl<T: NativeType> fmt::Debug for PrimitiveArray<T> {
    ghost debug_output = { λ a. type_output a.data_type
        ++? debug_list (item_output T.debug_output) (primitive_items a) };

    fn fmt<W: fmt::Write>(&self, f: &mut fmt::Formatter<W>) -> fmt::Result {
        write_type(self.data_type(), f)?;
        write_items(self, f)
    }
}

/// Writes the items in brackets, with a comma between.
fn write_items<T: NativeType, W: fmt::Write>(
    array: &PrimitiveArray<T>,
    f: &mut fmt::Formatter<W>,
) -> fmt::Result
    ensures { DisplaysOnOk W.write_str_gives f.old result
        (debug_list (item_output T.debug_output) (primitive_items array.now)) f.new }
{
    f.write_str("[")?;
    for position in 0..array.len() {
        write_separator(position, f)?;
        write_item(array.get(position), f)?;
    }
    f.write_str("]")
}

/// Writes the value of an item, or `None` where it is null.
fn write_item<T: NativeType, W: fmt::Write>(
    item: Option<T>,
    f: &mut fmt::Formatter<W>,
) -> fmt::Result
    ensures { DisplaysOnOk W.write_str_gives f.old result (item_output T.debug_output item) f.new }
{
    match item {
        Some(value) => write!(f, "{value:?}"),
        None => f.write_str("None"),
    }
}
