//! The text of a boolean array.
ghost use Rattle.std.specs.Prelude.{◌≡◌, Some};
ghost use Rattle.std.specs.Fmt.{WritesOnOk, WritesStyledOnOk};
ghost use Rattle.arrow2_array.specs.ArrayTexts.{array_text, item_word};
ghost use Rattle.arrow2_array.specs.Items.{boolean_items};

use crate::boolean::BooleanArray;
use std::fmt;

/// Writes the name of the type and then the items in brackets, a null as `None`: for example `BooleanArray[true, None,
/// false]`. Formatter flags are ignored. The clause states nothing where the array is printed as a part of another
/// value by `{:#?}`: that formatter indents each line.
impl fmt::Debug for BooleanArray {
    ghost debug_output = { λ a. Some (array_text (boolean_items a)) };

    fn fmt<W: fmt::Write>(&self, f: &mut fmt::Formatter<W>) -> fmt::Result
        ensures styled { WritesStyledOnOk W.write_str_gives f.old result (array_text (boolean_items self.now)) f.new }
    {
        write_array(self, f)
    }
}

/// Writes the text of an array.
fn write_array<W: fmt::Write>(array: &BooleanArray, f: &mut fmt::Formatter<W>) -> fmt::Result
    ensures writes { WritesOnOk W.write_str_gives f.old result (array_text (boolean_items array.now)) f.new }
    ensures styled { WritesStyledOnOk W.write_str_gives f.old result (array_text (boolean_items array.now)) f.new }
{
    f.write_str("BooleanArray[")?;
    for index in 0..array.len() {
        if index > 0 {
            f.write_str(", ")?;
        }
        f.write_str(word(array.get(index)))?;
    }
    f.write_str("]")
}

/// Returns the word for an item.
fn word(item: Option<bool>) -> &'static str
    ensures { result.now ≡ item_word item }
{
    match item {
        Some(true) => "true",
        Some(false) => "false",
        None => "None",
    }
}
