//! What the `Debug` texts of primitive arrays and of arrays of byte strings and texts share.
ghost use Rattle.std.specs.Fmt.{WritesOnOk};
ghost use Rattle.arrow2_validity.specs.ItemTexts.{separator};

use std::fmt;

/// Writes the separator before the item at index `position`: nothing before the first item, else a comma and a space.
/// No clause states what is written with formatter flags.
pub fn write_separator<W: fmt::Write>(position: usize, f: &mut fmt::Formatter<W>) -> fmt::Result
    ensures { WritesOnOk W.write_str_gives f.old result (separator position) f.new }
{
    f.write_str(if position > 0 { ", " } else { "" })
}
