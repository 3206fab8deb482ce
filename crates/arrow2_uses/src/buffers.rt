//! A change of a buffer in place.
ghost use Rattle.std.specs.Prelude.{◌≡◌, ◌<◌, length, slice_set};
ghost use Rattle.std.specs.Bool.{OnTrue, OnFalse};
ghost use Rattle.arrow2.specs.Lists.{buffer_items};

use arrow2::buffer::Buffer;

/// Overwrites the first item if the storage has no other owner, and returns whether it did. Requires that there is an
/// item.
pub fn set_first(buffer: &mut Buffer<u32>, value: u32) -> bool
    requires some { 0 < length (buffer_items buffer.old) }
    ensures set { OnTrue result (buffer_items buffer.new
        ≡ slice_set (buffer_items buffer.old) 0 value) }
    ensures same { OnFalse result (buffer.new ≡ buffer.old) }
{
    buffer.change_slice(|items| items[0] = value)
}
