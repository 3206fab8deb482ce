//! Bitmaps of the results of comparisons.
ghost use Rattle.std.specs.Prelude.{◌≡◌, int_lt, length, map, IfOk};
ghost use Rattle.std.specs.Simd.Lanes.{zip2};
ghost use Rattle.arrow2.specs.Lists.{buffer_items, items_of};
ghost use Rattle.arrow2.specs.Failures.{OnlyOutOfMemory};

use arrow2::bitmap::Bitmap;
use arrow2::buffer::Buffer;
use arrow2::error::Result;

/// Returns, for each value, whether it is below a bound.
///
/// # Errors
///
/// Only `OutOfMemory`.
pub fn below(values: &Buffer<i64>, bound: i64) -> Result<Bitmap>
    ensures items { IfOk result (λ b. items_of b
        ≡ map (λ value. int_lt value bound) (buffer_items values.now)) }
    ensures only { OnlyOutOfMemory result }
{
    Bitmap::from_slice_with(
        values.allocator(),
        values.as_slice(),
        |value| *value < bound,
    )
}

/// Returns, for each value, whether it is below the bound at its index. Requires that both lists have equal lengths.
///
/// # Errors
///
/// Only `OutOfMemory`.
pub fn below_each(values: &Buffer<i64>, bounds: &Buffer<i64>) -> Result<Bitmap>
    requires same_length { length (buffer_items values.now) ≡ length (buffer_items bounds.now) }
    ensures items { IfOk result (λ b. items_of b
        ≡ zip2 int_lt (buffer_items values.now) (buffer_items bounds.now)) }
    ensures only { OnlyOutOfMemory result }
{
    let (values, bounds, alloc) = (values.as_slice(), bounds.as_slice(), values.allocator());
    Bitmap::from_slices_with(alloc, values, bounds, |value, bound| *value < *bound)
}
