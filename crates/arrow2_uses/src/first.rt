//! A first function.
ghost use Rattle.std.specs.Prelude.{◌≡◌, map, not, IfOk};
ghost use Rattle.arrow2.specs.Failures.{OnlyOverflowOrOutOfMemory};
ghost use Rattle.arrow2.specs.Lists.{items_of};

use arrow2::bitmap::Bitmap;
use arrow2::error::Result;

/// Returns each item inverted.
///
/// # Errors
///
/// `Overflow` or `OutOfMemory`.
pub fn invert(b: &Bitmap) -> Result<Bitmap>
    ensures items { IfOk result (λ r. items_of r ≡ map not (items_of b.now)) }
    ensures only { OnlyOverflowOrOutOfMemory result }
{
    Bitmap::try_from_iter(b.allocator(), b.iter().map(|item| !item))
}
