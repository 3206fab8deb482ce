//! Valid values, copied run by run.
ghost use Rattle.std.specs.Prelude.{◌≡◌, length, IfOk, flat_map};
ghost use Rattle.arrow2.specs.Failures.{OnlyOutOfMemory};
ghost use Rattle.arrow2.specs.Lists.{part, items_of};
ghost use Rattle.arrow2.specs.Runs.{runs};

use arrow2::bitmap::Bitmap;
use arrow2::bitmap::utils::SlicesIterator;
use arrow2::error::Result;
use arrow2::laws;
use std::alloc::Global;

/// Returns the valid values in their order, copied run by run. Requires that the validity has the length of the values.
///
/// # Errors
///
/// Only `OutOfMemory`.
pub fn valid_values(alloc: Global, values: &[i64], validity: &Bitmap) -> Result<Vec<i64>>
    requires same_length { length (items_of validity.now) ≡ length values.now }
    ensures ok { IfOk result (λ valid. valid.items
        ≡ flat_map (λ run. part values.now run.0 run.1) (runs (items_of validity.now))) }
    ensures only { OnlyOutOfMemory result }
{
    laws::walks::runs_lie_inside();
    let mut valid = Vec::new(alloc);
    for (start, length) in SlicesIterator::new(validity) {
        valid.extend_from_slice(&values[start..start + length])?;
    }
    Ok(valid)
}
