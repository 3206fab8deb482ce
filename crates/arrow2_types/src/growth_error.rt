//! The reason why a value does not grow, as a type of one byte.
ghost use Rattle.std.specs.Prelude.{◌≡◌};
ghost use Rattle.arrow2_types.specs.Failures.{error_of};
ghost use Rattle.arrow2_types.specs.declared.growth_error.GrowthError.TheVariants.{OutOfMemory};

use crate::error::Error;
use std::alloc::{AllocError, AllocFailed};

/// Why a value does not grow.
///
/// It takes one byte, and an [`Error`] takes many. Calls inside a loop return it, so that a step of the loop does not
/// write a whole [`Error`]. The calls of bitmaps, offsets and arrays convert it to an [`Error`]. Not in arrow2.
#[derive(Drop)]
pub enum GrowthError {
    /// A length, a count or an offset would exceed the greatest number of its type.
    Overflow,
    /// An allocation failed.
    OutOfMemory,
}

/// Returns `OutOfMemory`. Does not allocate.
impl From<AllocError> for GrowthError {
    ghost from_gives = { λ _ error. error ≡ OutOfMemory };

    fn from(_error: AllocError) -> GrowthError {
        GrowthError::OutOfMemory
    }
}

/// Returns `OutOfMemory`, and drops the value that could not be stored. Does not allocate.
impl<T: Drop> From<AllocFailed<T>> for GrowthError {
    ghost from_gives = { λ _ error. error ≡ OutOfMemory };

    fn from(_error: AllocFailed<T>) -> GrowthError {
        GrowthError::OutOfMemory
    }
}

/// Returns the error of the same name. Does not allocate.
impl From<GrowthError> for Error {
    ghost from_gives = { λ given e. e ≡ error_of given };

    fn from(error: GrowthError) -> Error {
        match error {
            GrowthError::Overflow => Error::Overflow,
            GrowthError::OutOfMemory => Error::OutOfMemory,
        }
    }
}
