//! Errors of the memory layer, and the types of the values in its buffers.
#![tactic(auto)]

mod arrays;
mod error;
mod growth_error;
mod native;
mod primitive;

pub use arrays::{array_of, join};
pub use error::{Error, Result};
pub use growth_error::GrowthError;
pub use native::NativeType;
pub use primitive::PrimitiveType;
