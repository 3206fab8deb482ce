//! The errors that calls of the layer return.

pub use arrow2_types::{Error, Result};
