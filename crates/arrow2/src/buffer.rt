//! Buffers: lists that several arrays share, and that are cloned and sliced without a copy.

pub use arrow2_buffer::{Buffer, Bytes, IntoIter};
