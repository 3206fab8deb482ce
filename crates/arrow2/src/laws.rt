//! Laws that a caller's proof calls. Each is the contract of a function with an empty body. arrow2 has none.

pub use arrow2_bitmap::laws as bitmaps;
pub use arrow2_buffer::laws as buffers;
pub use arrow2_composite::laws as types;
pub use arrow2_datatypes::laws as datatypes;
pub use arrow2_model::laws as lists;
pub use arrow2_offset::laws as offsets;
pub use arrow2_walks::laws as walks;
