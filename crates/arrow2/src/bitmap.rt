//! Bitmaps, which store booleans as bits: shared ones, and ones that grow. Functions on bitmaps by words and by truth
//! tables, which write to new memory or in place. Bitmaps cut into pieces.

pub mod utils;

pub use arrow2_bitmap::assign_ops::{
    binary_assign, binary_assign_table, unary_assign, unary_assign_table,
};
pub use arrow2_bitmap::bitmap_ops::{and, binary, binary_table, or, unary, unary_table, xor};
pub use arrow2_bitmap::{Bitmap, IntoIter, MutableBitmap};
pub use arrow2_tables::bitmap_ops::{quaternary, quaternary_table, ternary, ternary_table};
pub use arrow2_walks::Pieces;
