//! Iterators over arrays, values zipped with their validity, the runs of set bits of a bitmap, and a bitmap that is cut
//! into consecutive slices.
#![tactic(auto)]

mod array_iterator;
mod cursor;
pub mod laws;
mod pieces;
mod slice_iterator;
mod zip_validity;

pub use array_iterator::{ArrayAccessor, ArrayIter, ArrayValuesIter, NonNullValuesIter};
pub use cursor::{BitCursor, find_bit};
pub use pieces::Pieces;
pub use slice_iterator::SlicesIterator;
pub use zip_validity::{ZipValidity, ZipValidityIter};
