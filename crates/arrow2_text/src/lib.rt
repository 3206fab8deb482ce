//! Arrays of nullable byte strings and texts: shared ones, and ones that grow.
#![tactic(auto)]

mod as_item;
mod binary;
mod byte_array_type;
mod checks;
mod equal;
mod fmt;
mod generic_byte_array;
mod growing;
mod iterator;
mod mutable_binary;
mod mutable_generic_byte_array;
mod mutable_utf8;
mod slots;
mod utf8;

pub use binary::BinaryArray;
pub use byte_array_type::{BinaryType, ByteArrayType, Utf8Type};
pub use generic_byte_array::GenericByteArray;
pub use iterator::{BinaryIter, BinaryValueIter, Bytes, Utf8Iter, Utf8ValuesIter};
pub use mutable_binary::MutableBinaryArray;
pub use mutable_generic_byte_array::MutableGenericByteArray;
pub use mutable_utf8::MutableUtf8Array;
pub use utf8::Utf8Array;
