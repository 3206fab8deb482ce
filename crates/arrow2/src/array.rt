//! Arrays, which are values together with their validity: shared ones, and ones that grow. Checks of the parts of an
//! array.

pub mod specification;

pub use arrow2_array::{BooleanArray, BooleanIter, MutableBooleanArray};
pub use arrow2_primitive::{MutablePrimitiveArray, PrimitiveArray, PrimitiveIter};
// `arrow2::buffer` has another `Bytes`.
pub use arrow2_text::{
    BinaryArray, BinaryIter, BinaryType, BinaryValueIter, ByteArrayType, Bytes as SeenBytes,
    GenericByteArray, MutableBinaryArray, MutableGenericByteArray, MutableUtf8Array, Utf8Array,
    Utf8Iter, Utf8Type, Utf8ValuesIter,
};
pub use arrow2_validity::{Validity, check_same_length};
pub use arrow2_walks::{ArrayAccessor, ArrayIter, ArrayValuesIter, NonNullValuesIter};
