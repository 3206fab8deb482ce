//! The layouts of arrays.
ghost use Rattle.std.specs.Prelude.{◌≡◌, ◌↔◌, IsTrue};

pub use arrow2_types::PrimitiveType;

/// The layout of the values of an array in memory. Several logical types may have the same physical type.
#[derive(Debug, Clone, Copy, PartialEq, Eq, Hash)]
pub enum PhysicalType {
    /// No buffer at all.
    Null,
    /// One bit for each value.
    Boolean,
    /// Values of a native type, one after the other.
    Primitive(PrimitiveType),
    /// Bytes of any length, with offsets of 32 bits.
    Binary,
    /// Byte strings of equal length.
    FixedSizeBinary,
    /// Bytes of any length, with offsets of 64 bits.
    LargeBinary,
    /// UTF-8 texts, with offsets of 32 bits.
    Utf8,
    /// UTF-8 texts, with offsets of 64 bits.
    LargeUtf8,
    /// Lists of any length, with offsets of 32 bits.
    List,
    /// Lists of equal length.
    FixedSizeList,
    /// Lists of any length, with offsets of 64 bits.
    LargeList,
    /// One array for each field.
    Struct,
    /// One array for each field, and for each value the field that holds it.
    Union,
    /// Lists of pairs of a key and a value.
    Map,
    /// Indices of an integer type into an array of values.
    Dictionary(IntegerType),
}

/// The integer types that may index a dictionary.
#[derive(Debug, Clone, Copy, PartialEq, Eq, Hash)]
pub enum IntegerType {
    /// A signed integer of 8 bits.
    Int8,
    /// A signed integer of 16 bits.
    Int16,
    /// A signed integer of 32 bits.
    Int32,
    /// A signed integer of 64 bits.
    Int64,
    /// An unsigned integer of 8 bits.
    UInt8,
    /// An unsigned integer of 16 bits.
    UInt16,
    /// An unsigned integer of 32 bits.
    UInt32,
    /// An unsigned integer of 64 bits.
    UInt64,
}

impl PhysicalType {
    /// Returns whether it is `Primitive` of this native type.
    pub fn eq_primitive(&self, primitive: PrimitiveType) -> bool
        ensures { IsTrue result ↔ (self.now ≡ PhysicalType.Primitive primitive) }
    {
        match self {
            PhysicalType::Primitive(own) => *own == primitive,
            _ => false,
        }
    }
}
