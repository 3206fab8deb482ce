//! The names of the native types.

/// The names of the native types, and of the three floating-point types, which do not implement `NativeType`.
#[derive(Debug, Clone, Copy, PartialEq, Eq, Hash)]
pub enum PrimitiveType {
    /// A signed integer of 8 bits.
    Int8,
    /// A signed integer of 16 bits.
    Int16,
    /// A signed integer of 32 bits.
    Int32,
    /// A signed integer of 64 bits.
    Int64,
    /// A signed integer of 128 bits.
    Int128,
    /// A signed integer of 256 bits.
    Int256,
    /// An unsigned integer of 8 bits.
    UInt8,
    /// An unsigned integer of 16 bits.
    UInt16,
    /// An unsigned integer of 32 bits.
    UInt32,
    /// An unsigned integer of 64 bits.
    UInt64,
    /// A float of 16 bits.
    Float16,
    /// A float of 32 bits.
    Float32,
    /// A float of 64 bits.
    Float64,
    /// Days and milliseconds.
    DaysMs,
    /// Months, days and nanoseconds.
    MonthDayNano,
}
