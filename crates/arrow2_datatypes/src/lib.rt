//! The meaning of arrays and their layout: logical types, physical types, fields and schemas.
#![tactic(auto)]

ghost use Rattle.std.specs.Prelude.{◌≡◌, ◌↔◌, IsTrue, IsOk, IfOk, Some, None, if◌then◌else◌, codes};
ghost use Rattle.std.specs.BTreeMap.{get_by_text};
ghost use Rattle.arrow2_datatypes.specs.Extensions.{extension, texts};
ghost use Rattle.arrow2_datatypes.specs.Types.{physical, logical, of_integer, of_primitive};
ghost use Rattle.arrow2_types.specs.Failures.{OnlyOutOfMemory};

mod field;
pub mod laws;
mod physical_type;
mod schema;

use arrow2_types::Result;
pub use field::Field;
pub use physical_type::{IntegerType, PhysicalType, PrimitiveType};
pub use schema::Schema;
use std::collections::BTreeMap;
use std::rc::Rc;

/// The metadata of a field or a schema: a text for each key.
pub type Metadata = BTreeMap<String, String>;

/// A schema with several owners, all on one thread: an `Rc`, where arrow2 has an `Arc`.
pub type SchemaRef = Rc<Schema>;

/// A logical type: the meaning of the values of an array. Each logical type has one [`PhysicalType`], which specifies
/// the layout. An extension adds a name and optional metadata to a type, and has the layout of that type.
#[cycle(types)]
#[derive(Debug, Clone, PartialEq, Eq, Hash, Drop)]
pub enum DataType {
    /// Nulls alone.
    Null,
    /// `true` and `false`.
    Boolean,
    /// Signed integers of 8 bits.
    Int8,
    /// Signed integers of 16 bits.
    Int16,
    /// Signed integers of 32 bits.
    Int32,
    /// Signed integers of 64 bits.
    Int64,
    /// Unsigned integers of 8 bits.
    UInt8,
    /// Unsigned integers of 16 bits.
    UInt16,
    /// Unsigned integers of 32 bits.
    UInt32,
    /// Unsigned integers of 64 bits.
    UInt64,
    /// Floats of 16 bits.
    Float16,
    /// Floats of 32 bits.
    Float32,
    /// Floats of 64 bits.
    Float64,
    /// Points in time, as 64-bit counts of a unit since the start of 1970. The text, if there is one, is the time zone
    /// in which they are shown: its name, or an offset such as `+07:30`. With a text, they are counted from the start
    /// of 1970 in UTC. Without a text, they have no time zone.
    Timestamp(TimeUnit, Option<String>),
    /// Days since the start of 1970, in 32 bits.
    Date32,
    /// Days since the start of 1970, counted in milliseconds, in 64 bits.
    Date64,
    /// Times since midnight in seconds or milliseconds, in 32 bits.
    Time32(TimeUnit),
    /// Times since midnight in microseconds or nanoseconds, in 64 bits.
    Time64(TimeUnit),
    /// Lengths of time, as 64-bit counts of a unit.
    Duration(TimeUnit),
    /// Spans of the calendar, in which a day need not have 24 hours.
    Interval(IntervalUnit),
    /// Bytes of any length, with offsets of 32 bits.
    Binary,
    /// Values of the given number of bytes each.
    FixedSizeBinary(usize),
    /// Bytes of any length, with offsets of 64 bits.
    LargeBinary,
    /// UTF-8 texts, with offsets of 32 bits.
    Utf8,
    /// UTF-8 texts, with offsets of 64 bits.
    LargeUtf8,
    /// Lists of the field's type, with offsets of 32 bits.
    List(Box<Field>),
    /// Lists of the given number of items each.
    FixedSizeList(Box<Field>, usize),
    /// Lists of the field's type, with offsets of 64 bits.
    LargeList(Box<Field>),
    /// Structs: each has one value for each field.
    Struct(Vec<Field>),
    /// Unions: each value belongs to one of the fields. The numbers, if there are any, are the type ids of the fields,
    /// in the order of the fields.
    Union(Vec<Field>, Option<Vec<i32>>, UnionMode),
    /// Lists of pairs of a key and a value: the field is a `Struct` of these two. The flag states whether the keys are
    /// sorted.
    Map(Box<Field>, bool),
    /// Indices of an integer type into values of a type. The flag states whether the values are sorted.
    Dictionary(IntegerType, Box<DataType>, bool),
    /// Decimals in 128 bits. The first number is their precision, the number of digits; the second is their scale, the
    /// number of digits after the point. 999.99 has precision 5 and scale 2.
    Decimal(usize, usize),
    /// The same in 256 bits.
    Decimal256(usize, usize),
    /// A type under a name of its own, with optional metadata.
    Extension(String, Box<DataType>, Option<String>),
}

/// How the fields of a union are laid out.
#[derive(Debug, Clone, Copy, PartialEq, Eq, Hash)]
pub enum UnionMode {
    /// The array of a field has only the values that belong to that field.
    Dense,
    /// The array of each field has the length of the union.
    Sparse,
}

/// Units of time.
#[derive(Debug, Clone, Copy, PartialEq, Eq, Hash)]
pub enum TimeUnit {
    /// Seconds.
    Second,
    /// Thousandths of a second.
    Millisecond,
    /// Millionths of a second.
    Microsecond,
    /// Billionths of a second.
    Nanosecond,
}

/// Units of calendar spans.
#[derive(Debug, Clone, Copy, PartialEq, Eq, Hash)]
pub enum IntervalUnit {
    /// Whole months.
    YearMonth,
    /// Days and milliseconds, in 32 bits each.
    DayTime,
    /// Months and days in 32 bits each, and nanoseconds in 64.
    MonthDayNano,
}

impl DataType {
    /// Returns the physical type, which is the layout of the values. An extension has the physical type of the type
    /// that it extends.
    pub fn to_physical_type(&self) -> PhysicalType
        ensures { result ≡ physical self.now }
    {
        use PhysicalType::Primitive;

        match self {
            DataType::Null => PhysicalType::Null,
            DataType::Boolean => PhysicalType::Boolean,
            DataType::Int8 => Primitive(PrimitiveType::Int8),
            DataType::Int16 => Primitive(PrimitiveType::Int16),
            DataType::Int32 | DataType::Date32 | DataType::Time32(_) => {
                Primitive(PrimitiveType::Int32)
            }
            DataType::Int64 | DataType::Date64 | DataType::Time64(_) => {
                Primitive(PrimitiveType::Int64)
            }
            DataType::UInt8 => Primitive(PrimitiveType::UInt8),
            DataType::UInt16 => Primitive(PrimitiveType::UInt16),
            DataType::UInt32 => Primitive(PrimitiveType::UInt32),
            DataType::UInt64 => Primitive(PrimitiveType::UInt64),
            DataType::Float16 => Primitive(PrimitiveType::Float16),
            DataType::Float32 => Primitive(PrimitiveType::Float32),
            DataType::Float64 => Primitive(PrimitiveType::Float64),
            DataType::Timestamp(_, _) | DataType::Duration(_) => Primitive(PrimitiveType::Int64),
            DataType::Interval(IntervalUnit::YearMonth) => Primitive(PrimitiveType::Int32),
            DataType::Interval(IntervalUnit::DayTime) => Primitive(PrimitiveType::DaysMs),
            DataType::Interval(IntervalUnit::MonthDayNano) => Primitive(
                PrimitiveType::MonthDayNano,
            ),
            DataType::Decimal(_, _) => Primitive(PrimitiveType::Int128),
            DataType::Decimal256(_, _) => Primitive(PrimitiveType::Int256),
            DataType::Binary => PhysicalType::Binary,
            DataType::FixedSizeBinary(_) => PhysicalType::FixedSizeBinary,
            DataType::LargeBinary => PhysicalType::LargeBinary,
            DataType::Utf8 => PhysicalType::Utf8,
            DataType::LargeUtf8 => PhysicalType::LargeUtf8,
            DataType::List(_) => PhysicalType::List,
            DataType::FixedSizeList(_, _) => PhysicalType::FixedSizeList,
            DataType::LargeList(_) => PhysicalType::LargeList,
            DataType::Struct(_) => PhysicalType::Struct,
            DataType::Union(_, _, _) => PhysicalType::Union,
            DataType::Map(_, _) => PhysicalType::Map,
            DataType::Dictionary(key, _, _) => PhysicalType::Dictionary(*key),
            DataType::Extension(_, inner, _) => inner.to_physical_type(),
        }
    }

    /// Returns the type without the extensions around it: the type itself if it is no extension, else what is left when
    /// these are removed. The result is never an extension. The types of fields, items and dictionary values inside it
    /// keep their extensions.
    pub fn to_logical_type(&self) -> &DataType
        ensures { result.now ≡ logical self.now }
    {
        match self {
            DataType::Extension(_, inner, _) => inner.to_logical_type(),
            _ => self,
        }
    }
}

/// Returns the type of the same name.
impl From<IntegerType> for DataType {
    ghost from_gives = { λ integer t. t ≡ of_integer integer };

    fn from(integer: IntegerType) -> DataType {
        match integer {
            IntegerType::Int8 => DataType::Int8,
            IntegerType::Int16 => DataType::Int16,
            IntegerType::Int32 => DataType::Int32,
            IntegerType::Int64 => DataType::Int64,
            IntegerType::UInt8 => DataType::UInt8,
            IntegerType::UInt16 => DataType::UInt16,
            IntegerType::UInt32 => DataType::UInt32,
            IntegerType::UInt64 => DataType::UInt64,
        }
    }
}

/// Returns the logical type that belongs to a native type: the type of the same name where there is one,
/// `Decimal(32, 32)` for `Int128`, `Decimal256(32, 32)` for `Int256`, `Interval(DayTime)` for `DaysMs`, and
/// `Interval(MonthDayNano)` for `MonthDayNano`.
impl From<PrimitiveType> for DataType {
    ghost from_gives = { λ primitive t. t ≡ of_primitive primitive };

    fn from(primitive: PrimitiveType) -> DataType {
        match primitive {
            PrimitiveType::Int8 => DataType::Int8,
            PrimitiveType::Int16 => DataType::Int16,
            PrimitiveType::Int32 => DataType::Int32,
            PrimitiveType::Int64 => DataType::Int64,
            PrimitiveType::Int128 => DataType::Decimal(32, 32),
            PrimitiveType::Int256 => DataType::Decimal256(32, 32),
            PrimitiveType::UInt8 => DataType::UInt8,
            PrimitiveType::UInt16 => DataType::UInt16,
            PrimitiveType::UInt32 => DataType::UInt32,
            PrimitiveType::UInt64 => DataType::UInt64,
            PrimitiveType::Float16 => DataType::Float16,
            PrimitiveType::Float32 => DataType::Float32,
            PrimitiveType::Float64 => DataType::Float64,
            PrimitiveType::DaysMs => DataType::Interval(IntervalUnit::DayTime),
            PrimitiveType::MonthDayNano => DataType::Interval(IntervalUnit::MonthDayNano),
        }
    }
}

impl UnionMode {
    /// Returns `Sparse` if `is_sparse`, else `Dense`.
    pub fn sparse(is_sparse: bool) -> UnionMode
        ensures { result ≡ (if is_sparse then UnionMode.Sparse else UnionMode.Dense) }
    {
        if is_sparse {
            UnionMode::Sparse
        } else {
            UnionMode::Dense
        }
    }

    /// Returns whether it is `Sparse`.
    pub fn is_sparse(&self) -> bool
        ensures { IsTrue result ↔ (self.now ≡ UnionMode.Sparse) }
    {
        matches!(self, UnionMode::Sparse)
    }

    /// Returns whether it is `Dense`.
    pub fn is_dense(&self) -> bool
        ensures { IsTrue result ↔ (self.now ≡ UnionMode.Dense) }
    {
        matches!(self, UnionMode::Dense)
    }
}

/// Returns the extension in the metadata of a field: its name, which is the text under `ARROW:extension:name`, and its
/// metadata, which is the text under `ARROW:extension:metadata` if there is one. Returns `None` where there is no name,
/// even if there is a text under `ARROW:extension:metadata`.
///
/// arrow2 returns no `Result`.
///
/// # Errors
///
/// Only `OutOfMemory`, and only where there is a name.
pub fn get_extension(metadata: &Metadata) -> Result<Option<(String, Option<String>)>>
    ensures ok { IfOk result (λ found. texts found ≡ extension metadata.now) }
    ensures succeeds { get_by_text metadata.now (codes "ARROW:extension:name") ≡ None →
        IsOk result }
    ensures only { OnlyOutOfMemory result }
{
    let Some(name) = metadata.get("ARROW:extension:name") else {
        return Ok(None);
    };
    let name = name.clone()?;
    match metadata.get("ARROW:extension:metadata") {
        Some(text) => Ok(Some((name, Some(text.clone()?)))),
        None => Ok(Some((name, None))),
    }
}
