//! The meaning of arrays and their layout: logical types, physical types, fields and schemas.

pub use arrow2_datatypes::{
    DataType, Field, IntegerType, IntervalUnit, Metadata, PhysicalType, PrimitiveType, Schema,
    SchemaRef, TimeUnit, UnionMode, get_extension,
};
