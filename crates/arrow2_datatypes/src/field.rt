//! A column's name, type, nullability and metadata.
ghost use Rattle.std.specs.Prelude.{◌≡◌};
ghost use Rattle.std.specs.BTreeMap.{IsEmpty};

use crate::{DataType, Metadata};
use std::alloc::Global;
use std::collections::BTreeMap;

/// A column, or a part of a nested one: a name and a logical type.
///
/// # Examples
///
/// ```rust
/// use arrow2::datatypes::{DataType, Field};
///
/// let name = String::from_str(alloc, "price")?;
/// let price = Field::new(alloc, name, DataType::Int64, true);
/// ```
#[cycle(types)]
#[derive(Debug, Clone, PartialEq, Eq, Hash, Drop)]
pub struct Field {
    /// The name.
    pub name: String,
    /// Its logical type.
    pub data_type: DataType,
    /// Whether the column may have nulls.
    pub is_nullable: bool,
    /// The metadata of the field.
    pub metadata: Metadata,
}

impl Field {
    /// Returns a field with no metadata. Does not allocate: the map of the metadata keeps `alloc` for later. arrow2's
    /// `new` takes no allocator.
    pub fn new(alloc: Global, name: String, data_type: DataType, is_nullable: bool) -> Field
        ensures name { result.name ≡ name }
        ensures data_type { result.data_type ≡ data_type }
        ensures is_nullable { result.is_nullable ≡ is_nullable }
        ensures metadata { IsEmpty result.metadata }
    {
        Field {
            name,
            data_type,
            is_nullable,
            metadata: BTreeMap::new(alloc),
        }
    }

    /// Returns the same field with this metadata instead of its own.
    pub fn with_metadata(self, metadata: Metadata) -> Field
        ensures { result ≡ record self { metadata = metadata } }
    {
        Field {
            name: self.name,
            data_type: self.data_type,
            is_nullable: self.is_nullable,
            metadata,
        }
    }

    /// Returns the logical type.
    pub fn data_type(&self) -> &DataType
        ensures { result.now ≡ self.now.data_type }
    {
        &self.data_type
    }
}
