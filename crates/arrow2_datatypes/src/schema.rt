//! The columns of a table.
ghost use Rattle.std.specs.Prelude.{◌≡◌, ℕ, Bool, length};
ghost use Rattle.std.specs.BTreeMap.{IsEmpty};
ghost use Rattle.arrow2_datatypes.specs.declared.field.Field.{Field};
ghost use Rattle.arrow2_datatypes.specs.Filter.{ReturnsOnFields, IsCallableWithFields, filter_indexed};

use crate::{Field, Metadata};
use std::alloc::Global;
use std::collections::BTreeMap;

/// The fields of a table in order, and the metadata of the schema.
///
/// # Examples
///
/// ```rust
/// use arrow2::datatypes::{DataType, Field, Schema};
///
/// let name = String::from_str(alloc, "price")?;
/// let price = Field::new(alloc, name, DataType::Int64, true);
/// let schema = Schema::from_fields(alloc, vec![in alloc; price]?);
/// assert!(rt; schema.fields.len() == 1);
/// ```
#[derive(Debug, Clone, PartialEq, Eq, Drop)]
pub struct Schema {
    /// The fields.
    pub fields: Vec<Field>,
    /// The metadata of the schema.
    pub metadata: Metadata,
}

impl Schema {
    /// Returns the schema of these fields, with no metadata. Does not allocate.
    ///
    /// Stands for arrow2's `From<Vec<Field>>`, and with an empty vector for its `Default`.
    pub fn from_fields(alloc: Global, fields: Vec<Field>) -> Schema
        ensures fields { result.fields ≡ fields }
        ensures metadata { IsEmpty result.metadata }
    {
        Schema {
            fields,
            metadata: BTreeMap::new(alloc),
        }
    }

    /// Returns the schema of the same fields with this metadata in place of its own.
    pub fn with_metadata(self, metadata: Metadata) -> Schema
        ensures fields { result.fields ≡ self.fields }
        ensures metadata { result.metadata ≡ metadata }
    {
        Schema {
            fields: self.fields,
            metadata,
        }
    }

    /// Returns the schema of the fields that the predicate accepts, in order, with the same metadata. Calls the
    /// predicate with the index of each field and the field. Requires that the predicate may be called with each index
    /// and the field at that index. The clause `fields` fixes the fields where the contract of the predicate fixes each
    /// result. Does not allocate, unless the predicate does.
    pub fn filter<F: Fn(usize, &Field) -> bool>(self, predicate: F) -> Schema
        requires { IsCallableWithFields (F.pre predicate) self.fields.items }
        ensures fields { (accepts : ℕ → Field → Bool) →
            ReturnsOnFields self.fields.items (F.post predicate) accepts →
            result.fields.items ≡ filter_indexed accepts self.fields.items }
        ensures metadata { result.metadata ≡ self.metadata }
    {
        let mut fields = self.fields;
        let mut kept = 0;
        for index in 0..fields.len() {
            if predicate(index, &fields[index]) {
                fields.swap(kept, index);
                kept += 1;
            }
        }
        fields.truncate(kept);
        Schema {
            fields,
            metadata: self.metadata,
        }
    }
}
