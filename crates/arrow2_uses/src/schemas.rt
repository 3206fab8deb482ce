//! Columns chosen from a schema.
ghost use Rattle.std.specs.Prelude.{◌≡◌, false, length, nat_lt, slice_index_or};
ghost use Rattle.arrow2.specs.Filter.{filter_indexed};
ghost use Rattle.arrow2.specs.Types.{physical};

use arrow2::datatypes::{self, Schema};
use arrow2::laws;

/// Returns the first `count` columns, or all where there are fewer.
pub fn first_columns(schema: Schema, count: usize) -> Schema
    ensures columns { result.fields.items ≡ filter_indexed (λ position _.
        nat_lt position count) schema.fields.items }
    ensures metadata { result.metadata ≡ schema.metadata }
{
    schema.filter(|position, _| position < count)
}

/// Returns the columns that may have nulls.
pub fn nullable_columns(schema: Schema) -> Schema
    ensures columns { result.fields.items ≡ filter_indexed (λ _ field.
        field.is_nullable) schema.fields.items }
    ensures metadata { result.metadata ≡ schema.metadata }
{
    schema.filter(|_, field| field.is_nullable)
}

/// Returns the columns at whose index the mask is true. Requires that the mask has one item for each column.
pub fn masked_columns(schema: Schema, mask: &[bool]) -> Schema
    requires same_length { length mask.now ≡ length schema.fields.items }
    ensures columns { result.fields.items ≡ filter_indexed (λ position _.
        slice_index_or mask.now position false) schema.fields.items }
    ensures metadata { result.metadata ≡ schema.metadata }
{
    schema.filter(|position, _| mask[position])
}

/// Returns the layout of a type, taken from the type without its extensions: a law states that both have the same
/// layout.
pub fn layout(data_type: &datatypes::DataType) -> datatypes::PhysicalType
    ensures { result ≡ physical data_type.now }
{
    laws::datatypes::extensions_are_laid_out_as_what_they_extend();
    data_type.to_logical_type().to_physical_type()
}
