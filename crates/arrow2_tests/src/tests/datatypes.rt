//! Worked examples of the type tables, of extensions and of filtered schemas, and derived texts.
use super::checks::{assert_that, has, ok, shows, text};
use arrow2_datatypes::{
    DataType, Field, IntegerType, IntervalUnit, Metadata, PhysicalType, PrimitiveType, Schema,
    TimeUnit, UnionMode, get_extension,
};
use std::alloc::Global;
use std::fmt::Debug;
use std::hash::{DefaultHasher, Hash, Hasher};
use std::process::Abort;

/// An extension of the name, with no text of its own.
fn extension(rt: &impl Abort, alloc: Global, name: &str, inner: DataType) -> DataType {
    let inner = ok(rt, Box::new(alloc, inner));
    DataType::Extension(text(rt, alloc, name), inner, None)
}

/// A field of bytes.
fn field(rt: &impl Abort, alloc: Global, name: &str) -> Field {
    Field::new(alloc, text(rt, alloc, name), DataType::UInt8, false)
}

/// A text more under a name.
fn annotate(rt: &impl Abort, alloc: Global, metadata: &mut Metadata, name: &str, value: &str) {
    let _ = ok(
        rt,
        metadata.insert(text(rt, alloc, name), text(rt, alloc, value)),
    );
}

/// Two values are equal.
fn is_equal<T: PartialEq>(rt: &impl Abort, value: &T, wanted: &T) {
    assert_that(rt, *value == *wanted);
}

/// Two values differ.
fn differs<T: PartialEq + Drop>(rt: &impl Abort, value: &T, other: T) {
    assert_that(rt, *value != other);
}

/// A copy of the value is equal to it.
fn is_copied<T: PartialEq + Clone + Drop>(rt: &impl Abort, value: &T) {
    let copy = ok(rt, value.clone());
    is_equal(rt, &copy, value);
}

/// The hash of a type.
fn hash(data_type: &DataType) -> u64 {
    let mut state = DefaultHasher::new();
    data_type.hash(&mut state);
    state.finish()
}

/// A type is this one.
fn is_type(rt: &impl Abort, data_type: DataType, wanted: DataType) {
    is_equal(rt, &data_type, &wanted);
}

/// A type is laid out as a primitive one.
fn is_primitive(rt: &impl Abort, data_type: DataType, primitive: PrimitiveType) {
    let physical = data_type.to_physical_type();
    assert_that(rt, physical.eq_primitive(primitive));
    is_equal(rt, &physical, &PhysicalType::Primitive(primitive));
}

#[test]
fn extensions_are_what_they_extend(rt: HostRuntime) {
    let alloc = rt.alloc();
    let inner = extension(&rt, alloc, "y", DataType::Int8);
    let outer = extension(&rt, alloc, "x", inner);
    is_equal(&rt, outer.to_logical_type(), &DataType::Int8);
    is_primitive(&rt, outer, PrimitiveType::Int8);
    let int8 = PhysicalType::Primitive(PrimitiveType::Int8);
    has(&rt, &[int8.eq_primitive(PrimitiveType::UInt8)], &[false]);
}

#[test]
fn types_are_laid_out_by_the_table(rt: HostRuntime) {
    let values = ok(&rt, Box::new(rt.alloc(), DataType::Utf8));
    let dictionary = DataType::Dictionary(IntegerType::UInt8, values, false);
    let physical = PhysicalType::Dictionary(IntegerType::UInt8);
    is_equal(&rt, &dictionary.to_physical_type(), &physical);
    let interval = DataType::Interval(IntervalUnit::DayTime);
    is_primitive(&rt, interval, PrimitiveType::DaysMs);
    let time = DataType::Time32(TimeUnit::Second);
    is_primitive(&rt, time, PrimitiveType::Int32);
    let decimal = DataType::from(PrimitiveType::Int128);
    is_type(&rt, decimal, DataType::Decimal(32, 32));
    let decimal = DataType::from(PrimitiveType::Int128);
    is_primitive(&rt, decimal, PrimitiveType::Int128);
    is_type(&rt, DataType::from(IntegerType::UInt16), DataType::UInt16);
    assert_that(&rt, UnionMode::sparse(true).is_sparse());
    assert_that(&rt, UnionMode::sparse(false).is_dense());
}

/// The metadata names this extension, with its text.
fn names(rt: &impl Abort, metadata: &Metadata, wanted: Option<(String, Option<String>)>) {
    is_equal(rt, &ok(rt, get_extension(metadata)), &wanted);
}

/// Metadata of one text under a name.
fn metadata_of(rt: &impl Abort, alloc: Global, name: &str, value: &str) -> Metadata {
    let mut metadata = Metadata::new(alloc);
    annotate(rt, alloc, &mut metadata, name, value);
    metadata
}

#[test]
fn metadata_names_an_extension(rt: HostRuntime) {
    let alloc = rt.alloc();
    let (name, value) = ("ARROW:extension:name", "ARROW:extension:metadata");
    names(&rt, &Metadata::new(alloc), None);
    let wanted = Some((text(&rt, alloc, "a"), None));
    names(&rt, &metadata_of(&rt, alloc, name, "a"), wanted);
    let mut metadata = metadata_of(&rt, alloc, value, "b");
    names(&rt, &metadata, None);
    annotate(&rt, alloc, &mut metadata, name, "a");
    let wanted = Some((text(&rt, alloc, "a"), Some(text(&rt, alloc, "b"))));
    names(&rt, &metadata, wanted);
}

/// A schema has fields of these names.
fn has_fields(rt: &impl Abort, schema: &Schema, wanted: &[&str]) {
    assert_that(rt, schema.fields.len() == wanted.len());
    for (field, name) in schema.fields.iter().zip(wanted) {
        assert_that(rt, field.name.as_str() == *name);
    }
}

/// A schema of three fields, with metadata.
fn three_fields(rt: &impl Abort, alloc: Global) -> Schema {
    let (a, b) = (field(rt, alloc, "a"), field(rt, alloc, "b"));
    let fields = ok(rt, vec![in alloc; a, b, field(rt, alloc, "c")]);
    Schema::from_fields(alloc, fields).with_metadata(metadata_of(rt, alloc, "k", "v"))
}

#[test]
fn a_filter_goes_by_the_original_indices(rt: HostRuntime) {
    let alloc = rt.alloc();
    let schema = three_fields(&rt, alloc);
    is_copied(&rt, &schema);
    let even = schema.filter(|index, _| index % 2 == 0);
    has_fields(&rt, &even, &["a", "c"]);
    is_equal(&rt, &even.metadata, &metadata_of(&rt, alloc, "k", "v"));
    let named = even.filter(|_, field| field.name.as_str() == "c");
    has_fields(&rt, &named, &["c"]);
}

#[test]
fn a_copy_of_a_field_is_equal_and_hashes_alike(rt: HostRuntime) {
    let alloc = rt.alloc();
    let one = field(&rt, alloc, "a").with_metadata(metadata_of(&rt, alloc, "k", "v"));
    is_copied(&rt, &one);
    is_equal(&rt, one.data_type(), &DataType::UInt8);
    let list = DataType::List(ok(&rt, Box::new(alloc, one)));
    is_copied(&rt, &list);
    let copy = ok(&rt, list.clone());
    has(&rt, &[hash(&copy)], &[hash(&list)]);
}

#[test]
fn values_of_other_parts_differ(rt: HostRuntime) {
    let alloc = rt.alloc();
    differs(&rt, &DataType::Int8, DataType::UInt8);
    differs(&rt, &DataType::Decimal(3, 2), DataType::Decimal(3, 1));
    let one = field(&rt, alloc, "a");
    differs(&rt, &one, field(&rt, alloc, "b"));
    let nullable = Field::new(alloc, text(&rt, alloc, "a"), DataType::UInt8, true);
    differs(&rt, &one, nullable);
    let annotated = field(&rt, alloc, "a").with_metadata(metadata_of(&rt, alloc, "k", "v"));
    differs(&rt, &one, annotated);
    let schema = three_fields(&rt, alloc);
    let even = three_fields(&rt, alloc).filter(|index, _| index % 2 == 0);
    differs(&rt, &schema, even);
    let list = DataType::List(ok(&rt, Box::new(alloc, one)));
    let other = ok(&rt, Box::new(alloc, field(&rt, alloc, "b")));
    differs(&rt, &list, DataType::List(other));
}

/// A value that ends here prints as the text where it is debugged.
fn is_shown<T: Debug + Drop>(rt: &impl Abort, alloc: Global, value: T, text: &str) {
    shows(rt, alloc, &value, text);
}

#[test]
fn derived_texts_name_the_parts(rt: HostRuntime) {
    let alloc = rt.alloc();
    let dictionary = PhysicalType::Dictionary(IntegerType::Int8);
    shows(&rt, alloc, &dictionary, "Dictionary(Int8)");
    shows(&rt, alloc, &UnionMode::Dense, "Dense");
    let time = DataType::Timestamp(TimeUnit::Second, None);
    is_shown(&rt, alloc, time, "Timestamp(Second, None)");
    let interval = DataType::Interval(IntervalUnit::YearMonth);
    is_shown(&rt, alloc, interval, "Interval(YearMonth)");
    let text = "Field { name: \"a\", data_type: UInt8, is_nullable: false, metadata: {} }";
    is_shown(&rt, alloc, field(&rt, alloc, "a"), text);
    let schema = Schema::from_fields(alloc, Vec::new(alloc));
    is_shown(&rt, alloc, schema, "Schema { fields: [], metadata: {} }");
}
