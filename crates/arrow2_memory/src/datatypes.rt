//! Errors that keep the text of another error; data types, fields and schemas.
use crate::calls::{Row, input, show_results};
use arrow2_datatypes::{DataType, Field, Metadata, Schema, get_extension};
use arrow2_types::{Error, Result};
use std::alloc::Global;
use std::io::{Eprint, Print};

/// What `get_extension` returns: the name of an extension, and its metadata.
type Extension = Option<(String, Option<String>)>;

/// The error that a call returned, as the result of the call: `Err` where it is `OutOfMemory`.
fn returned(error: Error) -> Result<Error> {
    match error {
        Error::OutOfMemory => Err(error),
        _ => Ok(error),
    }
}

/// The error of bytes that are not UTF-8.
fn of_bytes(alloc: Global) -> Result<Error> {
    let Err(error) = std::str::from_utf8(&[0xff]) else {
        return Err(Error::Overflow);
    };
    returned(Error::from_utf8_error(alloc, error))
}

/// The error of a vector of such bytes.
fn of_vector(alloc: Global) -> Result<Error> {
    let bytes = input(vec![in alloc; 0xffu8].map_err(Error::from))?;
    let Err(error) = String::from_utf8(bytes) else {
        return Err(Error::Overflow);
    };
    returned(Error::from_string_utf8_error(alloc, error))
}

/// The error of another validation of such bytes.
fn of_validation(alloc: Global) -> Result<Error> {
    let Err(error) = simdutf8::basic::from_utf8(&[0xff]) else {
        return Err(Error::Overflow);
    };
    returned(Error::from_basic_utf8_error(alloc, error))
}

/// Errors that keep the text of another error.
fn errors(alloc: Global) -> [Row<Error>; 4] {
    let error = Error::from_external_error(alloc, &Error::Overflow);
    [
        ("Error::from_external_error", returned(error)),
        ("Error::from_utf8_error", of_bytes(alloc)),
        ("Error::from_string_utf8_error", of_vector(alloc)),
        ("Error::from_basic_utf8_error", of_validation(alloc)),
    ]
}

/// A text.
fn text(alloc: Global, text: &str) -> Result<String> {
    input(String::from_str(alloc, text).map_err(Error::from))
}

/// Metadata that has a name and metadata of an extension.
fn metadata(alloc: Global) -> Result<Metadata> {
    let mut metadata = Metadata::new(alloc);
    for key in ["ARROW:extension:name", "ARROW:extension:metadata"] {
        let (key, value) = (text(alloc, key)?, text(alloc, "a text of some length")?);
        input(metadata.insert(key, value).map_err(Error::from))?;
    }
    Ok(metadata)
}

/// The extension of a field.
fn extension(alloc: Global) -> Result<Extension> {
    get_extension(&metadata(alloc)?)
}

/// Extensions of fields.
fn extensions(alloc: Global) -> [Row<Extension>; 1] {
    [("get_extension", extension(alloc))]
}

/// A field with metadata.
fn field(alloc: Global) -> Result<Field> {
    let name = text(alloc, "a name of some length")?;
    Ok(Field::new(alloc, name, DataType::Int32, true).with_metadata(metadata(alloc)?))
}

/// The type of lists of such fields.
fn data_type(alloc: Global) -> Result<DataType> {
    let item = input(Box::new(alloc, field(alloc)?).map_err(Error::from))?;
    Ok(DataType::List(item))
}

/// A schema of one field.
fn schema(alloc: Global) -> Result<Schema> {
    let fields = input(vec![in alloc; field(alloc)?].map_err(Error::from))?;
    Ok(Schema::from_fields(alloc, fields).with_metadata(metadata(alloc)?))
}

/// A clone of a value that was made.
fn copy<T: Clone + Drop>(made: Result<T>) -> Result<T> {
    Ok(made?.clone()?)
}

/// Data types.
fn data_types(alloc: Global) -> [Row<DataType>; 1] {
    [("Clone for DataType", copy(data_type(alloc)))]
}

/// Fields.
fn fields(alloc: Global) -> [Row<Field>; 1] {
    [("Clone for Field", copy(field(alloc)))]
}

/// Schemas.
fn schemas(alloc: Global) -> [Row<Schema>; 1] {
    [("Clone for Schema", copy(schema(alloc)))]
}

/// Makes each of these calls.
pub(crate) fn all<R: Print + Eprint>(rt: &R, alloc: Global) {
    show_results(rt, &errors(alloc), &errors(alloc));
    show_results(rt, &extensions(alloc), &extensions(alloc));
    show_results(rt, &data_types(alloc), &data_types(alloc));
    show_results(rt, &fields(alloc), &fields(alloc));
    show_results(rt, &schemas(alloc), &schemas(alloc));
}
