//! Known bytes of native values, and the texts of errors.
use super::checks::{bytes_of, error_of, has_bytes, prints, shows, text};
use arrow2_types::{Error, PrimitiveType as Type};
use std::alloc::Global;
use std::io;
use std::process::Abort;

#[test]
fn numbers_are_their_digits(rt: HostRuntime) {
    has_bytes(&rt, 0x9au8, Type::UInt8, &[0x9a], &[0x9a]);
    has_bytes(&rt, 0x1234u16, Type::UInt16, &[0x34, 0x12], &[0x12, 0x34]);
    let (little, big) = ([0x78, 0x56, 0x34, 0x12], [0x12, 0x34, 0x56, 0x78]);
    has_bytes(&rt, 305419896u32, Type::UInt32, &little, &big);
    let (little, big) = ([0, 0, 0, 0, 1, 0, 0, 0], [0, 0, 0, 1, 0, 0, 0, 0]);
    has_bytes(&rt, 1u64 << 32, Type::UInt64, &little, &big);
    has_bytes(&rt, -1i8, Type::Int8, &[255], &[255]);
    has_bytes(&rt, -2i16, Type::Int16, &[254, 255], &[255, 254]);
    has_bytes(&rt, i32::MIN, Type::Int32, &[0, 0, 0, 128], &[128, 0, 0, 0]);
    let little = [255, 255, 255, 255, 255, 255, 255, 127];
    let big = [127, 255, 255, 255, 255, 255, 255, 255];
    has_bytes(&rt, i64::MAX, Type::Int64, &little, &big);
    let little = [3, 0, 0, 0, 0, 0, 0, 0, 0, 0, 0, 0, 0, 0, 0, 0];
    let big = [0, 0, 0, 0, 0, 0, 0, 0, 0, 0, 0, 0, 0, 0, 0, 3];
    has_bytes(&rt, 3i128, Type::Int128, &little, &big);
}

/// The text of the errors.
fn b(rt: &impl Abort, alloc: Global) -> String {
    text(rt, alloc, "b")
}

/// An error that ends here prints as the text.
fn reads(rt: &impl Abort, alloc: Global, error: Error, text: &str) {
    prints(rt, alloc, &error, text);
}

#[test]
fn errors_print_their_texts(rt: HostRuntime) {
    let alloc = rt.alloc();
    let error = Error::NotYetImplemented(b(&rt, alloc));
    reads(&rt, alloc, error, "Not yet implemented: b");
    let error = Error::InvalidArgumentError(b(&rt, alloc));
    reads(&rt, alloc, error, "Invalid argument error: b");
    let error = Error::ExternalFormat(b(&rt, alloc));
    reads(&rt, alloc, error, "External format error: b");
    reads(&rt, alloc, Error::OutOfSpec(b(&rt, alloc)), "b");
    let error = Error::External(text(&rt, alloc, "a"), b(&rt, alloc));
    reads(&rt, alloc, error, "External errora: b");
    let error = Error::from_external_error(alloc, &"x");
    reads(&rt, alloc, error, "External error: x");
    let text = "Operation overflew the backing container.";
    reads(&rt, alloc, Error::Overflow, text);
    reads(&rt, alloc, Error::OutOfMemory, "Out of memory");
}

#[test]
fn errors_of_others_keep_their_texts(rt: HostRuntime) {
    let alloc = rt.alloc();
    let no_text = [255].as_slice();
    let error = error_of(&rt, std::str::from_utf8(no_text));
    let text = "External error: invalid utf-8 sequence of 1 bytes from index 0";
    reads(&rt, alloc, Error::from_utf8_error(alloc, error), text);
    let error = error_of(&rt, String::from_utf8(bytes_of(&rt, alloc, no_text)));
    let error = Error::from_string_utf8_error(alloc, error);
    reads(&rt, alloc, error, text);
    let error = error_of(&rt, simdutf8::basic::from_utf8(no_text));
    let text = "External error: invalid utf-8 sequence";
    let error = Error::from_basic_utf8_error(alloc, error);
    reads(&rt, alloc, error, text);
    let error = Error::from(io::Error::from(io::ErrorKind::NotFound));
    reads(&rt, alloc, error, "Io error: entity not found");
}

#[test]
fn derived_texts_name_the_variant(rt: HostRuntime) {
    let alloc = rt.alloc();
    let error = Error::InvalidArgumentError(text(&rt, alloc, "x"));
    shows(&rt, alloc, &Error::Overflow, "Overflow");
    shows(&rt, alloc, &error, "InvalidArgumentError(\"x\")");
    shows(&rt, alloc, &Type::UInt8, "UInt8");
}
