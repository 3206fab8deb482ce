//! The values that can be appended as items: byte strings, texts, and options of them.
ghost use Rattle.std.specs.Prelude.{◌≡◌, ℕ, List, Option, Some, IfSome, option_copied};

use crate::byte_array_type::{BinaryType, ByteArrayType, Utf8Type};

/// A value that can be appended as an item to an array for `T`. A loop over such values serves byte strings and texts,
/// with nulls and without.
pub(crate) trait AsItem<T: ByteArrayType>: Copy {
    // The item: its bytes, or None where it is null.
    ghost item: { Self → Option (List ℕ) };

    /// Returns the bytes, or `None` where it is null.
    fn as_item(&self) -> Option<&[u8]>
        ensures value { option_copied result ≡ item self.now }
        ensures known { IfSome (item self.now) T.IsValue };
}

impl<'a> AsItem<BinaryType> for &'a [u8] {
    ghost item = { λ value. Some value.now };

    fn as_item(&self) -> Option<&[u8]> {
        Some(*self)
    }
}

impl<'a> AsItem<Utf8Type> for &'a str {
    ghost item = { λ value. Some value.now };

    fn as_item(&self) -> Option<&[u8]> {
        Some(self.as_bytes())
    }
}

impl<'a> AsItem<BinaryType> for Option<&'a [u8]> {
    ghost item = { option_copied };

    fn as_item(&self) -> Option<&[u8]> {
        *self
    }
}

impl<'a> AsItem<Utf8Type> for Option<&'a str> {
    ghost item = { option_copied };

    fn as_item(&self) -> Option<&[u8]> {
        match self {
            Some(text) => Some(text.as_bytes()),
            None => None,
        }
    }
}
