//! Arrays of byte strings and of texts, as iterators read them.
ghost use Rattle.std.specs.Prelude.{option_map, refl};
ghost use Rattle.arrow2_text.specs.Binary.{binary_items, binary_values};

use crate::binary::BinaryArray;
use crate::utf8::Utf8Array;
use arrow2_index::OffsetNumber;
use arrow2_walks::{ArrayAccessor, ArrayIter, ArrayValuesIter};
use std::marker::Model;

/// The bytes of a value, as contracts see them: a list of numbers. No code has a value of this type.
pub struct Bytes;

impl Model for Bytes {
    ghost use Rattle.std.specs.Prelude.{ℕ, List, []};

    ghost Value = { List ℕ };

    ghost view = { λ b. [] };
}

/// The iterator over the items of an array of byte strings.
///
/// In arrow2 it is a `ZipValidity`.
pub type BinaryIter<'a, O> = ArrayIter<&'a BinaryArray<O>>;

/// The iterator over the items of an array of texts.
///
/// In arrow2 it is a `ZipValidity`.
pub type Utf8Iter<'a, O> = ArrayIter<&'a Utf8Array<O>>;

/// The iterator over the values of an array of byte strings, those under nulls too.
pub type BinaryValueIter<'a, O> = ArrayValuesIter<&'a BinaryArray<O>>;

/// The iterator over the values of an array of texts, those under nulls too.
pub type Utf8ValuesIter<'a, O> = ArrayValuesIter<&'a Utf8Array<O>>;

impl<'a, O: OffsetNumber> ArrayAccessor for &'a BinaryArray<O> {
    type Value = &'a [u8];

    type Seen = Bytes;

    ghost value = { λ value. value.now };

    ghost item = { option_map (λ value. value.now) };

    ghost items = { λ a. binary_items a.now };

    ghost values = { λ a. binary_values a.now };

    fn count(self) -> usize {
        self.len()
    }

    fn value_at(self, index: usize) -> &'a [u8] {
        self.value(index)
    }

    fn item_at(self, index: usize) -> Option<&'a [u8]> {
        self.get(index)
    }

    ghost item_of_value = { λ item. refl };
}

impl<'a, O: OffsetNumber> ArrayAccessor for &'a Utf8Array<O> {
    type Value = &'a str;

    type Seen = Bytes;

    ghost value = { λ value. value.now };

    ghost item = { option_map (λ value. value.now) };

    ghost items = { λ a. binary_items a.now };

    ghost values = { λ a. binary_values a.now };

    fn count(self) -> usize {
        self.len()
    }

    fn value_at(self, index: usize) -> &'a str {
        self.value(index)
    }

    fn item_at(self, index: usize) -> Option<&'a str> {
        self.get(index)
    }

    ghost item_of_value = { λ item. refl };
}
