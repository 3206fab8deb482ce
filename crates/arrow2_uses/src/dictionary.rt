//! A column type of a caller's own, made of two of arrow2's arrays: texts that repeat, each stored once.
ghost use Rattle.std.specs.Prelude.{◌≡◌, ◌↔◌, ◌+◌, ◌<◌, ◌≤◌, [], All, None, codes, pos, length, map, option_map, refl, slice_index_or, unwrap_or, IfOk, IsOk, IsTrue, option_copied};
ghost use Rattle.arrow2.specs.Binary.{binary_items};
ghost use Rattle.arrow2.specs.Lists.{part, items_of};
ghost use Rattle.arrow2.specs.Primitive.{primitive_items};
ghost use Rattle.arrow2.specs.Failures.{FailsOnlyWith, IsInvalidArgumentOrOutOfMemory, OnlyOutOfMemory, OnlyOverflowOrOutOfMemory};
ghost use Rattle.arrow2.specs.Selections.{selection};
ghost use Rattle.arrow2.specs.Take.{IsInBoundsOrNull, item_at};

use arrow2::array::{
    ArrayAccessor, ArrayIter, MutableUtf8Array, PrimitiveArray, SeenBytes, Utf8Array,
};
use arrow2::bitmap::Bitmap;
use arrow2::compute::filter::filter;
use arrow2::error::{Error, Result};
use std::alloc::Global;
use std::marker::Model;

/// A column of texts, in which a repeated text can be stored once. Contracts see the list of its items, each `None` or
/// the bytes of a text.
#[derive(Drop)]
pub struct Dictionary {
    keys: PrimitiveArray<u32>,
    texts: Utf8Array<i32>,
}

impl Model for Dictionary {
    ghost use Rattle.std.specs.Prelude.{ℕ, List, Option, All, pos, length, map};
    ghost use Rattle.arrow2.specs.Binary.{binary_items};
    ghost use Rattle.arrow2.specs.Primitive.{primitive_items};
    ghost use Rattle.arrow2.specs.Take.{IsInBoundsOrNull, item_at};

    ghost Value = { List (Option (List ℕ)) };

    ghost view = { λ d. map (item_at (λ key. pos key) (binary_items d.texts)) (primitive_items d.keys) };

    ghost invariant = { λ d. All (IsInBoundsOrNull (λ key. pos key) (length (binary_items d.texts)))
        (primitive_items d.keys) };
}

#[tactic(auto, using(arrow2::proofs::Keys::keys))]
impl Dictionary {
    /// Returns the column of the texts at these keys, null where the key or its text is null. Requires that each key
    /// is null or below the number of texts.
    pub fn new(keys: PrimitiveArray<u32>, texts: Utf8Array<i32>) -> Dictionary
        requires inside { All (IsInBoundsOrNull (λ key. pos key) (length (binary_items texts)))
            (primitive_items keys) }
        ensures { result ≡ map (item_at (λ key. pos key) (binary_items texts)) (primitive_items keys) }
    {
        Dictionary { keys, texts }
    }

    /// Returns the column of the texts at these keys, null where the key or its text is null.
    ///
    /// # Errors
    ///
    /// Returns an error exactly if a key is neither null nor below the number of texts. The error is
    /// `InvalidArgumentError`, or `OutOfMemory`. The code returns `OutOfMemory` only if the message of
    /// `InvalidArgumentError` cannot be allocated; no clause states that.
    pub fn try_new(keys: PrimitiveArray<u32>, texts: Utf8Array<i32>) -> Result<Dictionary>
        ensures accepted { IsOk result ↔ All (IsInBoundsOrNull (λ key. pos key) (length (binary_items texts)))
            (primitive_items keys) }
        ensures ok { IfOk result (λ d. d
            ≡ map (item_at (λ key. pos key) (binary_items texts)) (primitive_items keys)) }
        ensures rejected { FailsOnlyWith result (codes "key out of bounds") }
    {
        if !are_in_bounds(&keys, texts.len()) {
            return Err(out_of_bounds(texts.values().allocator()));
        }
        Ok(Dictionary::new(keys, texts))
    }

    /// Returns the number of items.
    pub fn len(&self) -> usize
        ensures { result ≡ length self.now }
    {
        self.keys.len()
    }

    /// Returns item `index`, or `None` where it is null. Requires that `index` is below the length.
    pub fn get(&self, index: usize) -> Option<&str>
        requires below { index < length self.now }
        ensures { option_copied result ≡ slice_index_or self.now index None }
    {
        text_at(&self.texts, self.keys.get(index))
    }

    /// Returns a double-ended iterator over the items.
    pub fn iter(&self) -> ArrayIter<&Dictionary>
        ensures { result ≡ self.now }
    {
        ArrayIter::new(self)
    }

    /// Keeps `len` items from item `offset` on. Requires that `offset + len` is at most the length.
    pub fn slice(&mut self, offset: usize, len: usize)
        requires inside { offset + len ≤ length self.old }
        ensures { self.new ≡ part self.old offset len }
    {
        self.keys.slice(offset, len);
    }

    /// Returns the items at whose index the mask is true. Requires that the mask has the length of the column.
    ///
    /// # Errors
    ///
    /// Only `OutOfMemory`.
    pub fn filter(&self, mask: &Bitmap) -> Result<Dictionary>
        requires same_length { length (items_of mask.now) ≡ length self.now }
        ensures ok { IfOk result (λ d. d ≡ selection self.now (items_of mask.now)) }
        ensures only { OnlyOutOfMemory result }
    {
        let keys = filter(&self.keys, mask)?;
        let texts = self.texts.clone()?;
        Ok(Dictionary { keys, texts })
    }

    /// Returns the items as a column of texts.
    ///
    /// # Errors
    ///
    /// `Overflow` or `OutOfMemory`.
    pub fn decode(&self) -> Result<Utf8Array<i32>>
        ensures ok { IfOk result (λ t. binary_items t ≡ self.now) }
        ensures only { OnlyOverflowOrOutOfMemory result }
    {
        let mut decoded = MutableUtf8Array::new(self.texts.values().allocator())?;
        for index in 0..self.len() {
            decoded.push(self.get(index))?;
        }
        Ok(decoded.freeze()?)
    }
}

/// A null has no text of its own: its value is empty.
impl<'a> ArrayAccessor for &'a Dictionary {
    type Value = &'a str;

    type Seen = SeenBytes;

    ghost value = { λ text. text.now };

    ghost item = { option_map (λ text. text.now) };

    ghost items = { λ d. d.now };

    ghost values = { λ d. map (λ item. unwrap_or item []) d.now };

    fn count(self) -> usize {
        self.len()
    }

    fn value_at(self, index: usize) -> &'a str {
        self.get(index).unwrap_or("")
    }

    fn item_at(self, index: usize) -> Option<&'a str> {
        self.get(index)
    }

    ghost item_of_value = { λ item. refl };
}

/// Returns whether each key is null or below `len`.
fn are_in_bounds(keys: &PrimitiveArray<u32>, len: usize) -> bool
    ensures { IsTrue result ↔ All (IsInBoundsOrNull (λ key. pos key) len) (primitive_items keys.now) }
{
    keys.iter().all(|key| is_in_bounds(key, len))
}

/// Returns whether a key is null or below `len`.
fn is_in_bounds(key: Option<u32>, len: usize) -> bool
    ensures { IsTrue result ↔ IsInBoundsOrNull (λ key. pos key) len key }
{
    match key {
        Some(key) => (key as usize) < len,
        None => true,
    }
}

/// Returns the error for a key.
fn out_of_bounds(alloc: Global) -> Error
    ensures { IsInvalidArgumentOrOutOfMemory result (codes "key out of bounds") }
{
    match String::from_str(alloc, "key out of bounds") {
        Ok(message) => Error::InvalidArgumentError(message),
        Err(_) => Error::OutOfMemory,
    }
}

/// Returns the text at a key, or `None` where the key or the text is null. Requires that the key is null or below the
/// number of texts.
fn text_at(texts: &Utf8Array<i32>, key: Option<u32>) -> Option<&str>
    requires inside { IsInBoundsOrNull (λ key. pos key) (length (binary_items texts.now)) key }
    ensures { option_copied result ≡ item_at (λ key. pos key) (binary_items texts.now) key }
{
    match key {
        Some(key) => texts.get(key as usize),
        None => None,
    }
}
