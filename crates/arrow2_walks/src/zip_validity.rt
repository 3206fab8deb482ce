//! Values zipped with their validity, item by item.
ghost use Rattle.std.specs.Prelude.{◌≡◌, ◌⊎◌, ◌<◌, Bool, true, None, Some, MatchOption, IfSome, length};
ghost use Rattle.std.specs.Option.{ForSome};
ghost use Rattle.std.specs.Iterator.{UpTo};
ghost use Rattle.std.specs.Iterator.SizeHint.{IsWithinCount};
ghost use Rattle.arrow2_model.specs.Lists.{falses, items_of};
ghost use Rattle.arrow2_walks.specs.Zipped.{slot};
ghost use Rattle.arrow2_walks.specs.Zips.{values_of, validity_of, either_values, MatchZip, IsRequiredAnd, IsOptionalAnd, GivesAsMany, GiveEquallyMany, zip_validity_steps, either_steps};

use arrow2_bitmap::Bitmap;
use arrow2_bits::BitmapIter;

/// A double-ended iterator over values and their validity: an item is `Some` of the value where the value is valid, and
/// `None` where it is null.
///
/// Differs from arrow2: `nth` is the standard library's default, which calls `next`. There is no type parameter for a
/// value: its type is `I::Item`.
#[derive(Debug, Clone, Drop)]
pub struct ZipValidityIter<I, V> {
    values: I,
    validity: V,
}

impl<I: Iterator, V: Iterator<Item = bool>> ZipValidityIter<I, V> {
    /// Returns an iterator over both. Requires that both iterators give the same number of items. arrow2 compares their
    /// size hints.
    pub fn new(values: I, validity: V) -> ZipValidityIter<I, V>
        requires same_length { GiveEquallyMany I.next_gives V.next_gives values validity }
        ensures values { values_of result ≡ values }
        ensures validity { validity_of result ≡ validity }
    {
        ZipValidityIter { values, validity }
    }
}

/// Returns the item of a value and its validity, or `None` where either iterator has ended.
fn zip<X: Drop>(value: Option<X>, is_valid: Option<bool>) -> Option<Option<X>>
    ensures { MatchOption result ((value ≡ None) ⊎ (is_valid ≡ None)) (λ item.
        (x : X) × (valid : Bool) × (value ≡ Some x) × (is_valid ≡ Some valid)
        × (item ≡ slot x valid)) }
{
    let value = value?;
    Some(is_valid?.then_some(value))
}

impl<I: Iterator, V: Iterator<Item = bool>> Iterator for ZipValidityIter<I, V>
where
    I::Item: Drop,
{
    type Item = Option<I::Item>;

    ghost can_next = { λ s. I.can_next (values_of s) × V.can_next (validity_of s) };

    ghost next_gives = { zip_validity_steps I.next_gives V.next_gives };

    ghost remaining = { λ s. I.remaining (values_of s) };

    fn next(&mut self) -> Option<Option<I::Item>> {
        let value = self.values.next();
        let is_valid = self.validity.next();
        zip(value, is_valid)
    }

    /// Returns the size hint of the values, which no clause states.
    fn size_hint(&self) -> (usize, Option<usize>) {
        self.values.size_hint()
    }
}

impl<I: DoubleEndedIterator, V: DoubleEndedIterator<Item = bool>> DoubleEndedIterator
    for ZipValidityIter<I, V>
where
    I::Item: Drop,
{
    ghost can_next_back = { λ s. I.can_next_back (values_of s) × V.can_next_back (validity_of s) };

    ghost next_back_gives = { zip_validity_steps I.next_back_gives V.next_back_gives };

    fn next_back(&mut self) -> Option<Option<I::Item>> {
        let value = self.values.next_back();
        let is_valid = self.validity.next_back();
        zip(value, is_valid)
    }
}

impl<I: ExactSizeIterator, V: ExactSizeIterator<Item = bool>> ExactSizeIterator
    for ZipValidityIter<I, V>
where
    I::Item: Drop,
{
    /// Returns the length of the iterator over the values.
    fn len(&self) -> usize {
        self.values.len()
    }
}

/// A double-ended iterator over values, with or without their validity. Without validity each item is `Some` of a
/// value. A caller may match on the variants, to run a separate loop where no value is null.
#[derive(Debug, Clone, Drop)]
pub enum ZipValidity<I, V> {
    /// Values without validity: none is null.
    Required(I),
    /// Values with their validity: a value is null where its validity is false.
    Optional(ZipValidityIter<I, V>),
}

impl<I: Iterator, V: Iterator<Item = bool>> ZipValidity<I, V> {
    /// Returns `Optional` exactly where a validity is given. Requires that the validity, if there is one, gives one
    /// item for each value.
    pub fn new(values: I, validity: Option<V>) -> ZipValidity<I, V>
        requires same_length { ForSome validity (λ v.
            GiveEquallyMany I.next_gives V.next_gives values v) }
        ensures { MatchOption validity (IsRequiredAnd result (λ i. i ≡ values)) (λ v.
            IsOptionalAnd result (λ both. (values_of both ≡ values) × (validity_of both ≡ v))) }
    {
        match validity {
            Some(validity) => ZipValidity::Optional(ZipValidityIter::new(values, validity)),
            None => ZipValidity::Required(values),
        }
    }

    /// Returns the iterator over the values. Requires that the zip is `Required`.
    pub fn unwrap_required(self) -> I
    where
        V: Drop,
        I: Drop,
        requires { IsRequiredAnd self (λ _. Unit {0}) }
        ensures { IsRequiredAnd self (λ values. result ≡ values) }
    {
        match self {
            ZipValidity::Required(values) => values,
            ZipValidity::Optional(_) => unreachable!(),
        }
    }

    /// Returns the iterator over the values and their validity. Requires that the zip is `Optional`.
    pub fn unwrap_optional(self) -> ZipValidityIter<I, V>
    where
        V: Drop,
        I: Drop,
        requires { IsOptionalAnd self (λ _. Unit {0}) }
        ensures { IsOptionalAnd self (λ both. result ≡ both) }
    {
        match self {
            ZipValidity::Optional(both) => both,
            ZipValidity::Required(_) => unreachable!(),
        }
    }
}

impl<'a, I: Iterator> ZipValidity<I, BitmapIter<'a>> {
    /// Returns `Optional` exactly where a validity is given and has an unset bit. Requires that the validity, if there
    /// is one, has one bit for each value. arrow2 does not compare the lengths where no bit is unset.
    pub fn new_with_validity(
        values: I,
        validity: Option<&'a Bitmap>,
    ) -> ZipValidity<I, BitmapIter<'a>>
        requires same_length { ForSome validity (λ b.
            GivesAsMany I.next_gives values (length (items_of b.now))) }
        ensures none { validity.entry ≡ None → IsRequiredAnd result (λ i. i ≡ values) }
        ensures all_set { ForSome validity.entry (λ b. falses (items_of b.now) ≡ 0 →
            IsRequiredAnd result (λ i. i ≡ values)) }
        ensures some_unset { ForSome validity.entry (λ b. 0 < falses (items_of b.now) →
            IsOptionalAnd result (λ both. (values_of both ≡ values)
            × (validity_of both ≡ items_of b.now))) }
    {
        match validity {
            Some(validity) if validity.unset_bits() > 0 => {
                ZipValidity::Optional(ZipValidityIter::new(values, validity.iter()))
            }
            _ => ZipValidity::Required(values),
        }
    }
}

impl<I: Iterator, V: Iterator<Item = bool>> Iterator for ZipValidity<I, V>
where
    I::Item: Drop,
{
    type Item = Option<I::Item>;

    ghost can_next = { λ s. MatchZip s I.can_next (λ both. I.can_next (values_of both)
        × V.can_next (validity_of both)) };

    ghost next_gives = { either_steps I.next_gives V.next_gives };

    ghost remaining = { λ s. I.remaining (either_values s) };

    fn next(&mut self) -> Option<Option<I::Item>> {
        match self {
            ZipValidity::Required(values) => Some(Some(values.next()?)),
            ZipValidity::Optional(both) => both.next(),
        }
    }

    /// Returns the size hint of the values, which no clause states.
    fn size_hint(&self) -> (usize, Option<usize>) {
        match self {
            ZipValidity::Required(values) => values.size_hint(),
            ZipValidity::Optional(both) => both.size_hint(),
        }
    }
}

impl<I: DoubleEndedIterator, V: DoubleEndedIterator<Item = bool>> DoubleEndedIterator
    for ZipValidity<I, V>
where
    I::Item: Drop,
{
    ghost can_next_back = { λ s. MatchZip s I.can_next_back (λ both.
        I.can_next_back (values_of both) × V.can_next_back (validity_of both)) };

    ghost next_back_gives = { either_steps I.next_back_gives V.next_back_gives };

    fn next_back(&mut self) -> Option<Option<I::Item>> {
        match self {
            ZipValidity::Required(values) => Some(Some(values.next_back()?)),
            ZipValidity::Optional(both) => both.next_back(),
        }
    }
}

impl<I: ExactSizeIterator, V: ExactSizeIterator<Item = bool>> ExactSizeIterator
    for ZipValidity<I, V>
where
    I::Item: Drop,
{
    /// Returns the length of the iterator over the values.
    fn len(&self) -> usize {
        match self {
            ZipValidity::Required(values) => values.len(),
            ZipValidity::Optional(both) => both.len(),
        }
    }
}
