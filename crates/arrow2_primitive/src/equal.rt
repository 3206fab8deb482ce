//! Equality of arrays.
ghost use Rattle.std.specs.Prelude.{◌≡◌, ◌↔◌, ◌&&◌, IsTrue, Decides};
ghost use Rattle.std.specs.Cmp.{and_per, on_per};
ghost use Rattle.std.specs.Cmp.Lexicographic.{pointwise, lists_per};
ghost use Rattle.std.specs.Option.{option_eq};
ghost use Rattle.arrow2_datatypes.specs.contracts.DataTypePartialEq.TheImpl.Laws.{laws-law as types_per};
ghost use Rattle.arrow2_validity.proofs.Alike.{options_per};
ghost use Rattle.arrow2_primitive.specs.Primitive.{primitive_items};

use crate::array::PrimitiveArray;
use crate::iterator::PrimitiveIter;
use arrow2_datatypes::DataType;
use arrow2_types::NativeType;
use std::cmp::PartialEq;

/// Two arrays are equal exactly if `==` of their logical types holds and their items are equal by the values' own `==`.
/// Nulls are equal, whatever values are stored under them.
impl<T: NativeType> PartialEq for PrimitiveArray<T> {
    ghost eq = { λ a b. ⟦<DataType as PartialEq>⟧.eq a.data_type b.data_type
        && pointwise (option_eq T.eq) (primitive_items a) (primitive_items b) };

    ghost laws = { and_per (on_per (λ a. a.data_type) types_per)
        (on_per primitive_items (lists_per (options_per T.laws))) };

    /// If `T::eq` returns true exactly for identical values, `==` returns true exactly if `==` of the logical types
    /// does and the lists of items are identical.
    fn eq(&self, other: &PrimitiveArray<T>) -> bool
        ensures items { result ≡ (⟦<DataType as PartialEq>⟧.eq self.now.data_type other.now.data_type
            && pointwise (option_eq T.eq) (primitive_items self.now) (primitive_items other.now)) }
        ensures same { ((x y : T) → Decides (T.eq x y) (x ≡ y)) → IsTrue result
            ↔ (IsTrue (⟦<DataType as PartialEq>⟧.eq self.now.data_type other.now.data_type)
            × (primitive_items self.now ≡ primitive_items other.now)) }
    {
        self.data_type() == other.data_type() && same_items(self, other)
    }
}

/// Returns whether two arrays have the same items. Compares the values alone where no item is null.
fn same_items<T: NativeType>(array: &PrimitiveArray<T>, other: &PrimitiveArray<T>) -> bool
    ensures { result ≡ pointwise (option_eq T.eq) (primitive_items array.now) (primitive_items other.now) }
{
    if array.null_count() == 0 && other.null_count() == 0 {
        return array.values() == other.values();
    }
    array.len() == other.len() && same_each(array.iter(), other.iter())
}

/// Returns whether two iterators yield the same items.
fn same_each<T: NativeType>(items: PrimitiveIter<'_, T>, others: PrimitiveIter<'_, T>) -> bool
    ensures { result ≡ pointwise (option_eq T.eq) items.entry others.entry }
{
    items.eq(others)
}
