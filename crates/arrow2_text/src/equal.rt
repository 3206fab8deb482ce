//! Equality of arrays.
ghost use Rattle.std.specs.Prelude.{◌≡◌, ◌↔◌, ◌&&◌, IsTrue, nat_eq, Decides};
ghost use Rattle.std.specs.Cmp.{and_per, nat_eq_equiv, on_per, partial_equiv_from_equiv};
ghost use Rattle.std.specs.Cmp.Lexicographic.{pointwise, lists_equiv, options_equiv};
ghost use Rattle.std.specs.Option.{option_eq};
ghost use Rattle.arrow2_datatypes.specs.contracts.DataTypePartialEq.TheImpl.Laws.{laws-law as types_per};
ghost use Rattle.arrow2_text.specs.Binary.{binary_items};

use crate::byte_array_type::ByteArrayType;
use crate::generic_byte_array::GenericByteArray;
use crate::slots::Slots;
use arrow2_datatypes::DataType;
use arrow2_index::OffsetNumber;
use std::cmp::PartialEq;

/// Two arrays are equal exactly if `==` of their logical types holds and their items are equal. Nulls are equal,
/// whatever bytes are stored under them.
impl<T: ByteArrayType, O: OffsetNumber> PartialEq for GenericByteArray<T, O> {
    ghost eq = { λ a b. ⟦<DataType as PartialEq>⟧.eq a.data_type b.data_type
        && pointwise (option_eq (pointwise nat_eq)) (binary_items a) (binary_items b) };

    ghost laws = { and_per (on_per (λ a. a.data_type) types_per)
        (on_per binary_items (partial_equiv_from_equiv (lists_equiv (options_equiv (lists_equiv nat_eq_equiv))))) };

    fn eq(&self, other: &GenericByteArray<T, O>) -> bool
        ensures equality { result ≡ (⟦<DataType as PartialEq>⟧.eq self.now.data_type other.now.data_type
            && pointwise (option_eq (pointwise nat_eq)) (binary_items self.now) (binary_items other.now)) }
        ensures same { IsTrue result
            ↔ (IsTrue (⟦<DataType as PartialEq>⟧.eq self.now.data_type other.now.data_type)
            × (binary_items self.now ≡ binary_items other.now)) }
    {
        self.data_type() == other.data_type() && same_slots(self.slots(), other.slots())
    }
}

/// Returns whether two arrays have the same items, whatever bytes are stored under nulls.
fn same_slots<O: OffsetNumber>(slots: &Slots<O>, others: &Slots<O>) -> bool
    ensures equality { result
        ≡ pointwise (option_eq (pointwise nat_eq)) (binary_items slots.now) (binary_items others.now) }
    ensures same { Decides result (binary_items slots.now ≡ binary_items others.now) }
{
    slots.same_items(others)
}
