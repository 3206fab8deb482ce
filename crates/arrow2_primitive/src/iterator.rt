//! Primitive arrays, as iterators read them.
ghost use Rattle.std.specs.Prelude.{None, Some, refl};
ghost use Rattle.arrow2_model.specs.Lists.{buffer_items};
ghost use Rattle.arrow2_primitive.specs.Primitive.{primitive_items};

use crate::array::PrimitiveArray;
use arrow2_types::NativeType;
use arrow2_walks::{ArrayAccessor, ArrayIter};

/// The iterator over the items of a primitive array.
///
/// Differs from arrow2, whose iterator yields references into the values.
pub type PrimitiveIter<'a, T> = ArrayIter<&'a PrimitiveArray<T>>;

impl<'a, T: NativeType> ArrayAccessor for &'a PrimitiveArray<T> {
    type Value = T;

    type Seen = T;

    ghost value = { λ x. x };

    ghost item = { λ x. x };

    ghost items = { λ a. primitive_items a.now };

    ghost values = { λ a. buffer_items a.now.values };

    fn count(self) -> usize {
        self.len()
    }

    fn value_at(self, index: usize) -> T {
        self.value(index)
    }

    fn item_at(self, index: usize) -> Option<T> {
        self.get(index)
    }

    ghost item_of_value = { elim [ None ↦ refl | Some x ↦ refl ] };
}
