//! Boolean arrays, as iterators read them.
ghost use Rattle.std.specs.Prelude.{None, Some, refl};
ghost use Rattle.arrow2_model.specs.Lists.{items_of};
ghost use Rattle.arrow2_array.specs.Items.{boolean_items};

use crate::boolean::BooleanArray;
use arrow2_walks::{ArrayAccessor, ArrayIter};

/// The iterator over the items of a boolean array.
///
/// In arrow2 it is a `ZipValidity`.
pub type BooleanIter<'a> = ArrayIter<&'a BooleanArray>;

impl<'a> ArrayAccessor for &'a BooleanArray {
    type Value = bool;

    type Seen = bool;

    ghost value = { λ x. x };

    ghost item = { λ x. x };

    ghost items = { λ a. boolean_items a.now };

    ghost values = { λ a. items_of a.now.values };

    fn count(self) -> usize {
        self.len()
    }

    fn value_at(self, index: usize) -> bool {
        self.value(index)
    }

    fn item_at(self, index: usize) -> Option<bool> {
        self.get(index)
    }

    ghost item_of_value = { elim [ None ↦ refl | Some x ↦ refl ] };
}
