//! An array of texts that grows.
ghost use Rattle.std.specs.Prelude.{◌≡◌, ◌*◌, ◌<◌, [], ◌∷◌, Some, length, map, option_map, replicate, string_bytes, sum, IfOk, IfSome, IsErrOf, IsUtf8};
ghost use Rattle.std.specs.Iterator.{IsFiniteIterable};
ghost use Rattle.std.specs.Iterator.Runs.{WholeRun};
ghost use Rattle.std.specs.Option.{option_copied, option_map_or};
ghost use Rattle.arrow2_text.specs.Binary.{default_text};
ghost use Rattle.arrow2_text.specs.Growth.{AppendsBinary, HasItems, MayYieldPastOffset, PopsBinary, bytes_of_items, items_by_bytes};
ghost use Rattle.arrow2_types.specs.Failures.{OnlyOverflowOrOutOfMemory};

use crate::as_item::AsItem;
use crate::byte_array_type::Utf8Type;
use crate::mutable_generic_byte_array::MutableGenericByteArray;
use arrow2_index::OffsetNumber;
use arrow2_types::{Error, Result};
use std::alloc::Global;

/// An array of texts that grows. It has the calls of [`MutableGenericByteArray`]. The calls below append and remove
/// texts.
pub type MutableUtf8Array<O> = MutableGenericByteArray<Utf8Type, O>;

impl<O: OffsetNumber> MutableGenericByteArray<Utf8Type, O> {
    /// Removes the last item and returns a copy of it: `Some(None)` for a null, and `None` where there is no item.
    /// The capacities stay. Allocates nothing for a null.
    ///
    /// Differs from arrow2, which returns `None` in both cases.
    ///
    /// # Errors
    ///
    /// Only `OutOfMemory`, and never where the last item is null or there is no item. After an error the array holds
    /// the items that it held.
    pub fn pop(&mut self) -> Result<Option<Option<String>>>
        ensures { PopsBinary string_bytes result self.old self.new }
    {
        let item = self.pop_bytes()?;
        Ok(as_texts(item))
    }

    /// Returns an array of the items of an iterator, in their order, of the default logical type of texts. Requires
    /// that the iterator ends, and that its `next` may be called a first time. (By std's contract of `next`, it may
    /// then be called again after each item.) Does not read the size hint.
    ///
    /// # Errors
    ///
    /// `Overflow` or `OutOfMemory`. `Overflow` is possible only if the iterator may yield items that together have more
    /// than `O::MAX` bytes, or more than `usize::MAX` items.
    pub fn try_from_iter<'a, I: IntoIterator<Item = Option<&'a str>>>(
        alloc: Global,
        iter: I,
    ) -> Result<MutableUtf8Array<O>>
        requires { IsFiniteIterable I.into_iter_gives I.IntoIter.can_next I.IntoIter.remaining iter }
        // All items of a run of the iterator.
        ensures items { IfOk result (λ a. (it : I.IntoIter) × I.into_iter_gives iter it
            × WholeRun I.IntoIter.next_gives it (λ p. HasItems a (items_by_bytes p.items))) }
        ensures data_type { IfOk result (λ a. a.data_type ≡ default_text O.IS_LARGE) }
        // `Overflow` comes only where a run may have too many items or bytes.
        ensures overflow { IsErrOf result Error.Overflow →
            (it : I.IntoIter) × I.into_iter_gives iter it
            × MayYieldPastOffset option_copied O.MAX I.IntoIter.next_gives it }
        ensures only { OnlyOverflowOrOutOfMemory result }
    {
        MutableGenericByteArray::collect_items(alloc, iter.into_iter())
    }

    /// Appends an item. Within both capacities it does not allocate.
    ///
    /// # Errors
    ///
    /// `Overflow` exactly where the last offset would pass `O::MAX`, or the length is `usize::MAX`; else only
    /// `OutOfMemory`. After either error, the array holds the items that it held.
    pub fn push(&mut self, item: Option<&str>) -> Result<()>
        ensures { AppendsBinary O.MAX result self.old self.new (option_copied item.entry ∷ [])
            (option_map_or length (option_copied item.entry) 0) }
    {
        self.push_bytes(item.as_item())
    }

    /// Appends each of these texts as an item that is not null. Within both capacities it does not allocate, else it
    /// allocates before it copies any of them.
    ///
    /// Stands for arrow2's `extend_values` and `extend_trusted_len_values`, which take iterators.
    ///
    /// # Errors
    ///
    /// `Overflow` exactly where the last offset would pass `O::MAX`, or the new length would pass `usize::MAX`; else
    /// only `OutOfMemory`. After either error, the array holds the items that it held.
    pub fn extend_from_slice(&mut self, values: &[&str]) -> Result<()>
        ensures { AppendsBinary O.MAX result self.old self.new (map (λ value. Some value.now) values.now)
            (sum (map (λ value. length value.now) values.now)) }
    {
        self.extend_from_items(values)
    }

    /// Appends items. Within both capacities it does not allocate, else it allocates before it copies any of them.
    ///
    /// Stands for arrow2's `extend_trusted_len`, which takes an iterator.
    ///
    /// # Errors
    ///
    /// `Overflow` exactly where the last offset would pass `O::MAX`, or the new length would pass `usize::MAX`; else
    /// only `OutOfMemory`. After either error, the array holds the items that it held.
    pub fn extend_from_options(&mut self, items: &[Option<&str>]) -> Result<()>
        ensures { AppendsBinary O.MAX result self.old self.new (items_by_bytes items.now)
            (bytes_of_items (items_by_bytes items.now)) }
    {
        self.extend_from_items(items)
    }

    /// Appends `item` `additional` times. Within both capacities it does not allocate, else it allocates before it
    /// copies any byte. arrow2 has no such call for texts.
    ///
    /// # Errors
    ///
    /// `Overflow` exactly where the last offset would pass `O::MAX`, or the new length would pass `usize::MAX`; else
    /// only `OutOfMemory`. After either error, the array holds the items that it held.
    pub fn extend_constant(&mut self, additional: usize, item: Option<&str>) -> Result<()>
        ensures { AppendsBinary O.MAX result self.old self.new (replicate additional (option_copied item.entry))
            (additional * option_map_or length (option_copied item.entry) 0) }
    {
        self.extend_from_copies(additional, item.as_item())
    }
}

/// Returns the removed item, with its bytes as a text. Requires that the bytes are UTF-8.
fn as_texts(item: Option<Option<Vec<u8>>>) -> Option<Option<String>>
    requires { IfSome item (λ slot. IfSome slot (λ bytes. IsUtf8 bytes.items)) }
    ensures { option_map (option_map string_bytes) result
        ≡ option_map (option_map (λ bytes. bytes.items)) item }
{
    match item {
        Some(Some(bytes)) => Some(Some(unsafe { String::from_utf8_unchecked(bytes) })),
        Some(None) => Some(None),
        None => None,
    }
}
