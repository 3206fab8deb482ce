//! The storage that buffers share.
ghost use Rattle.std.specs.Prelude.{◌≡◌, ◌-◌, ◌≤◌, [], length, IfSome};
ghost use Rattle.arrow2_model.specs.Lists.{part};
ghost use Rattle.std.specs.Borrow.{sem};
ghost use Rattle.arrow2_buffer.specs.Loans.{LendsOwned, LendsPart};
ghost use Rattle.std.specs.declared.alloc.Global.{Global};

use std::alloc::Global;
use std::marker::Model;
use std::rc::Rc;

/// A list of items on the heap, which buffers and bitmaps share through an `Rc`.
///
/// Differs from arrow2: it always holds a vector, and never memory of another library.
#[derive(Drop)]
pub struct Bytes<T> {
    items: Vec<T>,
}

impl<T> Model for Bytes<T> {
    ghost use Rattle.std.specs.Prelude.{List};

    ghost Value = { List T };

    ghost view = { λ b. b.items.items };
}

/// Returns storage that holds the vector, which is moved and not copied. Does not allocate.
impl<T> From<Vec<T>> for Bytes<T> {
    ghost from_gives = { λ items b. b ≡ items.items };

    fn from(items: Vec<T>) -> Bytes<T> {
        Bytes { items }
    }
}

impl<T> Bytes<T> {
    /// Returns all items.
    pub fn as_slice(&self) -> &[T]
        ensures { result.now ≡ self.now }
    {
        self.items.as_slice()
    }

    /// Returns the vector that holds the items. Does not allocate.
    ///
    /// Replaces `get_vec` of the original arrow2, which is private to that crate.
    pub fn into_vec(self) -> Vec<T>
        ensures { result.items ≡ self }
    {
        let Bytes { items } = self;
        items
    }

    /// Returns the allocator of the vector.
    ///
    /// arrow2 has no such call: there, code allocates without naming an allocator.
    pub fn allocator(&self) -> Global
        ensures { (other : Global) → result ≡ other }
    {
        *self.items.allocator()
    }

    /// Returns the storage as a mutable reference if `shared` is its only owner, otherwise `None`.
    pub(crate) fn get_mut(shared: &mut Rc<Bytes<T>>) -> Option<&mut Bytes<T>>
        ensures* writes_back { sem 𝓛 (LendsOwned T.row shared.entry result) }
        ensures value { IfSome result (λ bytes. bytes.now ≡ shared.old.value) }
    {
        Rc::get_mut(shared)
    }

    /// Returns the items from `start` up to `end` as a mutable slice.
    pub(crate) fn part_mut(&mut self, start: usize, end: usize) -> &mut [T]
        requires order { start ≤ end }
        requires within { end ≤ length self.old }
        ensures* writes_back { sem 𝓛 (LendsPart T.row self.entry start result) }
        ensures value { result.now ≡ part self.old start (end - start) }
        ensures len { length result.now ≡ end - start }
    {
        self.items.slice_mut(start..end)
    }
}
