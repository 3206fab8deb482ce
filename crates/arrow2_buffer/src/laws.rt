//! Laws of slices of buffers, and of what a buffer holds after a mutable borrow of its items has ended. A law is the
//! contract of a function with an empty body.
ghost use Rattle.std.specs.Prelude.{◌≡◌, ℕ, ◌+◌, ◌≤◌, List, length, take, drop};
ghost use Rattle.arrow2_model.specs.Lists.{BufferStorage, buffer_items, part};
ghost use Rattle.arrow2_buffer.specs.Loans.{overwrite_lent};

/// A slice of a slice has the items of one slice, which starts at the sum of both indices: a part of a part of a list
/// is a part of that list.
#[tactic(auto, using(crate::proofs::Part::slicing))]
pub fn slice_of_a_slice<T>()
    ensures { (items : List T) (a n b m : ℕ) → b + m ≤ n →
        part (part items a n) b m ≡ part items (a + b) m }
{}

/// When a mutable borrow of a buffer's items has ended, the items of the buffer are those that were written, and the
/// items of the storage to the left and to the right of the buffer are unchanged.
#[tactic(auto, using(crate::proofs::Overwrites::loans))]
pub fn written_items_are_the_items<T>()
    ensures items { (b : BufferStorage T) (others : List T) → b.offset + b.len ≤ length b.storage →
        length others ≡ b.len →
        buffer_items (record b { storage = overwrite_lent b.storage b.offset others }) ≡ others }
    ensures before { (b : BufferStorage T) (others : List T) → b.offset + b.len ≤ length b.storage →
        length others ≡ b.len → take b.offset (overwrite_lent b.storage b.offset others)
        ≡ take b.offset b.storage }
    ensures following { (b : BufferStorage T) (others : List T) → let end = b.offset + b.len in
        end ≤ length b.storage → length others ≡ b.len →
        drop end (overwrite_lent b.storage b.offset others) ≡ drop end b.storage }
{}
