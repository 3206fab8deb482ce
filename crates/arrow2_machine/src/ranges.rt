//! Ranges of items that a command names.
ghost use Rattle.std.specs.Prelude.{◌+◌, ◌≤◌, ◌↔◌, IsTrue};

/// Returns whether the `count` items from item `first` on are among `len` items.
pub(crate) fn is_inside(len: usize, first: u64, count: u64) -> bool
    ensures { IsTrue result ↔ (first + count ≤ len) }
{
    let len = len as u64;
    first <= len && count <= len - first
}
