//! Functions of lists of booleans, in plain code that makes no call of the layer.
ghost use Rattle.std.specs.Prelude.{◌<◌};

use std::alloc::{AllocError, Global};

/// A list that plain code returns, unless an allocation failed.
pub(super) type ListResult = Result<Vec<bool>, AllocError>;

/// Returns the item at an index, and false after the last one.
pub(super) fn at(list: &[bool], i: usize) -> bool {
    matches!(list.get(i), Some(true))
}

/// Counts the items that are true.
pub(super) fn trues(list: &[bool]) -> usize {
    list.iter().filter(|item| **item).count()
}

/// Returns the items after the whole words of this width.
pub(super) fn rest(list: &[bool], width: usize) -> &[bool]
    requires { 0 < width }
{
    &list[list.len() - list.len() % width..]
}

/// Appends the items of another list.
pub(super) fn append(mut items: Vec<bool>, list: &[bool]) -> ListResult {
    items.extend_from_slice(list)?;
    Ok(items)
}

/// Returns item `i` of the sum of lists without carry, list `k` moved by `k` positions within words of `width` items.
fn mixed_at(lists: &[&[bool]], width: usize, i: usize) -> bool
    requires { 0 < width }
{
    let mut item = false;
    for (k, list) in lists.iter().enumerate() {
        if k <= i % width && at(list, i - k) {
            item = !item;
        }
    }
    item
}

/// Returns all items of such lists.
pub(super) fn all_items(alloc: Global, lists: &[&[bool]], width: usize) -> ListResult
    requires { 0 < width }
{
    let mut items = Vec::new(alloc);
    let last = lists.last().copied().unwrap_or(&[]);
    for i in 0..last.len() {
        items.push(mixed_at(lists, width, i))?;
    }
    Ok(items)
}

/// Looks each pair of items up in a table: bit `a + 2 * b` of it.
pub(super) fn looked_up(alloc: Global, t: u8, a: &[bool], b: &[bool]) -> ListResult {
    let mut items = Vec::new(alloc);
    for (a, b) in a.iter().zip(b) {
        let position = usize::from(*a) | usize::from(*b) << 1;
        items.push((t >> (position % 8)) & 1 == 1)?;
    }
    Ok(items)
}

/// Returns the values, null where their validity is false.
pub(super) fn options_of(
    alloc: Global,
    values: &[bool],
    valid: &[bool],
) -> Result<Vec<Option<bool>>, AllocError> {
    let mut items = Vec::new(alloc);
    for (i, value) in values.iter().enumerate() {
        items.push(if at(valid, i) { Some(*value) } else { None })?;
    }
    Ok(items)
}

/// Byte `index` of the bytes that hold a list from bit `offset` on. All other bits are equal.
fn stored_byte(list: &[bool], offset: usize, spare: bool, index: usize) -> u8 {
    let mut byte = 0u8;
    for k in 0..8usize {
        let position = index.wrapping_mul(8).wrapping_add(k).wrapping_sub(offset);
        if *list.get(position).unwrap_or(&spare) {
            byte |= 1 << k;
        }
    }
    byte
}

/// Returns bytes that hold a list from bit `offset` on. All other bits are equal, also those of `following` more bytes.
pub(super) fn bytes_with_list(
    alloc: Global,
    list: &[bool],
    offset: usize,
    spare: bool,
    following: usize,
) -> Result<Vec<u8>, AllocError> {
    let touched = offset.saturating_add(list.len()).div_ceil(8);
    let mut bytes = Vec::new(alloc);
    for index in 0..touched.saturating_add(following) {
        bytes.push(stored_byte(list, offset, spare, index))?;
    }
    Ok(bytes)
}

/// Returns the list of the lowest bits of a number.
pub(super) fn of_number(alloc: Global, number: u64, len: usize) -> ListResult {
    (0..len)
        .map(|i| (number >> (i % 64)) & 1 == 1)
        .collect(alloc)
}

/// Returns the list that is true where 3 divides the index.
pub(super) fn thirds(alloc: Global, len: usize) -> ListResult {
    (0..len).map(|i| i % 3 == 0).collect(alloc)
}

/// Returns a list without a pattern.
pub(super) fn list_without_pattern(alloc: Global, seed: u64, len: usize) -> ListResult {
    let mut items = Vec::new(alloc);
    let mut state = seed;
    for _ in 0..len {
        state = state
            .wrapping_mul(6364136223846793005)
            .wrapping_add(1442695040888963407);
        items.push(state >> 63 == 1)?;
    }
    Ok(items)
}
