//! Collects the items of an iterator into a vector.
ghost use Rattle.std.specs.Prelude.{◌≡◌, ◌<◌, ◌≤◌, IfOk, OnOk, None, true, false, vec_len, vec_capacity};
ghost use Rattle.std.specs.Iterator.Runs.{WholeRun};
ghost use Rattle.std.specs.Iterator.{IsFinite, Yields, YieldsThen, size};

use std::alloc::{AllocError, Global};

/// The first capacity that is reserved, in items. With items of eight bytes these are 960 bytes, a little less than the
/// largest block that glibc keeps in its cache for each thread.
const LEAST_CAPACITY: usize = 120;

/// The second capacity that is reserved, in items.
const SECOND_CAPACITY: usize = 512;

/// Returns the items of an iterator that ends, in order. Does not read its size hint.
///
/// Repeats until the iterator ends: takes one item, reserves capacity, and fills this capacity in an inner loop. The
/// capacity does not change in the inner loop, so the compiler can vectorize it.
pub(crate) fn collect_items<T: Drop, I: Iterator<Item = T>>(
    alloc: Global,
    source: I,
) -> Result<Vec<T>, AllocError>
    requires can { I.can_next source }
    requires ends { IsFinite (I.remaining source) }
    ensures { IfOk result (λ v. WholeRun I.next_gives source (λ p. v.items ≡ p.items)) }
{
    let mut source = source;
    let mut items = Vec::new(alloc);
    loop {
        let Some(item) = source.next() else {
            return Ok(items);
        };
        grow_capacity(&mut items)?;
        items.push_reserved(item);
        let (full, went_on) = fill_capacity(items, &mut source);
        items = full;
        if !went_on {
            return Ok(items);
        }
    }
}

/// Appends items of an iterator to a vector while the vector has spare capacity. Returns the vector, and whether the
/// iterator may yield more.
fn fill_capacity<T: Drop, I: Iterator<Item = T>>(items: Vec<T>, source: &mut I) -> (Vec<T>, bool)
    // `next` may be called on the iterator, and it is finite.
    requires can { I.can_next source.old }
    requires ends { IsFinite (I.remaining source.old) }
    // Where the iterator may yield more, `next` may still be called, the iterator is still finite, and it has no more
    // steps left than before.
    ensures can { result.1 ≡ true → I.can_next source.new }
    ensures ends { result.1 ≡ true → IsFinite (I.remaining source.new) }
    ensures nearer { result.1 ≡ true →
        size (I.remaining source.new) ≤ size (I.remaining source.old) }
    // The items that it yielded are appended; where the second part of the result is false, it ended after these items.
    ensures more { result.1 ≡ true → (it : I) → Yields I.next_gives it items.items source.old →
        Yields I.next_gives it result.0.items source.new }
    ensures ended { result.1 ≡ false → (it : I) → Yields I.next_gives it items.items source.old →
        YieldsThen I.next_gives it result.0.items None source.new }
{
    let mut items = items;
    loop {
        if items.len() == items.capacity() {
            return (items, true);
        }
        match source.next() {
            Some(item) => items.push_reserved(item),
            None => return (items, false),
        }
    }
}

/// Reserves `LEAST_CAPACITY` for an empty vector. Otherwise, for a vector of n items, reserves capacity for 3 * n more,
/// or for `SECOND_CAPACITY - LEAST_CAPACITY` more if that is greater.
fn grow_capacity<T>(items: &mut Vec<T>) -> Result<(), AllocError>
    ensures items { items.new.items ≡ items.old.items }
    ensures ok { OnOk result (vec_len items.new < vec_capacity items.new) }
{
    if items.len() == 0 {
        return items.reserve_exact(LEAST_CAPACITY);
    }
    let more = items.len().saturating_mul(3);
    items.reserve_exact(more.max(SECOND_CAPACITY - LEAST_CAPACITY))
}
