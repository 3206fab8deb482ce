//! The inputs of a run, and the loops over the runs, which add up the results of a call. The sum is 0 where a call
//! fails.
ghost use Rattle.std.specs.Prelude.{◌+◌, ◌≤◌, ◌↔◌, IsTrue};

use arrow2_types::Result;
use std::alloc::Global;

/// A part of bits or of items: where it begins, and how long it is.
#[repr(C)]
#[derive(Clone, Copy)]
pub struct Part {
    /// Where it begins.
    pub offset: usize,
    /// The number of bits or items.
    pub len: usize,
}

impl Part {
    /// Returns whether it is a part of something of `len` bits or items.
    pub fn is_within(&self, len: usize) -> bool
        ensures { IsTrue result ↔ (self.now.offset + self.now.len ≤ len) }
    {
        self.offset <= len && self.len <= len - self.offset
    }
}

/// Makes the call on each run.
pub fn on_each<R, F: Fn(&R) -> Result<usize>>(runs: &[R], call: F) -> usize
    requires { F.IsAlwaysCallable call }
{
    let mut sum = 0usize;
    for run in runs {
        let Ok(outcome) = call(run) else {
            return 0;
        };
        sum = sum.wrapping_add(outcome);
    }
    sum
}

/// Makes the call on the bytes and each run.
pub fn on_bytes<R, F: Fn(&[u8], &R) -> Result<usize>>(bytes: &[u8], runs: &[R], call: F) -> usize
    requires { F.IsAlwaysCallable call }
{
    on_each(runs, |run| call(bytes, run))
}

/// Makes the call on a prefix of the items, whose length each run chooses.
pub fn on_firsts<T, F: Fn(Global, &[T]) -> Result<usize>>(
    alloc: Global,
    items: &[T],
    runs: &[usize],
    call: F,
) -> usize
    requires { F.IsAlwaysCallable call }
{
    on_each(runs, |run| match items.get(..*run) {
        Some(firsts) => call(alloc, firsts),
        None => Ok(0),
    })
}

/// Makes the call on the items of both lists at the index that each run chooses.
pub fn on_pairs<T, F: Fn(&T, &T) -> Result<usize>>(
    left: &[T],
    right: &[T],
    runs: &[usize],
    call: F,
) -> usize
    requires { F.IsAlwaysCallable call }
{
    on_each(runs, |run| match (left.get(*run), right.get(*run)) {
        (Some(left), Some(right)) => call(left, right),
        _ => Ok(0),
    })
}
