//! Iterators whose size hint is wrong.
ghost use Rattle.std.specs.Prelude.{◌+◌};
ghost use Rattle.std.specs.Iterator.{at_most};

use super::checks::{has, makes, ok, stores};
use super::offset;
use arrow2_bitmap::{Bitmap, MutableBitmap};
use arrow2_buffer::Buffer;
use arrow2_offset::Offsets;
use std::alloc::Global;
use std::process::Abort;

/// Returns the numbers from 1 on while `left` is not 0. Its size hint falls by `falls` per item.
#[derive(Drop)]
struct Hinting {
    given: usize,
    left: u64,
    hint: usize,
    falls: usize,
}

impl Iterator for Hinting {
    type Item = usize;

    ghost remaining = { λ s. at_most (s.left + s.hint) };

    fn next(&mut self) -> Option<usize> {
        if self.left == 0 {
            return None;
        }
        self.left -= 1;
        self.hint = self.hint.saturating_sub(self.falls);
        self.given = self.given.wrapping_add(1);
        Some(self.given)
    }

    fn size_hint(&self) -> (usize, Option<usize>) {
        (self.hint, None)
    }
}

/// Returns `left` numbers, with a size hint that begins at `hint` and falls by `falls` per item.
fn numbers(left: u64, (hint, falls): (usize, usize)) -> Hinting {
    Hinting {
        given: 0,
        left,
        hint,
        falls,
    }
}

/// Is true of every number.
fn holds(_number: usize) -> bool {
    true
}

/// Three true items are collected with such a size hint.
fn collects_three(rt: &impl Abort, alloc: Global, hint: (usize, usize)) {
    let grown = MutableBitmap::try_from_iter(alloc, numbers(3, hint).map(holds));
    stores(rt, grown, &[7]);
    let frozen = Bitmap::try_from_iter(alloc, numbers(3, hint).map(holds));
    makes(rt, alloc, frozen, &[true; 3]);
    let buffer = Buffer::try_from_iter(alloc, numbers(3, hint).map(holds));
    has(rt, ok(rt, buffer).as_slice(), &[true; 3]);
}

#[test]
fn a_size_hint_is_not_believed(rt: HostRuntime) {
    let alloc = rt.alloc();
    collects_three(&rt, alloc, (usize::MAX, 1));
    collects_three(&rt, alloc, (0, 0));
    let offsets = Offsets::<i64>::try_from_iter(alloc, numbers(2, (usize::MAX, 1)));
    offset::makes(&rt, offsets, &[0, 1, 3]);
}
