//! A count of the bytes that were read, for contracts alone.
ghost use Rattle.std.specs.Prelude.{◌≡◌, ◌+◌};

use arrow2_counter::Counter;
use std::marker::Model;

/// Counts the bytes that were read: contracts see the number. It takes no bytes at run time, which no clause states. It
/// cannot be copied or cloned, since a copy could count a read twice, or leave one out.
#[derive(Drop)]
pub struct Reads {
    counter: Counter,
}

impl Model for Reads {
    ghost use Rattle.std.specs.Prelude.{ℕ};

    ghost Value = { ℕ };

    ghost view = { λ r. r.counter };
}

impl Reads {
    /// Returns a counter at 0 reads.
    pub fn new() -> Reads
        ensures { result ≡ 0 }
    {
        Reads {
            counter: Counter::new(),
        }
    }

    /// Adds `count` reads.
    pub(crate) fn add(&mut self, count: usize)
        ensures { self.new ≡ self.old + count }
    {
        self.counter.add(count);
    }
}
