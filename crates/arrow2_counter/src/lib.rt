//! Counters that only contracts can read. They take no bytes when the program runs.
#![tactic(auto)]

ghost use Rattle.std.specs.Prelude.{◌≡◌, ◌+◌, ℕ};
ghost use Rattle.std.specs.Borrow.{ftrue};

use std::marker::Model;

/// A number that contracts alone see. It takes no bytes when the program runs.
#[derive(Drop)]
struct Tally {
    ghost total: { ℕ },
}

impl Model for Tally {
    ghost also_owns = { λ _. ftrue };
}

impl Tally {
    /// Returns the number 0.
    fn new() -> Tally
        ensures { result.total ≡ 0 }
    {
        Tally {}
    }

    /// Returns `before` with `amount` added.
    fn plus(before: &Tally, amount: &usize) -> Tally
        ensures { result.total ≡ before.now.total + amount.now }
    {
        Tally {}
    }
}

/// Counts how often something happened: contracts see the number, and no code can read it. It takes no bytes when the
/// program runs. It cannot be copied or cloned, so nothing is counted twice.
#[derive(Drop)]
pub struct Counter {
    tally: Tally,
}

impl Model for Counter {
    ghost use Rattle.std.specs.Prelude.{ℕ};

    ghost Value = { ℕ };

    ghost view = { λ c. c.tally.total };
}

impl Counter {
    /// Returns a counter at 0.
    pub fn new() -> Counter
        ensures { result ≡ 0 }
    {
        Counter {
            tally: Tally::new(),
        }
    }

    /// Adds `count`.
    pub fn add(&mut self, count: usize)
        ensures { self.new ≡ self.old + count }
    {
        self.tally = Tally::plus(&self.tally, &count);
    }
}
