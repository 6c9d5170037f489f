//! A count that only contracts see.
ghost use Rattle.std.specs.Prelude.{◌≡◌, ℕ, ◌+◌};
ghost use Rattle.std.specs.Borrow.{ftrue};

use std::marker::Model;

/// The number of times that something was done. It has no bytes at run time.
#[derive(Debug, Drop)]
pub struct Counter {
    ghost count: { ℕ },
}

impl Model for Counter {
    ghost Value = { ℕ };

    ghost view = { λ c. c.count };

    ghost also_owns = { λ _. ftrue };
}

impl Counter {
    /// Makes a counter of 0.
    pub fn new() -> Counter
        ensures { result ≡ 0 }
    {
        Counter {}
    }

    /// Returns a counter of one more.
    fn next(&self) -> Counter
        ensures { result ≡ self.now + 1 }
    {
        Counter {}
    }

    /// Returns a counter of the same count.
    pub fn copy(&self) -> Counter
        ensures { result ≡ self.now }
    {
        Counter {}
    }

    /// Returns a counter of the sum of both counts.
    fn plus(&self, other: &Counter) -> Counter
        ensures { result ≡ self.now + other.now }
    {
        Counter {}
    }

    /// Adds the count of the other counter to this one, and sets the other to 0.
    pub fn absorb(&mut self, other: &mut Counter)
        ensures sum { self.new ≡ self.old + other.old }
        ensures again { other.new ≡ 0 }
    {
        *self = self.plus(other);
        *other = Counter::new();
    }

    /// Adds one.
    pub fn tick(&mut self)
        ensures { self.new ≡ self.old + 1 }
    {
        *self = self.next();
    }
}

// It owns nothing.
unsafe impl Send for Counter {}

unsafe impl Sync for Counter {}
