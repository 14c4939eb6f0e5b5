//! How many statements were run.

ghost use Rattle.std.specs.Prelude.{◌≡◌, ◌+◌};
ghost use Rattle.td_semantics.specs.Counts.{one_more};

use std::rt::Runtime;

/// Counts the statements that are run. Only a program, which has a runtime, makes one.
#[derive(Drop)]
pub struct Meter {
    count: u64,
}

impl Meter {
    /// One that has counted nothing.
    pub fn new<R: Runtime>(_rt: &R) -> Meter
        ensures { result.count ≡ 0 }
    {
        Meter { count: 0 }
    }

    /// How many were counted.
    pub fn count(&self) -> u64
        ensures { result ≡ self.now.count }
    {
        self.count
    }

    /// Counts one more; at the greatest number it stays.
    pub fn tick(&mut self)
        ensures { self.new.count ≡ one_more self.old.count }
    {
        self.count = self.count.saturating_add(1);
    }
}
