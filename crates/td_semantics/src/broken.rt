//! What is told of a test that fails.

use std::fmt;
use td_values::{Name, Raise};

/// A test, as it is told.
#[derive(Drop)]
pub enum BrokenTest {
    /// A key of this relvar.
    Key(Name),
    /// The constraint of this name.
    Constraint(Name),
}

impl fmt::Display for BrokenTest {
    fn fmt<W: fmt::Write>(&self, f: &mut fmt::Formatter<W>) -> fmt::Result {
        match self {
            BrokenTest::Key(relvar) => write!(f, "a key of {}", relvar.as_str()),
            BrokenTest::Constraint(name) => write!(f, "the constraint {}", name.as_str()),
        }
    }
}

impl fmt::Debug for BrokenTest {
    fn fmt<W: fmt::Write>(&self, f: &mut fmt::Formatter<W>) -> fmt::Result {
        fmt::Display::fmt(self, f)
    }
}

/// A test that fails.
#[derive(Drop)]
pub struct TestFailure {
    pub test: BrokenTest,
    /// The error that it raises; none where it is false.
    pub raised: Option<Raise>,
}
