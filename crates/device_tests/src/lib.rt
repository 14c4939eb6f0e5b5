//! Devices over readers and writers that are interrupted, fail, take one byte a time or none.
//!
//! These tests stand apart from the crate that they call, since a crate is proved once more for the tests in it.
#![tactic(auto)]

#[cfg(test)]
mod channels;
#[cfg(test)]
mod failures;
#[cfg(test)]
mod fakes;
#[cfg(test)]
mod lines;
#[cfg(test)]
mod pieces;
