//! Where texts of the language go wrong, which calls of a look-up an evaluation makes, how constraints may be judged, and
//! where a walk along links ends: what only calls can tell. What else there is of it is shown by examples.
//!
//! These tests stand apart from the crates that they call, since a crate is proved once more for the tests in it.
#![tactic(auto)]

#[cfg(test)]
mod constraints;
#[cfg(test)]
mod links;
#[cfg(test)]
mod lookups;
#[cfg(test)]
mod places;

#[cfg(test)]
type Result<T> = std::result::Result<T, std::test::Fail>;
