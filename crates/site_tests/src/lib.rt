//! What no contract says of sites and of the program over them: how often what is wrapped is flushed, by a step of a
//! meeting, a journal, a text of a site and a run; and how many statements a late one makes a site run. What sites and
//! the program answer otherwise, contracts say and examples show.
//!
//! These tests stand apart from the crates that they call, since a crate is proved once more for the tests in it.
#![tactic(auto)]

#[cfg(test)]
mod entries;
#[cfg(test)]
mod flushed;
#[cfg(test)]
mod journals;
#[cfg(test)]
mod late;
#[cfg(test)]
mod meetings;
#[cfg(test)]
mod runs;
#[cfg(test)]
mod texts;
