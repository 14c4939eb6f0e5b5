//! The public surface: each item that callers know, imported by the path at which they look for it, so that what is
//! moved, renamed or taken away is noticed. What the items are and do is proved and tested elsewhere.
//!
//! `laws::one_set_is_one_database` has the laws of what is promised of sites in one contract.
#![tactic(auto)]

pub mod databases;
pub mod language;
pub mod laws;
pub mod programs;
pub mod relations;
pub mod sites;
pub mod values;
