//! What typed expressions mean has their types.
//!
//! Begin with `specs/Laws.antt`.
//!
//! Definitions to trust, in `specs/`: Meanings, Values.
//!
//! td_type_soundness has a law alone: it is where types and meanings meet, and neither crate knows the other.
#![tactic(auto)]

pub mod laws;
