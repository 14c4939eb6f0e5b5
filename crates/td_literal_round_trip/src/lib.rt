//! Shown values are literals: read back, they mean the values.
//!
//! Begin with `specs/Laws.antt`.
//!
//! td_literal_round_trip has a law alone too, over shown texts, grammar, types and meanings.
#![tactic(auto)]

pub mod laws;
