//! Laws of meetings along a spanning tree: after them its sites hold one set.
//!
//! Begin with `specs/Laws.antt`: each site of the tree holds exactly what any of them held, so any two hold the same;
//! and where both have room and nothing clashes, want of memory or a failing journal alone stops a meeting.
//!
//! Definitions to trust, in `specs/`: Laws, Trees.
//!
//! td_convergence has laws alone, over what meetings leave; it knows no site's code.
#![tactic(auto)]

pub mod laws;
