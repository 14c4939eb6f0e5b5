//! Laws of what sites answer and hold: those of one script that hold the same set answer alike, an exchange leaves one
//! set, a meeting keeps what either held, with other calls between its steps, what comes of a cut stream is a front of
//! its entries, and meetings that are cut bring a site, one by one, all that it lacked. So it is where a write fails,
//! and where a comparison left sites out.
//!
//! Begin with `specs/Laws.antt`: sites that hold the same set answer alike.
//!
//! Definitions to trust, in `specs/`: CutScopes, CutStreams, CutWriters, Interleaved, Laws, Progress.
#![tactic(auto)]

pub mod laws;
