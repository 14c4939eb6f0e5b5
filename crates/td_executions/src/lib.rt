//! Executions of many sites: what holds however entries are issued, sent, delivered, and lost by a site that comes
//! back.
//!
//! Begin with `specs/Laws.antt`: no two entries of one execution clash.
//!
//! Definitions to trust, in `specs/`: Calls, Laws, GlobalStates.
//!
//! td_executions has laws alone, over sets of entries as lists; it knows no statement and no site's code.
#![tactic(auto)]

pub mod laws;
