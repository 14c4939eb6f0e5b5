//! Sites that keep what was hashed of their statements, so that a comparison before a meeting hashes only what was not
//! hashed before.
//!
//! Begin with `DigestedSite::new`, which wraps a site of any kind, and with `Digested`, by which a comparison sees it.
//!
//! ```
//! let mut site = DigestedSite::new(alloc, site);
//! let vector = ask(alloc, &mut site, &mut sink)?;
//! ```
//!
//! Costs: a call of the site within. For each site that was compared 140 bytes are kept.
//!
//! td_digested_sites knows what td_comparison keeps, and neither messages nor meetings. What is kept is in memory alone,
//! and stays true as entries are added: a site with its numbers from 1 on gets no other entry with one of these.
#![tactic(auto)]

mod digested;
mod site;
mod within;

pub use digested::Digested;
pub use site::DigestedSite;
