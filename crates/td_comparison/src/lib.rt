//! How two sites find, before they meet, the sites whose statements differ between them: they compare digests of what
//! each site issued first.
//!
//! Begin with `question`, `answer` and `differing_sites` over what is held, and with `put_comparison` and
//! `read_comparison`, the message that both of them send.
//!
//! ```
//! let asked = question(alloc, &held, &known, &vector)?;
//! put_comparison(&mut sink, 2, &script_digest(script), &asked.digests)?;
//! let answer = read_comparison(alloc, bytes)?;
//! let differing = differing_sites(alloc, &held, &known, &vector, &answer.digests)?;
//! put_differences(&mut sink, &differing.sites)?;
//! known.keep(differing.feeds);
//! ```
//!
//! Costs: where all entries that count were hashed before, digests take no pass. Else they take one over what is held,
//! with a binary search for each entry among the sites that have more, and SHA-256 of the frames that were not hashed.
//! What is kept has 140 bytes for each site. Messages are linear in their digests, of which one has at most 65,535:
//! 1,441,813 bytes.
//!
//! Definitions to trust, in `specs/`: Digests, Extents, Messages.
//!
//! td_comparison knows entries and version vectors, and neither scripts nor sockets. Whether digests of other sites are
//! true is for nobody to say: equal ones make equal entries as far as the first 16 bytes of SHA-256 do.
#![tactic(auto)]

mod differing;
mod digest;
mod extent;
mod feed;
pub mod laws;
mod message;
mod prefixes;
mod reading;

pub use differing::{Differing, Findings, answer, differing_sites, question};
pub use digest::{Hashed, SiteDigest, SiteFeed, digests_of};
pub use extent::{comparison_extent, differences_extent};
pub use feed::feed_entry;
pub use message::{Comparison, FirstMessage, put_comparison, put_differences, script_digest};
pub use prefixes::{SitePrefix, SitePrefixes};
pub use reading::{MessageError, is_other_version, read_comparison, read_differences};
