//! The sites that a site meets, in a file beside its journal: when each was last met, and what it has.
//!
//! Begin with `Contacts::open`, and `note` each meeting that ended.
//!
//! ```
//! let mut contacts = Contacts::open(alloc, &rt, Some(name), &called)?;
//! contacts.note(&meeting, now)?;
//! let is_saved = contacts.save(&rt)?;
//! ```
//!
//! Costs: everything is linear in the contacts, of which at most 256 are kept.
//!
//! td_contacts knows neither statements nor meetings. The file has a line for each contact: the site's number, its
//! address, `called` or `calls`, when it was last met and last tried in seconds since 1970, how often it failed since,
//! and what it has, as `1:5,2:4`; `-` where one of these is not known. A line of another form is passed over.
#![tactic(auto)]

mod contacts;
mod lines;

pub use contacts::{Contact, Contacts, MetSite};
