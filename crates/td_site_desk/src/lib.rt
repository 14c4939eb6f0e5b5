//! A site behind a server: what programs and a browser ask of it by HTTP, and its meetings with other sites.
//!
//! Begin with `SiteDesk`, a `Desk` over any kind of site, and `SiteServer`, what the event loop serves.
//!
//! ```
//! let reversals = Reversals::open(alloc, &rt, Some(name))?;
//! let desk = SiteDesk::new(alloc, parts)?;
//! let mut server = SiteServer::new(Api::new(alloc, desk, guard));
//! ```
//!
//! Costs: `SiteDesk::new` goes through the outcomes of all that is held. A request costs what the calls of the site
//! cost that it makes, and a statement waits for the flush of its journal. With a key it also costs a search from
//! the end of what is held (td_statement_keys), and where it is sent again the outcomes of all that is held.
//!
//! Its definitions stand in `specs/`: in Sites what a call does to the site, and with which status it is answered; in
//! Meetings what the steps of a meeting do to it that are given entries; in Laws what holds over all statements.
//!
//! td_site_desk moves no bytes but those of the console. It changes a site by `Replica::issue` and by the steps of a
//! meeting alone.
#![tactic(auto)]

mod attention;
mod changes;
mod console;
mod contacts;
mod desk;
mod differing;
mod digests;
mod exchange;
mod filters;
mod inquiries;
pub mod laws;
mod lines;
mod log;
mod meetings;
mod metrics;
mod received;
mod reversals;
mod running;
mod scopes;
mod server;
mod statements;
mod steps;
mod suspension;
mod tokens;
mod trials;
mod values;
mod words;

pub use desk::{DeskParts, Peers, SiteDesk};
pub use reversals::Reversals;
pub use running::serve;
pub use server::SiteServer;
