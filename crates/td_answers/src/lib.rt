//! What lines of the workbench are answered, over sites of any kind.
//!
//! Begin with `answer`, what a line is answered over some sites, and `Links`, by which sites of other programs are
//! reached.
//!
//! ```
//! let catalogue = catalogue_for(alloc, &sites)?;
//! let reply = answer(alloc, &catalogue, &mut sites, &mut NoLinks, &mut meter, b"1: DELETE S;");
//! ```
//!
//! Costs: `catalogue_for` reads and types the script. `answer` costs what the calls that it makes cost, and a search
//! among the sites; a line that asks for a link waits as long as the links do.
//!
//! Definitions to trust, in `specs/`: Answers, Asking, Faults, Linked, Replies, Sites.
//!
//! td_answers sees sites as any `Replica` and lines as bytes, and writes nothing: it gives a `Reply`, whose room is
//! taken before the work where the work changes a site, and before a link is asked for. It opens links by the trait
//! `Links` and knows no socket; over a link it makes two of td_meeting's steps, and closes it.
#![tactic(auto)]

mod answers;
mod faults;
mod linking;
pub mod links;
mod meeting;
mod places;
pub mod reply;
mod telling;
mod writing;

pub use answers::{answer, catalogue_for};
pub use links::{LinkError, Links, NoLinks};
pub use reply::Reply;
