//! Meetings of two sites that compare digests first, and leave the sites out whose statements differ between them.
//!
//! Begin with `ask`, `answer_question`, `compare` and `add_differences`, the comparison, and then `greet`, `answer`,
//! `settle` and `finish`, the meeting in the scope that it found.
//!
//! ```
//! let vector = ask(alloc, &mut first, &mut sink)?;
//! let mut scope = answer_question(alloc, &mut second, question, &mut sink)?;
//! let near = compare(alloc, &mut first, vector, answer, &mut sink)?;
//! greet(&first, &near, &mut sink)?;
//! add_differences(alloc, &mut scope, differences)?;
//! ```
//!
//! Costs: a comparison takes a pass over what is held at each side for the version vector, and what td_comparison takes
//! for digests of what was not hashed before. The steps cost what those of td_meeting cost, and a pass over the entries
//! that came.
//!
//! Definitions to trust, in `specs/`: Comparing, Laws, Scopes, Steps.
//!
//! td_checked_meetings sees a site as a `Replica`, in a comparison as `Digested`, and messages as bytes. Between the
//! steps of one meeting its caller keeps a `MeetingScope`; between two meetings the site alone keeps what was hashed.
//! What a caller does about sites that differ is its own affair.
#![tactic(auto)]

mod comparing;
pub mod laws;
mod scope;
mod sending;
mod sifting;
mod steps;
mod taking;

pub use comparing::{add_differences, answer_question, ask, compare, whole_scope};
pub use scope::MeetingScope;
pub use sifting::Beyond;
pub use steps::{answer, finish, greet, settle};
pub use taking::Received;
