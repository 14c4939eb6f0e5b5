//! Alarms: sites whose statements differ here and at a site met, until a person has acknowledged them.
//!
//! Begin with `Alarms::open`, and `raise` what a meeting left out.
//!
//! ```
//! let mut alarms = Alarms::open(alloc, &rt, Some(name))?;
//! if alarms.raise(&left_out, address)? > 0 {
//!     let is_saved = alarms.save(&rt)?;
//! }
//! ```
//!
//! Costs: everything is linear in the alarms, of which at most 64 are kept; `raise` compares each site with each of
//! them.
//!
//! Definitions to trust, in `specs/`: Raising.
//!
//! td_alarms knows neither statements nor meetings. The file has a line for each alarm: the site, a blank, and the
//! address.
#![tactic(auto)]

mod alarms;
mod kept;
mod raising;

pub use alarms::{Alarm, Alarms};
pub use raising::MOST_ALARMS;
