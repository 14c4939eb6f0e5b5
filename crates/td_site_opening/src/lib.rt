//! A site that is opened from its script and comes back from its journal, as the words of a command line say.
//!
//! Begin with `SiteOptions`, what the words say, `read_script`, `open_new` and `journal_name`, the steps to a site in
//! their order, and `StartFault`, why one of them fails.
//!
//! ```
//! let command = with_journal(alloc, with_site(alloc, command, Demand::Optional)?, Demand::Optional)?;
//! let options = site_options(&command.try_get_matches_from(&words)?);
//! let script = read_script(alloc, &rt, options.script)?;
//! let site = open_new::<Site>(alloc, &options, script.text.as_str())?;
//! if let Some(name) = journal_name(alloc, &options)? {
//!     prepare_journal(alloc, &rt, &options, name.as_str())?;
//!     let kept = keep_journal(alloc, &journals, name.as_str(), site, &mut meter)?;
//! }
//! let status = report(alloc, &rt, fault, &mut faults);
//! ```
//!
//! Costs: those of reading and opening the script. A fault is a value that owns no memory; `report` makes its words,
//! for which it may read the folder of a journal, or look for the mistakes of a script.
//!
//! td_site_opening opens a site by `Opens` alone, and reads and writes no journal but by td_journal.
#![tactic(auto)]

mod alarms;
mod arguments;
mod fault;
mod journals;
mod options;
mod rebuild;
mod refusal;
mod reporting;
mod salvaged;
mod script;
mod site;
mod status;
mod unopened;

pub use alarms::open_alarms;
pub use arguments::{Demand, flag, list, option, with_journal, with_site};
pub use fault::{JournalFault, OUT_OF_MEMORY, StartFault};
pub use journals::{journal_name, prepare_journal};
pub use options::{SiteJournal, SiteOptions, site_options};
pub use rebuild::{end_rebuild, find_mark};
pub use reporting::{complain, is_lacking, report, report_unkept};
pub use salvaged::report_left_out;
pub use script::{NoScript, ScriptFile, read_script};
pub use site::{open_new, take_contents};
pub use status::ExitStatus;
