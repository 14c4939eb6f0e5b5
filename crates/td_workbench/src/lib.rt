//! The workbench: a script, the sites that it opens, and the lines that are answered. It runs over any kind of site,
//! reader and writer.
//!
//! Begin with `program`, the command line over its words and streams, and `workbench`, lines over sites that are there.
//!
//! ```
//! let status = program::<Site, _, _, _, _, _>(
//!     alloc, &journals, &words, &mut links, &mut meter, &mut source, &mut sink, &mut faults,
//! );
//! workbench(alloc, &mut sites, &mut NoLinks, &mut meter, &mut source, &mut sink)?;
//! ```
//!
//! Costs: `program` costs the opening of each site, reading and typing the script once more, and with journals a run of
//! each of their entries; `workbench` reads and types the script at first. Then each line costs what its answer costs,
//! and a flush unless the next line stands in the buffer whole and begins with no dot.
//!
//! Definitions to trust, in `specs/`: Exits, Journals, Programs, Runs, Scripts, Streams.
//!
//! td_workbench sees a site as what its lines are answered; it alone makes sites (`opening`), of any kind that `Opens`,
//! and reads and writes (`script`, `run`, `writing`) over any source and sink. `journaled` wraps the sites of a script
//! into keepers, whose kind it alone names. `program` and `words` know the command line.
#![tactic(auto)]

pub mod command;
pub mod journaled;
pub mod opening;
pub mod programs;
mod refusal;
pub mod run;
pub mod script;
pub mod words;
mod writing;

pub use command::program;
pub use journaled::{Stopped, run_journaled};
pub use opening::Options;
pub use programs::run_program;
pub use run::{Ended, workbench};
pub use td_answers::{Links, NoLinks};
pub use td_listings::{export, listing};
pub use td_sockets::{TcpLinks, accept_on};
