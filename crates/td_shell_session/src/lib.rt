//! A person at one site: what is typed is read and answered in plain words, and relations are shown as tables. It runs
//! over any kind of site, reader and writer, and changes a site by the calls of `Replica` alone.
//!
//! Begin with `program`, the command line over its words, and `Run`, what it goes by; a `Platform` names the kinds of
//! these.
//!
//! ```
//! let mut run: Run<'_, Process> = Run {
//!     alloc, host: &rt, store: &journals, notes: &notes, network: &mut links, meter: &mut meter, terminal,
//!     input: &mut source, output: &mut sink, faults: &mut faults,
//! };
//! let status = program(&mut run, &words);
//! ```
//!
//! Costs: the opening of the script, and a run of each entry of the journal; then each line costs what its answer
//! costs, which is built whole in memory. The output is flushed before it waits for more of the input and before a
//! command.
//!
//! td_shell_session sees a site as `Replica` alone, beside what opens one and has it come back from its journal. No
//! contract says what it prints: it is proved to return and to be safe, and what changes a site is called by its
//! contracts.
#![tactic(auto)]

mod access;
mod answer;
mod command_line;
mod commands;
mod companions;
mod compare;
mod conversation;
mod draft;
mod dump;
mod ended;
mod fault;
mod help;
mod host;
mod import;
mod inputs;
mod issue;
mod lists;
mod meet;
mod new_file;
mod queries;
mod relvars;
mod session;
mod start;
mod tables;
mod timing;
mod words;

pub use command_line::program;
pub use host::{Platform, Run, Terminal};
pub use td_terminals::Shown;
