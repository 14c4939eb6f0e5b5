//! What the shell runs by.

use std::alloc::Global;
use std::fs::File;
use std::rt::Files;
use std::time::Clock;
use td_answers::Links;
use td_changes::Changes;
use td_io::{Sink, Source};
use td_journal::Journals;
use td_journal_files::Notes;
use td_replica::{Catalogued, Opens};
use td_semantics::Meter;

/// The kinds of what the shell runs by.
pub trait Platform: Drop {
    /// The site that a script opens.
    type Site: Opens + Changes + Catalogued + Drop;
    /// Files and the clock.
    type System: Files<File = File> + Clock + AllocGlobal + Clone + Drop;
    /// Where journals are kept.
    type Store: Journals;
    /// How other sites are reached.
    type Network: Links;

    type Input: Source;

    type Output: Sink;
    /// Where faults are written that are no answers.
    type Faults: Sink;
}

/// Which of the standard streams are a terminal.
#[derive(Clone, Copy, Debug, PartialEq, Eq)]
pub struct Terminal {
    /// Whether lines are typed at one.
    pub is_input: bool,
    /// Whether answers are shown at one.
    pub is_output: bool,
}

/// What the shell runs by.
#[derive(Drop)]
pub struct Run<'a, P: Platform> {
    pub alloc: Global,
    pub host: &'a P::System,
    pub store: &'a P::Store,
    /// What was found of the journals of the store.
    pub notes: &'a Notes,
    pub network: &'a mut P::Network,
    pub meter: &'a mut Meter,
    pub terminal: Terminal,
    pub input: &'a mut P::Input,
    pub output: &'a mut P::Output,
    pub faults: &'a mut P::Faults,
}
