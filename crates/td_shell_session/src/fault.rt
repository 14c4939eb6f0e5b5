//! Why a line is not answered.

use crate::new_file::NotWritten;
use std::alloc::AllocError;
use td_answers::LinkError;
use td_headings::Catalogue;
use td_journal_files::Notes;
use td_meeting::MeetingError;
use td_paths::Unreadable;
use td_replica::TellError;
use td_shell_import::ImportFault;
use td_site_messages::{LACKING, SiteFault, push_site_fault};

/// Why a line is not answered, in words that are always the same.
#[derive(Clone, Copy)]
pub(crate) enum PlainFault {
    LongLine,
    NoUtf8,
    LongText,
    /// The session changes nothing.
    ReadOnly,
    NestedFiles,
    /// A line of a dump is typed.
    TypedEntry,
    NoEntry,
    /// A relation without attributes is shown as comma-separated values.
    NoAttributes,
    NoAddress,
    Unreached,
    /// The other end closed the connection in place of digests.
    NotCompared,
    /// The file of alarms is not written.
    UnwrittenAlarms,
    /// No site has the number 0.
    NoSite,
}

impl PlainFault {
    fn words(self) -> &'static str {
        match self {
            PlainFault::LongLine => "line: the line has more than 16384 bytes",
            PlainFault::NoUtf8 => "line: the line is no UTF-8",
            PlainFault::LongText => "syntax: a statement or a query has at most 8192 bytes",
            PlainFault::ReadOnly =>
                "read-only: this session changes nothing; start it without --read-only for that",
            PlainFault::NestedFiles =>
                "file: 16 files are being read within one another, and no more can be",
            PlainFault::TypedEntry =>
                "command: .entry stands in the files that .dump writes, and is not typed",
            PlainFault::NoEntry => "command: a line of a dump is written so: .entry DIALECT 'TEXT'",
            PlainFault::NoAttributes => "csv: the relation has no attributes",
            PlainFault::NoAddress =>
                "address: an address is numbers and a port, as 127.0.0.1:7001 or [::1]:7001",
            PlainFault::Unreached => "net: the address cannot be reached, or cannot be served at",
            PlainFault::NotCompared =>
                "cut: the other end closed the connection at once; a program that does not compare digests, as td_console, is met by .call --plain ADDRESS",
            PlainFault::NoSite => "site: a site's number is 1 to 65535",
            PlainFault::UnwrittenAlarms =>
                "file: the file of alarms cannot be written, so they are there again at the next start; make room, or mend the rights of its folder",
        }
    }
}

/// Why a line is not answered.
#[derive(Clone, Copy)]
pub(crate) enum Fault<'a> {
    Plain(PlainFault),
    Site(SiteFault<'a>),
    /// The journal lacks statements that it had once, and the site has met no other one since.
    Lacking,
    /// The site of this number keeps no journal, and has issued statements.
    Unkept(u16),
    /// A meeting broke off after it began.
    BrokenOff {
        error: MeetingError,
        /// What the site says otherwise since, for the end of the line.
        changes: &'a str,
    },
    /// The text of an entry is no statement of its dialect.
    Dialect(u8),
    /// The command is written in this way.
    Misused(&'static str),
    /// There is no command of this name.
    NoCommand(&'a str),
    NoRelvar(&'a str),
    /// Nothing is inserted into this virtual relvar.
    Virtual(&'a str),
    Import(&'a ImportFault),
    /// A tuple of the relvar at this place of the script has more bytes than a statement may have.
    LongTuple(usize),
    File {
        file: &'a str,
        error: FileFault,
    },
}

/// Why a file is not used.
#[derive(Clone, Copy)]
pub(crate) enum FileFault {
    /// It has a name that only journals have.
    JournalName,
    /// It is no folder, and cannot be made one.
    NoFolder,
    Unreadable(Unreadable),
    Unwritten(NotWritten),
}

impl From<AllocError> for Fault<'_> {
    fn from(_e: AllocError) -> Self {
        Fault::Site(SiteFault::NoMemory)
    }
}

impl From<TellError> for Fault<'_> {
    fn from(error: TellError) -> Self {
        Fault::Site(SiteFault::from(error))
    }
}

impl From<LinkError> for Fault<'_> {
    fn from(error: LinkError) -> Self {
        match error {
            LinkError::NetFault => Fault::Plain(PlainFault::Unreached),
            LinkError::OutOfMemory => Fault::Site(SiteFault::Unchanged),
        }
    }
}

impl<'a> Fault<'a> {
    /// That this file is not used.
    pub(crate) fn file(file: &'a str, error: FileFault) -> Fault<'a> {
        Fault::File { file, error }
    }

    /// That this file is not written.
    pub(crate) fn unwritten(file: &'a str, error: NotWritten) -> Fault<'a> {
        match error {
            NotWritten::OutOfMemory => Fault::Site(SiteFault::NoMemory),
            error => Fault::file(file, FileFault::Unwritten(error)),
        }
    }
}

// Appends why a file is not used.
fn push_file_fault(out: &mut String, file: &str, error: FileFault) -> Result<(), AllocError> {
    match error {
        FileFault::JournalName => write!(
            out,
            "file: {file} is a name for journals; a dump goes to another one"
        ),
        FileFault::NoFolder => write!(out, "file: {file} cannot be made"),
        FileFault::Unreadable(error) => {
            let why = error.words();
            write!(out, "file: {file} cannot be read: {why}")
        }
        FileFault::Unwritten(error) => push_unwritten(out, file, error),
    }
}

// Appends why a file is not written.
fn push_unwritten(out: &mut String, file: &str, error: NotWritten) -> Result<(), AllocError> {
    match error {
        NotWritten::IsThere => write!(
            out,
            "file: {file} is there already, and is not written over; name another file"
        ),
        NotWritten::PartIsThere => write!(
            out,
            "file: {file}.part is there, which is written first and then named {file}; remove it, or name another file"
        ),
        NotWritten::Failed | NotWritten::OutOfMemory => {
            write!(out, "file: {file} cannot be written")
        }
    }
}

// Appends that a tuple is too long for a dump.
fn push_long_tuple(
    out: &mut String,
    catalogue: &Catalogue,
    relvar: usize,
) -> Result<(), AllocError> {
    let name = match catalogue.relvar_at(relvar) {
        Some((name, _)) => name.as_str(),
        None => "",
    };
    write!(
        out,
        "dump: a tuple of {name} has no room in a statement; nothing is dumped"
    )
}

// Appends that the site of this number keeps no journal, and has issued statements.
fn push_unkept(out: &mut String, site: u16) -> Result<(), AllocError> {
    write!(
        out,
        "journal: this shell keeps no journal, so its next start would give the same numbers to other statements; write what is here by .dump FILE, and start with --journal, or with --memory if nobody will go on as site {site}"
    )
}

/// Appends why a line is not answered. Names come from the catalogue of the script.
pub(crate) fn push_fault(
    out: &mut String,
    catalogue: &Catalogue,
    notes: &Notes,
    fault: Fault<'_>,
) -> Result<(), AllocError> {
    match fault {
        Fault::Plain(fault) => out.push_str(fault.words()),
        Fault::Site(fault) => push_site_fault(out, catalogue, notes, fault),
        Fault::Lacking => {
            out.push_str("journal: ")?;
            out.push_str(LACKING)
        }
        Fault::Unkept(site) => push_unkept(out, site),
        Fault::BrokenOff { error, changes } => {
            push_site_fault(out, catalogue, notes, SiteFault::NotMet(error))?;
            out.push_str(changes)
        }
        Fault::Dialect(dialect) => {
            write!(out, "syntax: this is no statement of dialect {dialect}")
        }
        Fault::Misused(usage) => write!(out, "command: it is written so: {usage}"),
        Fault::NoCommand(word) => {
            write!(
                out,
                "command: there is no {word}; .help lists what there is"
            )
        }
        Fault::NoRelvar(name) => write!(out, "relvar: there is no relvar {name}"),
        Fault::Virtual(name) => {
            write!(
                out,
                "relvar: {name} is virtual, and nothing is inserted into it"
            )
        }
        Fault::Import(error) => write!(out, "import: {error}; nothing is imported"),
        Fault::LongTuple(relvar) => push_long_tuple(out, catalogue, relvar),
        Fault::File { file, error } => push_file_fault(out, file, error),
    }
}
