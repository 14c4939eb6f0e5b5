//! What a line with a dot in front says.

use crate::entries::ENTRY;

/// How the relations that queries give are shown.
#[derive(Clone, Copy)]
pub enum Mode {
    Table,
    Csv,
    Literal,
}

/// What a line with a dot in front says.
#[derive(Clone, Copy)]
pub enum DotCommand<'a> {
    Help,
    Tables,
    /// The definition of a name, or all of them.
    Schema(Option<&'a str>),
    Log,
    /// The statements that have no effect, those issued here alone where so asked.
    Refused {
        is_own: bool,
    },
    Listing,
    Vector,
    /// What is held in a few digits, that of one site alone up to a number where so asked.
    Digest(Option<(u16, u32)>),
    Read(&'a str),
    Import {
        file: &'a str,
        relvar: &'a str,
    },
    Dump(&'a str),
    /// What the base relvars have, as a script to this file.
    DumpTables(&'a str),
    /// What the base relvars have, as CSV files in this folder.
    Export(&'a str),
    /// A statement of a dump, as it is written behind the word.
    Entry(&'a str),
    Serve(&'a str),
    /// The site at this address, with a comparison of digests or without.
    Call {
        address: &'a str,
        is_plain: bool,
    },
    /// The sites whose statements differ at a site that was met.
    Alarms,
    /// No alarm of this site any more.
    Acknowledge(u16),
    /// The first statement of a site that differs at the site of this address.
    Compare {
        address: &'a str,
        site: u16,
    },
    /// A query, asked just after the statement of this stamp.
    At {
        clock: u64,
        site: u16,
        query: &'a str,
    },
    Mode(Mode),
    Timer(bool),
    Quit,
    /// The command is there, and is written so.
    Misused(&'static str),
    /// There is none of this name.
    Unknown(&'a str),
}

// The command where no words are behind it; otherwise how it is written.
fn without_words<'a>(command: DotCommand<'a>, rest: &str, usage: &'static str) -> DotCommand<'a> {
    if rest.is_empty() {
        command
    } else {
        DotCommand::Misused(usage)
    }
}

// What `.schema` asks for: one definition by its name, or all of them without a name.
fn schema_in(rest: &str) -> DotCommand<'_> {
    if rest.is_empty() {
        return DotCommand::Schema(None);
    }
    match rest.split_once(' ') {
        None => DotCommand::Schema(Some(rest)),
        Some(_) => DotCommand::Misused(".schema [NAME]"),
    }
}

// The relvar is the last word, so that a file's name may have blanks.
fn import_in(rest: &str) -> DotCommand<'_> {
    match rest.rsplit_once(' ') {
        Some((file, relvar)) => DotCommand::Import {
            file: file.trim_ascii(),
            relvar,
        },
        None => DotCommand::Misused(".import FILE RELVAR"),
    }
}

// The mode that `.mode` asks for, by its word.
fn mode_in(rest: &str) -> DotCommand<'static> {
    match rest {
        "table" => DotCommand::Mode(Mode::Table),
        "csv" => DotCommand::Mode(Mode::Csv),
        "literal" => DotCommand::Mode(Mode::Literal),
        _ => DotCommand::Misused(".mode table|csv|literal"),
    }
}

// Whether `.timer` turns the timer on or off.
fn timer_in(rest: &str) -> DotCommand<'static> {
    match rest {
        "on" => DotCommand::Timer(true),
        "off" => DotCommand::Timer(false),
        _ => DotCommand::Misused(".timer on|off"),
    }
}

// The file that `.read` names, all that is behind the word.
fn read_in(rest: &str) -> DotCommand<'_> {
    match rest {
        "" => DotCommand::Misused(".read FILE"),
        file => DotCommand::Read(file),
    }
}

// The file that `.dump` names; with `--tables` in front it takes what the base relvars have.
fn dump_in(rest: &str) -> DotCommand<'_> {
    let misused = DotCommand::Misused(".dump [--tables] FILE");
    let (word, file) = rest.split_once(' ').unwrap_or((rest, ""));
    match (word, file.trim_ascii()) {
        ("" | "--tables", "") => misused,
        ("--tables", file) => DotCommand::DumpTables(file),
        _ => DotCommand::Dump(rest),
    }
}

// The folder that `.export` names, all that is behind the word.
fn export_in(rest: &str) -> DotCommand<'_> {
    match rest {
        "" => DotCommand::Misused(".export FOLDER"),
        folder => DotCommand::Export(folder),
    }
}

// The address that `.serve` names, all that is behind the word.
fn serve_in(rest: &str) -> DotCommand<'_> {
    match rest {
        "" => DotCommand::Misused(".serve ADDRESS"),
        address => DotCommand::Serve(address),
    }
}

// The address that `.call` names, all that is behind the words.
fn call_in(rest: &str) -> DotCommand<'_> {
    let (address, is_plain) = match rest.strip_prefix("--plain ") {
        Some(address) => (address.trim_start(), true),
        None => (rest, false),
    };
    match address {
        "" | "--plain" => DotCommand::Misused(".call ADDRESS, or .call --plain ADDRESS"),
        address => DotCommand::Call { address, is_plain },
    }
}

// Which statements without effect `.refused` asks for: all of them, or with `here` those issued here alone.
fn refused_command(rest: &str) -> DotCommand<'static> {
    match rest {
        "" => DotCommand::Refused { is_own: false },
        "here" => DotCommand::Refused { is_own: true },
        _ => DotCommand::Misused(".refused [here]"),
    }
}

// Whether a number is written as stamps and sites are: digits, with no zero in front of others.
fn is_plain_number(text: &str) -> bool {
    let digits = text.as_bytes();
    !digits.is_empty()
        && digits.iter().all(u8::is_ascii_digit)
        && (digits.len() == 1 || !text.starts_with('0'))
}

// What `.digest` asks for: all that is held, or what one site issued up to a number. Both are plain numbers with a
// space between.
fn digest_in(rest: &str) -> DotCommand<'static> {
    let misused = DotCommand::Misused(".digest [SITE NUMBER]");
    if rest.is_empty() {
        return DotCommand::Digest(None);
    }
    let Some((site, number)) = rest.split_once(' ') else {
        return misused;
    };
    let number = number.trim_ascii();
    if !is_plain_number(site) || !is_plain_number(number) {
        return misused;
    }
    match (site.parse::<u16>(), number.parse::<u32>()) {
        (Ok(site), Ok(number)) => DotCommand::Digest(Some((site, number))),
        _ => misused,
    }
}

// What `.alarms` asks for: all of them, or with `acknowledge` that those of a site are let go.
fn alarms_in(rest: &str) -> DotCommand<'static> {
    let misused = DotCommand::Misused(".alarms [acknowledge SITE]");
    if rest.is_empty() {
        return DotCommand::Alarms;
    }
    let Some(("acknowledge", site)) = rest.split_once(' ') else {
        return misused;
    };
    let site = site.trim_ascii();
    if !is_plain_number(site) {
        return misused;
    }
    match site.parse::<u16>() {
        Ok(site) => DotCommand::Acknowledge(site),
        Err(_) => misused,
    }
}

// The address and the site that `.compare` names.
fn compare_in(rest: &str) -> DotCommand<'_> {
    let misused = DotCommand::Misused(".compare ADDRESS SITE");
    let Some((address, site)) = rest.rsplit_once(' ') else {
        return misused;
    };
    if !is_plain_number(site) {
        return misused;
    }
    match site.parse::<u16>() {
        Ok(site) => DotCommand::Compare {
            address: address.trim_ascii(),
            site,
        },
        Err(_) => misused,
    }
}

// A stamp whose numbers do not fit is that of no statement, as behind an `@` in a line for programs.
fn at_in(rest: &str) -> DotCommand<'_> {
    let misused = DotCommand::Misused(".at CLOCK.SITE QUERY");
    let Some((stamp, query)) = rest.split_once(' ') else {
        return misused;
    };
    let Some((clock, site)) = stamp.split_once('.') else {
        return misused;
    };
    if !is_plain_number(clock) || !is_plain_number(site) {
        return misused;
    }
    let (clock, site) = match (clock.parse::<u64>(), site.parse::<u16>()) {
        (Ok(clock), Ok(site)) => (clock, site),
        _ => (0, 0),
    };
    DotCommand::At {
        clock,
        site,
        query: query.trim_ascii(),
    }
}

/// What a line says whose first byte that is no blank is a dot.
pub fn command_of(line: &str) -> DotCommand<'_> {
    let line = line.trim_ascii();
    let (word, rest) = line.split_once(' ').unwrap_or((line, ""));
    let rest = rest.trim_ascii();
    match word {
        ".help" => without_words(DotCommand::Help, rest, ".help"),
        ".tables" => without_words(DotCommand::Tables, rest, ".tables"),
        ".schema" => schema_in(rest),
        ".log" => without_words(DotCommand::Log, rest, ".log"),
        ".refused" => refused_command(rest),
        ".digest" => digest_in(rest),
        ".listing" => without_words(DotCommand::Listing, rest, ".listing"),
        ".vector" => without_words(DotCommand::Vector, rest, ".vector"),
        ".read" => read_in(rest),
        ".import" => import_in(rest),
        ".dump" => dump_in(rest),
        ".export" => export_in(rest),
        ENTRY => DotCommand::Entry(rest),
        ".serve" => serve_in(rest),
        ".call" => call_in(rest),
        ".alarms" => alarms_in(rest),
        ".compare" => compare_in(rest),
        ".at" => at_in(rest),
        ".mode" => mode_in(rest),
        ".timer" => timer_in(rest),
        ".quit" => without_words(DotCommand::Quit, rest, ".quit"),
        _ => DotCommand::Unknown(word),
    }
}
