//! What a command line says of a site.

use clap::ArgMatches;

/// What a command line says of a site.
#[derive(Clone, Copy)]
pub struct SiteOptions<'a> {
    /// The name of the file that has the script.
    pub script: &'a str,
    /// The number of the site: 1 to 65,535.
    pub site: u16,
    /// The most statements that it may hold: 1 to 100,000.
    pub limit: usize,
    /// What the name of its journal begins with, if it keeps one.
    pub journal: Option<&'a str>,
    /// Whether a journal is begun; otherwise the site goes on with one.
    pub is_new: bool,
    /// Whether that is one of a site that had another journal, and lacks what it had.
    pub is_rebuilt: bool,
    /// Whether it goes on with a journal that has less than it had once.
    pub forgets: bool,
    /// Whether a journal that is damaged is made anew of what is sound.
    pub salvages: bool,
    /// Whether the journal is only read, and left as it is.
    pub is_read_only: bool,
}

/// The journal of a site, with what the site is opened from.
#[derive(Clone, Copy)]
pub struct SiteJournal<'a> {
    pub options: SiteOptions<'a>,
    /// The text of the script.
    pub script: &'a str,
    /// The name of the journal.
    pub name: &'a str,
}

/// What the words say of a site, whose journal is written.
pub fn site_options<'a>(matches: &ArgMatches<'a>) -> SiteOptions<'a> {
    SiteOptions {
        script: matches.get_str("script").unwrap_or(""),
        site: matches.get_one::<u16>("site").unwrap_or(1),
        limit: matches.get_one::<usize>("limit").unwrap_or(10_000),
        journal: matches.get_str("journal"),
        is_new: matches.get_flag("new") || matches.get_flag("rebuild"),
        is_rebuilt: matches.get_flag("rebuild"),
        forgets: matches.get_flag("forget"),
        salvages: matches.get_flag("salvage"),
        is_read_only: false,
    }
}
