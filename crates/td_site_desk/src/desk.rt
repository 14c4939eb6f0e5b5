//! The site that answers requests.

ghost use Rattle.std.specs.Prelude.{◌≡◌, option_copied, option_map, string_bytes};
ghost use Rattle.td_site_desk.specs.Sites.{Changes, failing_of, statement_count};

use crate::console::PartialLine;
use crate::inquiries::SiteView;
use crate::meetings::Meetings;
use crate::reversals::Reversals;
use crate::scopes::Scopes;
use crate::suspension::Suspension;
use crate::words::{fault, write_null, write_raised, write_text, write_truth};
use std::alloc::{AllocError, Global};
use std::net::SocketAddr;
use std::rt::Runtime;
use td_alarms::Alarms;
use td_arrivals::{Arrivals, NoteError};
use td_changes::Changes;
use td_client_tokens::Rights;
use td_contacts::Contacts;
use td_http_api::{ApiCall, Desk, DeskAnswer, Revision, Selection, StatusCode, Writer};
use td_io::Device;
use td_journal_files::Notes;
use td_listings::{ExportError, export};
use td_log_lines::LogLines;
use td_replica::Catalogued;
use td_schema_answers::write_schema;
use td_semantics::Meter;
use td_site_messages::{BROKEN, LACKING, NO_MEMORY};
use td_token_files::TokenFile;
use td_trials::Trials;

/// The peers that the program was started with.
#[derive(Drop)]
pub struct Peers {
    pub addresses: Vec<SocketAddr>,
}

/// What a desk is made of.
#[derive(Drop)]
pub struct DeskParts<'a, R: Drop, H> {
    pub host: &'a H,
    pub notes: &'a Notes,
    /// A site that was opened.
    pub site: R,
    pub meter: Meter,
    pub peers: Peers,
    pub reversals: Reversals,
    pub alarms: Alarms,
    pub arrivals: Arrivals,
    pub contacts: Contacts,
    /// The file of the tokens that clients show.
    pub tokens: TokenFile,
    /// The name of the site's journal.
    pub journal: &'a str,
    /// Its journal lacks statements that it had once, so it issues none until it has met another site.
    pub is_lacking: bool,
    /// A number that the program chose at this start.
    pub start: u64,
    /// The name of a file that is there until a rebuilt site has met another one, if it is there.
    pub mark: Option<String>,
}

/// A site, with what is kept of its statements and its meetings.
#[derive(Drop)]
pub struct SiteDesk<'a, R: Drop, H> {
    pub(crate) alloc: Global,
    pub(crate) host: &'a H,
    pub(crate) notes: &'a Notes,
    pub(crate) site: R,
    pub(crate) meter: Meter,
    pub(crate) peers: Peers,
    pub(crate) wish: Option<SocketAddr>,
    pub(crate) meetings: Meetings,
    pub(crate) scopes: Scopes,
    pub(crate) reversals: Reversals,
    pub(crate) alarms: Alarms,
    pub(crate) arrivals: Arrivals,
    pub(crate) contacts: Contacts,
    /// When the file of contacts was last written, in milliseconds since the event loop began; none if it was not.
    pub(crate) contacts_saved: Option<u64>,
    pub(crate) tokens: TokenFile,
    /// When the file of tokens is looked at again, in milliseconds since the event loop began.
    pub(crate) tokens_due: u64,
    pub(crate) journal: &'a str,
    pub(crate) lines: LogLines,
    pub(crate) console: PartialLine,
    /// Its journal lacks statements that it had once, so it issues none until it has met another site.
    pub(crate) is_lacking: bool,
    pub(crate) mark: Option<String>,
    pub(crate) suspension: Option<Suspension>,
    pub(crate) is_stopping: bool,
    pub(crate) now: u64,
    /// How many clients are connected.
    pub(crate) clients: usize,
    pub(crate) start: u64,
    /// How often anything changed that is shown, but for the statements.
    pub(crate) marks: u64,
}

// The answer of the members that were written, with this status.
fn members(status: Result<StatusCode, AllocError>) -> Result<DeskAnswer, AllocError> {
    match status {
        Ok(status) => Ok(DeskAnswer::Members(status)),
        Err(error) => Err(error),
    }
}

// Appends who asks: the name of the token, null if it has none, and its rights.
fn tell_client(
    name: Option<&str>,
    rights: Rights,
    out: &mut Writer,
) -> Result<StatusCode, AllocError> {
    match name {
        Some(name) => write_text(out, "name", name)?,
        None => write_null(out, "name")?,
    }
    write_text(out, "rights", rights.name())?;
    Ok(StatusCode::OK)
}

impl<'a, R: Changes + Catalogued + Drop, H: Runtime + AllocGlobal> SiteDesk<'a, R, H> {
    /// A desk of these parts. The marks of reversed statements are brought up to what the site holds.
    pub fn new(
        alloc: Global,
        parts: DeskParts<'a, R, H>,
    ) -> Result<SiteDesk<'a, R, H>, AllocError> {
        let DeskParts {
            host,
            notes,
            site,
            meter,
            peers,
            mut reversals,
            alarms,
            mut arrivals,
            contacts,
            tokens,
            journal,
            is_lacking,
            start,
            mark,
        } = parts;
        let _ = reversals.update(&site)?;
        if let Ok(held) = site.held() {
            arrivals.begin(held.entries())?;
        }
        let scopes = Scopes::new(alloc, &peers.addresses)?;
        Ok(SiteDesk {
            alloc,
            host,
            notes,
            site,
            meter,
            peers,
            wish: None,
            meetings: Meetings::new(alloc)?,
            scopes,
            reversals,
            alarms,
            arrivals,
            contacts,
            contacts_saved: None,
            tokens,
            tokens_due: 0,
            journal,
            lines: LogLines::new(alloc),
            console: PartialLine::new(),
            is_lacking,
            mark,
            suspension: None,
            is_stopping: false,
            now: 0,
            clients: 0,
            start,
            marks: 0,
        })
    }

    /// Why the site takes no statements; none where it takes them.
    pub(crate) fn failing_words(&self) -> Option<&str>
        ensures { option_copied result ≡ failing_of
            (option_map (λ it. string_bytes it.why) self.entry.now.suspension)
            (R.seen self.entry.now.site).live self.entry.now.is_lacking }
    {
        if let Some(why) = self.suspended() {
            Some(why)
        } else if !self.site.is_open() {
            Some(BROKEN)
        } else if self.is_lacking {
            Some(LACKING)
        } else {
            None
        }
    }

    /// Whether the program is to end.
    pub fn is_stopping(&self) -> bool {
        self.is_stopping
    }

    /// Takes note of the time, in milliseconds since the event loop began, and of how many clients are connected.
    pub(crate) fn pass_time(&mut self, now: u64, clients: usize)
        ensures { R.seen self.new.site ≡ R.seen self.old.site }
    {
        self.now = now;
        self.clients = clients;
    }

    /// Notes that something changed that is shown.
    pub(crate) fn mark_change(&mut self)
        ensures { R.seen self.new.site ≡ R.seen self.old.site }
    {
        self.marks = self.marks.wrapping_add(1);
    }

    /// Takes note of when statements came that the site holds now, and reports if that cannot be written.
    pub(crate) fn note_arrivals(&mut self)
        ensures { R.seen self.new.site ≡ R.seen self.old.site }
    {
        let Ok(held) = self.site.held() else {
            return;
        };
        match self.arrivals.note(self.host, held.entries()) {
            Ok(()) => {}
            Err(NoteError::OutOfMemory) => {
                self.report_fault("fault memory: when statements came is not kept")
            }
            Err(NoteError::Unwritten) => {
                self.report_fault("fault file: when statements came cannot be written")
            }
        }
    }

    /// Lends what the answers about the site need; nothing in it changes the site.
    pub(crate) fn view(&self) -> SiteView<'_, R> {
        SiteView {
            alloc: self.alloc,
            site: &self.site,
            notes: self.notes,
            reversals: &self.reversals,
            arrivals: &self.arrivals,
        }
    }

    // Appends what the site is and holds, whether it lacks statements, its peers, its alarms, and its last meetings.
    fn tell_site(&self, out: &mut Writer) -> Result<StatusCode, AllocError> {
        self.view().tell_site(out)?;
        write_truth(
            out,
            "open",
            self.suspension.is_none() && self.site.is_open(),
        )?;
        write_truth(out, "lacking", self.is_lacking)?;
        self.write_contacts(out)?;
        self.write_alarms(out)?;
        self.meetings.write(out, self.now)?;
        Ok(StatusCode::OK)
    }

    // Appends the relvars, with the numbers of their tuples where these are asked for.
    fn tell_relvars(&self, counts: bool, out: &mut Writer) -> Result<StatusCode, AllocError> {
        self.view().tell_relvars(counts, out)?;
        Ok(StatusCode::OK)
    }

    // Appends the script.
    fn tell_script(&self, out: &mut Writer) -> Result<StatusCode, AllocError> {
        write_text(out, "script", self.site.script())?;
        Ok(StatusCode::OK)
    }

    // Appends what the script defines.
    fn tell_schema(&self, out: &mut Writer) -> Result<StatusCode, AllocError> {
        write_schema(self.alloc, self.site.catalogue(), self.site.script(), out)?;
        Ok(StatusCode::OK)
    }

    // Appends the value of a query: now, or as it was just after the statement of a stamp.
    fn query(
        &self,
        text: &str,
        at: Option<&str>,
        selection: &Selection<'_>,
        out: &mut Writer,
    ) -> Result<StatusCode, AllocError> {
        match at {
            None => self.view().ask(text, selection, out),
            Some(at) => {
                let mut meter = Meter::new(self.host);
                self.view().ask_at(text, at, selection, &mut meter, out)
            }
        }
    }

    // Appends why a relvar is not exported, and returns the status.
    fn refuse_table(
        &self,
        error: ExportError,
        relvar: &str,
        out: &mut Writer,
    ) -> Result<StatusCode, AllocError> {
        match error {
            ExportError::Unknown => {
                let words = format!(in self.alloc; "there is no relvar {relvar}")?;
                write_text(out, "fault", words.as_str())?;
                Ok(StatusCode::NOT_FOUND)
            }
            ExportError::NoAttributes => {
                let words = "the relation has no attributes";
                write_text(out, "fault", words)?;
                Ok(StatusCode::UNPROCESSABLE_ENTITY)
            }
            ExportError::Broken => {
                write_text(out, "fault", BROKEN)?;
                Ok(StatusCode::INTERNAL_SERVER_ERROR)
            }
            ExportError::Raised(raise) => {
                write_raised(self.alloc, out, raise)?;
                Ok(StatusCode::UNPROCESSABLE_ENTITY)
            }
            ExportError::OutOfMemory | ExportError::WriteFault => {
                write_text(out, "fault", NO_MEMORY)?;
                Ok(StatusCode::SERVICE_UNAVAILABLE)
            }
        }
    }

    // A relvar as comma-separated values, or why it is not exported.
    fn export_table(&self, relvar: &str, out: &mut Writer) -> Result<DeskAnswer, AllocError> {
        let mut table = Vec::new(self.alloc);
        let exported = export(self.alloc, &self.site, relvar, &mut Device::new(&mut table));
        if let Err(error) = exported {
            return members(self.refuse_table(error, relvar, out));
        }
        match String::from_utf8(table) {
            Ok(text) => Ok(DeskAnswer::Table(text)),
            Err(_) => Err(AllocError),
        }
    }

    // Has one of the peers called soon. A later wish takes the place of one that is still open.
    fn wish_for(&mut self, text: &str, out: &mut Writer) -> Result<StatusCode, AllocError>
        ensures { R.seen self.new.site ≡ R.seen self.old.site }
    {
        let Ok(address) = text.parse::<SocketAddr>() else {
            let words = "an address is numbers and a port, as 127.0.0.1:7001 or [::1]:7001";
            return fault(out, StatusCode::BAD_REQUEST, words);
        };
        if !self.peers.addresses.iter().any(|peer| *peer == address) {
            let words = "only the peers that the program was started with are called";
            return fault(out, StatusCode::FORBIDDEN, words);
        }
        self.wish = Some(address);
        self.mark_change();
        write_truth(out, "calling", true)?;
        Ok(StatusCode::ACCEPTED)
    }

    // Notes that the program is to end, and answers with status 202.
    fn stop_soon(&mut self, out: &mut Writer) -> Result<StatusCode, AllocError>
        ensures { R.seen self.new.site ≡ R.seen self.old.site }
    {
        self.is_stopping = true;
        self.mark_change();
        write_truth(out, "stopping", true)?;
        Ok(StatusCode::ACCEPTED)
    }
}

impl<R: Changes + Catalogued + Trials + Drop, H: Runtime + AllocGlobal> Desk
    for SiteDesk<'_, R, H> {
    // The numbers are those of the program, of the site and of the desk.
    ghost revision = { λ desk. record {
      start = desk.start;
      statements = statement_count (R.seen desk.site);
      marks = desk.marks;
    } };

    // No call changes the site but a statement, which is answered by a fault where the site takes none.
    ghost answers = { λ old call answer new.
        Changes (failing_of (option_map (λ it. string_bytes it.why) old.suspension)
        (R.seen old.site).live old.is_lacking) call answer (R.seen old.site) (R.seen new.site) };

    // It is suspended, its site is not open, or that lacks statements.
    ghost failing = { λ desk. failing_of (option_map (λ it. string_bytes it.why) desk.suspension)
        (R.seen desk.site).live desk.is_lacking };

    fn make(&mut self, call: &ApiCall<'_>, out: &mut Writer) -> Result<DeskAnswer, AllocError> {
        match call {
            ApiCall::Site => members(self.tell_site(out)),
            ApiCall::Client { name, rights } => members(tell_client(*name, *rights, out)),
            ApiCall::Relvars { counts } => members(self.tell_relvars(*counts, out)),
            ApiCall::Table { relvar } => self.export_table(relvar, out),
            ApiCall::Refused => members(self.view().tell_refused(out)),
            ApiCall::Attention => members(self.tell_attention(out)),
            ApiCall::Log(filter) => members(self.view().tell_log(filter, out)),
            ApiCall::Script => members(self.tell_script(out)),
            ApiCall::Schema => members(self.tell_schema(out)),
            ApiCall::Digest => members(self.view().tell_digest(out)),
            ApiCall::Metrics => self.tell_metrics(),
            ApiCall::Query {
                text,
                at,
                selection,
            } => members(self.query(*text, *at, selection, out)),
            ApiCall::Statement { text, key, author } => {
                match self.answer_statement(*text, *key, *author, out) {
                    Ok(status) => Ok(DeskAnswer::Members(status)),
                    Err(error) => Err(error),
                }
            }
            ApiCall::Trial { text } => members(self.answer_trial(text, out)),
            ApiCall::Acknowledge { stamp } => members(self.acknowledge_stamp(stamp, out)),
            ApiCall::AcknowledgeAlarms { site } => members(self.acknowledge_alarms(*site, out)),
            ApiCall::Meet { address } => members(self.wish_for(address, out)),
            ApiCall::Stop => members(self.stop_soon(out)),
        }
    }

    fn revision(&self) -> Revision {
        let statements = match self.site.held() {
            Ok(held) => held.len() as u64,
            Err(_) => 0,
        };
        Revision {
            start: self.start,
            statements,
            marks: self.marks,
        }
    }

    fn failure(&self) -> Option<&str> {
        self.failing_words()
    }
}
