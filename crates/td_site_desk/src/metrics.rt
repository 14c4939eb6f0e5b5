//! What a program counts that watches the site, in the text format of Prometheus.

use crate::desk::SiteDesk;
use std::alloc::AllocError;
use std::fmt::Write;
use std::fs;
use std::rt::Runtime;
use td_arrivals::seconds_now;
use td_changes::Changes;
use td_contacts::Contact;
use td_http_api::DeskAnswer;
use td_replica::Catalogued;
use td_semantics::Outcome;

/// A metric that has one value.
#[derive(Clone, Copy)]
struct Metric {
    name: &'static str,
    kind: &'static str,
    help: &'static str,
}

const HELD: Metric = Metric {
    name: "ketsarimo_statements_held",
    kind: "gauge",
    help: "Statements that the site holds.",
};

const LIMIT: Metric = Metric {
    name: "ketsarimo_statements_limit",
    kind: "gauge",
    help: "Statements that the site may hold.",
};

const REFUSED: Metric = Metric {
    name: "ketsarimo_statements_refused",
    kind: "gauge",
    help: "Statements that are held and refused.",
};

const ATTENTION: Metric = Metric {
    name: "ketsarimo_attention",
    kind: "gauge",
    help: "Statements of this site that came to something else, and alarms, that nobody has acknowledged.",
};

const OPEN: Metric = Metric {
    name: "ketsarimo_open",
    kind: "gauge",
    help: "1 if the site takes statements, 0 if not.",
};

const MEETINGS: Metric = Metric {
    name: "ketsarimo_meetings_total",
    kind: "counter",
    help: "Meetings that ended since the program began.",
};

const FAILURES: Metric = Metric {
    name: "ketsarimo_meetings_failed_total",
    kind: "counter",
    help: "Meetings that failed since the program began.",
};

const CLIENTS: Metric = Metric {
    name: "ketsarimo_clients",
    kind: "gauge",
    help: "Clients that are connected.",
};

const JOURNAL: Metric = Metric {
    name: "ketsarimo_journal_bytes",
    kind: "gauge",
    help: "The size of the journal.",
};

const PEERS: Metric = Metric {
    name: "ketsarimo_peer_seconds_since_met",
    kind: "gauge",
    help: "How long ago each peer was met that was met at all.",
};

// Appends what a metric is.
fn write_head(out: &mut String, metric: Metric) -> Result<(), AllocError> {
    let Metric { name, kind, help } = metric;
    writeln!(out, "# HELP {name} {help}\n# TYPE {name} {kind}")
}

// Appends a metric with its value.
fn write_metric(out: &mut String, metric: Metric, value: u64) -> Result<(), AllocError> {
    write_head(out, metric)?;
    writeln!(out, "{} {value}", metric.name)
}

// Appends how long ago a peer was met, if it was, at this time in seconds since 1970.
fn write_peer(out: &mut String, contact: &Contact, now: u64) -> Result<(), AllocError> {
    let Some(met) = contact.met else {
        return Ok(());
    };
    let site = contact.site.unwrap_or(0);
    let address = contact.address;
    let seconds = now.saturating_sub(met);
    writeln!(
        out,
        "{}{{site=\"{site}\",address=\"{address}\"}} {seconds}",
        PEERS.name
    )
}

impl<R: Changes + Catalogued + Drop, H: Runtime + AllocGlobal> SiteDesk<'_, R, H> {
    // Appends what the site holds; an answer of a site that is not open has none of it.
    fn write_statements(&self, out: &mut String) -> Result<(), AllocError> {
        let Ok(held) = self.site.held() else {
            return Ok(());
        };
        write_metric(out, HELD, held.len() as u64)?;
        write_metric(out, LIMIT, held.limit() as u64)?;
        let Ok(outcomes) = self.site.outcomes(self.alloc) else {
            return Ok(());
        };
        let refused = outcomes
            .iter()
            .filter(|it| !matches!(it.1, Outcome::Done))
            .count();
        write_metric(out, REFUSED, refused as u64)
    }

    // How many things a person is to look at.
    fn attention_count(&self) -> usize {
        self.reversals
            .reversed()
            .len()
            .saturating_add(self.reversals.redone().len())
            .saturating_add(self.alarms.list().len())
    }

    // Appends how the program does.
    fn write_state(&self, out: &mut String) -> Result<(), AllocError> {
        write_metric(out, OPEN, u64::from(self.failing_words().is_none()))?;
        write_metric(out, ATTENTION, self.attention_count() as u64)?;
        write_metric(out, MEETINGS, self.meetings.counts.ended)?;
        write_metric(out, FAILURES, self.meetings.counts.failed)?;
        write_metric(out, CLIENTS, self.clients as u64)?;
        match fs::metadata(self.host, self.journal) {
            Ok(found) => write_metric(out, JOURNAL, found.len()),
            Err(_) => Ok(()),
        }
    }

    // Appends how long ago peers were met.
    fn write_peers(&self, out: &mut String) -> Result<(), AllocError> {
        write_head(out, PEERS)?;
        let now = seconds_now(self.host).unwrap_or(0);
        for contact in self.contacts.list() {
            write_peer(out, contact, now)?;
        }
        Ok(())
    }

    /// What a program counts that watches the site.
    pub(crate) fn tell_metrics(&self) -> Result<DeskAnswer, AllocError> {
        let mut out = String::new(self.alloc);
        self.write_statements(&mut out)?;
        self.write_state(&mut out)?;
        self.write_peers(&mut out)?;
        Ok(DeskAnswer::Metrics(out))
    }
}
