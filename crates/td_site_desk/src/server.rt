//! What the event loop serves.

ghost use Rattle.std.specs.Prelude.{◌≡◌, OnErr, OnOk};
ghost use Rattle.http_server.specs.Response.{IsBlank};
ghost use Rattle.td_http_api.specs.Services.{Leads};
ghost use Rattle.td_site_desk.specs.Meetings.{Finishes, Settles};

use crate::desk::SiteDesk;
use bytes::Bytes;
use http::Request;
use http_server::{Response, Service};
use std::alloc::AllocError;
use std::net::SocketAddr;
use std::rt::Runtime;
use td_changes::Changes;
use td_comparison::FirstMessage;
use td_digested_sites::Digested;
use td_event_loop::{
    MeetingOutcome, MeetingReport, Meets, Outbox, PeerRefusal, Server, StepResult,
};
use td_http_api::{Api, Desk};
use td_replica::Catalogued;
use td_trials::Trials;

/// A site that is asked by HTTP and meets others.
#[derive(Drop)]
pub struct SiteServer<'a, R: Drop, H> {
    api: Api<SiteDesk<'a, R, H>>,
    answered: u64,
}

impl<'a, R: Drop, H> SiteServer<'a, R, H> {
    pub fn new(api: Api<SiteDesk<'a, R, H>>) -> SiteServer<'a, R, H>
        ensures { result.api ≡ api.entry }
    {
        SiteServer { api, answered: 0 }
    }

    pub fn into_api(self) -> Api<SiteDesk<'a, R, H>>
        ensures { result ≡ self.entry.api }
    {
        self.api
    }
}

impl<R: Changes + Catalogued + Trials + Drop, H: Runtime + AllocGlobal> Service
    for SiteServer<'_, R, H> {
    // A request is served once, by what the desk does to the site.
    ghost answers = { λ old request response new.
        Leads ⟦<SiteDesk<'static, R, H> as Desk>⟧.answers
        ⟦<SiteDesk<'static, R, H> as Desk>⟧.failing
        ⟦<SiteDesk<'static, R, H> as Desk>⟧.revision old.api.guard old.api.desk request response
        new.api.guard new.api.desk };

    fn call(&mut self, request: &Request<Bytes>, response: &mut Response) -> Result<(), AllocError>
        requires { IsBlank response.old }
        ensures ok { OnOk result (Leads ⟦<SiteDesk<'static, R, H> as Desk>⟧.answers
            ⟦<SiteDesk<'static, R, H> as Desk>⟧.failing
            ⟦<SiteDesk<'static, R, H> as Desk>⟧.revision
            self.old.api.guard self.old.api.desk request.now response.new self.new.api.guard
            self.new.api.desk) }
        ensures err { OnErr result (self.new ≡ self.old) }
    {
        self.api.call(request, response)?;
        self.answered = self.answered.saturating_add(1);
        Ok(())
    }
}

impl<R: Changes + Catalogued + Trials + Digested + Drop, H: Runtime + AllocGlobal> Meets
    for SiteServer<'_, R, H> {
    // The guard is the same after each call, but for its tokens, which may have been read again.
    ghost keeps = { λ old new. (new.api.guard.hosts ≡ old.api.guard.hosts)
        × (R.seen new.api.desk.site ≡ R.seen old.api.desk.site) };

    ghost settles = { λ old reply step new. (new.api.guard ≡ old.api.guard)
        × Settles (R.seen old.api.desk.site) reply step (R.seen new.api.desk.site) };

    ghost finishes = { λ old entries new. (new.api.guard ≡ old.api.guard)
        × Finishes (R.seen old.api.desk.site) entries (R.seen new.api.desk.site) };

    fn open(&mut self, meeting: usize, peer: SocketAddr, out: &mut Outbox) -> Option<FirstMessage> {
        self.api.desk.open(meeting, peer, out)
    }

    fn answer_question(&mut self, meeting: usize, question: &[u8], out: &mut Outbox) -> StepResult {
        self.api.desk.answer_question(meeting, question, out)
    }

    fn compare(
        &mut self,
        meeting: usize,
        peer: SocketAddr,
        answer: &[u8],
        out: &mut Outbox,
    ) -> StepResult {
        self.api.desk.compare(meeting, peer, answer, out)
    }

    fn add_differences(&mut self, meeting: usize, differences: &[u8]) -> StepResult {
        self.api.desk.add_differences(meeting, differences)
    }

    fn answer(&mut self, meeting: usize, greeting: &[u8], out: &mut Outbox) -> StepResult {
        self.api.desk.answer(meeting, greeting, out)
    }

    fn settle(
        &mut self,
        meeting: usize,
        peer: SocketAddr,
        reply: &[u8],
        out: &mut Outbox,
    ) -> StepResult {
        self.api.desk.settle(meeting, peer, reply, out)
    }

    fn finish(&mut self, meeting: usize, entries: &[u8]) {
        self.api.desk.finish(meeting, entries)
    }

    fn end(&mut self, report: &MeetingReport) -> MeetingOutcome {
        self.api.desk.end(report)
    }

    fn refuse(&mut self, peer: SocketAddr, refusal: PeerRefusal) {
        self.api.desk.refuse(peer, refusal)
    }

    fn next_wish(&mut self) -> Option<SocketAddr> {
        self.api.desk.next_wish()
    }
}

impl<R: Changes + Catalogued + Trials + Digested + Drop, H: Runtime + AllocGlobal> Server
    for SiteServer<'_, R, H> {
    fn answered(&self) -> u64 {
        self.answered
    }

    fn is_stopping(&self) -> bool {
        self.api.desk.is_stopping()
    }

    fn is_leaving(&self) -> bool {
        self.api.desk.is_leaving()
    }

    fn pass_time(&mut self, now: u64, clients: usize) {
        self.api.desk.pass_time(now, clients);
        if let Some(tokens) = self.api.desk.reread_tokens() {
            self.api.set_tokens(tokens);
        }
    }

    fn read_console(&mut self) -> bool {
        self.api.desk.read_console()
    }
}
