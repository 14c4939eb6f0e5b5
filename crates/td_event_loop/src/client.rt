//! A connection of a client.

ghost use Rattle.std.specs.Prelude.{◌≡◌, []};
ghost use Rattle.http_server.specs.Exchange.{Calls};
ghost use Rattle.td_event_loop.specs.Clients.{calls_of};

use crate::limits::{ANSWER_TIME, MOST_BODY, REQUEST_TIME, TURN, WHOLE_ANSWER_TIME};
use crate::pace::Pace;
use crate::server::Server;
use crate::transfer::{Progress, Readiness, Transfer, transfer_of};
use http_server::{Config, Connection};
use http1::Limits;
use mio::net::TcpStream;
use std::alloc::Global;
use std::hash::RandomState;

/// A client: its socket, its requests and answers, and how fast it goes. Its pace restarts at each answer.
pub(crate) struct Client {
    stream: TcpStream,
    connection: Connection,
    readiness: Readiness,
    pace: Pace,
}

// By hand, since a derived one is proved anew at each place where a client is dropped: this one is a call there.
impl Drop for Client {
    fn drop(self) {
        let Client {
            stream: _,
            connection: _,
            readiness: _,
            pace: _,
        } = self;
    }
}

// The limits of a client's connection.
fn config() -> Config {
    Config {
        limits: Limits::default(),
        max_body_len: MOST_BODY,
        // One answer at a time: a client that asks many things at once waits for its turns.
        max_pending: 0,
        read_size: 4096,
    }
}

impl Client {
    pub(crate) fn new(alloc: Global, keys: RandomState, stream: TcpStream, now: u64) -> Client
        ensures { calls_of result ≡ [] }
    {
        Client {
            stream,
            connection: Connection::new(alloc, keys, config()),
            readiness: Readiness {
                is_readable: true,
                is_writable: true,
            },
            pace: Pace::new(now),
        }
    }

    /// Notes what an event says the socket is ready for, beside what is noted already.
    pub(crate) fn add_readiness(&mut self, readiness: Readiness)
        ensures { calls_of self.new ≡ calls_of self.old }
    {
        self.readiness.add(readiness);
    }

    /// Milliseconds that it has been idle; none where an answer is under way.
    pub(crate) fn idle(&self) -> Option<u64> {
        if self.connection.wants_write() {
            None
        } else {
            Some(self.pace.waited())
        }
    }

    // Whether the client takes too long: to take an answer that is under way, or else to send its request.
    fn is_late(&self) -> bool {
        if self.connection.wants_write() {
            self.pace.quiet() > ANSWER_TIME || self.pace.waited() > WHOLE_ANSWER_TIME
        } else {
            self.pace.waited() > REQUEST_TIME
        }
    }

    // Sends what the socket takes of an answer; ended where it fails or takes nothing.
    fn write(&mut self) -> Progress
        ensures { calls_of self.new ≡ calls_of self.old }
    {
        match transfer_of(self.connection.write_to(&mut self.stream)) {
            Transfer::Bytes(0) | Transfer::Failed => Progress::Ended,
            Transfer::Bytes(count) => {
                self.pace.add_bytes(count);
                Progress::Busy
            }
            Transfer::Blocked => {
                self.readiness.is_writable = false;
                Progress::Busy
            }
        }
    }

    // Reads what has come of a request; ended where the socket fails.
    fn read(&mut self) -> Progress
        ensures { calls_of self.new ≡ calls_of self.old }
    {
        match transfer_of(self.connection.read_from(&mut self.stream)) {
            Transfer::Failed => Progress::Ended,
            Transfer::Bytes(_) => Progress::Busy,
            Transfer::Blocked => {
                self.readiness.is_readable = false;
                Progress::Busy
            }
        }
    }

    // Reads or writes once, where that can be.
    fn transfer(&mut self) -> Progress
        ensures { calls_of self.new ≡ calls_of self.old }
    {
        if self.connection.wants_write() && self.readiness.is_writable {
            return self.write();
        }
        if self.connection.wants_read() && self.readiness.is_readable {
            return self.read();
        }
        Progress::Waiting
    }

    // Answers a request that has come; tells whether there was one.
    fn answer<S: Server>(&mut self, server: &mut S) -> bool
        ensures { Calls S.answers server.old server.new (calls_of self.old) (calls_of self.new) }
    {
        let before = server.answered();
        self.connection.advance(server);
        let is_answered = server.answered() != before;
        if is_answered {
            self.pace.restart();
        }
        is_answered
    }

    /// Gives the client its turn: some reads and writes, and one answer at most.
    pub(crate) fn take_turn<S: Server>(&mut self, server: &mut S, now: u64) -> Progress
        ensures { Calls S.answers server.old server.new (calls_of self.old) (calls_of self.new) }
    {
        self.pace.pass(now);
        if self.is_late() {
            return Progress::Ended;
        }
        for _ in 0..TURN {
            match self.transfer() {
                Progress::Busy => {}
                progress => return progress,
            }
            let is_answered = self.answer(server);
            if self.connection.is_done() {
                return Progress::Ended;
            }
            if is_answered {
                return Progress::Busy;
            }
        }
        Progress::Busy
    }

    /// Sends what is left of the answer that is under way, and answers nothing more.
    pub(crate) fn send_rest(&mut self) -> Progress
        ensures { calls_of self.new ≡ calls_of self.old }
    {
        for _ in 0..TURN {
            if !self.connection.wants_write() {
                return Progress::Ended;
            }
            if !self.readiness.is_writable {
                return Progress::Waiting;
            }
            if self.write() == Progress::Ended {
                return Progress::Ended;
            }
        }
        Progress::Busy
    }
}
