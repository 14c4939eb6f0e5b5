//! One thread that serves the clients and the peers of a site: sockets that never block, and limits on the number, the
//! bytes and the time of all of them.
//!
//! Begin with `EventLoop::bind` and its `run`, over a `Server`: a service of HTTP that `Meets` other sites.
//!
//! ```
//! let options = LoopOptions { clients, peers, allowed: &allowed, calls: &calls, every: 30_000 };
//! let mut event_loop = EventLoop::bind(&rt, &options)?;
//! event_loop.watch_console(rt.stdin().as_raw_fd())?;
//! event_loop.run(&rt, &mut server)?;
//! ```
//!
//! Its definitions are in `specs/`: Tokens, the number of the token of each source of events; Clients, the steps that
//! concern clients: one comes or goes, or requests that it has sent are answered; Meetings, which stages of a meeting
//! follow one another, and which call of the site each makes, over which bytes; Runs, the steps of the loop.
//! `EventLoop::run` ensures that it passes from one state to the next by a Chain of these steps alone.
//!
//! Costs: a turn walks along all connections, at most 64 clients and 12 meetings; while an answer or a step of a
//! meeting runs, all others wait. A meeting keeps at most 1.5 MiB of what its peer sent, and of what is sent to it.
//!
//! td_event_loop knows HTTP by http_server, and of a meeting the order of its steps and where the bytes of each end. It
//! knows no entries: a step gets bytes, and writes bytes, and the site keeps what it came to. Of a console it knows
//! when the server can read it.
#![tactic(auto)]

mod calls;
mod client;
mod console;
mod event_loop;
mod inbox;
mod limits;
mod meets;
mod outbox;
mod pace;
mod peer;
mod server;
mod slots;
mod tokens;
mod transfer;

pub use event_loop::{EventLoop, LoopOptions};
pub use limits::{MOST_ACCEPTED, MOST_BYTES, MOST_CALLED, MOST_CLIENTS, MOST_MEETINGS};
pub use meets::{Loss, MeetingOutcome, MeetingReport, MeetingSide, Meets, PeerRefusal, StepResult};
pub use outbox::Outbox;
pub use server::Server;
