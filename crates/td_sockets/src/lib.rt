//! Links to sites of other programs, over TCP.
//!
//! Begin with `TcpLinks`.
//!
//! ```
//! let mut links = TcpLinks::new(&rt);
//! let called = links.call(alloc, address)?;
//! let served = links.serve(alloc, address)?;
//! ```
//!
//! Costs: `call` waits for 30 seconds at most, and `serve` without a limit. A read or write waits for 30 seconds at
//! most, and all of them together for 30 seconds and one more for each KiB that was moved.
//!
//! td_sockets knows addresses and TCP, and no site: `TcpLinks` is `Links`, and a stream is a link as td_io has it.
#![tactic(auto)]

mod paced;
mod tcp;

pub use paced::Paced;
pub use tcp::{TcpLinks, accept_on};
