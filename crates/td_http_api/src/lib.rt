//! What a site answers to programs and to a browser over HTTP: which requests are let in, which call each one makes,
//! JSON, and a page.
//!
//! Begin with `Api`, an `http_server::Service`, with `Guard`, which requests are let in, with `ApiCall`, the calls, and
//! with `Desk`, the site that answers them.
//!
//! Its definitions are in `specs/`: begin with Services, what comes of a request, and go on with Guards, Rights, Tags,
//! Requests, Resources, Members, Answers, Integers and Laws.
//!
//! td_http_api moves no bytes and knows no site but a `Desk`.
//!
//! A new call takes, in this order:
//!
//! 1. `calls.rt`: a variant of `ApiCall` with its arguments.
//! 2. `resources.rt` and `specs/Resources.antt`: a variant of `Resource`, its place in `RESOURCES`, and its row, which
//!    has its path, its methods, which rights it needs, and the members that it takes. `specs/Rights.antt` has the rights
//!    by the call. A member that no call had before
//!    has a row of its own in `members.rt` and `specs/Members.antt`.
//! 3. `arguments.rt`: an arm of `call_of_query` or `call_of_body`, which reads its arguments.
//! 4. `specs/Requests.antt`: an arm of `GivesInQuery` or `GivesInBody`, which says where its arguments are.
//! 5. Each desk: an arm that answers it.
//!
//! The refusals follow from the rows: 404 for another path, 401 without a token, 403 for a token without the right, 405
//! with Allow for another method, and 400 for a member that is unknown, missing or of another kind.
//!
//! A desk appends the members of an object that the service opened and will close, and returns the status. The members
//! that the page reads:
//!
//! - `Site`: `site`, `held` and `limit`; `open`, false where the journal has failed; `lacking`, true where the site
//!   issues nothing until it has met another one; `vector`; `peers`, each with `site` (null until it was met),
//!   `address`, `called` (true where this site calls it), `met` and `tried` (seconds ago, null for never), `failed` (how
//!   often since it was met) and `vector` (what it has for certain); `alarms`, each
//!   with `site` and `address`: statements of that site differ here and at the site that was met there, and nobody has
//!   acknowledged that; `meetings`, the latest first, each with `peer`, `called` (true where this site called), `met`,
//!   `words` (what it brought, or why it failed) and `seconds` (how long ago).
//! - `Client`: `name`, null if the token has none, and `rights`, `read`, `write` or `all`.
//! - `Relvars`: `relvars`, each with `name`, `kind` (`base` or `virtual`), `heading` (of each attribute `name` and
//!   `type`) and, where they are counted, `tuples`.
//! - `Refused`: `refused` in the order of stamps, each with `stamp`, `number`, `author` (null if its text names none),
//!   `confirmed` (true where this site issued it for a token of that name),
//!   `came` (when it came to this site, in seconds since 1970, null if that is not known), `reason`, `breaks` (the
//!   `kind`, `key` or `constraint`, and the `name`, if it breaks one), `text` and `reversed`, true where it was done
//!   here and nobody has acknowledged that it is refused.
//! - `Attention`: `attention`, statements of this site as in `Log`, with `kind`: `refused`, where it was done before, or
//!   `other`, where it changes something else now, with `was`, what it changed before in words; `alarms` and `lacking`
//!   as in `Site`; `full`, true where nine tenths of the limit are held.
//! - `Log`: `log` in the order of stamps, each as in `Refused`, or with `done` and `changed` in place of `reason` and
//!   `reversed`: of each relvar that it changed `relvar`, `out` and `in` (the first tuples that left it and that came
//!   into it) and `more` (how many others).
//! - `Script`: `script`. `Schema`: `types`, `relvars`, `constraints` and `labels`.
//! - `Digest`: `digest`, of each site that has issued `site`, `number` and `sum`: the number of its last statement that
//!   is held, and the SHA-256 of all up to that, as `.digest` of the shell has it.
//! - `Query`: of a relation `heading`, `rows` (lists of values in its order) and `total`, how many tuples there are in
//!   all; of another value `value`; or `raised`.
//! - `Statement`: `stamp` and either `done` and `changed` or `refused`, the reason, and `breaks`; `warning` where
//!   statements of this very site differ elsewhere. A text that is not added is a fault with 422.
//! - `Trial`: `done`, or `refused` and `breaks`, as `Statement` would have them.
//! - `Acknowledge`: `acknowledged`. `AcknowledgeAlarms`: `acknowledged`, how many; 422 where the site has no alarm.
//! - `Meet`: `calling`, with 202; an address that may not be called is a fault with 403. `Stop`: `stopping`, with 202.
//! - A fault, with a status from 400 on: `fault`, its words, in lines where a caret is below a place.
//!
//! `Table` is answered by comma-separated values in place of an object, or by a fault, and `Metrics` by the text format of
//! Prometheus.
//!
//! Integers go by `write_integer`, so that those beyond 2^53 are texts.
#![tactic(auto)]

mod api;
mod arguments;
mod calls;
mod desk;
mod fault;
mod fields;
mod guard;
pub mod laws;
mod members;
mod orders;
mod page;
mod resources;
mod responses;
mod tags;

pub use api::Api;
pub use calls::{ApiCall, LogFilter, OrderBy, Selection};
pub use desk::{Desk, DeskAnswer, Revision, write_integer};
pub use guard::Guard;
pub use http::StatusCode;
pub use json::Writer;
