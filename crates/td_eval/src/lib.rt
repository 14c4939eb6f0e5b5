//! Evaluation of typed expressions: their values, or the errors that they raise.
//!
//! Begin with `eval`, the value of a typed expression over a `Lookup`, and `changed`, the change of a relvar that an
//! expression makes where it stands.
//!
//! ```
//! let read = read_expr(alloc, "COUNT ( S )")?;
//! let expr = type_expr(alloc, database.catalogue(), read.get())?;
//! let value = eval(alloc, &expr, &database, &tuple_of(alloc, Vec::new(alloc))?)?;
//! let change = changed(alloc, database.catalogue(), &source, &database, target)?;
//! ```
//!
//! Costs: a base relvar is lent without a copy, and a virtual one that is reached is evaluated once; then come the
//! operators. `changed` asks the condition of each tuple once, or of those alone that it finds by a key.
//!
//! td_eval evaluates a virtual relvar where the expression comes to it: td_meaning ends there and says which one is
//! wanted, and begins again once its value, or what it raises, is among the known parts (`settling`). `deciding` tells
//! by an expression's form what it comes to in any case. A database is whatever lends what base relvars have, so a
//! look-up copies nothing and takes no memory.
#![tactic(auto)]

mod addition;
mod by_key;
mod changes;
mod deciding;
mod evaluation;
mod forms;
pub mod laws;
pub mod lookup;
mod naming;
mod relvars;
mod settling;
pub mod valued;

pub use addition::added_tuples;
pub use changes::changed;
pub use evaluation::eval;
pub use lookup::Lookup;
pub use naming::lacking_tuples;
pub use valued::{relation, truth, value};
