//! What a base relvar has: its relation, and its tuples by its keys.
//!
//! Begin with `Base`: `change` makes a delta, `with_key` is a search by its key, and `way_back` makes what takes a
//! change back without memory.
//!
//! ```
//! let mut base = Base::by_key(alloc, relation, &key)?;
//! let way = base.way_back(alloc, &delta)?;
//! base.change(alloc, &keys, &delta)?;
//! base.go_back(&delta, way);
//! let found = base.with_key(&values);
//! ```
//!
//! Costs: `by_key` is a sort, `with_key` a search. A small `change` is a search and a shift for each tuple, in the
//! relation and in each index; where one tuple replaces another of its key and there is one index, nothing is shifted
//! in that. More than 1,024 tuples sort an index again. `way_back` takes room for two lists of all tuples, unless an
//! earlier one has left that.
#![tactic(auto)]

mod base;
mod by_keys;
mod ways;

pub use base::Base;
pub use ways::WayBack;
