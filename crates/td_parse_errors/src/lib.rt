//! Where a text goes wrong, and how that place is shown to people.
//!
//! The program tells no places: its lines are the same whatever the text, so that programs can read them, and a place
//! stands beside them for who wrote the text.
//!
//! Begin with `place_of_fault`, the byte at which a text goes wrong, and `position_of`, its line and column.
//!
//! ```
//! if let Some(place) = place_of_fault(alloc, Reading::Query, text)? {
//!     let Position { line, column } = position_of(text, place);
//!     let under = caret(alloc, line_of(text, line), column)?;
//! }
//! ```
//!
//! Costs: `place_of_fault` costs the reading of the text, and `position_of` takes time linear in the place.
//! `is_too_deep` takes the time of reading the text twice.
//!
//! td_parse_errors knows no names and no types: where the reading of a text stops, and how a place is told. Nothing of
//! the program stands on it; td_check and other tools for who writes texts do.
#![tactic(auto)]

pub mod fault;
pub mod position;

pub use fault::{is_too_deep, place_of_fault};
pub use position::{Position, caret, line_of, position_of};
pub use td_grammar::Reading;
