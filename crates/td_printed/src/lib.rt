//! Laws of what is printed: sites that hold the same set print the same texts, refusals too, whatever their numbers and
//! limits are.
//!
//! Begin with `specs/Laws.antt`: two open sites that hold the same set print the same for each question.
//!
//! Definitions to trust, in `specs/`: Laws, Questions.
//!
//! td_printed has laws alone, over what lines are answered; it knows no site's code.
#![tactic(auto)]

pub mod laws;
