//! The law of literals.
ghost use Rattle.td_literal_round_trip.specs.Laws.{ShownIsReadBack};

/// The shown text of a value is read, typed and evaluated back to that value.
pub fn shown_is_read_back()
    ensures { ShownIsReadBack }
{}
