//! The laws of meaning.
ghost use Rattle.td_meaning.specs.Laws.{MeaningByNames};

/// What an expression means where fewer names stand for something, it means where more do, unless it wants one of
/// these. So what means a value, or raises an error, where no name stands for anything does so wherever it stands.
pub fn meaning_by_names()
    ensures { MeaningByNames }
{}
