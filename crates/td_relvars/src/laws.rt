//! The laws of copies of relvars.

ghost use Rattle.td_relvars.specs.Laws.{PartBelongs, PutBackRestores};

/// What is copied of a database belongs where it is put back.
pub fn part_belongs()
    ensures { PartBelongs }
{}

/// A copy of some relvars, put back where the others are the same, gives the database that was copied.
pub fn put_back_restores()
    ensures { PutBackRestores }
{}
