//! The laws of the typing.
ghost use Rattle.td_typing.specs.Laws.{InferenceDecides, TypeIsUnique, TypeStays};

/// What is inferred is the typing, and what has a typing is inferred.
pub fn inference_decides()
    ensures { InferenceDecides }
{}

/// In one scope an expression has one tree and one kind of type at most.
pub fn type_is_unique()
    ensures { TypeIsUnique }
{}

/// An expression keeps its tree and its kind of type where more is defined.
pub fn type_stays()
    ensures { TypeStays }
{}
