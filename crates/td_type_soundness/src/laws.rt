//! The law of types and meanings.
ghost use Rattle.td_type_soundness.specs.Laws.{TypedHasMeaning};

/// A typed expression means a value of its type, or raises one of the errors of the language.
pub fn typed_has_meaning()
    ensures { TypedHasMeaning }
{}
