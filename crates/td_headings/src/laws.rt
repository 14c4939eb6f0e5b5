//! The laws of definitions.
ghost use Rattle.td_headings.specs.Laws.{AfterDecides, DefinedIsTyped, ReadsAreReached};

/// What a definition makes of what is defined is what it defines, and nothing else.
pub fn after_decides()
    ensures { AfterDecides }
{}

/// The expressions that definitions leave are typed by all that is defined, each of its kind of type.
pub fn defined_is_typed()
    ensures { DefinedIsTyped }
{}

/// What an expression reads is the base relvars that it names, virtual ones expanded.
pub fn reads_are_reached()
    ensures { ReadsAreReached }
{}
