//! The law of what is kept of entries that were hashed.

ghost use Rattle.td_comparison.specs.Hashed.{PrefixesStay};

/// What is kept stays true as a set grows.
pub fn prefixes_stay()
    ensures { PrefixesStay }
{}
