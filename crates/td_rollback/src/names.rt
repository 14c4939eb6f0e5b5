//! Places that are named.

ghost use Rattle.std.specs.Prelude.{◌↔◌, ◌⊎◌, ℕ, IsTrue, OnOk};
ghost use Rattle.std.specs.List.{Contains};

use std::alloc::AllocError;

// Whether one of the places is named.
pub(crate) fn names_any(names: &[usize], places: &[usize]) -> bool
    ensures { IsTrue result ↔ ((n : ℕ) × Contains places.now n × Contains names.now n) }
{
    places.iter().any(|place| names.contains(place))
}

// Names these places too, each once.
pub(crate) fn add(names: &mut Vec<usize>, places: &[usize]) -> Result<(), AllocError>
    ensures { OnOk result ((n : ℕ) → Contains names.new.items n ↔ (Contains places.now n ⊎ Contains names.old.items n)) }
{
    for place in places {
        if !names.contains(place) {
            names.push(*place)?;
        }
    }
    Ok(())
}
