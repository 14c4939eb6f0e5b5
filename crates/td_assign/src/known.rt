//! The relvars that statements name, which what is told of them shares.

ghost use Rattle.std.specs.Prelude.{◌≡◌, IfSome, IsTrue};

use crate::names::NamedRelvars;
use crate::ran::Ran;
use std::alloc::{AllocError, Global};
use td_tuples::Shared;

/// Relvars that are known: for each relvar those that the last statement named whose first target it is. The next such
/// statement shares them where it names the same, as most do: they are kept of each statement for ever.
#[derive(Drop)]
pub struct KnownNames {
    by_target: Vec<Option<Shared<NamedRelvars>>>,
}

// Whether these are the same places in the same order.
fn are_same(places: &[usize], others: &[usize]) -> bool
    ensures { IsTrue result → places.now ≡ others.now }
{
    places == others
}

// Whether both have the same relvars.
fn name_the_same(names: &NamedRelvars, others: &NamedRelvars) -> bool
    ensures targets { IsTrue result → names.now.targets.items ≡ others.now.targets.items }
    ensures footprint { IsTrue result → names.now.footprint.items ≡ others.now.footprint.items }
{
    are_same(&names.targets, &others.targets) && are_same(&names.footprint, &others.footprint)
}

// The known relvars, where they are the same as these.
fn known_as(
    known: &Option<Shared<NamedRelvars>>,
    names: &NamedRelvars,
) -> Option<Shared<NamedRelvars>>
    ensures targets { IfSome result (λ x. x.targets.items ≡ names.now.targets.items) }
    ensures footprint { IfSome result (λ x. x.footprint.items ≡ names.now.footprint.items) }
{
    let Some(known) = known else {
        return None;
    };
    if !name_the_same(known.get(), names) {
        return None;
    }
    known.copy().ok()
}

impl KnownNames {
    /// None, where there are so many relvars.
    pub fn none(alloc: Global, relvars: usize) -> Result<KnownNames, AllocError> {
        let mut by_target = Vec::with_capacity(alloc, relvars)?;
        for _ in 0..relvars {
            by_target.push(None)?;
        }
        Ok(KnownNames { by_target })
    }

    // These relvars, which are the known ones where these are the same.
    fn shared(&mut self, names: Shared<NamedRelvars>) -> Shared<NamedRelvars>
        ensures targets { result.targets.items ≡ names.targets.items }
        ensures footprint { result.footprint.items ≡ names.footprint.items }
    {
        let Some(target) = names.get().targets.first() else {
            return names;
        };
        let Some(known) = self.by_target.get_mut(*target) else {
            return names;
        };
        match known_as(known, names.get()) {
            Some(same) => same,
            None => {
                *known = names.copy().ok();
                names
            }
        }
    }

    /// The same, with the relvars that are known where it names the same. It takes no memory.
    pub fn share(&mut self, ran: Ran) -> Ran
        ensures outcome { result.outcome ≡ ran.outcome }
        ensures delta { result.delta ≡ ran.delta }
        ensures targets { result.names.targets.items ≡ ran.names.targets.items }
        ensures footprint { result.names.footprint.items ≡ ran.names.footprint.items }
        ensures puts { result.puts_in_all ≡ ran.puts_in_all }
    {
        let Ran {
            outcome,
            delta,
            names,
            puts_in_all,
        } = ran;
        let names = self.shared(names);
        Ran {
            outcome,
            delta,
            names,
            puts_in_all,
        }
    }
}
