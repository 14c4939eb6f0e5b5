//! What is wanting where an expression comes to a relvar that is not known.

ghost use Rattle.std.specs.Prelude.{◌≡◌, Bool, true, false, List, [], refl};
ghost use Rattle.td_algebra.specs.Raising.{Answers};
ghost use Rattle.td_meaning.specs.ForProofs.Places.{is_known};
ghost use Rattle.td_meaning.specs.Mean.{Names, mean_relvar};
ghost use Rattle.td_meaning.specs.Seen.{none_virtual, relvars_there};
ghost use Rattle.td_typed_trees.specs.declared.expression.VirtualUnder.{VirtualUnder};

use crate::environment::{Environment, is_virtual};
use std::convert::Infallible;
use td_algebra::{Fault, Stop};
use td_values::Value;

/// What evaluation may say to be wanting.
pub trait Wanted: Copy {
    /// Whether these virtual relvars may be under what is evaluated.
    ghost allows: { List VirtualUnder → Bool };

    /// The answer where an expression names the relvar at a place at which none is known.
    fn unknown(env: &Environment<'_>, place: usize) -> Result<Value, Fault<Self>>
        requires unknown { is_known place env.now.relvars.now ≡ false }
        requires allowed { allows env.now.virtuals.now ≡ true }
        ensures { (names : Names) → Answers result (mean_relvar (relvars_there env.now) place names) };

    ghost allows_none: { allows [] ≡ true };
}

/// The place of a virtual relvar: it may be made known.
impl Wanted for usize {
    ghost allows = { λ _. true };

    ghost allows_none = { refl };

    #[tactic(auto, unfolding(crate::specs::Mean::mean_relvar, crate::specs::Seen::relvars_there))]
    fn unknown(env: &Environment<'_>, place: usize) -> Result<Value, Fault<usize>> {
        if is_virtual(env, place) {
            Err(Fault::Wanting(place))
        } else {
            Err(Fault::Raised(Stop::Untyped))
        }
    }
}

/// Nothing, where no relvar is virtual: what has relvars has them all.
impl Wanted for Infallible {
    ghost allows = { none_virtual };

    ghost allows_none = { refl };

    #[tactic(auto, unfolding(crate::specs::Mean::mean_relvar, crate::specs::Seen::relvars_there))]
    fn unknown(_env: &Environment<'_>, _place: usize) -> Result<Value, Fault> {
        Err(Fault::Raised(Stop::Untyped))
    }
}
