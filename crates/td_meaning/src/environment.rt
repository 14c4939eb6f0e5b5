//! What evaluation is given beside an expression.

ghost use Rattle.std.specs.Prelude.{◌≡◌, true, false, MatchOption};
ghost use Rattle.td_algebra.specs.Raising.{AnswersBy};
ghost use Rattle.td_meaning.specs.ForProofs.Places as spec;
ghost use Rattle.td_meaning.specs.ForProofs.Places.{is_known};
ghost use Rattle.td_meaning.specs.Seen.{relvars_at, relvars_there};

use td_algebra::{Fault, Stop};
use td_operators::Lease;
use td_typed_trees::expression::{Selector, VirtualUnder};

/// What a relvar has, by its place in order of definition: a relation, which may be lent, or what its expression
/// raises.
#[derive(Drop)]
pub struct Known<'a> {
    pub place: usize,
    pub value: Result<Lease<'a>, Stop>,
}

/// The relvars and the possreps that are under an expression. What is not among them has no meaning.
#[derive(Clone, Copy)]
pub struct Environment<'a> {
    pub relvars: &'a [Known<'a>],
    /// Each means its expression over those before it and what is known. What one has is found among the parts whose
    /// values are known; where an expression comes to another one, its place is wanted.
    pub virtuals: &'a [VirtualUnder],
    /// Each sees those before it.
    pub selectors: &'a [Selector],
}

// The relation of a known relvar, or the error that its expression raises.
fn lease_of<'a, W>(known: &'a Known<'_>) -> Result<&'a Lease<'a>, Fault<W>>
    ensures { AnswersBy (λ r. r.now) result known.now.value }
{
    match &known.value {
        Ok(lease) => Ok(lease),
        Err(stop) => Err(Fault::Raised(*stop)),
    }
}

// What the first of the relvars at the place has; None where none of them is at it.
fn relvar_at<'a, W>(
    relvars: &'a [Known<'_>],
    place: usize,
) -> Option<Result<&'a Lease<'a>, Fault<W>>>
    ensures { MatchOption result (is_known place relvars.now ≡ false) (λ r. (is_known place relvars.now ≡ true) × AnswersBy (λ r. r.now) r (relvars_at relvars.now place)) }
{
    for known in relvars {
        if known.place == place {
            return Some(lease_of(known));
        }
    }
    None
}

/// What the relvar at the place has, if it is known. It looks at the relvars one by one.
pub(crate) fn relvar_known<'a, W>(
    env: &'a Environment<'_>,
    place: usize,
) -> Option<Result<&'a Lease<'a>, Fault<W>>>
    ensures { MatchOption result (is_known place env.now.relvars.now ≡ false) (λ r. AnswersBy (λ r. r.now) r (relvars_there env.now place)) }
{
    relvar_at(env.relvars, place)
}

/// Whether a virtual relvar is at the place. It looks at them one by one.
pub(crate) fn is_virtual(env: &Environment<'_>, place: usize) -> bool
    ensures { result ≡ spec.is_virtual place env.now.virtuals.now }
{
    env.virtuals.iter().any(|under| under.place == place)
}
