//! The answers of a function at each of a list, or the least error among them.
ghost use Rattle.std.specs.Prelude.{◌≡◌, [], Result, IfErr, IfOk};
ghost use Rattle.std.specs.Fn.{FnReturnsAt, FnOnceTakesAt};
ghost use Rattle.std.specs.List.{All};
ghost use Rattle.td_values.specs.Data.{Attrs};
ghost use Rattle.td_algebra.specs.declared.errors.Stop.{Stop};
ghost use Rattle.td_algebra.specs.declared.errors.Fault.{Fault};
ghost use Rattle.td_algebra.specs.Raising.{Answers, AnswersBy, and_all, alone, all_of};
ghost use Rattle.td_algebra.specs.ForProofs.Gathered.{GivesUp, so_far};

use crate::errors::{Fault, Stop};
use crate::least_error::least_of;
use std::alloc::Global;
use td_values::Tuple;

/// The answers so far, or the least error among them.
#[derive(Drop)]
pub(crate) struct Gathered<A> {
    answers: Vec<A>,
    least: Option<Stop>,
}

impl<A: Drop> Gathered<A> {
    /// Nothing so far.
    pub(crate) fn new(alloc: Global) -> Gathered<A>
        ensures { so_far result.answers.items result.least ≡ Result.Ok [] }
    {
        Gathered {
            answers: Vec::new(alloc),
            least: None,
        }
    }

    /// One more answer. After an error only lesser ones matter.
    pub(crate) fn note<W>(&mut self, answer: Result<A, Fault<W>>) -> Result<(), Fault<W>>
        ensures noted { (m : Result A Stop) → Answers answer m → IfOk result (λ _. so_far self.new.answers.items self.new.least ≡ and_all (so_far self.old.answers.items self.old.least) (alone m)) }
        ensures fault { IfErr result GivesUp }
    {
        match answer {
            Ok(value) => {
                if self.least.is_none() && self.answers.push(value).is_err() {
                    return Err(Fault::OutOfMemory);
                }
                Ok(())
            }
            Err(Fault::Raised(raise)) => {
                self.least = Some(least_of(self.least, raise));
                Ok(())
            }
            Err(fault) => Err(fault),
        }
    }

    /// The answers, or the least error.
    pub(crate) fn finish<W>(self) -> Result<Vec<A>, Fault<W>>
        ensures whole { AnswersBy (λ v. v.items) result (so_far self.answers.items self.least) }
        ensures memory { IfErr result (λ f. GivesUp f → ⊥) }
    {
        match self.least {
            None => Ok(self.answers),
            Some(raise) => Err(Fault::Raised(raise)),
        }
    }
}

/// The function's answers at all of the tuples, or the least error among theirs.
pub(crate) fn gather<A: Drop, W, F: Fn(&Tuple) -> Result<A, Fault<W>>>(
    alloc: Global,
    tuples: &[Tuple],
    f: F,
) -> Result<Vec<A>, Fault<W>>
    requires { All (λ t. FnOnceTakesAt F.FnOnce f t) tuples.now }
    ensures { (m : Attrs → Result A Stop) → All (λ t. (r : _) → FnReturnsAt F.Fn f t r → Answers r (m t)) tuples.now → AnswersBy (λ v. v.items) result (all_of m tuples.now) }
{
    let mut gathered = Gathered::new(alloc);
    for tuple in tuples {
        gathered.note(f(tuple))?;
    }
    gathered.finish()
}
