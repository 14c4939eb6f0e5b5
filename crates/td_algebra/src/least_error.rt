//! The least error among answers.
ghost use Rattle.std.specs.Prelude.{◌≡◌, IfErr, IfOk, MatchOption, Ok, Result};
ghost use Rattle.td_algebra.specs.Raising.{Answers};
ghost use Rattle.td_algebra.specs.Stops.{lesser};
ghost use Rattle.td_algebra.specs.declared.errors.Stop.{Stop};
ghost use Rattle.td_algebra.specs.ForProofs.Checking.{both, least_so_far};
ghost use Rattle.td_algebra.specs.ForProofs.Gathered.{GivesUp};

use crate::errors::{Fault, Stop};

/// The lesser of an error and the least so far.
pub(crate) fn least_of(least: Option<Stop>, error: Stop) -> Stop
    ensures { MatchOption least (result ≡ error) (λ e. result ≡ lesser e error) }
{
    match least {
        None => error,
        Some(least) => least.lesser(error),
    }
}

/// The least error so far, if there is one. It takes no memory.
#[derive(Drop)]
pub(crate) struct LeastError {
    error: Option<Stop>,
}

impl LeastError {
    /// None so far.
    pub(crate) fn new() -> LeastError
        ensures { least_so_far result.error ≡ Ok tt }
    {
        LeastError { error: None }
    }

    /// One more answer.
    pub(crate) fn note<W>(&mut self, answer: Result<(), Fault<W>>) -> Result<(), Fault<W>>
        ensures noted { (m : Result (Unit {0}) Stop) → Answers answer m → IfOk result (λ _. least_so_far self.new.error ≡ both (least_so_far self.old.error) m) }
        ensures fault { IfErr result GivesUp }
    {
        match answer {
            Ok(()) => Ok(()),
            Err(Fault::Raised(raise)) => {
                self.error = Some(least_of(self.error, raise));
                Ok(())
            }
            Err(fault) => Err(fault),
        }
    }

    /// The least error, if there is one.
    pub(crate) fn finish<W>(self) -> Result<(), Fault<W>>
        ensures { Answers result (least_so_far self.error) }
    {
        match self.error {
            None => Ok(()),
            Some(error) => Err(Fault::Raised(error)),
        }
    }
}
