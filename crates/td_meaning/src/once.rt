//! What is evaluated once, and not at each tuple.

ghost use Rattle.std.specs.Prelude.{◌≡◌, ◌≤◌, IfOk, IfSome, OnOk};
ghost use Rattle.td_meaning.specs.ForProofs.Right.{deepest_in};
ghost use Rattle.td_meaning.specs.ForProofs.Terms.{terms_levels};
ghost use Rattle.td_meaning.specs.Mean.{Names};
ghost use Rattle.td_meaning.specs.Parts.{AreRight, known_value};
ghost use Rattle.td_meaning.specs.Seen.{mean_in};

use crate::closed::{Knowledge, Terms, closed_parts};
use crate::evaluator::Evaluator;
use crate::parts::{HoistedTerm, copied, put_if};
use crate::scope::{Bindings, KnownValue, hold};
use crate::wanting::Wanted;
use std::alloc::AllocError;
use std::marker::PhantomData;
use td_algebra::{Fault, Stop};
use td_typed_trees::tree::Typed;

impl<W: Wanted> Evaluator<'_, W> {
    /// What the expression means wherever it stands, if it names nothing that is around it.
    #[cycle(evaluation)]
    pub(crate) fn closed_value(
        &self,
        tree: &Typed,
    ) -> Result<Option<Result<KnownValue, Stop>>, Fault<W>>
        ensures { IfOk result (λ v. IfSome v (λ w. (names : Names) → mean_in self.now.env.now tree.now names ≡ known_value w)) }
    {
        match self.evaluate(tree, &Bindings::Nothing) {
            Ok(value) => Ok(Some(Ok(hold(value)))),
            Err(Fault::Raised(stop)) => match stop {
                Stop::Untyped => Ok(None),
                _ => Ok(Some(Err(stop))),
            },
            Err(fault) => Err(fault),
        }
    }

    // The greatest parts of the terms that name nothing around them and are not among the known parts: what is still to
    // be evaluated.
    fn parts_beside<'a>(
        &self,
        parts: &[HoistedTerm<'_>],
        terms: Terms<'a>,
    ) -> Result<Vec<&'a Typed>, AllocError>
        ensures { IfOk result (λ v. deepest_in v.items ≤ terms_levels terms.entry) }
    {
        let knowledge = Knowledge {
            env: &*self.env,
            parts: &*parts,
        };
        closed_parts(self.alloc, &knowledge, terms)
    }

    // Adds the expression to the known parts with its value or the error that it raises. It adds nothing where the
    // expression is untyped, nor where it comes to a virtual relvar that is not known, since it may not be needed.
    #[cycle(evaluation)]
    fn keep<'a>(&self, parts: &mut Vec<HoistedTerm<'a>>, tree: &'a Typed) -> Result<(), AllocError>
        requires { AreRight self.now.env.now parts.old.items }
        ensures { AreRight self.now.env.now parts.new.items }
    {
        let around: Evaluator<'_, W> = Evaluator {
            alloc: self.alloc,
            env: &*self.env,
            parts: parts.as_slice(),
            wanted: PhantomData,
        };
        match around.closed_value(tree) {
            Ok(value) => put_if(self.alloc, parts, tree, value),
            Err(Fault::OutOfMemory) => Err(AllocError),
            Err(_) => Ok(()),
        }
    }

    // Adds each of the expressions to the known parts, as `keep` does.
    #[cycle(evaluation)]
    fn keep_all<'a>(
        &self,
        parts: &mut Vec<HoistedTerm<'a>>,
        trees: &[&'a Typed],
    ) -> Result<(), AllocError>
        requires { AreRight self.now.env.now parts.old.items }
        ensures { OnOk result (AreRight self.now.env.now parts.new.items) }
    {
        for tree in trees {
            self.keep(parts, *tree)?;
        }
        Ok(())
    }

    // Adds the parts of the terms that name nothing around them. Where the heading of a relation is not to be seen
    // before it is evaluated, what stands within its attributes comes one round later; the last round adds nothing.
    #[cycle(evaluation)]
    fn add_parts<'a>(
        &self,
        parts: &mut Vec<HoistedTerm<'a>>,
        terms: Terms<'a>,
    ) -> Result<(), AllocError>
        requires { AreRight self.now.env.now parts.old.items }
        ensures { OnOk result (AreRight self.now.env.now parts.new.items) }
    {
        for _ in 0..usize::MAX {
            let before = parts.len();
            let found = self.parts_beside(parts.as_slice(), terms)?;
            self.keep_all(parts, found.as_slice())?;
            if parts.len() == before {
                break;
            }
        }
        Ok(())
    }

    /// What is known at each of the tuples, or nothing beside what is known already: over one tuple nothing is
    /// evaluated twice.
    #[cycle(evaluation)]
    pub(crate) fn prepare<'a, 'e: 'a, 't: 'a>(
        &'e self,
        terms: Terms<'t>,
        tuples: usize,
    ) -> Result<Option<Vec<HoistedTerm<'a>>>, AllocError>
        ensures { IfOk result (λ v. IfSome v (λ v. AreRight self.now.env.now v.items)) }
    {
        if tuples < 2 || self.parts_beside(self.parts, terms)?.is_empty() {
            return Ok(None);
        }
        let mut parts = copied(self.alloc, self.parts)?;
        self.add_parts(&mut parts, terms)?;
        Ok(Some(parts))
    }
}
