//! Union, intersection and difference.
ghost use Rattle.std.specs.Prelude.{◌≡◌, IfOk};
ghost use Rattle.td_algebra.specs.Operators.{Common, Remaining, United};
ghost use Rattle.td_relations.specs.Sets.{IsRelationOf};

use std::alloc::{AllocError, Global};
use td_relations::Relation;

/// The tuples of either relation. For n and m tuples it costs n + m.
pub fn union(alloc: Global, a: &Relation, b: &Relation) -> Result<Relation, AllocError>
    requires { a.now.heading ≡ b.now.heading }
    ensures { IfOk result (IsRelationOf a.now.heading (United a.now b.now)) }
{
    let either = td_relations::union(alloc, a, b)?;
    Ok(either)
}

/// The tuples of both relations. It costs as `union`.
pub fn intersect(alloc: Global, a: &Relation, b: &Relation) -> Result<Relation, AllocError>
    requires { a.now.heading ≡ b.now.heading }
    ensures { IfOk result (IsRelationOf a.now.heading (Common a.now b.now)) }
{
    let common = td_relations::intersect(alloc, a, b)?;
    Ok(common)
}

/// The tuples of the first relation that the second lacks. It costs as `union`.
pub fn minus(alloc: Global, a: &Relation, b: &Relation) -> Result<Relation, AllocError>
    requires { a.now.heading ≡ b.now.heading }
    ensures { IfOk result (IsRelationOf a.now.heading (Remaining a.now b.now)) }
{
    let remaining = td_relations::minus(alloc, a, b)?;
    Ok(remaining)
}
