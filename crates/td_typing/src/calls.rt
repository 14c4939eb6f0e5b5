//! Selectors and components of user types.

ghost use Rattle.std.specs.Prelude.{◌≡◌, drop, MatchOption, None, Some};
ghost use Rattle.td_syntax.specs.declared.tree.Named as tree;
ghost use Rattle.td_schema.specs.Results.{Gives};
ghost use Rattle.td_schema.specs.Schemas.{component_named};
ghost use Rattle.td_typing.specs.ForProofs.Infer as spec;
ghost use Rattle.td_values.specs.declared.TypeKind as type_kind;

use crate::forms::typed;
use crate::parts::Operands;
use sqlite_items::Boxed;
use std::alloc::Global;
use td_schema::kinds::{same_kind, user_name};
use td_schema::{Schema, TypeError};
use td_syntax::tree::Named;
use td_typed_trees::tree::{Typed, Typing};
use td_values::{Name, TypeKind};

// Whether there are as many kinds as components, and they are the same.
#[tactic(auto, using(crate::proofs::PlaceLemmas::fit_ended))]
fn fit(kinds: &[TypeKind], components: &[Named<TypeKind>]) -> bool
    ensures { result ≡ spec.fit kinds.now components.now }
{
    let mut at = 0;
    while at < kinds.len() && at < components.len() {
        if !same_kind(&kinds[at], &components[at].value) {
            return false;
        }
        at += 1;
    }
    kinds.len() == components.len()
}

/// The selector of the possrep of this name.
#[tactic(auto, unfolding(crate::specs::ForProofs::Infer::selected))]
pub(crate) fn selected(
    alloc: Global,
    schema: &Schema,
    name: &Name,
    operands: Operands,
) -> Result<Typing, TypeError>
    ensures { Gives (spec.selected schema.now name.now operands) result }
{
    let Some((place, representation)) = schema.possrep(name) else {
        return Err(TypeError::IllTyped);
    };
    if !fit(
        operands.kinds.as_slice(),
        representation.components.as_slice(),
    ) {
        return Err(TypeError::IllTyped);
    }
    let kind = TypeKind::User(representation.possrep.ty().copy()?);
    Ok(typed(alloc, Typed::Select(place, operands.trees), kind)?)
}

// The name without its first four bytes.
fn behind_the(name: &Name) -> &[u8]
    ensures { result.now ≡ drop 4 name.now }
{
    let bytes = name.as_str().as_bytes();
    if bytes.len() < 4 { &[] } else { &bytes[4..] }
}

// The component of this name, with its place.
fn component_at<'a>(components: &'a [Named<TypeKind>], name: &[u8]) -> Option<(usize, &'a TypeKind)>
    ensures { MatchOption result (component_named components.now name.now ≡ None) (λ c. (f : tree.Named type_kind.TypeKind) × (component_named components.now name.now ≡ Some (c.0, f)) × (f.value ≡ c.1.now)) }
{
    let mut at = 0;
    while at < components.len() {
        if name.cmp(components[at].name.as_str().as_bytes()).is_eq() {
            return Some((at, &components[at].value));
        }
        at += 1;
    }
    None
}

// The component of a possrep that the name, which begins with THE_, asks for.
#[tactic(auto, unfolding(crate::specs::ForProofs::Infer::component_of_type))]
fn component_of_type(
    alloc: Global,
    components: &[Named<TypeKind>],
    name: &Name,
    tree: Boxed<Typed>,
) -> Result<Typing, TypeError>
    ensures { Gives (spec.component_of_type components.now (drop 4 name.now) tree) result }
{
    match component_at(components, behind_the(name)) {
        Some((place, kind)) => Ok(typed(alloc, Typed::Component(place, tree), kind.copy()?)?),
        None => Err(TypeError::IllTyped),
    }
}

/// THE_: the component of an operand of a user type. The name begins with THE_.
#[tactic(auto, unfolding(crate::specs::ForProofs::Infer::component_of))]
pub(crate) fn component_of(
    alloc: Global,
    schema: &Schema,
    name: &Name,
    a: Typing,
) -> Result<Typing, TypeError>
    ensures { Gives (spec.component_of schema.now (drop 4 name.now) a) result }
{
    let Some(user) = user_name(&a.kind) else {
        return Err(TypeError::IllTyped);
    };
    let Some((_, representation)) = schema.type_named(user) else {
        return Err(TypeError::IllTyped);
    };
    component_of_type(alloc, representation.components.as_slice(), name, a.tree)
}
