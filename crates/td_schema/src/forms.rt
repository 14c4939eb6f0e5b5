//! The types that forms with names give: a part, RENAME, GROUP and WRAP and their inverses, an attribute of a tuple,
//! new attributes.

ghost use Rattle.std.specs.Prelude.{◌≡◌, IfOk};
ghost use Rattle.std.specs.Option.{option_copied};
ghost use Rattle.td_schema.specs.Forms as spec;
ghost use Rattle.td_schema.specs.Results.{Gives};

use crate::error::TypeError;
use crate::kinds::{are_new, is_new, relation_heading, tuple_heading};
use crate::lists::{are_distinct, attribute_names, may_rename};
use std::alloc::{AllocError, Global};
use std::slice;
use td_syntax::tree::{Extension, Nesting};
use td_tuples::{
    columns_in, columns_out, grouped_columns, opened_columns, renamed_columns, wrapped_columns,
};
use td_values::{Heading, Name, TypeKind};

/// The heading of a relation or of a tuple.
pub fn kind_heading(kind: &TypeKind) -> Option<&Heading>
    ensures { option_copied result ≡ spec.kind_heading kind.now }
{
    match kind {
        TypeKind::Tuple(heading) => Some(heading),
        TypeKind::Relation(heading) => Some(heading),
        _ => None,
    }
}

/// The part of a relation or of a tuple at these names; another kind as it is.
pub fn part_kind(alloc: Global, names: &[Name], kind: &TypeKind) -> Result<TypeKind, AllocError>
    ensures { IfOk result (λ k. k ≡ spec.part_kind names.now kind.now) }
{
    match kind {
        TypeKind::Tuple(heading) => Ok(TypeKind::Tuple(columns_in(alloc, names, heading)?)),
        TypeKind::Relation(heading) => Ok(TypeKind::Relation(columns_in(alloc, names, heading)?)),
        _ => kind.copy(),
    }
}

/// What RENAME gives of an operand of this kind. Each item is an old name with its new one.
#[tactic(auto, unfolding(crate::specs::Forms::renamed_kind))]
pub fn renamed_kind(
    alloc: Global,
    items: &[(Name, Name)],
    kind: &TypeKind,
) -> Result<TypeKind, TypeError>
    ensures { Gives (spec.renamed_kind items.now kind.now) result }
{
    let Some(heading) = relation_heading(kind) else {
        return Err(TypeError::IllTyped)
    };
    if !may_rename(alloc, items, heading)? {
        return Err(TypeError::IllTyped);
    }
    Ok(TypeKind::Relation(renamed_columns(alloc, items, heading)?))
}

// The heading behind GROUP or WRAP: in place of the attributes at these names stands one of this name, of relations or
// of tuples over them. Whether the name is new is not looked at.
fn nested_columns(
    alloc: Global,
    nesting: Nesting,
    names: &[Name],
    name: &Name,
    heading: &Heading,
) -> Result<Heading, AllocError>
    ensures { IfOk result (λ h. h ≡ spec.nested_columns nesting names.now name.now heading.now) }
{
    match nesting {
        Nesting::Group => grouped_columns(alloc, names, name, heading),
        Nesting::Wrap => wrapped_columns(alloc, names, name, heading),
    }
}

/// The heading of what GROUP or WRAP makes: the attributes at these names go into a new one.
#[tactic(auto, unfolding(crate::specs::Forms::nested_heading))]
pub fn nested_heading(
    alloc: Global,
    nesting: Nesting,
    names: &[Name],
    name: &Name,
    heading: &Heading,
) -> Result<Heading, TypeError>
    ensures { Gives (spec.nested_heading nesting names.now name.now heading.now) result }
{
    let rest = columns_out(alloc, names, heading)?;
    if !is_new(&rest, name) {
        return Err(TypeError::IllTyped);
    }
    Ok(nested_columns(alloc, nesting, names, name, heading)?)
}

// The heading of an attribute that UNGROUP or UNWRAP opens: of a relation for UNGROUP, of a tuple for UNWRAP, and none
// of any other kind.
fn inside(nesting: Nesting, kind: &TypeKind) -> Option<&Heading>
    ensures { option_copied result ≡ spec.inside nesting kind.now }
{
    match nesting {
        Nesting::Group => relation_heading(kind),
        Nesting::Wrap => tuple_heading(kind),
    }
}

/// The kind of an attribute's type.
#[tactic(auto, unfolding(crate::specs::Forms::attribute_kind))]
pub(crate) fn attribute_kind<'a>(name: &Name, heading: &'a Heading) -> Option<&'a TypeKind>
    ensures { option_copied result ≡ spec.attribute_kind name.now heading.now }
{
    match heading.type_of(name) {
        Some(ty) => Some(&ty.kind),
        None => None,
    }
}

/// The heading of what UNGROUP or UNWRAP makes: the attribute gives way to those inside it.
#[tactic(auto, unfolding(crate::specs::Forms::unnested_heading))]
pub fn unnested_heading(
    alloc: Global,
    nesting: Nesting,
    name: &Name,
    heading: &Heading,
) -> Result<Heading, TypeError>
    ensures { Gives (spec.unnested_heading nesting name.now heading.now) result }
{
    let Some(kind) = attribute_kind(name, heading) else {
        return Err(TypeError::IllTyped)
    };
    let Some(inner) = inside(nesting, kind) else {
        return Err(TypeError::IllTyped)
    };
    let rest = columns_out(alloc, slice::from_ref(name), heading)?;
    let names = attribute_names(alloc, inner)?;
    if !are_new(names.as_slice(), &rest) {
        return Err(TypeError::IllTyped);
    }
    Ok(opened_columns(alloc, heading, name)?)
}

/// The kind of an attribute of a tuple.
#[tactic(auto, unfolding(crate::specs::Forms::from_kind))]
pub fn from_kind(name: &Name, kind: &TypeKind) -> Result<TypeKind, TypeError>
    ensures { Gives (spec.from_kind name.now kind.now) result }
{
    let Some(heading) = tuple_heading(kind) else {
        return Err(TypeError::IllTyped)
    };
    match attribute_kind(name, heading) {
        Some(kind) => Ok(kind.copy()?),
        None => Err(TypeError::IllTyped),
    }
}

/// Whether EXTEND may make attributes of these names: they are distinct, and where they are added, new.
pub fn may_extend(
    alloc: Global,
    extension: Extension,
    names: &[Name],
    heading: &Heading,
) -> Result<bool, AllocError>
    ensures { IfOk result (λ b. b ≡ spec.may_extend extension names.now heading.now) }
{
    match extension {
        Extension::Add => Ok(are_distinct(alloc, names)? && are_new(names, heading)),
        Extension::Assign => are_distinct(alloc, names),
    }
}
