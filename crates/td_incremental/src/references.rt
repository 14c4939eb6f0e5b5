//! Which constraints say that relations refer to a relvar, and by which names.

ghost use Rattle.std.specs.Prelude.{◌≡◌, ◌&&◌, ◌++◌, ℕ, List, IfOk, IfSome, map, slice_get, true};
ghost use Rattle.std.specs.List.{filter};
ghost use Rattle.td_headings.specs.Reached.{is_base};
ghost use Rattle.td_syntax.specs.declared.tree.BinaryOperator.TheVariants as binary;
ghost use Rattle.td_syntax.specs.declared.tree.UnaryOperator.TheVariants as unary;
ghost use Rattle.td_typed_trees.specs.declared.tree.Typed.TheVariants as form;
ghost use Rattle.td_tuples.specs.Parts.{is_in, names_of};
ghost use Rattle.td_incremental.specs.References as spec;
ghost use Rattle.td_incremental.specs.References.{HasNames, IsPartOf, Refers, RefersBy, SaysWithin};
ghost use Rattle.td_incremental.specs.ForProofs.Deciding as told;
ghost use Rattle.td_incremental.specs.ForProofs.Deciding.{AreGrowths};
ghost use Rattle.td_incremental.specs.ForProofs.Referring.{AreBetween, IsHeadingAt, is_shared};

use crate::safety::{is_emptiness, is_not_matching};
use crate::watching::{Growth, is_and, is_at_least, is_at_most, is_unread, virtual_growths};
use std::alloc::{AllocError, Global};
use td_headings::{Catalogue, Origin, TypedExpr};
use td_syntax::tree::BinaryOperator;
use td_tuples::is_in;
use td_typed_trees::tree::Typed;
use td_values::{Heading, Name};

/// A base relvar that refers to another one, and the names of the values by which it does.
#[derive(Drop)]
pub struct Reference {
    pub relvar: usize,
    pub names: Vec<Name>,
}

// ---- forms

fn is_minus(operator: BinaryOperator) -> bool
    ensures { result ≡ told.is_minus operator }
{
    match operator {
        BinaryOperator::Minus => true,
        _ => false,
    }
}

// Whether the operator's result has the heading of its first operand.
fn has_left_heading(operator: BinaryOperator) -> bool
    ensures { result ≡ spec.has_left_heading operator }
{
    match operator {
        BinaryOperator::Matching
        | BinaryOperator::NotMatching
        | BinaryOperator::Minus
        | BinaryOperator::Intersect => true,
        _ => false,
    }
}

// The operands of the NOT MATCHING, if the expression is one.
fn not_matching_operands(tree: &Typed) -> Option<(&Typed, &Typed)>
    ensures { IfSome result (λ p. tree.now ≡ form.Binary binary.NotMatching p.0.now p.1.now) }
{
    match tree {
        Typed::Binary(operator, a, b) => {
            if is_not_matching(*operator) {
                Some((a.get(), b.get()))
            } else {
                None
            }
        }
        _ => None,
    }
}

// The operands of the MINUS, if the expression is one.
fn minus_operands(tree: &Typed) -> Option<(&Typed, &Typed)>
    ensures { IfSome result (λ p. tree.now ≡ form.Binary binary.Minus p.0.now p.1.now) }
{
    match tree {
        Typed::Binary(operator, a, b) => {
            if is_minus(*operator) {
                Some((a.get(), b.get()))
            } else {
                None
            }
        }
        _ => None,
    }
}

// The operand of IS_EMPTY, if the constraint is that.
fn is_empty_operand(tree: &Typed) -> Option<&Typed>
    ensures { IfSome result (λ a. tree.now ≡ form.Unary unary.IsEmpty a.now) }
{
    match tree {
        Typed::Unary(operator, a) => {
            if !is_emptiness(*operator) {
                return None;
            }
            Some(a.get())
        }
        _ => None,
    }
}

// Of which two expressions it says that the first one's tuples have their like in the second, where that is empty.
fn left_over(operand: &Typed) -> Option<(&Typed, &Typed)>
    ensures { IfSome result (λ p. SaysWithin p.0.now p.1.now (form.Unary unary.IsEmpty operand.now)) }
{
    if let Some(sides) = not_matching_operands(operand) {
        return Some(sides);
    }
    let Some(sides) = minus_operands(operand) else {
        return None;
    };
    Some(sides)
}

// Of which two expressions it says that the first one's tuples have their like in the second.
fn sides(tree: &Typed) -> Option<(&Typed, &Typed)>
    ensures { IfSome result (λ p. SaysWithin p.0.now p.1.now tree.now) }
{
    match tree {
        Typed::Unary(operator, a) => {
            if is_emptiness(*operator) {
                left_over(a.get())
            } else {
                None
            }
        }
        Typed::Binary(operator, a, b) => {
            if is_at_most(*operator) {
                Some((a.get(), b.get()))
            } else if is_at_least(*operator) {
                Some((b.get(), a.get()))
            } else {
                None
            }
        }
        _ => None,
    }
}

// ---- names

// The same names in a list of their own.
fn copy_names(alloc: Global, names: &[Name]) -> Result<Vec<Name>, AllocError>
    ensures { IfOk result (λ v. v.items ≡ names.now) }
{
    let mut copies = Vec::with_capacity(alloc, names.len())?;
    for name in names {
        copies.push(name.copy()?)?;
    }
    Ok(copies)
}

// The one list behind the other.
fn append_names(names: Vec<Name>, others: Vec<Name>) -> Result<Vec<Name>, AllocError>
    ensures { IfOk result (λ v. v.items ≡ names.items ++ others.items) }
{
    let mut all = names;
    let mut rest = others;
    all.append(&mut rest)?;
    Ok(all)
}

// The names of the heading's attributes, in its order.
fn names_in(alloc: Global, heading: &Heading) -> Result<Vec<Name>, AllocError>
    ensures { IfOk result (λ v. v.items ≡ names_of heading.now) }
{
    let fields = heading.fields();
    let mut names = Vec::with_capacity(alloc, fields.len())?;
    for field in fields {
        names.push(field.0.copy()?)?;
    }
    Ok(names)
}

// Whether the heading has an attribute of this name.
fn has_name(heading: &Heading, name: &Name) -> bool
    ensures { result ≡ is_in (names_of heading.now) name.now }
{
    heading.type_of(name).is_some()
}

// The heading of the relvar at the place.
fn heading_at(catalogue: &Catalogue, place: usize) -> Option<&Heading>
    ensures { IfSome result (λ h. IsHeadingAt catalogue.now place h.now) }
{
    match catalogue.schema().relvar_at(place) {
        Some((_, heading)) => Some(heading),
        None => None,
    }
}

// The names of the attributes of the relvar at the place; None where no relvar is there.
fn relvar_names(
    alloc: Global,
    catalogue: &Catalogue,
    place: usize,
) -> Result<Option<Vec<Name>>, AllocError>
    ensures { IfOk result (λ o. IfSome o (λ v. HasNames catalogue.now v.items (form.Relvar place))) }
{
    match heading_at(catalogue, place) {
        Some(heading) => Ok(Some(names_in(alloc, heading)?)),
        None => Ok(None),
    }
}

// Names of which the expression's attributes are some, as far as its form tells them.
fn names_of_tree(
    alloc: Global,
    catalogue: &Catalogue,
    tree: &Typed,
) -> Result<Option<Vec<Name>>, AllocError>
    ensures { IfOk result (λ o. IfSome o (λ v. HasNames catalogue.now v.items tree.now)) }
{
    match tree {
        Typed::Relvar(place) => relvar_names(alloc, catalogue, *place),
        Typed::Project(_, names) => Ok(Some(copy_names(alloc, names.as_slice())?)),
        Typed::Where(a, _) => {
            let Some(names) = names_of_tree(alloc, catalogue, a.get())? else {
                return Ok(None);
            };
            Ok(Some(names))
        }
        Typed::Binary(operator, a, _) => {
            if !has_left_heading(*operator) {
                return Ok(None);
            }
            let Some(names) = names_of_tree(alloc, catalogue, a.get())? else {
                return Ok(None);
            };
            Ok(Some(names))
        }
        _ => Ok(None),
    }
}

// ---- references of any expression

// The names of the part, if the expression is one of the relvar.
fn part_names(tree: &Typed, relvar: usize) -> Option<&[Name]>
    ensures { IfSome result (λ ns. tree.now ≡ form.Project (form.Relvar relvar) ns.now) }
{
    match tree {
        Typed::Project(a, names) => match a.get() {
            Typed::Relvar(place) => {
                if *place == relvar {
                    Some(names.as_slice())
                } else {
                    None
                }
            }
            _ => None,
        },
        _ => None,
    }
}

// Whether the expression is nothing but the relvar at this place.
fn is_relvar(tree: &Typed, relvar: usize) -> bool
    ensures { result ≡ true → tree.now ≡ form.Relvar relvar }
{
    match tree {
        Typed::Relvar(place) => *place == relvar,
        _ => false,
    }
}

// The operand of which the constraint says that it matches the whole relvar.
fn matches_whole(tree: &Typed, relvar: usize) -> Option<&Typed>
    ensures { IfSome result (λ a. tree.now ≡ form.Unary unary.IsEmpty (form.Binary binary.NotMatching a.now (form.Relvar relvar))) }
{
    let Some(operand) = is_empty_operand(tree) else {
        return None;
    };
    let Some(pair) = not_matching_operands(operand) else {
        return None;
    };
    if is_relvar(pair.1, relvar) {
        Some(pair.0)
    } else {
        None
    }
}

// The names of an operand that does not read the relvar, if the constraint says that it matches the whole relvar.
fn refers_to_whole(
    alloc: Global,
    catalogue: &Catalogue,
    known: &[Growth],
    relvar: usize,
    tree: &Typed,
) -> Result<Option<Vec<Name>>, AllocError>
    requires { AreGrowths catalogue.now relvar known.now }
    ensures { IfOk result (λ o. IfSome o (λ v. Refers catalogue.now relvar v.items tree.now)) }
{
    let Some(operand) = matches_whole(tree, relvar) else {
        return Ok(None);
    };
    if !is_unread(alloc, catalogue, known, relvar, operand)? {
        return Ok(None);
    }
    let Some(names) = names_of_tree(alloc, catalogue, operand)? else {
        return Ok(None);
    };
    Ok(Some(names))
}

// The names of a part of the relvar, if the constraint says that what does not read the relvar is within it.
fn refers_to_part(
    alloc: Global,
    catalogue: &Catalogue,
    known: &[Growth],
    relvar: usize,
    tree: &Typed,
) -> Result<Option<Vec<Name>>, AllocError>
    requires { AreGrowths catalogue.now relvar known.now }
    ensures { IfOk result (λ o. IfSome o (λ v. Refers catalogue.now relvar v.items tree.now)) }
{
    let Some(pair) = sides(tree) else {
        return Ok(None);
    };
    let Some(names) = part_names(pair.1, relvar) else {
        return Ok(None);
    };
    if is_unread(alloc, catalogue, known, relvar, pair.0)? {
        Ok(Some(copy_names(alloc, names)?))
    } else {
        Ok(None)
    }
}

// No names, if the constraint does not read the relvar; None if it does.
fn refers_nowhere(
    alloc: Global,
    catalogue: &Catalogue,
    known: &[Growth],
    relvar: usize,
    tree: &Typed,
) -> Result<Option<Vec<Name>>, AllocError>
    requires { AreGrowths catalogue.now relvar known.now }
    ensures { IfOk result (λ o. IfSome o (λ v. Refers catalogue.now relvar v.items tree.now)) }
{
    if is_unread(alloc, catalogue, known, relvar, tree)? {
        Ok(Some(Vec::new(alloc)))
    } else {
        Ok(None)
    }
}

// A constraint that is no AND.
fn refers_once(
    alloc: Global,
    catalogue: &Catalogue,
    known: &[Growth],
    relvar: usize,
    tree: &Typed,
) -> Result<Option<Vec<Name>>, AllocError>
    requires { AreGrowths catalogue.now relvar known.now }
    ensures { IfOk result (λ o. IfSome o (λ v. Refers catalogue.now relvar v.items tree.now)) }
{
    if let Some(names) = refers_to_whole(alloc, catalogue, known, relvar, tree)? {
        return Ok(Some(names));
    }
    if let Some(names) = refers_to_part(alloc, catalogue, known, relvar, tree)? {
        return Ok(Some(names));
    }
    refers_nowhere(alloc, catalogue, known, relvar, tree)
}

// The names by which the constraint refers to the relvar, of an AND those of both operands; None if one has none.
fn refers(
    alloc: Global,
    catalogue: &Catalogue,
    known: &[Growth],
    relvar: usize,
    tree: &Typed,
) -> Result<Option<Vec<Name>>, AllocError>
    requires { AreGrowths catalogue.now relvar known.now }
    ensures { IfOk result (λ o. IfSome o (λ v. Refers catalogue.now relvar v.items tree.now)) }
{
    match tree {
        Typed::Binary(operator, a, b) => {
            if !is_and(*operator) {
                return refers_once(alloc, catalogue, known, relvar, tree);
            }
            let Some(left) = refers(alloc, catalogue, known, relvar, a.get())? else {
                return Ok(None);
            };
            let Some(right) = refers(alloc, catalogue, known, relvar, b.get())? else {
                return Ok(None);
            };
            Ok(Some(append_names(left, right)?))
        }
        _ => refers_once(alloc, catalogue, known, relvar, tree),
    }
}

/// The names by which the constraint refers to the relvar, if it reads nothing else of it: where each tuple that the
/// relvar loses leaves its values at these names to another one, it stays true. It costs the sizes of the expression
/// and of those of the virtual relvars under it, and the number of relvars.
pub fn referring(
    alloc: Global,
    catalogue: &Catalogue,
    expr: &TypedExpr,
    relvar: usize,
) -> Result<Option<Vec<Name>>, AllocError>
    ensures { IfOk result (λ o. IfSome o (λ v. Refers catalogue.now relvar v.items expr.now.tree)) }
{
    let expression = expr.get();
    let known = virtual_growths(alloc, catalogue, expression.virtuals.as_slice(), relvar)?;
    refers(alloc, catalogue, &known, relvar, expression.tree.get())
}

// ---- a reference of one base relvar

/// Whether a base relvar is at the place.
pub fn is_base_relvar(catalogue: &Catalogue, relvar: usize) -> bool
    ensures { result ≡ true → is_base (slice_get catalogue.now.origins relvar) ≡ true }
{
    matches!(catalogue.origin(relvar), Some(Origin::Base(_, _)))
}

// The relvar at the head of the expression: a guess, which `part_at` tests.
fn place_in(tree: &Typed) -> Option<usize> {
    match tree {
        Typed::Relvar(place) => Some(*place),
        Typed::Project(a, _) => match a.get() {
            Typed::Relvar(place) => Some(*place),
            _ => None,
        },
        _ => None,
    }
}

// The names of the part, if the expression is one of the relvar, or the relvar itself.
fn part_at(
    alloc: Global,
    tree: &Typed,
    place: usize,
    heading: &Heading,
) -> Result<Option<Vec<Name>>, AllocError>
    ensures { IfOk result (λ o. IfSome o (λ v. IsPartOf place heading.now v.items tree.now)) }
{
    if is_relvar(tree, place) {
        return Ok(Some(names_in(alloc, heading)?));
    }
    let Some(names) = part_names(tree, place) else {
        return Ok(None);
    };
    Ok(Some(copy_names(alloc, names)?))
}

// Whether the name is one of these, and of both headings.
fn is_shared(one: &Heading, other: &Heading, names: &[Name], name: &Name) -> bool
    ensures { result ≡ is_shared one.now other.now names.now name.now }
{
    has_name(one, name) && has_name(other, name) && is_in(names, name)
}

// Those of the first names that are the other ones too, and of both headings.
fn shared_names(
    alloc: Global,
    names: &[Name],
    one: &Heading,
    other: &Heading,
    others: &[Name],
) -> Result<Vec<Name>, AllocError>
    ensures { IfOk result (λ v. v.items ≡ filter (is_shared one.now other.now others.now) names.now) }
{
    let mut shared = Vec::new(alloc);
    for name in names {
        if is_shared(one, other, others, name) {
            shared.push(name.copy()?)?;
        }
    }
    Ok(shared)
}

// The names by which the first part refers to the second one.
fn names_between(
    alloc: Global,
    catalogue: &Catalogue,
    place: usize,
    relvar: usize,
    a: &Typed,
    b: &Typed,
) -> Result<Option<Vec<Name>>, AllocError>
    ensures { IfOk result (λ o. IfSome o (λ v. AreBetween catalogue.now place relvar a.now b.now v.items)) }
{
    let Some(one) = heading_at(catalogue, place) else {
        return Ok(None);
    };
    let Some(other) = heading_at(catalogue, relvar) else {
        return Ok(None);
    };
    let Some(names) = part_at(alloc, a, place, one)? else {
        return Ok(None);
    };
    let Some(others) = part_at(alloc, b, relvar, other)? else {
        return Ok(None);
    };
    Ok(Some(shared_names(alloc, &names, one, other, &others)?))
}

/// The other base relvar that the constraint says to refer to this one, and by which names, if it says that alone: each
/// of its tuples, or of a part of it, has its like in the relvar or in a part of that. It costs the relvars' headings.
pub fn sole_reference(
    alloc: Global,
    catalogue: &Catalogue,
    expr: &TypedExpr,
    relvar: usize,
) -> Result<Option<Reference>, AllocError>
    ensures { IfOk result (λ o. IfSome o (λ r. RefersBy catalogue.now relvar r.relvar r.names.items expr.now.tree)) }
{
    let Some(parts) = sides(expr.get().tree.get()) else {
        return Ok(None);
    };
    let Some(place) = place_in(parts.0) else {
        return Ok(None);
    };
    if place == relvar || !is_base_relvar(catalogue, place) {
        return Ok(None);
    }
    let Some(names) = names_between(alloc, catalogue, place, relvar, parts.0, parts.1)? else {
        return Ok(None);
    };
    Ok(Some(Reference {
        relvar: place,
        names,
    }))
}
