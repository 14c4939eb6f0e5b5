//! Lists of names.
ghost use Rattle.std.specs.Prelude.{◌≡◌, IfOk};
ghost use Rattle.std.specs.List.Sorted.{IsPermutation, IsSorted};
ghost use Rattle.td_values.specs.Order.{text_cmp};
ghost use Rattle.td_tuples.specs.Parts.{is_in};
ghost use Rattle.td_tuples.specs.Renamings.{name_after};

use std::alloc::{AllocError, Global};
use td_values::Name;

/// Whether the name is one of these. It takes no memory.
pub fn is_in(names: &[Name], name: &Name) -> bool
    ensures { result ≡ is_in names.now name.now }
{
    names.iter().any(|m| name == m)
}

/// The name after the items, each an old name with its new one; the same where no item has it.
pub fn name_after(items: &[(Name, Name)], name: &Name) -> Result<Name, AllocError>
    ensures { IfOk result (λ n. n ≡ name_after items.now name.now) }
{
    for (old, new) in items {
        if name == old {
            return new.copy();
        }
    }
    name.copy()
}

// These names, shared.
fn copies(alloc: Global, names: &[Name]) -> Result<Vec<Name>, AllocError>
    ensures { IfOk result (λ v. v.items ≡ names.now) }
{
    let mut copies = Vec::with_capacity(alloc, names.len())?;
    for name in names {
        copies.push(name.copy()?)?;
    }
    Ok(copies)
}

// These names, ascending.
pub(crate) fn sorted_names(alloc: Global, names: &[Name]) -> Result<Vec<Name>, AllocError>
    ensures same { IfOk result (λ v. IsPermutation names.now v.items) }
    ensures sorted { IfOk result (λ v. IsSorted text_cmp v.items) }
{
    let mut sorted = copies(alloc, names)?;
    sorted.sort_unstable();
    Ok(sorted)
}

// Whether the name is one of these, which ascend.
pub(crate) fn is_among(names: &[Name], name: &Name) -> bool
    requires { IsSorted text_cmp names.now }
    ensures { result ≡ is_in names.now name.now }
{
    names.binary_search(name).is_ok()
}
