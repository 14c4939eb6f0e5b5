//! Version vectors as texts.

ghost use Rattle.std.specs.Prelude.{◌≡◌, ◌++◌, IfOk, OnOk, string_bytes};
ghost use Rattle.std.specs.List.{flat_map};
ghost use Rattle.td_listings.specs.Texts as spec;

use crate::words::show_number;
use std::alloc::{AllocError, Global};
use td_stamps::Vector;

// Appends a site and its number, with a space before them and a colon between.
fn show_site(out: &mut String, site: u16, number: u32) -> Result<(), AllocError>
    ensures { OnOk result (string_bytes out.new ≡ string_bytes out.old ++ spec.site_word (site, number)) }
{
    out.push_str(" ")?;
    show_number(out, u64::from(site))?;
    out.push_str(":")?;
    show_number(out, u64::from(number))
}

// Appends each site with its number, in their order.
fn show_sites(out: &mut String, sites: &[(u16, u32)]) -> Result<(), AllocError>
    ensures { OnOk result (string_bytes out.new ≡ string_bytes out.old ++ flat_map spec.site_word sites.now) }
{
    for (site, number) in sites {
        show_site(out, *site, *number)?;
    }
    Ok(())
}

/// The line of a version vector: each site with its number, ascending.
pub fn vector_text(alloc: Global, vector: &Vector) -> Result<String, AllocError>
    ensures { IfOk result (λ text. string_bytes text ≡ spec.vector_of vector.now) }
{
    let sites = vector.entries(alloc)?;
    let mut out = String::from_str(alloc, "vector")?;
    show_sites(&mut out, sites.as_slice())?;
    out.push_str("\n")?;
    Ok(out)
}
