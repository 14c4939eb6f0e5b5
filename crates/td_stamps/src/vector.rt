//! Version vectors: up to which sequence number each site's entries are held without a gap.
ghost use Rattle.std.specs.Prelude.{◌≡◌, ◌≤◌, ◌↔◌, ℕ, true, not, if◌then◌else◌, length, slice_index, IfOk, OnOk, OnErr, IsTrue};
ghost use Rattle.std.specs.FinMap as map;
ghost use Rattle.std.specs.List.{list_all};
ghost use Rattle.td_stamps.specs.Entries.{in_range};
ghost use Rattle.td_stamps.specs.Sets.{is_set};
ghost use Rattle.td_stamps.specs.Vectors.{IsVector, number_of, after_vector, from_one, sites_fit};
ghost use Rattle.td_stamps.specs.ForProofs.{AreNumbers, nonzero};

use crate::entry::Entry;
use crate::merge::{number_at, set_number_at};
use std::alloc::{AllocError, Global};
use std::collections::BTreeMap;
use std::marker::Model;

/// A number for each site, such as the greatest up to which a set holds all of the site's
/// sequence numbers. A site with 0 is left out.
#[derive(Drop)]
pub struct Vector {
    numbers: BTreeMap<u16, u32>,
}

impl Model for Vector {
    ghost use Rattle.std.specs.Prelude.{◌≡◌, true, T};
    ghost use Rattle.std.specs.FinMap as map;
    ghost use Rattle.std.specs.Ordering.{nat_cmp};
    ghost use Rattle.td_stamps.specs.Vectors.{VersionVector, vector_code, from_one};

    ghost Value = { VersionVector };

    ghost coded = { vector_code };

    ghost view = { λ v. map.from_sorted v.numbers.entries };

    ghost invariant = { λ v. T (map.is_sorted nat_cmp v.numbers.entries) × (from_one v.numbers.entries ≡ true) };
}

// The number of each site of a set up to which it has all, at the site's place.
fn numbers_of(alloc: Global, entries: &[Entry]) -> Result<Vec<u32>, AllocError>
    requires set { is_set entries.now ≡ true }
    requires ranges { list_all in_range entries.now ≡ true }
    ensures numbers { IfOk result (λ v. AreNumbers entries.now v.items) }
    ensures few { IfOk result (λ v. length v.items ≤ 65536) }
{
    let mut numbers = Vec::new(alloc);
    for entry in entries {
        // A site's numbers ascend, so one that leaves a gap isn't followed by what fills it.
        if entry.seq - 1 == number_at(&numbers, entry.site) {
            set_number_at(&mut numbers, entry.site, entry.seq)?;
        }
    }
    Ok(numbers)
}

impl Vector {
    /// No site. It takes no memory until the first one.
    pub fn new(alloc: Global) -> Vector
        ensures { result ≡ map.empty }
    {
        Vector {
            numbers: BTreeMap::new(alloc),
        }
    }

    /// The site's number, 0 where it has none.
    pub fn number(&self, site: u16) -> u32
        ensures { result ≡ number_of self.now site }
    {
        self.numbers.get(&site).copied().unwrap_or(0)
    }

    /// How many sites have a number.
    pub fn len(&self) -> usize
        ensures { result ≡ map.len self.now }
    {
        self.numbers.len()
    }

    /// Whether the vector has a number of no site.
    pub fn is_empty(&self) -> bool
        ensures { IsTrue result ↔ (map.len self.now ≡ 0) }
    {
        self.numbers.is_empty()
    }

    /// Each site with its number, in order of sites.
    pub fn entries(&self, alloc: Global) -> Result<Vec<(u16, u32)>, AllocError>
        ensures entries { IfOk result (λ v. v.items ≡ map.entries self.now) }
        ensures from_one { IfOk result (λ v. from_one v.items ≡ true) }
        ensures fit { IfOk result (λ v. sites_fit v.items ≡ true) }
    {
        let mut entries = Vec::with_capacity(alloc, self.numbers.len())?;
        for (site, number) in &self.numbers {
            entries.push((*site, *number))?;
        }
        Ok(entries)
    }

    /// Adds a site with its number, and says whether the site was new. One that was there keeps
    /// its number.
    pub fn insert(&mut self, site: u16, number: u32) -> Result<bool, AllocError>
        requires site { 1 ≤ site }
        requires number { 1 ≤ number }
        ensures new { IfOk result (λ new. new ≡ not (map.contains_key self.old site)) }
        ensures ok { IfOk result (λ new. self.new ≡ (if new then map.insert self.old site number else self.old)) }
        ensures err { OnErr result (self.new ≡ self.old) }
    {
        if self.numbers.contains_key(&site) {
            return Ok(false);
        }
        self.set(site, number)?;
        Ok(true)
    }

    pub fn copy(&self) -> Result<Vector, AllocError>
        ensures { IfOk result (λ v. v ≡ self.now) }
    {
        Ok(Vector {
            numbers: self.numbers.clone()?,
        })
    }

    // The vector of a set.
    pub(crate) fn of(alloc: Global, entries: &[Entry]) -> Result<Vector, AllocError>
        requires set { is_set entries.now ≡ true }
        requires ranges { list_all in_range entries.now ≡ true }
        ensures { IfOk result (IsVector entries.now) }
    {
        let numbers = numbers_of(alloc, entries)?;
        Vector::from_numbers(alloc, &numbers)
    }

    // The vector of the numbers that are not 0, each at its site's place. No site has the number 0.
    fn from_numbers(alloc: Global, numbers: &[u32]) -> Result<Vector, AllocError>
        requires few { length numbers.now ≤ 65536 }
        requires first { slice_index numbers.now 0 ≡ 0 }
        ensures { IfOk result (λ v. (site : ℕ) → map.get v site ≡ nonzero (slice_index numbers.now site)) }
    {
        let mut vector = Vector::new(alloc);
        for site in 1..numbers.len() {
            if numbers[site] > 0 {
                vector.set(site as u16, numbers[site])?;
            }
        }
        Ok(vector)
    }

    // Copies of the entries that it doesn't count.
    pub(crate) fn lacking(&self, alloc: Global, entries: &[Entry]) -> Result<Vec<Entry>, AllocError>
        ensures { IfOk result (λ v. v.items ≡ after_vector self.now entries.now) }
    {
        let mut after = Vec::new(alloc);
        for entry in entries {
            if self.number(entry.site) < entry.seq {
                after.push(entry.copy()?)?;
            }
        }
        Ok(after)
    }

    // Gives a site a number, whether it has one or not.
    fn set(&mut self, site: u16, number: u32) -> Result<(), AllocError>
        requires site { 1 ≤ site }
        requires number { 1 ≤ number }
        ensures ok { OnOk result (self.new ≡ map.insert self.old site number) }
        ensures err { OnErr result (self.new ≡ self.old) }
    {
        self.numbers.insert(site, number)?;
        Ok(())
    }
}
