//! The union of two lists of entries, by a sort.
ghost use Rattle.std.specs.Prelude.{◌≡◌, ◌≢◌, ◌==◌, ◌<◌, ◌≤◌, ◌++◌, ℕ, [], true, false, length, if◌then◌else◌, vec_len, vec_capacity, slice_index, IfOk, OnOk, MatchOption, option_map, None};
ghost use Rattle.std.specs.List.{list_all, list_any};
ghost use Rattle.std.specs.List.Sorted.{IsPermutation, IsSortedBy};
ghost use Rattle.td_stamps.specs.Entries.{before, clash, in_range};
ghost use Rattle.td_stamps.specs.Sets.{put, union, is_set, ascends};
ghost use Rattle.td_stamps.specs.Checks.{first_clash};
ghost use Rattle.td_stamps.specs.ForProofs.{Joins, tie, tied_front};

use crate::batch::clashes_any;
use crate::entry::Entry;
use std::alloc::{AllocError, Global};

/// The union of a set and a batch, or None where two entries clash. Takes time of order
/// n log n in the number of all entries, and a walk over them for a batch of one.
pub fn join_batch(
    alloc: Global,
    held: &[Entry],
    batch: &[Entry],
) -> Result<Option<Vec<Entry>>, AllocError>
    requires set { is_set held.now ≡ true }
    requires held_in_range { list_all in_range held.now ≡ true }
    requires batch_in_range { list_all in_range batch.now ≡ true }
    ensures { IfOk result (λ o. MatchOption o (first_clash held.now batch.now ≢ None) (λ v. Joins held.now batch.now v.items)) }
{
    if let [entry] = batch {
        return join_one(alloc, held, entry);
    }
    let mut all = Vec::with_capacity(alloc, held.len() + batch.len())?;
    push_copies(&mut all, held)?;
    push_copies(&mut all, batch)?;
    sort_by_stamp(&mut all)?;
    without_repeats(alloc, all)
}

/// The site and number of the first entry of a batch that clashes with a held one or with one
/// before it. A binary search for the longest front of the batch that can be joined, so it takes
/// time of order n log n log n in the number of all entries.
pub fn first_clash_in(
    alloc: Global,
    held: &[Entry],
    batch: &[Entry],
) -> Result<(u16, u32), AllocError>
    requires set { is_set held.now ≡ true }
    requires held_in_range { list_all in_range held.now ≡ true }
    requires batch_in_range { list_all in_range batch.now ≡ true }
    requires clash { first_clash held.now batch.now ≢ None }
    ensures { IfOk result (λ names. Some names ≡ option_map (λ e. (e.site, e.seq)) (first_clash held.now batch.now)) }
{
    let mut clear = 0;
    let mut clashing = batch.len();
    while clear + 1 < clashing {
        let middle = clear + (clashing - clear) / 2;
        let (front, _) = batch.split_at(middle);
        if join_batch(alloc, held, front)?.is_some() {
            clear = middle;
        } else {
            clashing = middle;
        }
    }
    let first = &batch[clear];
    Ok((first.site, first.seq))
}

/// Puts an entry into its place, unless another one has its stamp. Looks back from the last one.
pub fn put_one(entries: &mut Vec<Entry>, entry: Entry)
    requires room { vec_len entries.old < vec_capacity entries.old }
    requires ascends { ascends entries.old.items ≡ true }
    ensures { entries.new.items ≡ put entry entries.old.items }
{
    let mut place = entries.len();
    while place > 0 && entry.is_before(&entries[place - 1]) {
        place -= 1;
    }
    if place == 0 || entries[place - 1].is_before(&entry) {
        entries.insert(place, entry).unwrap();
    }
}

/// How many stamps two lists begin with alike.
pub fn tied_front(held: &[Entry], joined: &[Entry]) -> usize
    ensures { result ≡ tied_front held.now joined.now }
{
    let both = held.len().min(joined.len());
    for i in 0..both {
        if !is_tied(&held[i], &joined[i]) {
            return i;
        }
    }
    both
}

// Whether two entries have one stamp.
fn is_tied(entry: &Entry, other: &Entry) -> bool
    ensures { result ≡ tie entry.now other.now }
{
    entry.clock == other.clock && entry.site == other.site
}

/// The union of a set and one entry, or None where it clashes with one of the set.
fn join_one(alloc: Global, held: &[Entry], entry: &Entry) -> Result<Option<Vec<Entry>>, AllocError>
    requires { is_set held.now ≡ true }
    ensures { IfOk result (λ o. MatchOption o (list_any (clash entry.now) held.now ≡ true) (λ v. (list_any (clash entry.now) held.now ≡ false) × (v.items ≡ put entry.now held.now))) }
{
    if clashes_any(entry, held) {
        return Ok(None);
    }
    let mut all = Vec::with_capacity(alloc, held.len() + 1)?;
    push_copies(&mut all, held)?;
    all.reserve(1)?;
    put_one(&mut all, entry.copy()?);
    Ok(Some(all))
}

// Appends copies of the entries, in their order.
fn push_copies(to: &mut Vec<Entry>, entries: &[Entry]) -> Result<(), AllocError>
    ensures { OnOk result (to.new.items ≡ to.old.items ++ entries.now) }
{
    for entry in entries {
        to.push(entry.copy()?)?;
    }
    Ok(())
}

// Sorts entries by their stamps; where memory is wanting they may stand in another order.
fn sort_by_stamp(entries: &mut Vec<Entry>) -> Result<(), AllocError>
    ensures permutation { IsPermutation entries.old.items entries.new.items }
    ensures sorted { OnOk result (IsSortedBy before entries.new.items) }
{
    entries.sort_by_key(|entry| entry.stamp())
}

/// Sorted entries without their repeats, or None where two of them clash.
fn without_repeats(alloc: Global, sorted: Vec<Entry>) -> Result<Option<Vec<Entry>>, AllocError>
    requires in_order { IsSortedBy before sorted.items }
    requires ranges { list_all in_range sorted.items ≡ true }
    ensures { IfOk result (λ o. MatchOption o (first_clash [] sorted.items ≢ None) (λ v. (first_clash [] sorted.items ≡ None) × (v.items ≡ union [] sorted.items))) }
{
    let mut latest = Vec::new(alloc);
    let mut entries: Vec<Entry> = Vec::with_capacity(alloc, sorted.len())?;
    for entry in sorted {
        if let Some(last) = entries.last() {
            if !last.is_before(&entry) {
                if last.is_same(&entry) {
                    continue;
                }
                return Ok(None);
            }
        }
        // Entries of one site ascend in clock here, so they clash unless their numbers, which
        // begin at 1, ascend too.
        if entry.seq <= number_at(&latest, entry.site) {
            return Ok(None);
        }
        set_number_at(&mut latest, entry.site, entry.seq)?;
        entries.push(entry)?;
    }
    Ok(Some(entries))
}

/// The number of a site in a list of numbers by sites: 0 past the list's end.
pub(crate) fn number_at(numbers: &[u32], site: u16) -> u32
    ensures { result ≡ slice_index numbers.now site }
{
    numbers.get(usize::from(site)).copied().unwrap_or(0)
}

/// Gives a site a number. The list grows as far as the greatest site: to 65,536 numbers at most,
/// which are 256 KiB.
pub(crate) fn set_number_at(
    numbers: &mut Vec<u32>,
    site: u16,
    number: u32,
) -> Result<(), AllocError>
    ensures few { length numbers.old.items ≤ 65536 → length numbers.new.items ≤ 65536 }
    ensures numbers { OnOk result ((other : ℕ) → slice_index numbers.new.items other ≡ (if site == other then number else slice_index numbers.old.items other)) }
{
    let place = usize::from(site);
    if numbers.len() <= place {
        numbers.resize(place + 1, 0)?;
    }
    numbers[place] = number;
    Ok(())
}
