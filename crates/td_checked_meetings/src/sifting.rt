//! The entries of a batch that a site takes.

ghost use Rattle.std.specs.Prelude.{◌≡◌, ◌-◌, ◌++◌, ◌∷◌, List, [], length, IfOk, OnOk};
ghost use Rattle.td_stamps.specs.declared.entry.Entry.{Entry as EntryData};
ghost use Rattle.td_checked_meetings.specs.ForProofs.{AreLast, IsSequenced, last_number};
ghost use Rattle.td_checked_meetings.specs.Scopes.{first_beyond, follows, in_sequence, of_others, taken};

use crate::scope::MeetingScope;
use std::alloc::{AllocError, Global};
use std::collections::BTreeMap;
use td_stamps::{Entry, Vector};

/// An entry beyond a gap: an earlier number of its site did not come.
#[derive(Clone, Copy, Debug, PartialEq, Eq)]
pub struct Beyond {
    pub site: u16,
    pub number: u32,
}

/// What is taken of a batch.
#[derive(Drop)]
pub(crate) struct Sifted {
    pub(crate) entries: Vec<Entry>,
    /// How many others were of sites that are left out.
    pub(crate) dropped: usize,
    /// The first of the others that is beyond a gap.
    pub(crate) beyond: Option<Beyond>,
}

// Adds an entry, if its site is not left out.
fn add_other(scope: &MeetingScope, others: &mut Vec<Entry>, entry: Entry) -> Result<(), AllocError>
    ensures { OnOk result (others.new.items ≡ others.old.items ++ of_others scope.now.left_out.items (entry ∷ [])) }
{
    if scope.leaves_out(entry.site) {
        return Ok(());
    }
    others.push(entry)?;
    Ok(())
}

// The entries of sites that are not left out.
fn of_others(
    alloc: Global,
    scope: &MeetingScope,
    entries: Vec<Entry>,
) -> Result<Vec<Entry>, AllocError>
    ensures { IfOk result (λ v. v.items ≡ of_others scope.now.left_out.items entries.items) }
{
    let mut others = Vec::with_capacity(alloc, entries.len())?;
    for entry in entries {
        add_other(scope, &mut others, entry)?;
    }
    Ok(others)
}

// The greatest number of the site that came earlier; 0 if none did.
fn last_number(numbers: &BTreeMap<u16, u32>, site: u16) -> u32
    ensures { result ≡ last_number numbers.now site }
{
    numbers.get(&site).copied().unwrap_or(0)
}

// Notes that an entry came.
fn note_number(numbers: &mut BTreeMap<u16, u32>, entry: &Entry) -> Result<(), AllocError>
    ensures { OnOk result ((earlier : List EntryData) → AreLast earlier numbers.old → AreLast (earlier ++ entry.now ∷ []) numbers.new) }
{
    let number = entry.seq.max(last_number(numbers, entry.site));
    numbers.insert(entry.site, number)?;
    Ok(())
}

// Whether no number of the entry's site is missing before it.
fn follows(vector: &Vector, numbers: &BTreeMap<u16, u32>, entry: &Entry) -> bool
    ensures { (earlier : List EntryData) → AreLast earlier numbers.now → result ≡ follows vector.now earlier entry.now }
{
    let last = vector
        .number(entry.site)
        .max(last_number(numbers, entry.site));
    entry.seq <= last.saturating_add(1)
}

// Adds an entry, if it follows. Returns the first one so far that did not.
fn add_following(
    vector: &Vector,
    numbers: &mut BTreeMap<u16, u32>,
    following: &mut Vec<Entry>,
    beyond: Option<Beyond>,
    entry: Entry,
) -> Result<Option<Beyond>, AllocError>
    ensures { IfOk result (λ b. (all rest : List EntryData)
        → IsSequenced vector.now all (entry ∷ rest) numbers.old following.old.items beyond
        → IsSequenced vector.now all rest numbers.new following.new.items b) }
{
    if !follows(vector, numbers, &entry) {
        return Ok(beyond.or(Some(Beyond {
            site: entry.site,
            number: entry.seq,
        })));
    }
    note_number(numbers, &entry)?;
    following.push(entry)?;
    Ok(beyond)
}

// The entries that follow, and the first one that does not.
fn in_sequence(
    alloc: Global,
    vector: &Vector,
    entries: Vec<Entry>,
) -> Result<(Vec<Entry>, Option<Beyond>), AllocError>
    ensures entries { IfOk result (λ r. r.0.items ≡ in_sequence vector.now [] entries.items) }
    ensures beyond { IfOk result (λ r. r.1 ≡ first_beyond vector.now [] entries.items) }
{
    let mut numbers = BTreeMap::new(alloc);
    let mut beyond = None;
    let mut following = Vec::with_capacity(alloc, entries.len())?;
    for entry in entries {
        beyond = add_following(vector, &mut numbers, &mut following, beyond, entry)?;
    }
    Ok((following, beyond))
}

/// What a site of this version vector takes of a batch.
pub(crate) fn sift(
    alloc: Global,
    scope: &MeetingScope,
    vector: &Vector,
    batch: Vec<Entry>,
) -> Result<Sifted, AllocError>
    ensures entries { IfOk result (λ s. s.entries.items ≡ taken scope.now.left_out.items vector.now batch.items) }
    ensures beyond { IfOk result (λ s. s.beyond ≡ first_beyond vector.now [] (of_others scope.now.left_out.items batch.items)) }
    ensures dropped { IfOk result (λ s. s.dropped ≡ length batch.items - length (of_others scope.now.left_out.items batch.items)) }
{
    let count = batch.len();
    let others = of_others(alloc, scope, batch)?;
    let dropped = count.saturating_sub(others.len());
    let (entries, beyond) = in_sequence(alloc, vector, others)?;
    Ok(Sifted {
        entries,
        dropped,
        beyond,
    })
}
