//! What a batch is found to be beside the entries that are held: walks that take no memory.
ghost use Rattle.std.specs.Prelude.{◌≡◌, ◌≤◌, option_map, length};
ghost use Rattle.std.specs.List.{list_any, list_all};
ghost use Rattle.td_stamps.specs.Entries.{clash, in_range};
ghost use Rattle.td_stamps.specs.Sets.{has};
ghost use Rattle.td_stamps.specs.Checks.{first_clash, fresh_count};

use crate::entry::Entry;

/// Whether the parts of each are in their ranges.
pub fn all_in_range(batch: &[Entry]) -> bool
    ensures { result ≡ list_all in_range batch.now }
{
    batch.iter().all(|e| e.is_in_range())
}

/// The site and number of the first entry of the batch that clashes with a held one or with one
/// before it. Looks at each pair.
pub fn clash_in(held: &[Entry], batch: &[Entry]) -> Option<(u16, u32)>
    ensures { result ≡ option_map (λ e. (e.site, e.seq)) (first_clash held.now batch.now) }
{
    for (i, entry) in batch.iter().enumerate() {
        if clashes_any(entry, held) || clashes_any(entry, &batch[..i]) {
            return Some((entry.site, entry.seq));
        }
    }
    None
}

/// How many different entries of the batch are not held. Looks at each pair.
pub fn fresh_in(held: &[Entry], batch: &[Entry]) -> usize
    ensures count { result ≡ fresh_count held.now batch.now }
    ensures few { result ≤ length batch.now }
{
    let mut fresh = 0;
    for (i, entry) in batch.iter().enumerate() {
        if !(is_among(entry, held) || is_among(entry, &batch[..i])) {
            fresh += 1;
        }
    }
    fresh
}

/// Whether it clashes with one of the others.
pub fn clashes_any(entry: &Entry, others: &[Entry]) -> bool
    ensures { result ≡ list_any (clash entry.now) others.now }
{
    others.iter().any(|x| entry.clashes(x))
}

// Whether the same entry is among the others; it walks along them.
fn is_among(entry: &Entry, others: &[Entry]) -> bool
    ensures { result ≡ has others.now entry.now }
{
    others.iter().any(|x| entry.is_same(x))
}
