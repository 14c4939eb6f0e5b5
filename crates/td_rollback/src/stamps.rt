//! Entries that are told apart by their stamps.

ghost use Rattle.std.specs.Prelude.{◌≡◌, List, true};
ghost use Rattle.td_stamps.specs.Entries.{same};
ghost use Rattle.td_stamps.specs.ForProofs.{tie};
ghost use Rattle.td_stamps.specs.Sets.{has};
ghost use Rattle.td_stamps.specs.declared.entry.Entry.{Entry as EntryData};
ghost use Rattle.td_rollback.specs.Touched.{AreMore};

use td_stamps::Entry;

// Whether the two have one stamp.
fn is_tied(entry: &Entry, other: &Entry) -> bool
    ensures { result ≡ tie entry.now other.now }
{
    entry.clock == other.clock && entry.site == other.site
}

/// Whether the new entry is this old one. Among the new ones each stamp stands once, so no text is compared.
pub(crate) fn is_old(entry: &Entry, old: &Entry) -> bool
    requires { (es fs : List EntryData) × AreMore es fs × (has es old.now ≡ true) × (has fs entry.now ≡ true) }
    ensures { result ≡ same entry.now old.now }
{
    is_tied(entry, old)
}
