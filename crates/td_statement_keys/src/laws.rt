//! What holds over all statements that are issued under keys.

ghost use Rattle.td_statement_keys.specs.Laws.{EachKeyActsOnce, FoundAreHeld, KeysAreKept, KeysFindTheirs, NamesAreKept, NamesAreNoKeys};

/// Over any statements that are issued under keys, and other changes that add none with a key to the site's own, a key
/// has one statement at most among the last 1,000 with keys: each key acts once.
pub fn each_key_acts_once()
    ensures { EachKeyActsOnce }
{}

/// A statement that is one of the last 1,000 with keys is found by its key.
pub fn keys_find_theirs()
    ensures { KeysFindTheirs }
{}

/// What is found by a key is held, is a statement of the site, and begins with the key's comment.
pub fn found_are_held()
    ensures { FoundAreHeld }
{}

/// A text that is issued under a key begins with the comment of one.
pub fn keys_are_kept()
    ensures { KeysAreKept }
{}

/// What is issued has the comment of the token's name, if what a client sends has none.
pub fn names_are_kept()
    ensures { NamesAreKept }
{}

/// The comment of a name is not that of a key.
pub fn names_are_no_keys()
    ensures { NamesAreNoKeys }
{}
