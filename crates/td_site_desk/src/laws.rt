//! What holds over all statements of a desk.

ghost use Rattle.td_site_desk.specs.Laws.{AddedHaveTheName, AnsweredAreHeld, KeysActOnce, ReadersChangeNothing, WritersOnlyWrite};

/// A statement that is answered with 200 is held, as one of the site's own, with the text that is issued for it.
pub fn answered_are_held()
    ensures { AnsweredAreHeld }
{}

/// Over any calls of a desk, and meetings that bring no statement with a key of the site's own, a key has one statement
/// at most among the site's last 1,000 with keys: each key acts once, however often its statement is sent.
pub fn keys_act_once()
    ensures { KeysActOnce }
{}

/// A statement adds no entry but one with the comment of the name of its token, or of none: who is confirmed in the log
/// had the token of that name.
pub fn added_have_the_name()
    ensures { AddedHaveTheName }
{}

/// A call by a token that may only read leaves the site as it was.
pub fn readers_change_nothing()
    ensures { ReadersChangeNothing }
{}

/// A call by a token that may not do all has no peer called, and does not end the program.
pub fn writers_only_write()
    ensures { WritersOnlyWrite }
{}
