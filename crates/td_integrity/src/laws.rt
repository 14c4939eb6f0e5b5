//! The laws of tests.
ghost use Rattle.td_integrity.specs.Laws.{KeysTellTuplesApart, NoneFailsOfLegal};

/// The test of a key is true where no two different tuples agree on its attributes.
pub fn keys_tell_tuples_apart()
    ensures { KeysTellTuplesApart }
{}

/// No test fails where every test is true.
pub fn none_fails_of_legal()
    ensures { NoneFailsOfLegal }
{}
