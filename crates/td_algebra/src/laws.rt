//! The laws of the operators as functions, of the transitive closure, and of the greatest and the least value.
ghost use Rattle.td_algebra.specs.Closures.{TcloseIsLeast};
ghost use Rattle.td_algebra.specs.FunctionLaws.{ComposeOfIs, ExtendedIs, GroupingOfIs, IntersectOfIs, JoinOfIs, MatchingOfIs, MinusOfIs, NotMatchingOfIs, ProjectOfIs, RenameOfIs, RestrictedIs, SummarizedIs, TcloseOfIs, UngroupOfIs, UnionOfIs, UnwrapOfIs, WrapOfIs};
ghost use Rattle.td_algebra.specs.Keys.{KeyAfter, KeyIndexInserted, KeyIndexRemoved, KeyIndexTellsApart};
ghost use Rattle.td_algebra.specs.Summaries.{MaxIsGreatest, MinIsLeast};

/// The transitive closure is the least transitive relation that contains the relation.
pub fn tclose_is_least()
    ensures { TcloseIsLeast }
{}

/// Names that told the tuples apart before a change do so after it where they tell those that it inserted from all
/// others.
pub fn key_after()
    ensures { KeyAfter }
{}

/// What an index by a key says of the relation whose tuples it has, and what keeps it an index.
pub fn key_index_follows()
    ensures tells_apart { KeyIndexTellsApart }
    ensures inserted { KeyIndexInserted }
    ensures removed { KeyIndexRemoved }
{}

/// MAX is one of the values, and none of them is greater.
pub fn max_is_greatest()
    ensures { MaxIsGreatest }
{}

/// MIN is one of the values, and none of them is less.
pub fn min_is_least()
    ensures { MinIsLeast }
{}

/// The functions in which the evaluation of expressions is written: each gives the one relation that its operator
/// describes.
pub fn functions_are_operators()
    ensures union { UnionOfIs }
    ensures intersect { IntersectOfIs }
    ensures minus { MinusOfIs }
    ensures project { ProjectOfIs }
    ensures rename { RenameOfIs }
    ensures join { JoinOfIs }
    ensures matching { MatchingOfIs }
    ensures not_matching { NotMatchingOfIs }
    ensures compose { ComposeOfIs }
    ensures grouping { GroupingOfIs }
    ensures wrap { WrapOfIs }
    ensures ungroup { UngroupOfIs }
    ensures unwrap { UnwrapOfIs }
    ensures tclose { TcloseOfIs }
    ensures restrict { RestrictedIs }
{}

/// Each of the functions that take terms, of any kind, gives the one relation that its operator describes, unless a
/// term raises, and then the least that is raised.
pub fn functions_by_terms_are_operators<E>()
    ensures extended { ExtendedIs E }
    ensures summarized { SummarizedIs E }
{}
