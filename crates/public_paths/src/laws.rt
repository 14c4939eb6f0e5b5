//! Laws, which are functions without parameters.

ghost use Rattle.td_convergence.specs.Laws.{ConvergedHoldTheSame, Convergence};
ghost use Rattle.td_executions.specs.Laws.{ExecutionHasNoClash};
ghost use Rattle.td_printed.specs.Laws.{PrintedAgree, RepliesAgree};
ghost use Rattle.td_replica.specs.Laws.{HistoryIsLegal, HistoryIsUnique, SitesAgree};
ghost use Rattle.td_stamps.specs.Laws.{MergeAssociates, MergeCommutes, MergeIsIdempotent};

pub use td_algebra::laws::tclose_is_least;
pub use td_assign::laws::step_by_footprint;
pub use td_convergence::laws::{converged_hold_the_same, meetings_converge};
pub use td_eval::laws::{meaning_by_reads, shown_is_read_back};
pub use td_executions::laws::world_has_no_clash;
pub use td_grammar::laws::one_tree;
pub use td_printed::laws::sites_print_alike;
pub use td_replay::laws::{history_is_unique, sites_agree, story_is_legal};
pub use td_stamps::laws::merge_is_join;

/// One set of statements is one database: it has one history, on which sites agree and in which every key and constraint
/// is true, whatever order, grouping and repeats it came in; open sites that hold it print the same; no two statements
/// of an execution clash; and where none clash, meetings along a tree of sites and back leave each with one set.
pub fn one_set_is_one_database()
    ensures unique { HistoryIsUnique }
    ensures agreed { SitesAgree }
    ensures legal { HistoryIsLegal }
    ensures associates { MergeAssociates }
    ensures commutes { MergeCommutes }
    ensures idempotent { MergeIsIdempotent }
    ensures apart { ExecutionHasNoClash }
    ensures printed { PrintedAgree }
    ensures lines { RepliesAgree }
    ensures converged { Convergence }
    ensures alike { ConvergedHoldTheSame }
{
    history_is_unique();
    sites_agree();
    story_is_legal();
    merge_is_join();
    world_has_no_clash();
    sites_print_alike();
    meetings_converge();
    converged_hold_the_same();
}
