//! The laws of evaluation.
ghost use Rattle.td_eval.specs.Laws.{BasesStay, MeaningByReads, MeansItsTree, RelvarsHaveRelations, TreesHaveValues, VirtualsMeanTheirExpressions};

pub use td_literal_round_trip::laws::shown_is_read_back;

/// Relvars that agree on what an expression reads give it the same meaning.
pub fn meaning_by_reads()
    ensures { MeaningByReads }
{}

/// A virtual relvar means its expression over the same relvars.
pub fn virtuals_mean_their_expressions()
    ensures { VirtualsMeanTheirExpressions }
{}

/// The base relvars that an expression reads have what they have.
pub fn bases_stay()
    ensures { BasesStay }
{}

/// An expression means what its tree does where all of its catalogue is there.
pub fn means_its_tree()
    ensures { MeansItsTree }
{}

/// Over base relvars that have their headings, each relvar has a relation of its heading, or raises an error of the
/// language.
pub fn relvars_have_relations()
    ensures { RelvarsHaveRelations }
{}

/// And a tree means a value of its type, or one of these errors.
pub fn trees_have_values()
    ensures { TreesHaveValues }
{}
