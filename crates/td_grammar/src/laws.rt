//! Laws of the grammar.

ghost use Rattle.td_grammar.specs.Laws.{OneExpr, OneScript, OneStatement, ReaderDecidesQueries, ReaderDecidesScripts, ReaderDecidesStatements};

/// No token list has two trees.
pub fn one_tree()
    ensures expression { OneExpr }
    ensures statement { OneStatement }
    ensures script { OneScript }
{}

/// The reader finds what the grammar says: a tree where the text's tokens are read as one, and else none.
pub fn reader_decides_queries()
    ensures { ReaderDecidesQueries }
{}

/// The reader finds what the grammar says of a statement and of a script: a tree where the text's tokens are read as
/// one, and else none.
pub fn reader_decides_statements()
    ensures statement { ReaderDecidesStatements }
    ensures script { ReaderDecidesScripts }
{}
