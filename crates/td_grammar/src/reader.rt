//! Trees from texts.

ghost use Rattle.std.specs.Prelude.{◌≡◌, IfOk, List, true};
ghost use Rattle.std.specs.List.{list_all};
ghost use Rattle.td_tokens.specs.Lexer.{lexemes};
ghost use Rattle.td_grammar.specs.ForProofs.Reader as spec;
ghost use Rattle.td_grammar.specs.ForProofs.Readings.{Tells, Lexes, fits, lexemes_of};
ghost use Rattle.td_grammar.specs.ForProofs.StatementReader as statements;
ghost use Rattle.td_grammar.specs.Grammar.{IsQuery};
ghost use Rattle.td_grammar.specs.Statements.{IsScript, IsStatement, IsStatementIn};
ghost use Rattle.td_syntax.specs.declared.script.Definition.{Definition};
ghost use Rattle.td_syntax.specs.declared.script.Statement.{Statement};
ghost use Rattle.td_syntax.specs.declared.tree.Expr.{Expr};

use crate::cursor::Cursor;
use crate::error::ReadError;
use crate::forms::Form;
use crate::grammar::{Grammar, Tree, expr};
use crate::statements::since;
use sqlite_items::{Boxed, Items};
use std::alloc::Global;
use td_syntax::script::{Definition, Statement};
use td_syntax::tree::Expr;
use td_tokens::lexer::tokens;
use td_tokens::token::Token;

/// The most bytes of a query.
pub const QUERY_BYTES: usize = 8_192;

/// The most bytes of a statement.
pub const STATEMENT_BYTES: usize = 8_192;

/// The most bytes of a script.
pub const SCRIPT_BYTES: usize = 65_536;

/// The most levels of an expression.
pub const LEVELS: usize = 256;

/// The dialect in which statements are written today.
pub const LATEST: u8 = 2;

// The tokens of a text.
fn tokens_of(alloc: Global, text: &str) -> Result<Vec<Token<'_>>, ReadError>
    ensures told { Lexes (lexemes text.now) result }
    ensures names { IfOk result (λ ts. list_all fits (lexemes_of ts) ≡ true) }
{
    Ok(tokens(alloc, text)?)
}

// The tree of a query, as the reader's definition has it.
#[tactic(auto, unfolding(crate::specs::ForProofs::Reader::read_expr))]
fn query(alloc: Global, text: &str) -> Result<Tree, ReadError>
    ensures { Tells (spec.read_expr text.now) result }
{
    if text.len() > QUERY_BYTES {
        return Err(ReadError::Syntax);
    }
    let all = tokens_of(alloc, text)?;
    let mut rest = Cursor::new(&all);
    let depth = rest.len();
    let tree = expr(alloc, &mut rest, depth, LEVELS, Form::Expr)?;
    if rest.is_empty() {
        Ok(tree)
    } else {
        Err(ReadError::Syntax)
    }
}

// The tree of a statement, as the reader's definition has it.
#[tactic(auto, unfolding(crate::specs::ForProofs::StatementReader::read_statement))]
fn statement(alloc: Global, text: &str) -> Result<Statement, ReadError>
    ensures { Tells (statements.read_statement text.now) result }
{
    if text.len() > STATEMENT_BYTES {
        return Err(ReadError::Syntax);
    }
    let all = tokens_of(alloc, text)?;
    let mut rest = Cursor::new(&all);
    let grammar = Grammar {
        alloc,
        depth: rest.len(),
        levels: LEVELS,
        nested: expr,
    };
    let statement = grammar.statement(&mut rest)?;
    if rest.is_empty() {
        Ok(statement)
    } else {
        Err(ReadError::Syntax)
    }
}

// The tree of a statement, as the reader's definition has it. It is `Syntax` where the dialect lacks its form.
#[tactic(auto, unfolding(crate::specs::ForProofs::StatementReader::read_statement_in))]
fn statement_in(alloc: Global, text: &str, dialect: u8) -> Result<Statement, ReadError>
    ensures { Tells (statements.read_statement_in dialect text.now) result }
{
    let tree = statement(alloc, text)?;
    if since(&tree) <= dialect {
        Ok(tree)
    } else {
        Err(ReadError::Syntax)
    }
}

// The trees of a script's definitions, as the reader's definition has them.
#[tactic(auto, unfolding(crate::specs::ForProofs::StatementReader::read_script))]
fn script(alloc: Global, text: &str) -> Result<Items<Definition>, ReadError>
    ensures { Tells (statements.read_script text.now) result }
{
    if text.len() > SCRIPT_BYTES {
        return Err(ReadError::Syntax);
    }
    let all = tokens_of(alloc, text)?;
    let mut rest = Cursor::new(&all);
    let grammar = Grammar {
        alloc,
        depth: rest.len(),
        levels: LEVELS,
        nested: expr,
    };
    grammar.definitions(&mut rest)
}

/// The tree of a query.
///
/// It takes time linear in the text, at worst times the depth of its expressions. The reading calls itself at most 320
/// levels deep: once for each level of an expression, and once for each round bracket that is open.
pub fn read_expr(alloc: Global, text: &str) -> Result<Boxed<Expr>, ReadError>
    ensures tree { IfOk result (IsQuery text.now) }
    ensures syntax_only_without_one { result ≡ Err ReadError.Syntax → (tree : Expr) → ¬ IsQuery text.now tree }
{
    query(alloc, text)
}

/// The tree of a statement. Time and depth are as for a query.
pub fn read_statement(alloc: Global, text: &str) -> Result<Statement, ReadError>
    ensures tree { IfOk result (IsStatement text.now) }
    ensures syntax_only_without_one { result ≡ Err ReadError.Syntax → (tree : Statement) → ¬ IsStatement text.now tree }
{
    statement(alloc, text)
}

/// The tree of a statement in a dialect: a text of a form that came with a later one has none. Time and depth are as
/// for a query.
pub fn read_statement_in(alloc: Global, text: &str, dialect: u8) -> Result<Statement, ReadError>
    ensures tree { IfOk result (IsStatementIn dialect text.now) }
    ensures syntax_only_without_one { result ≡ Err ReadError.Syntax → (tree : Statement) → ¬ IsStatementIn dialect text.now tree }
{
    statement_in(alloc, text, dialect)
}

/// The trees of a script's definitions. Time and depth are as for a query.
pub fn read_script(alloc: Global, text: &str) -> Result<Items<Definition>, ReadError>
    ensures trees { IfOk result (IsScript text.now) }
    ensures syntax_only_without_any { result ≡ Err ReadError.Syntax → (trees : List Definition) → ¬ IsScript text.now trees }
{
    script(alloc, text)
}
