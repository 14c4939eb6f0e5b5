//! Trees of expressions, statements and scripts, and how deep they are.
//!
//! Begin with `Expr` and `Statement`, whose variants are the forms of the language.
//!
//! ```
//! let relvar = Boxed::new(alloc, Expr::Name(Name::new(alloc, "S")?))?;
//! let condition = Boxed::new(alloc, Expr::Truth(true))?;
//! let tree = Expr::Where(relvar, condition);
//! let is_shallow = levels::within(&tree, 256);
//! ```
//!
//! Costs: each nested expression is a box of its own. `within` walks a tree at most once, as deep as the bound, and
//! takes no memory.
//!
//! Definitions to trust, in `specs/`: Levels.
//!
//! td_syntax has the trees, which are plain data. What types them stands on it alone, and not on the reader.
#![tactic(auto)]

pub mod levels;
pub mod script;
pub mod tree;

pub use script::{Action, Definition, Opening, Statement};
pub use tree::{
    Aggregate, Attributes, BinaryOperator, Expr, Extension, Groups, Named, Nesting, Renaming,
    SummaryTerm, TypeExpr, UnaryOperator,
};
