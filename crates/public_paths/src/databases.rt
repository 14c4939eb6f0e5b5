//! td_relvars, td_constraints and td_assign.

pub use td_assign::{Meter, Outcome, redo, run, undo, undo_part};
pub use td_constraints::{Failure, first_failure, first_failure_after};
pub use td_eval::Lookup;
pub use td_grammar::{LATEST, read_expr};
pub use td_headings::type_expr;
pub use td_relvars::{Answer, Base, Database, Part, RelvarError, ScriptError, Test, value_over};
pub use td_values::{Kind, Name, Tuple, Value, show};
