//! What a script defines.

ghost use Rattle.std.specs.Prelude.{◌≡◌, Err, IfOk};
ghost use Rattle.td_schema.specs.declared.error.TypeError.TheVariants as type_error;
ghost use Rattle.td_headings.specs.Catalogues.{CatalogueData, nothing_defined};
ghost use Rattle.td_semantics.specs.Scripts.{DefinesAll, IsCatalogue};

use crate::error::CatalogueError;
use std::alloc::{AllocError, Global};
use td_grammar::{ReadError, read_script};
use td_headings::Catalogue;
use td_schema::error::TypeError;
use td_syntax::script::Definition;

// Defines the definitions in order, from nothing; gives the error of the first that is ill typed.
fn define_all(alloc: Global, definitions: &[Definition]) -> Result<Catalogue, TypeError>
    ensures typed { IfOk result (DefinesAll nothing_defined definitions.now) }
    ensures refused { result ≡ Err type_error.IllTyped → (c : CatalogueData) → DefinesAll nothing_defined definitions.now c → ⊥ }
{
    let mut catalogue = Catalogue::new(alloc);
    for definition in definitions {
        match catalogue.define(alloc, definition) {
            Ok(()) => {}
            Err(error) => return Err(error),
        }
    }
    Ok(catalogue)
}

// The catalogue, which keeps the expressions of its constraints.
fn keep_constraints(alloc: Global, catalogue: Catalogue) -> Result<Catalogue, AllocError>
    ensures { IfOk result (λ c. c ≡ catalogue) }
{
    let mut catalogue = catalogue;
    catalogue.keep_constraints(alloc)?;
    Ok(catalogue)
}

/// What the definitions of a script make. It costs the reading and typing of the text, and the sizes of the constraints
/// with those of the expressions of the virtual relvars under them.
pub fn catalogue_of(alloc: Global, text: &str) -> Result<Catalogue, CatalogueError>
    ensures { IsCatalogue text.now result }
{
    let definitions = match read_script(alloc, text) {
        Ok(definitions) => definitions,
        Err(ReadError::Syntax) => return Err(CatalogueError::Syntax),
        Err(ReadError::OutOfMemory) => return Err(CatalogueError::OutOfMemory),
    };
    match define_all(alloc, definitions.as_slice()) {
        Ok(catalogue) => match keep_constraints(alloc, catalogue) {
            Ok(catalogue) => Ok(catalogue),
            Err(_) => Err(CatalogueError::OutOfMemory),
        },
        Err(TypeError::IllTyped) => Err(CatalogueError::IllTyped),
        Err(TypeError::OutOfMemory) => Err(CatalogueError::OutOfMemory),
    }
}
