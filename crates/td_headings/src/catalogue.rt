//! What a script has defined, each definition well typed after those before it.

ghost use Rattle.std.specs.Prelude.{◌≡◌, false, Err, IfSome, MatchOption, None, OnErr, OnOk, Some, slice_get};
ghost use Rattle.std.specs.Option.{option_copied};
ghost use Rattle.td_schema.specs.Schemas as schemas;
ghost use Rattle.td_schema.specs.declared.error.TypeError.TheVariants as type_error;
ghost use Rattle.td_headings.specs.Catalogues as spec;
ghost use Rattle.td_headings.specs.Definitions.{Defined, Defines};
ghost use Rattle.td_headings.specs.Expressions.{IsConstraint, constraint_at};
ghost use Rattle.td_headings.specs.Reached.{ReadsRelvar};
ghost use Rattle.td_typed_trees.specs.declared.tree.Typed.{Typed};

use crate::defined::{Definitions, Origin, Test};
use crate::relvars_read::{RelvarsRead, relvars_read};
use crate::typed::{TypedExpr, constraint_exprs};
use std::alloc::{AllocError, Global};
use std::marker::Model;
use td_schema::error::TypeError;
use td_schema::schema::{Representation, Schema};
use td_syntax::script::Definition;
use td_tuples::Shared;
use td_typed_trees::tree::Typed;
use td_values::{Heading, Name};

/// What a script has defined: types, relvars, and what must be true after each statement. Each definition is well typed
/// after those before it.
pub struct Catalogue {
    definitions: Definitions,
    // for each test its expression, where it is a constraint and its expression is kept
    constraints: Vec<Option<TypedExpr>>,
    // for each of these what it reads
    read: Vec<RelvarsRead>,
}

// By hand, since a derived one is proved anew at each place where a catalogue is dropped: this one is a call there.
impl Drop for Catalogue {
    fn drop(self) {
        let Catalogue {
            definitions: _,
            constraints: _,
            read: _,
        } = self;
    }
}

impl Model for Catalogue {
    ghost use Rattle.td_headings.specs.Catalogues.{CatalogueData};
    ghost use Rattle.td_headings.specs.ForProofs.Codes.{catalogue_code};
    ghost use Rattle.td_headings.specs.Definitions.{Defined};
    ghost use Rattle.td_headings.specs.ForProofs.KeptConstraints.{AreKept};
    ghost use Rattle.td_headings.specs.ForProofs.RelvarsRead.{AreToldOf};

    ghost Value = { CatalogueData };

    ghost coded = { catalogue_code };

    ghost view = { λ c. c.definitions };

    ghost invariant = { λ c. Defined c.definitions × AreKept c.definitions c.constraints.items × AreToldOf c.definitions c.read.items };
}

impl Catalogue {
    /// One in which nothing is defined.
    pub fn new(alloc: Global) -> Catalogue
        ensures { result ≡ spec.nothing_defined }
    {
        Catalogue {
            definitions: Definitions::new(alloc),
            constraints: Vec::new(alloc),
            read: Vec::new(alloc),
        }
    }

    /// The types and relvars that expressions name.
    pub fn schema(&self) -> &Schema
        ensures schema { result.now ≡ self.now.schema }
        ensures defined { Defined self.now }
    {
        self.definitions.schema()
    }

    /// The place of the relvar of this name in order of definition, and its heading.
    pub fn relvar(&self, name: &Name) -> Option<(usize, &Heading)>
        ensures { MatchOption result (schemas.relvar_named self.now.schema name.now ≡ None) (λ r. schemas.relvar_named self.now.schema name.now ≡ Some (r.0, record { name = name.now; value = r.1.now })) }
    {
        self.schema().relvar(name)
    }

    /// The name and the heading of the relvar at this place in order of definition.
    pub fn relvar_at(&self, place: usize) -> Option<(&Name, &Heading)>
        ensures { MatchOption result (slice_get self.now.schema.relvars place ≡ None) (λ r. slice_get self.now.schema.relvars place ≡ Some (record { name = r.0.now; value = r.1.now })) }
    {
        self.schema().relvar_at(place)
    }

    /// The place of the possible representation of this name in order of definition, and it.
    pub fn possrep(&self, name: &Name) -> Option<(usize, &Representation)>
        ensures { MatchOption result (schemas.possrep_named self.now.schema name.now ≡ None) (λ r. schemas.possrep_named self.now.schema name.now ≡ Some (r.0, r.1.now)) }
    {
        self.schema().possrep(name)
    }

    /// The possible representation at this place in order of definition.
    pub fn representation_at(&self, place: usize) -> Option<&Representation>
        ensures { option_copied result ≡ slice_get self.now.schema.possreps place }
    {
        self.schema().representation_at(place)
    }

    /// Definitions made it, as they make every catalogue: a call tells the prover so, and costs nothing.
    pub fn was_defined(&self)
        ensures { Defined self.now }
    {
        let _definitions = &self.definitions;
    }

    /// What must be true after each statement, in the order of the script.
    pub fn tests(&self) -> &[Test]
        ensures tests { result.now ≡ self.now.tests }
        ensures defined { Defined self.now }
    {
        self.definitions.tests()
    }

    /// Where the value of the relvar at this place comes from.
    pub fn origin(&self, place: usize) -> Option<&Origin>
        ensures { option_copied result ≡ slice_get self.now.origins place }
    {
        self.definitions.origins().get(place)
    }

    /// The origins of the relvars, in the order of their definition.
    pub(crate) fn origins(&self) -> &[Origin]
        ensures { result.now ≡ self.now.origins }
    {
        self.definitions.origins()
    }

    /// The constraints of the types, in the order of their definition; None for a type without one.
    pub(crate) fn limits(&self) -> &[Option<Shared<Typed>>]
        ensures { result.now ≡ self.now.limits }
    {
        self.definitions.limits()
    }

    /// The expression of the constraint at this place among the tests, where it is kept.
    pub(crate) fn kept_constraint(&self, place: usize) -> Option<&TypedExpr>
        ensures { IfSome result (λ x. IsConstraint self.now (constraint_at self.now place) x.now) }
    {
        match self.constraints.get(place) {
            Some(Some(expr)) => Some(expr),
            _ => None,
        }
    }

    /// Whether the constraint at this place among the tests may read the base relvar at the other place. It costs two
    /// comparisons. It says yes of a constraint that reads no base relvar or more than two, and of all where the
    /// catalogue does not keep its constraints.
    pub fn may_read(&self, place: usize, relvar: usize) -> bool
        ensures { result ≡ false → (u : Typed) → constraint_at self.now place ≡ Some u → ReadsRelvar self.now.origins u relvar → ⊥ }
    {
        match self.read.get(place) {
            Some(those) => those.may_be(relvar),
            None => true,
        }
    }

    /// Keeps the expressions of the constraints, which `constraint_expr` then shares: else it makes each anew at each
    /// call. They cost their sizes, with those of the expressions of the virtual relvars under them. A definition that
    /// is added later drops them.
    pub fn keep_constraints(&mut self, alloc: Global) -> Result<(), AllocError>
        ensures { self.new ≡ self.old }
    {
        let constraints = constraint_exprs(alloc, self)?;
        self.read = relvars_read(alloc, &constraints)?;
        self.constraints = constraints;
        Ok(())
    }

    /// Adds a definition behind the others, where it is well typed after them.
    pub fn define(&mut self, alloc: Global, definition: &Definition) -> Result<(), TypeError>
        ensures defined { OnOk result (Defines self.old definition.now self.new) }
        ensures kept { OnErr result (self.new ≡ self.old) }
        ensures refused { result ≡ Err type_error.IllTyped → (c : spec.CatalogueData) → Defines self.old definition.now c → ⊥ }
    {
        self.constraints = Vec::new(alloc);
        self.read = Vec::new(alloc);
        self.definitions.define(alloc, definition)
    }
}
