//! What a script has defined, definition by definition.

ghost use Rattle.std.specs.Prelude.{◌≡◌, ◌++◌, ◌∷◌, [], Err, IfOk, None, Some, OnErr, OnOk, map};
ghost use Rattle.td_schema.specs.ForProofs.Additions.{type_added};
ghost use Rattle.td_schema.specs.declared.error.TypeError.TheVariants as type_error;
ghost use Rattle.td_headings.specs.Catalogues as spec;
ghost use Rattle.td_headings.specs.ForProofs.After as after;
ghost use Rattle.td_headings.specs.ForProofs.Changes.{Changes};
ghost use Rattle.td_headings.specs.ForProofs.TestNames.{constraint_names};
ghost use Rattle.td_headings.specs.declared.defined.Test.TheVariants as test;

use crate::opening::{condition, keys_of, limits, type_opening, value};
use crate::test_list::TestList;
use sqlite_items::{Boxed, Items};
use std::alloc::{AllocError, Global};
use std::marker::Model;
use td_schema::error::TypeError;
use td_schema::lists::copies;
use td_schema::schema::{Representation, Schema};
use td_schema::written::components_written;
use td_syntax::script::{Definition, Opening};
use td_syntax::tree::{Attributes, Expr, Named, TypeExpr};
use td_tuples::Shared;
use td_typed_trees::tree::Typed;
use td_values::{Heading, Name, Possrep};

/// Where the value of a relvar comes from.
#[derive(Drop)]
pub enum Origin {
    /// It is stored: its keys, as they were written, and what it holds at first, if that was written.
    Base(Items<Items<Name>>, Option<Shared<Typed>>),
    /// It is the value of this expression.
    Virtual(Shared<Typed>),
}

/// What must be true after each statement.
#[derive(Drop)]
pub enum Test {
    /// No two tuples of the relvar at this place agree on these attributes.
    Key(usize, Items<Name>),
    /// The constraint of this name is true.
    Constraint(Name, Shared<Typed>),
}

/// Types, relvars, and what must be true after each statement.
#[derive(Drop)]
pub struct Definitions {
    schema: Schema,
    limits: Vec<Option<Shared<Typed>>>,
    origins: Vec<Origin>,
    tests: TestList,
}

impl Model for Definitions {
    ghost use Rattle.td_headings.specs.Catalogues.{CatalogueData};
    ghost use Rattle.td_headings.specs.ForProofs.Codes.{catalogue_code};

    ghost Value = { CatalogueData };

    ghost coded = { catalogue_code };

    ghost view = { λ c. record { schema = c.schema; limits = c.limits.items; origins = c.origins.items; tests = c.tests } };
}

// All that can fail comes first.
fn add_type(
    schema: &mut Schema,
    limits: &mut Vec<Option<Shared<Typed>>>,
    representation: Representation,
    limit: Option<Shared<Typed>>,
) -> Result<(), TypeError>
    ensures schema { OnOk result (type_added schema.old representation ≡ Some schema.new) }
    ensures limits { OnOk result (limits.new.items ≡ limits.old.items ++ limit ∷ []) }
    ensures ill_typed { result ≡ Err type_error.IllTyped → type_added schema.old representation ≡ None }
    ensures same_schema { OnErr result (schema.new ≡ schema.old) }
    ensures same_limits { OnErr result (limits.new.items ≡ limits.old.items) }
{
    limits.reserve(1)?;
    match schema.add_type(representation) {
        Ok(()) => {}
        Err(error) => return Err(error),
    }
    limits.push(limit).unwrap();
    Ok(())
}

// The tests that the relvar of this place has each of its keys, in their order.
fn key_tests(alloc: Global, place: usize, keys: &[Items<Name>]) -> Result<Vec<Test>, AllocError>
    ensures { IfOk result (λ v. v.items ≡ map (test.Key place) keys.now) }
{
    let mut tests = Vec::with_capacity(alloc, keys.len())?;
    for key in keys {
        tests.push(Test::Key(place, copies(alloc, key.as_slice())?))?;
    }
    Ok(tests)
}

impl Definitions {
    /// No definitions.
    pub fn new(alloc: Global) -> Definitions
        ensures { result ≡ spec.nothing_defined }
    {
        Definitions {
            schema: Schema::new(alloc),
            limits: Vec::new(alloc),
            origins: Vec::new(alloc),
            tests: TestList::new(alloc),
        }
    }

    /// The types and relvars that expressions name.
    pub fn schema(&self) -> &Schema
        ensures { result.now ≡ self.now.schema }
    {
        &self.schema
    }

    /// The CONSTRAINT of each possrep.
    pub fn limits(&self) -> &[Option<Shared<Typed>>]
        ensures { result.now ≡ self.now.limits }
    {
        &self.limits
    }

    /// Where the value of each relvar comes from.
    pub fn origins(&self) -> &[Origin]
        ensures { result.now ≡ self.now.origins }
    {
        &self.origins
    }

    /// What must be true after each statement, in the order of the script.
    pub fn tests(&self) -> &[Test]
        ensures { result.now ≡ self.now.tests }
    {
        self.tests.as_slice()
    }

    // Adds a relvar with its heading, its origin and the tests of its keys; ill typed where there is a relvar of its
    // name.
    fn put_relvar(
        &mut self,
        name: Name,
        heading: Heading,
        origin: Origin,
        keys: Vec<Test>,
    ) -> Result<(), TypeError>
        requires { constraint_names keys.items ≡ [] }
        ensures { Changes self.old (after.relvar_after self.old name heading origin keys.items) result self.new }
    {
        match self.tests.add_relvar(
            &mut self.schema,
            &mut self.origins,
            name,
            heading,
            origin,
            keys,
        ) {
            Ok(()) => {}
            Err(error) => return Err(error),
        }
        Ok(())
    }

    // Defines a base relvar, with a test for each of its keys.
    #[tactic(auto, unfolding(crate::specs::ForProofs::After::base_after))]
    fn define_base(
        &mut self,
        alloc: Global,
        name: &Name,
        opening: &Opening,
        keys: &[Attributes],
    ) -> Result<(), TypeError>
        ensures { Changes self.old (after.base_after self.old name.now opening.now keys.now) result self.new }
    {
        let (heading, init) = type_opening(alloc, &self.schema, opening)?;
        let keys = keys_of(alloc, &heading, keys)?;
        let place = self.origins.as_slice().len();
        let tests = key_tests(alloc, place, keys.as_slice())?;
        let name = name.copy()?;
        self.put_relvar(name, heading, Origin::Base(keys, init), tests)
    }

    // Defines a virtual relvar, whose heading is that of its expression; it has no keys.
    #[tactic(auto, unfolding(crate::specs::ForProofs::After::virtual_after))]
    fn define_virtual(&mut self, alloc: Global, name: &Name, expr: &Expr) -> Result<(), TypeError>
        ensures { Changes self.old (after.virtual_after self.old name.now expr.now) result self.new }
    {
        let (tree, heading) = value(alloc, &self.schema, expr)?;
        let name = name.copy()?;
        self.put_relvar(name, heading, Origin::Virtual(tree), Vec::new(alloc))
    }

    // Defines a constraint, whose expression is a truth value over the relvars defined before.
    #[tactic(auto, unfolding(crate::specs::ForProofs::After::constraint_after))]
    fn define_constraint(
        &mut self,
        alloc: Global,
        name: &Name,
        expr: &Expr,
    ) -> Result<(), TypeError>
        ensures { Changes self.old (after.constraint_after self.old name.now expr.now) result self.new }
    {
        let tree = condition(alloc, &self.schema, expr)?;
        let name = name.copy()?;
        self.put_constraint(name, tree)
    }

    // Adds the typed condition of a constraint to the tests, under its name.
    fn put_constraint(&mut self, name: Name, tree: Shared<Typed>) -> Result<(), TypeError>
        ensures { Changes self.old (after.named_after self.old name tree) result self.new }
    {
        match self.tests.add_constraint(name, tree) {
            Ok(()) => {}
            Err(error) => return Err(error),
        }
        Ok(())
    }

    // Defines a type: its components, its possrep, and the constraint on them if it has one.
    #[tactic(auto, unfolding(crate::specs::ForProofs::After::type_after))]
    fn define_type(
        &mut self,
        alloc: Global,
        ty: &Name,
        possrep: &Name,
        components: &[Named<TypeExpr>],
        limit: &Option<Boxed<Expr>>,
    ) -> Result<(), TypeError>
        ensures { Changes self.old (after.type_after self.old ty.now possrep.now components.now limit.now) result self.new }
    {
        let components = components_written(alloc, &self.schema, components)?;
        let limit = limits(alloc, &self.schema, components.as_slice(), limit)?;
        let possrep = Possrep::new(alloc, ty.copy()?, possrep.copy()?)?;
        let representation = Representation {
            possrep,
            components,
        };
        self.put_type(representation, limit)
    }

    // Adds a type to the schema, and its constraint to the limits.
    fn put_type(
        &mut self,
        representation: Representation,
        limit: Option<Shared<Typed>>,
    ) -> Result<(), TypeError>
        ensures { Changes self.old (after.possrep_after self.old representation limit) result self.new }
    {
        match add_type(&mut self.schema, &mut self.limits, representation, limit) {
            Ok(()) => {}
            Err(error) => return Err(error),
        }
        Ok(())
    }

    /// Adds a definition behind the others, where it is well typed after them; a refusal changes nothing.
    pub fn define(&mut self, alloc: Global, definition: &Definition) -> Result<(), TypeError>
        ensures { Changes self.old (after.after self.old definition.now) result self.new }
    {
        match definition {
            Definition::Type(name, None, components, limit) => {
                self.define_type(alloc, name, name, components.as_slice(), limit)
            }
            Definition::Type(name, Some(possrep), components, limit) => {
                self.define_type(alloc, name, possrep, components.as_slice(), limit)
            }
            Definition::Base(name, opening, keys) => {
                self.define_base(alloc, name, opening, keys.as_slice())
            }
            Definition::Virtual(name, expr) => self.define_virtual(alloc, name, expr.get()),
            Definition::Constraint(name, expr) => self.define_constraint(alloc, name, expr.get()),
        }
    }
}
