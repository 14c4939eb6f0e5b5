//! Tests, and among them constraints by their names.

ghost use Rattle.std.specs.List.{list_any};
ghost use Rattle.std.specs.Ordering.{eq_by_cmp};
ghost use Rattle.std.specs.Prelude.{◌≡◌, ◌++◌, ◌∷◌, [], false, true, Err, None, Some, OnErr, OnOk};
ghost use Rattle.indexmap.specs.IndexSet.{contains};
ghost use Rattle.td_schema.specs.ForProofs.Additions.{relvar_added};
ghost use Rattle.td_schema.specs.declared.error.TypeError.TheVariants as type_error;
ghost use Rattle.td_values.specs.Order.{text_cmp};
ghost use Rattle.td_headings.specs.Definitions.{is_constraint};
ghost use Rattle.td_headings.specs.ForProofs.TestNames.{constraint_names};
ghost use Rattle.td_headings.specs.declared.defined.Test.TheVariants as test;

use crate::defined::{Origin, Test};
use indexmap::IndexSet;
use std::alloc::{AllocError, Global};
use std::marker::Model;
use td_schema::error::TypeError;
use td_schema::schema::Schema;
use td_tuples::Shared;
use td_typed_trees::tree::Typed;
use td_values::{Heading, Name};

/// What must be true after each statement, in the order of the script. A constraint is found by a hash of its name.
#[derive(Drop)]
pub(crate) struct TestList {
    tests: Vec<Test>,
    names: IndexSet<Name>,
}

impl Model for TestList {
    ghost use Rattle.std.specs.Prelude.{◌≡◌, List};
    ghost use Rattle.td_headings.specs.ForProofs.Codes.{tests_code};
    ghost use Rattle.td_headings.specs.ForProofs.TestNames.{constraint_names};
    ghost use Rattle.td_headings.specs.declared.defined.Test.{Test};

    ghost Value = { List Test };

    ghost coded = { tests_code };

    ghost view = { λ l. l.tests.items };

    ghost invariant = { λ l. l.names.keys ≡ constraint_names l.tests.items };
}

// All that can fail comes first.
fn put_relvar(
    schema: &mut Schema,
    origins: &mut Vec<Origin>,
    tests: &mut Vec<Test>,
    name: Name,
    heading: Heading,
    origin: Origin,
    keys: Vec<Test>,
) -> Result<(), TypeError>
    ensures schema { OnOk result (relvar_added schema.old name heading ≡ Some schema.new) }
    ensures origins { OnOk result (origins.new.items ≡ origins.old.items ++ origin ∷ []) }
    ensures tests { OnOk result (tests.new.items ≡ tests.old.items ++ keys.items) }
    ensures ill_typed { result ≡ Err type_error.IllTyped → relvar_added schema.old name heading ≡ None }
    ensures same_schema { OnErr result (schema.new ≡ schema.old) }
    ensures same_origins { OnErr result (origins.new.items ≡ origins.old.items) }
    ensures same_tests { OnErr result (tests.new.items ≡ tests.old.items) }
{
    let mut keys = keys;
    origins.reserve(1)?;
    tests.reserve(keys.len())?;
    match schema.add_relvar(name, heading) {
        Ok(()) => {}
        Err(error) => return Err(error),
    }
    origins.push(origin).unwrap();
    tests.append(&mut keys).unwrap();
    Ok(())
}

// All that can fail comes first.
fn put_constraint(
    tests: &mut Vec<Test>,
    names: &mut IndexSet<Name>,
    name: Name,
    tree: Shared<Typed>,
) -> Result<(), AllocError>
    requires { contains (eq_by_cmp text_cmp) names.old name ≡ false }
    ensures tests { OnOk result (tests.new.items ≡ tests.old.items ++ test.Constraint name tree ∷ []) }
    ensures names { OnOk result (names.new.keys ≡ names.old.keys ++ name ∷ []) }
    ensures same_tests { OnErr result (tests.new.items ≡ tests.old.items) }
    ensures same_names { OnErr result (names.new.keys ≡ names.old.keys) }
{
    tests.reserve(1)?;
    names.reserve(1)?;
    let copy = name.copy()?;
    names.insert(copy).unwrap();
    tests.push(Test::Constraint(name, tree)).unwrap();
    Ok(())
}

impl TestList {
    /// No tests.
    pub(crate) fn new(alloc: Global) -> TestList
        ensures { result ≡ [] }
    {
        TestList {
            tests: Vec::new(alloc),
            names: IndexSet::new(alloc),
        }
    }

    /// The tests, in order.
    pub(crate) fn as_slice(&self) -> &[Test]
        ensures { result.now ≡ self.now }
    {
        &self.tests
    }

    // Whether one of the tests is the constraint of this name.
    fn has_constraint(&self, name: &Name) -> bool
        ensures { result ≡ list_any (is_constraint name.now) self.now }
    {
        self.names.contains(name)
    }

    /// Adds a relvar to the schema, where it came from, and its keys' tests behind the others, or nothing of these. It
    /// is refused where there is a relvar of its name.
    pub(crate) fn add_relvar(
        &mut self,
        schema: &mut Schema,
        origins: &mut Vec<Origin>,
        name: Name,
        heading: Heading,
        origin: Origin,
        keys: Vec<Test>,
    ) -> Result<(), TypeError>
        requires { constraint_names keys.items ≡ [] }
        ensures schema { OnOk result (relvar_added schema.old name heading ≡ Some schema.new) }
        ensures origins { OnOk result (origins.new.items ≡ origins.old.items ++ origin ∷ []) }
        ensures tests { OnOk result (self.new ≡ self.old ++ keys.items) }
        ensures ill_typed { result ≡ Err type_error.IllTyped → relvar_added schema.old name heading ≡ None }
        ensures same_schema { OnErr result (schema.new ≡ schema.old) }
        ensures same_origins { OnErr result (origins.new.items ≡ origins.old.items) }
        ensures same_tests { OnErr result (self.new ≡ self.old) }
    {
        match put_relvar(
            schema,
            origins,
            &mut self.tests,
            name,
            heading,
            origin,
            keys,
        ) {
            Ok(()) => {}
            Err(error) => return Err(error),
        }
        Ok(())
    }

    /// Adds a constraint behind the other tests. It is refused where there is one of its name.
    pub(crate) fn add_constraint(
        &mut self,
        name: Name,
        tree: Shared<Typed>,
    ) -> Result<(), TypeError>
        ensures ok { OnOk result (self.new ≡ self.old ++ test.Constraint name tree ∷ []) }
        ensures new { OnOk result (list_any (is_constraint name) self.old ≡ false) }
        ensures ill_typed { result ≡ Err type_error.IllTyped → list_any (is_constraint name) self.old ≡ true }
        ensures err { OnErr result (self.new ≡ self.old) }
    {
        if self.has_constraint(&name) {
            return Err(TypeError::IllTyped);
        }
        match put_constraint(&mut self.tests, &mut self.names, name, tree) {
            Ok(()) => {}
            Err(_) => return Err(TypeError::OutOfMemory),
        }
        Ok(())
    }
}
