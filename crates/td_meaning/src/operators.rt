//! Operators and their operands.

ghost use Rattle.std.specs.Prelude.{◌≡◌, ◌<◌, IfSome};
ghost use Rattle.td_algebra.specs.Raising.{Answers};
ghost use Rattle.td_meaning.specs.ForProofs.Levels.{levels};
ghost use Rattle.td_meaning.specs.Mean as spec;
ghost use Rattle.td_meaning.specs.Mean.{Names};
ghost use Rattle.td_syntax.specs.declared.tree.BinaryOperator.TheVariants as binary;
ghost use Rattle.td_operators.specs.Operators as operators;
ghost use Rattle.td_meaning.specs.Seen.{mean_in, names_bound};

use crate::evaluator::Evaluator;
use crate::scope::Bindings;
use crate::wanting::Wanted;
use td_algebra::{Fault, Stop};
use td_operators::{
    attribute_at, component_at, has_parts, is_within_part, nest, operate, operate_on, part_at,
    truth_value, unnest, with_new_names,
};
use td_syntax::tree::{BinaryOperator, Nesting, UnaryOperator};
use td_typed_trees::tree::Typed;
use td_values::{Name, Value};

/// The part at some names of what another expression means, which need not be made.
#[derive(Clone, Copy)]
struct PartOf<'t> {
    whole: &'t Typed,
    names: &'t [Name],
}

impl<W: Wanted> Evaluator<'_, W> {
    /// The value of a unary operator. COUNT does not always evaluate its operand to a value; all others do.
    #[cycle(evaluation)]
    #[tactic(auto, unfolding(crate::specs::Mean::mean_by))]
    pub(crate) fn unary(
        &self,
        operator: UnaryOperator,
        a: &Typed,
        scope: &Bindings,
    ) -> Result<Value, Fault<W>>
        ensures { Answers result (spec.mean_by (operators.operate_on operator) (mean_in self.now.env.now a.now) (names_bound scope.now)) }
    {
        match operator {
            UnaryOperator::Count => self.count(a, scope),
            _ => operate_on(self.alloc, operator, self.operand(a, &*scope)?),
        }
    }

    /// The component at the place, from 0, of the value of an expression; it is untyped where that has no such
    /// component.
    #[cycle(evaluation)]
    #[tactic(auto, unfolding(crate::specs::Mean::mean_by))]
    pub(crate) fn component(
        &self,
        at: usize,
        a: &Typed,
        scope: &Bindings,
    ) -> Result<Value, Fault<W>>
        ensures { Answers result (spec.mean_by (operators.component_at at) (mean_in self.now.env.now a.now) (names_bound scope.now)) }
    {
        let a = self.operand(a, &*scope)?;
        component_at(self.alloc, at, &a)
    }

    /// The attribute of the tuple that the expression means; it is untyped where that is no tuple or lacks the name.
    #[cycle(evaluation)]
    #[tactic(auto, unfolding(crate::specs::Mean::mean_by))]
    pub(crate) fn attribute(
        &self,
        name: &Name,
        a: &Typed,
        scope: &Bindings,
    ) -> Result<Value, Fault<W>>
        ensures { Answers result (spec.mean_by (operators.attribute_at name.now) (mean_in self.now.env.now a.now) (names_bound scope.now)) }
    {
        let a = self.operand(a, &*scope)?;
        attribute_at(self.alloc, name, &a)
    }

    /// The part at these names of the tuple or relation that the expression means; any other value is untyped.
    #[cycle(evaluation)]
    #[tactic(auto, unfolding(crate::specs::Mean::mean_by))]
    pub(crate) fn projection(
        &self,
        a: &Typed,
        names: &[Name],
        scope: &Bindings,
    ) -> Result<Value, Fault<W>>
        ensures { Answers result (spec.mean_by (operators.part_at names.now) (mean_in self.now.env.now a.now) (names_bound scope.now)) }
    {
        part_at(self.alloc, names, self.operand(a, &*scope)?)
    }

    /// The value of RENAME: each item is an old name with its new one. It is untyped where the operand is no relation.
    #[cycle(evaluation)]
    #[tactic(auto, unfolding(crate::specs::Mean::mean_by))]
    pub(crate) fn renaming(
        &self,
        a: &Typed,
        items: &[(Name, Name)],
        scope: &Bindings,
    ) -> Result<Value, Fault<W>>
        ensures { Answers result (spec.mean_by (operators.with_new_names items.now) (mean_in self.now.env.now a.now) (names_bound scope.now)) }
    {
        with_new_names(self.alloc, items, self.operand(a, &*scope)?)
    }

    /// The value of GROUP or WRAP: the attributes at these names become one attribute of the new name. It is untyped
    /// where the operand is no relation.
    #[cycle(evaluation)]
    #[tactic(auto, unfolding(crate::specs::Mean::mean_by))]
    pub(crate) fn nesting(
        &self,
        nesting: Nesting,
        a: &Typed,
        names: &[Name],
        name: &Name,
        scope: &Bindings,
    ) -> Result<Value, Fault<W>>
        ensures { Answers result (spec.mean_by (operators.nested nesting names.now name.now) (mean_in self.now.env.now a.now) (names_bound scope.now)) }
    {
        nest(self.alloc, nesting, names, name, self.operand(a, &*scope)?)
    }

    /// The value of UNGROUP or UNWRAP of the attribute of this name. It is untyped where the operand is no relation, or
    /// the attribute is not relation-valued for UNGROUP or not tuple-valued for UNWRAP.
    #[cycle(evaluation)]
    #[tactic(auto, unfolding(crate::specs::Mean::mean_by))]
    pub(crate) fn unnesting(
        &self,
        nesting: Nesting,
        a: &Typed,
        name: &Name,
        scope: &Bindings,
    ) -> Result<Value, Fault<W>>
        ensures { Answers result (spec.mean_by (operators.unnested nesting name.now) (mean_in self.now.env.now a.now) (names_bound scope.now)) }
    {
        unnest(self.alloc, nesting, name, self.operand(a, &*scope)?)
    }

    // The value of AND: evaluates the second operand only where the first is true. An operand that is no truth value is
    // untyped.
    #[cycle(evaluation)]
    #[tactic(auto, unfolding(crate::specs::Mean::mean_and))]
    fn both(&self, a: &Typed, b: &Typed, scope: &Bindings) -> Result<Value, Fault<W>>
        ensures { Answers result (spec.mean_and (mean_in self.now.env.now a.now) (mean_in self.now.env.now b.now) (names_bound scope.now)) }
    {
        if self.truth(a, scope)? {
            let second = self.truth(b, scope)?;
            Ok(truth_value(second))
        } else {
            Ok(truth_value(false))
        }
    }

    // The value of OR: evaluates the second operand only where the first is false. An operand that is no truth value is
    // untyped.
    #[cycle(evaluation)]
    #[tactic(auto, unfolding(crate::specs::Mean::mean_or))]
    fn either(&self, a: &Typed, b: &Typed, scope: &Bindings) -> Result<Value, Fault<W>>
        ensures { Answers result (spec.mean_or (mean_in self.now.env.now a.now) (mean_in self.now.env.now b.now) (names_bound scope.now)) }
    {
        if self.truth(a, scope)? {
            Ok(truth_value(true))
        } else {
            let second = self.truth(b, scope)?;
            Ok(truth_value(second))
        }
    }

    // The value of an operator that takes the values of both operands: evaluates them in written order, and the first
    // error stands.
    #[cycle(evaluation)]
    #[tactic(auto, unfolding(crate::specs::Mean::mean_both))]
    fn two(
        &self,
        operator: BinaryOperator,
        a: &Typed,
        b: &Typed,
        scope: &Bindings,
    ) -> Result<Value, Fault<W>>
        ensures { Answers result (spec.mean_both operator (mean_in self.now.env.now a.now) (mean_in self.now.env.now b.now) (names_bound scope.now)) }
    {
        let u = self.operand(a, &*scope)?;
        let v = self.operand(b, &*scope)?;
        operate(self.alloc, operator, u, v)
    }

    // The part that the expression is of another one, if it is to be made yet.
    fn part_of<'t>(&self, tree: &'t Typed) -> Option<PartOf<'t>>
        ensures means { IfSome result (λ p. (names : Names) → mean_in self.now.env.now tree.now names ≡ spec.mean_by (operators.part_at p.names.now) (mean_in self.now.env.now p.whole.now) names) }
        ensures lower { IfSome result (λ p. levels p.whole.now < levels tree.now) }
    {
        match tree {
            Typed::Project(a, names) => match self.known(tree) {
                Some(_) => None,
                None => Some(PartOf {
                    whole: a.get(),
                    names: names.as_slice(),
                }),
            },
            _ => None,
        }
    }

    // Whether the first relation is within the whole's part at these names. Both expressions are evaluated in written
    // order, and no part is made where both are relations.
    #[cycle(evaluation)]
    #[tactic(auto, unfolding(crate::specs::Mean::mean_both, crate::specs::Mean::mean_by))]
    fn within_part(
        &self,
        a: &Typed,
        whole: &Typed,
        names: &[Name],
        scope: &Bindings,
    ) -> Result<Value, Fault<W>>
        ensures { Answers result (spec.mean_both binary.AtMost (mean_in self.now.env.now a.now) (spec.mean_by (operators.part_at names.now) (mean_in self.now.env.now whole.now)) (names_bound scope.now)) }
    {
        let inner = self.operand(a, &*scope)?;
        let around = self.operand(whole, &*scope)?;
        is_within_part(self.alloc, inner, names, around)
    }

    // Whether the whole's part at these names is around the second relation. The whole is evaluated first, and must be
    // a tuple or a relation, so its errors stand before those of the second expression.
    #[cycle(evaluation)]
    #[tactic(auto, unfolding(crate::specs::Mean::mean_both, crate::specs::Mean::mean_by))]
    fn around_part(
        &self,
        whole: &Typed,
        names: &[Name],
        b: &Typed,
        scope: &Bindings,
    ) -> Result<Value, Fault<W>>
        ensures { Answers result (spec.mean_both binary.AtLeast (spec.mean_by (operators.part_at names.now) (mean_in self.now.env.now whole.now)) (mean_in self.now.env.now b.now) (names_bound scope.now)) }
    {
        let around = self.operand(whole, &*scope)?;
        if !has_parts(&around) {
            return Err(Fault::Raised(Stop::Untyped));
        }
        let inner = self.operand(b, &*scope)?;
        is_within_part(self.alloc, inner, names, around)
    }

    // The value of `<=`. Where its second operand is a projection that is not known, its whole is evaluated in its
    // place.
    #[cycle(evaluation)]
    fn at_most(&self, a: &Typed, b: &Typed, scope: &Bindings) -> Result<Value, Fault<W>>
        ensures { Answers result (spec.mean_both binary.AtMost (mean_in self.now.env.now a.now) (mean_in self.now.env.now b.now) (names_bound scope.now)) }
    {
        match self.part_of(b) {
            Some(part) => self.within_part(a, part.whole, part.names, scope),
            None => self.two(BinaryOperator::AtMost, a, b, scope),
        }
    }

    // The value of `>=`. Where its first operand is a projection that is not known, its whole is evaluated in its
    // place.
    #[cycle(evaluation)]
    fn at_least(&self, a: &Typed, b: &Typed, scope: &Bindings) -> Result<Value, Fault<W>>
        ensures { Answers result (spec.mean_both binary.AtLeast (mean_in self.now.env.now a.now) (mean_in self.now.env.now b.now) (names_bound scope.now)) }
    {
        match self.part_of(a) {
            Some(part) => self.around_part(part.whole, part.names, b, scope),
            None => self.two(BinaryOperator::AtLeast, a, b, scope),
        }
    }

    /// The value of a binary operator. The first operand is evaluated first, and the second is not where AND or OR is
    /// decided by the first or where the first raises an error.
    #[cycle(evaluation)]
    pub(crate) fn binary(
        &self,
        operator: BinaryOperator,
        a: &Typed,
        b: &Typed,
        scope: &Bindings,
    ) -> Result<Value, Fault<W>>
        ensures { Answers result (spec.mean_binary operator (mean_in self.now.env.now a.now) (mean_in self.now.env.now b.now) (names_bound scope.now)) }
    {
        match operator {
            BinaryOperator::And => self.both(a, b, scope),
            BinaryOperator::Or => self.either(a, b, scope),
            BinaryOperator::AtMost => self.at_most(a, b, scope),
            BinaryOperator::AtLeast => self.at_least(a, b, scope),
            _ => self.two(operator, a, b, scope),
        }
    }

    /// The value of IF: evaluates the condition and then one branch alone. A condition that is no truth value is
    /// untyped.
    #[cycle(evaluation)]
    #[tactic(auto, unfolding(crate::specs::Mean::mean_if))]
    pub(crate) fn choice(
        &self,
        c: &Typed,
        a: &Typed,
        b: &Typed,
        scope: &Bindings,
    ) -> Result<Value, Fault<W>>
        ensures { Answers result (spec.mean_if (mean_in self.now.env.now c.now) (mean_in self.now.env.now a.now) (mean_in self.now.env.now b.now) (names_bound scope.now)) }
    {
        if self.truth(c, scope)? {
            self.evaluate(a, scope)
        } else {
            self.evaluate(b, scope)
        }
    }
}
