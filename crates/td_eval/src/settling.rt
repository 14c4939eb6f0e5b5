//! What virtual relvars have, found where an expression comes to them.

ghost use Rattle.std.specs.Prelude.{◌≡◌, [], IfOk, Result};
ghost use Rattle.std.specs.List.{Contains};
ghost use Rattle.td_values.specs.Data.{Datum};
ghost use Rattle.td_algebra.specs.Raising.{Answers, and_then};
ghost use Rattle.td_algebra.specs.declared.errors.Stop.{Stop};
ghost use Rattle.td_eval.specs.ForProofs.Environments.{MeanTheirs};
ghost use Rattle.td_meaning.specs.Parts.{AreRight, known_value};
ghost use Rattle.td_operators.specs.Operators.{as_value};
ghost use Rattle.td_operators.specs.Values as spec;

use crate::deciding::{decider, first_unknown, sure};
use crate::forms::is_relvar;
use std::alloc::{AllocError, Global};
use td_algebra::{Fault, Stop};
use td_meaning::{Bindings, Environment, HoistedTerm, KnownValue, keep, put};
use td_relations::Relation;
use td_typed_trees::expression::VirtualUnder;
use td_typed_trees::tree::Typed;
use td_values::{Kind, Value};

/// What is found out about an expression, step by step.
#[derive(Drop)]
pub(crate) struct Findings<'a> {
    /// Expressions whose values are known, those that name virtual relvars among them.
    pub parts: Vec<HoistedTerm<'a>>,
    /// Of each virtual relvar under the expression whether what it has is known.
    pub known: Vec<bool>,
}

impl<'a> Findings<'a> {
    /// Nothing of so many virtual relvars.
    pub(crate) fn new(alloc: Global, virtuals: usize) -> Result<Findings<'a>, AllocError>
        ensures { IfOk result (λ f. f.parts.items ≡ []) }
    {
        let mut known = Vec::with_capacity(alloc, virtuals)?;
        for _ in 0..virtuals {
            known.push(false)?;
        }
        let parts = Vec::new(alloc);
        Ok(Findings { parts, known })
    }
}

/// The virtual relvars under an expression, in order of definition, and the expressions that name them, one each.
#[derive(Clone, Copy)]
pub(crate) struct Virtuals<'a> {
    pub under: &'a [VirtualUnder],
    pub names: &'a [Typed],
}

/// What is to be known before evaluation goes on.
#[derive(Clone, Copy)]
enum Task<'a> {
    /// What a virtual relvar has, by its place among those under the expression.
    Virtual(usize),
    /// The value of a part that decides whether another one is evaluated.
    Decider(&'a Typed),
}

/// A task that was begun.
#[derive(Clone, Copy)]
struct Begun<'a> {
    task: Task<'a>,
    /// Whether what decides within it was a task already.
    is_split: bool,
}

impl<'a> Begun<'a> {
    // The task as it begins: nothing within it was a task before.
    fn of(task: Task<'a>) -> Begun<'a> {
        Begun {
            task,
            is_split: false,
        }
    }

    // What was begun, where this task was begun behind it.
    fn behind(self, task: Task<'a>) -> Begun<'a> {
        match task {
            Task::Virtual(_) => self,
            Task::Decider(_) => Begun {
                task: self.task,
                is_split: true,
            },
        }
    }
}

/// The expressions that name these virtual relvars, one each.
pub(crate) fn names_of(alloc: Global, virtuals: &[VirtualUnder]) -> Result<Vec<Typed>, AllocError> {
    let mut names = Vec::with_capacity(alloc, virtuals.len())?;
    for under in virtuals {
        names.push(Typed::Relvar(under.place))?;
    }
    Ok(names)
}

// The relation that the value is; any other value is an error.
fn held_relation(value: Value) -> Result<KnownValue, Stop>
    ensures { known_value result ≡ and_then (spec.rows_of value) as_value }
{
    match value.kind {
        Kind::Relation(rows) => Ok(KnownValue::Rows(Relation::of(rows))),
        _ => Err(Stop::Untyped),
    }
}

// The relation, or the error that is raised.
fn settled_value<W>(answer: Result<Value, Fault<W>>) -> Result<Result<KnownValue, Stop>, Fault<W>>
    ensures { IfOk result (λ v. (m : Result Datum Stop) → Answers answer m → known_value v ≡ and_then (and_then m spec.rows_of) as_value) }
{
    match answer {
        Ok(value) => Ok(held_relation(value)),
        Err(Fault::Raised(stop)) => Ok(Err(stop)),
        Err(fault) => Err(fault),
    }
}

// Puts what the virtual relvar has, or raises, among the parts, under the expression that names it.
fn keep_virtual<'a>(
    alloc: Global,
    env: &Environment<'_>,
    parts: &mut Vec<HoistedTerm<'a>>,
    name: &'a Typed,
    under: &VirtualUnder,
) -> Result<(), Fault<usize>>
    requires theirs { MeanTheirs env.now }
    requires under { Contains env.now.virtuals.now under.now }
    requires right { AreRight env.now parts.old.items }
    ensures { AreRight env.now parts.new.items }
{
    let value = settled_value(td_meaning::eval(
        alloc,
        env,
        parts,
        under.tree.get(),
        &Bindings::Nothing,
    ))?;
    if is_relvar(name, under.place) {
        put(alloc, parts, name, value)?;
    }
    Ok(())
}

// Puts what the virtual relvar at this place has, or raises, among the parts, under the expression that names it.
fn settle_virtual<'a>(
    alloc: Global,
    env: &Environment<'_>,
    findings: &mut Findings<'a>,
    virtuals: Virtuals<'a>,
    at: usize,
) -> Result<(), Fault<usize>>
    requires theirs { MeanTheirs env.now }
    requires right { AreRight env.now findings.old.parts.items }
    ensures { AreRight env.now findings.new.parts.items }
{
    if at < virtuals.names.len() && at < env.virtuals.len() && at < findings.known.len() {
        let name = &virtuals.names[at];
        keep_virtual(alloc, env, &mut findings.parts, name, &env.virtuals[at])?;
        findings.known[at] = true;
    }
    Ok(())
}

// Does the task: puts the value of its expression, or the error that it raises, among the parts.
fn settle_task<'a>(
    alloc: Global,
    env: &Environment<'_>,
    findings: &mut Findings<'a>,
    virtuals: Virtuals<'a>,
    task: Task<'a>,
) -> Result<(), Fault<usize>>
    requires theirs { MeanTheirs env.now }
    requires right { AreRight env.now findings.old.parts.items }
    ensures { AreRight env.now findings.new.parts.items }
{
    match task {
        Task::Virtual(at) => settle_virtual(alloc, env, findings, virtuals, at),
        Task::Decider(tree) => keep(alloc, env, &mut findings.parts, tree),
    }
}

// The expression that the task is to evaluate.
fn tree_of<'a>(virtuals: Virtuals<'a>, task: Task<'a>) -> Option<&'a Typed> {
    match task {
        Task::Virtual(at) => match virtuals.under.get(at) {
            Some(under) => Some(under.tree.get()),
            None => None,
        },
        Task::Decider(tree) => Some(tree),
    }
}

// What is to be known before the expression is evaluated: a virtual relvar that it surely comes to, or what decides
// whether it comes to another one.
fn before<'a>(
    alloc: Global,
    under: &[VirtualUnder],
    known: &[bool],
    tree: &'a Typed,
    is_split: bool,
) -> Result<Option<Task<'a>>, AllocError> {
    if let Some(at) = sure(under, known, tree) {
        return Ok(Some(Task::Virtual(at)));
    }
    if is_split {
        return Ok(None);
    }
    match decider(alloc, under, known, tree)? {
        Some(first) => Ok(Some(Task::Decider(first))),
        None => Ok(None),
    }
}

// Does the task, or says which one comes before it.
fn step<'a>(
    alloc: Global,
    env: &Environment<'_>,
    findings: &mut Findings<'a>,
    virtuals: Virtuals<'a>,
    begun: Begun<'a>,
) -> Result<Option<Task<'a>>, AllocError>
    requires theirs { MeanTheirs env.now }
    requires right { AreRight env.now findings.old.parts.items }
    ensures { AreRight env.now findings.new.parts.items }
{
    let Some(tree) = tree_of(virtuals, begun.task) else {
        return Ok(None);
    };
    if let Some(task) = before(alloc, virtuals.under, &findings.known, tree, begun.is_split)? {
        return Ok(Some(task));
    }
    match settle_task(alloc, env, findings, virtuals, begun.task) {
        Ok(()) => Ok(None),
        Err(Fault::Wanting(place)) => match first_unknown(virtuals.under, &findings.known, place) {
            Some(at) => Ok(Some(Task::Virtual(at))),
            None => Ok(None),
        },
        Err(_) => Err(AllocError),
    }
}

// Puts a task behind those that were begun, of which the last one is done first.
fn begin<'a>(begun: &mut Vec<Begun<'a>>, next: Begun<'a>) -> Result<(), AllocError> {
    begun.push(next)?;
    Ok(())
}

// Does the task, and before it those that come first.
fn work<'a>(
    alloc: Global,
    env: &Environment<'_>,
    findings: &mut Findings<'a>,
    virtuals: Virtuals<'a>,
    task: Task<'a>,
) -> Result<(), AllocError>
    requires theirs { MeanTheirs env.now }
    requires right { AreRight env.now findings.old.parts.items }
    ensures { AreRight env.now findings.new.parts.items }
{
    let mut begun = Vec::new(alloc);
    begin(&mut begun, Begun::of(task))?;
    for _ in 0..usize::MAX {
        let Some(last) = begun.pop() else {
            break;
        };
        if let Some(task) = step(alloc, env, findings, virtuals, last)? {
            begin(&mut begun, last.behind(task))?;
            begin(&mut begun, Begun::of(task))?;
        }
    }
    Ok(())
}

/// Makes known what the virtual relvar at the place has, and what it comes to.
pub(crate) fn settle<'a>(
    alloc: Global,
    env: &Environment<'_>,
    findings: &mut Findings<'a>,
    virtuals: Virtuals<'a>,
    place: usize,
) -> Result<(), AllocError>
    requires theirs { MeanTheirs env.now }
    requires right { AreRight env.now findings.old.parts.items }
    ensures { AreRight env.now findings.new.parts.items }
{
    match first_unknown(virtuals.under, &findings.known, place) {
        Some(at) => work(alloc, env, findings, virtuals, Task::Virtual(at)),
        None => Ok(()),
    }
}

/// Makes known what the expression surely comes to, and what decides whether it comes to more.
pub(crate) fn settle_first<'a>(
    alloc: Global,
    env: &Environment<'_>,
    findings: &mut Findings<'a>,
    virtuals: Virtuals<'a>,
    tree: &'a Typed,
) -> Result<(), AllocError>
    requires theirs { MeanTheirs env.now }
    requires right { AreRight env.now findings.old.parts.items }
    ensures { AreRight env.now findings.new.parts.items }
{
    for _ in 0..virtuals.names.len() {
        match before(alloc, virtuals.under, &findings.known, tree, false)? {
            Some(Task::Decider(first)) => {
                return work(alloc, env, findings, virtuals, Task::Decider(first));
            }
            Some(task) => work(alloc, env, findings, virtuals, task)?,
            None => break,
        }
    }
    Ok(())
}
