//! Links between places, and the places that a walk along them reaches.
//!
//! Begin with `reached`, the places that a walk along links comes to.
//!
//! ```
//! let mut graph = Graph::new(alloc, 3)?;
//! graph.add(0, 1)?;
//! graph.add(1, 0)?;
//! let places = reached(alloc, &graph, &[1])?;
//! ```
//!
//! Costs: `reached` takes a mark for each place, and for each place that is reached a look at where it leads.
//! `reached_by` is lent the marks, so a place that is not reached costs it nothing.
//!
//! Definitions to trust, in `specs/`: Links.
//!
//! td_graph knows places and links alone; what a relvar leads to is its user's matter.
#![tactic(auto)]

ghost use Rattle.std.specs.Prelude.{◌≡◌, ◌↔◌, ◌<◌, ◌++◌, ℕ, List, [], ◌∷◌, false, length, slice_index_or, replicate, vec_len, IfOk, OnOk};
ghost use Rattle.std.specs.List.{Contains};
ghost use Rattle.td_graph.specs.ForProofs.{IsMarked, Visits};
ghost use Rattle.td_graph.specs.Links.{ReachedFrom, with_link};

use std::alloc::{AllocError, Global};
use std::marker::Model;

/// Links between places, which are counted from 0: a directed graph.
pub trait Leads {
    ghost links: { Self → List (List ℕ) };

    /// How many places there are.
    fn places(&self) -> usize
        ensures { result ≡ length (links self.now) };

    /// Adds the places to which this one leads.
    fn add_next(&self, place: usize, next: &mut Vec<usize>) -> Result<(), AllocError>
        ensures { OnOk result (next.new.items ≡ next.old.items ++ slice_index_or (links self.now) place []) };
}

/// To which places each place leads in a step. Places are counted from 0.
#[derive(Drop)]
pub struct Graph {
    next: Vec<Vec<usize>>,
}

impl Model for Graph {
    ghost use Rattle.std.specs.Prelude.{List, ℕ, map};

    ghost Value = { List (List ℕ) };

    ghost view = { λ a. map (λ v. v.items) a.next.items };
}

impl Graph {
    /// So many places, which lead to none.
    pub fn new(alloc: Global, places: usize) -> Result<Graph, AllocError>
        ensures { IfOk result (λ l. l ≡ replicate places []) }
    {
        let mut next = Vec::with_capacity(alloc, places)?;
        for _place in 0..places {
            next.push(Vec::new(alloc))?;
        }
        Ok(Graph { next })
    }

    /// Lets the one place lead to the other.
    pub fn add(&mut self, from: usize, to: usize) -> Result<(), AllocError>
        requires { from < length self.old }
        ensures { OnOk result (self.new ≡ with_link self.old from to) }
    {
        self.next[from].push(to)?;
        Ok(())
    }
}

impl Leads for Graph {
    ghost links = { λ l. l };

    fn places(&self) -> usize {
        self.next.len()
    }

    fn add_next(&self, place: usize, next: &mut Vec<usize>) -> Result<(), AllocError> {
        if place < self.next.len() {
            next.extend_from_slice(&self.next[place])?;
        }
        Ok(())
    }
}

// Adds the place and marks it, unless it is marked or none.
fn visit(places: &mut Vec<usize>, marks: &mut Vec<bool>, place: usize) -> Result<(), AllocError>
    requires marked { IsMarked marks.old.items places.old.items }
    ensures marked { OnOk result (IsMarked marks.new.items places.new.items) }
    ensures len { vec_len marks.new ≡ vec_len marks.old }
    ensures visits { OnOk result (Visits (vec_len marks.old) places.old.items (place ∷ []) places.new.items) }
{
    if place >= marks.len() || marks[place] {
        return Ok(());
    }
    places.push(place)?;
    marks[place] = true;
    Ok(())
}

// Adds these places and marks them, but for those that are marked or none.
fn visit_all(
    places: &mut Vec<usize>,
    marks: &mut Vec<bool>,
    more: &[usize],
) -> Result<(), AllocError>
    requires marked { IsMarked marks.old.items places.old.items }
    ensures marked { OnOk result (IsMarked marks.new.items places.new.items) }
    ensures len { vec_len marks.new ≡ vec_len marks.old }
    ensures visits { OnOk result (Visits (vec_len marks.old) places.old.items more.now places.new.items) }
{
    for place in more {
        visit(places, marks, *place)?;
    }
    Ok(())
}

// The places to which this one leads.
fn look<L: Leads>(links: &L, place: usize, next: &mut Vec<usize>) -> Result<(), AllocError>
    ensures { OnOk result (next.new.items ≡ slice_index_or (L.links links.now) place []) }
{
    next.clear();
    links.add_next(place, next)
}

// The walk: what it comes to is marked.
fn walked<L: Leads>(
    alloc: Global,
    links: &L,
    starts: &[usize],
    marks: &mut Vec<bool>,
) -> Result<Vec<usize>, AllocError>
    requires { marks.old.items ≡ replicate (length (L.links links.now)) false }
    ensures reached { IfOk result (λ v. (w : ℕ) → Contains v.items w ↔ ReachedFrom (L.links links.now) starts.now w) }
    ensures marked { IfOk result (λ v. IsMarked marks.new.items v.items) }
    ensures many { length marks.new.items ≡ length marks.old.items }
{
    let mut places = Vec::new(alloc);
    visit_all(&mut places, marks, starts)?;
    let mut next = Vec::new(alloc);
    let mut at = 0;
    while at < places.len() {
        look(links, places[at], &mut next)?;
        visit_all(&mut places, marks, &next)?;
        at += 1;
    }
    Ok(places)
}

// Takes the marks of these places away.
fn unmark(marks: &mut Vec<bool>, places: &[usize])
    requires { IsMarked marks.old.items places.now }
    ensures { marks.new.items ≡ replicate (length marks.old.items) false }
{
    for place in places {
        if *place < marks.as_slice().len() {
            marks[*place] = false;
        }
    }
}

/// A mark for each place, none of them set, to be lent to walks.
pub fn unmarked<L: Leads>(alloc: Global, links: &L) -> Result<Vec<bool>, AllocError>
    ensures { IfOk result (λ v. v.items ≡ replicate (length (L.links links.now)) false) }
{
    let marks = vec![in alloc; false; links.places()]?;
    Ok(marks)
}

/// These places and those that are reached from them, each once, by marks that are lent and are as they were
/// afterwards. A place that is reached costs a look at where it leads, and one that is not costs nothing. Where memory
/// was wanted some marks may be set.
pub fn reached_by<L: Leads>(
    alloc: Global,
    links: &L,
    starts: &[usize],
    marks: &mut Vec<bool>,
) -> Result<Vec<usize>, AllocError>
    requires { marks.old.items ≡ replicate (length (L.links links.now)) false }
    ensures reached { IfOk result (λ v. (w : ℕ) → Contains v.items w ↔ ReachedFrom (L.links links.now) starts.now w) }
    ensures marks { OnOk result (marks.new.items ≡ marks.old.items) }
{
    let places = walked(alloc, links, starts, marks)?;
    unmark(marks, &places);
    Ok(places)
}

/// These places and those that are reached from them, each once. Each place costs a mark, and one that is reached a
/// look at where it leads.
pub fn reached<L: Leads>(
    alloc: Global,
    links: &L,
    starts: &[usize],
) -> Result<Vec<usize>, AllocError>
    ensures { IfOk result (λ v. (w : ℕ) → Contains v.items w ↔ ReachedFrom (L.links links.now) starts.now w) }
{
    let mut marks = unmarked(alloc, links)?;
    let places = reached_by(alloc, links, starts, &mut marks)?;
    Ok(places)
}
