//! The base relvars of a site, in the order of the script.

use crate::insertions::{Action, BETWEEN, deletion, tuple_text};
use std::alloc::{AllocError, AllocFailed, Global};
use td_headings::Origin;
use td_replica::{Catalogued, MOST_BYTES, Replica, ValueError};
use td_semantics::Answer;
use td_values::{Name, Tuple};

/// The most tuples of one statement: one that is refused tells of few.
const MOST_TUPLES: usize = 200;

/// A statement that gives a base relvar some of its tuples, or all base relvars all of theirs.
#[derive(Drop)]
pub struct DumpStatement {
    pub text: String,
    /// The relvar, where it is one alone.
    pub relvar: Option<Name>,
}

/// What the base relvars of a site have, as statements.
#[derive(Drop)]
pub struct Tables {
    pub insertions: Vec<DumpStatement>,
    pub relvars: usize,
    pub tuples: usize,
}

/// Why that is not known.
#[derive(Clone, Copy, Debug)]
pub enum Untold {
    OutOfMemory,
    /// The site's journal failed.
    Broken,
    /// A tuple has more bytes than a statement may have.
    TooLong {
        /// The place in the script of its relvar.
        relvar: usize,
    },
}

impl From<AllocError> for Untold {
    fn from(_e: AllocError) -> Untold {
        Untold::OutOfMemory
    }
}

impl<T: Drop> From<AllocFailed<T>> for Untold {
    fn from(_e: AllocFailed<T>) -> Untold {
        Untold::OutOfMemory
    }
}

// The actions that give one relvar its tuples.
#[derive(Drop)]
struct Actions {
    relvar: Name,
    texts: Vec<String>,
}

// Adds the action, with its end, unless it inserts no tuples.
fn push_action(actions: &mut Vec<String>, action: Action) -> Result<(), AllocError> {
    if action.count > 0 {
        actions.push(action.end()?)?;
    }
    Ok(())
}

// A base relvar: its place in the script, its name, and whether the script has it hold something at first.
#[derive(Clone, Copy)]
struct BaseRelvar<'a> {
    place: usize,
    name: &'a Name,
    has_opening: bool,
}

// Adds the actions that insert these tuples, each as many as have room in a statement.
fn push_insertions(
    alloc: Global,
    relvar: BaseRelvar<'_>,
    tuples: &[Tuple],
    actions: &mut Vec<String>,
) -> Result<(), Untold> {
    let mut action = Action::new(alloc, relvar.name)?;
    for tuple in tuples {
        let text = tuple_text(alloc, tuple)?;
        if action.count >= MOST_TUPLES || action.bytes_with(&text) >= MOST_BYTES {
            push_action(actions, action)?;
            action = Action::new(alloc, relvar.name)?;
        }
        if action.bytes_with(&text) >= MOST_BYTES {
            return Err(Untold::TooLong {
                relvar: relvar.place,
            });
        }
        action.push(&text)?;
    }
    push_action(actions, action)?;
    Ok(())
}

// Adds the actions that give a base relvar these tuples. What the script has it hold at first is deleted before.
fn push_actions(
    alloc: Global,
    relvar: BaseRelvar<'_>,
    tuples: &[Tuple],
    actions: &mut Vec<String>,
) -> Result<(), Untold> {
    if relvar.has_opening {
        actions.push(deletion(alloc, relvar.name)?)?;
    }
    push_insertions(alloc, relvar, tuples, actions)
}

// The actions that give a base relvar these tuples.
fn actions_for(alloc: Global, relvar: BaseRelvar<'_>, tuples: &[Tuple]) -> Result<Actions, Untold> {
    let mut actions = Actions {
        relvar: relvar.name.copy()?,
        texts: Vec::new(alloc),
    };
    match push_actions(alloc, relvar, tuples, &mut actions.texts) {
        Ok(()) => Ok(actions),
        Err(error) => Err(error),
    }
}

// The actions for a base relvar, whose tuples are counted.
fn actions_of<R: Replica>(
    alloc: Global,
    site: &R,
    relvar: BaseRelvar<'_>,
    count: &mut usize,
) -> Result<Actions, Untold> {
    match site.value_of(alloc, relvar.name) {
        Ok(Answer::Value(relation)) => {
            *count = count.saturating_add(relation.tuples().len());
            actions_for(alloc, relvar, relation.tuples())
        }
        Ok(Answer::Raised(_)) | Err(ValueError::Broken | ValueError::Unknown) => {
            Err(Untold::Broken)
        }
        Err(ValueError::OutOfMemory) => Err(Untold::OutOfMemory),
    }
}

// How many bytes one statement of all actions has.
fn bytes_of(all: &[Actions]) -> usize {
    let mut bytes: usize = 1;
    for actions in all {
        for text in &actions.texts {
            bytes = bytes
                .saturating_add(text.len())
                .saturating_add(BETWEEN.len());
        }
    }
    bytes
}

// One statement of all actions: what the relvars have together breaks no constraint.
fn together(alloc: Global, all: &[Actions]) -> Result<DumpStatement, AllocError> {
    let mut text = String::new(alloc);
    for actions in all {
        for action in &actions.texts {
            if !text.is_empty() {
                text.push_str(BETWEEN)?;
            }
            text.push_str(action)?;
        }
    }
    text.push_str(";")?;
    Ok(DumpStatement { text, relvar: None })
}

// A statement for each action.
fn one_by_one(alloc: Global, all: &[Actions]) -> Result<Vec<DumpStatement>, AllocError> {
    let mut insertions = Vec::new(alloc);
    for actions in all {
        for action in &actions.texts {
            insertions.push(DumpStatement {
                text: format!(in alloc; "{action};")?,
                relvar: Some(actions.relvar.copy()?),
            })?;
        }
    }
    Ok(insertions)
}

// The statements of all actions: one where it has room for them, or else one for each; none of no actions.
fn insertions_of(alloc: Global, all: &[Actions]) -> Result<Vec<DumpStatement>, AllocError> {
    if all.iter().all(|actions| actions.texts.is_empty()) {
        return Ok(Vec::new(alloc));
    }
    if bytes_of(all) > MOST_BYTES {
        return one_by_one(alloc, all);
    }
    let mut insertions = Vec::new(alloc);
    insertions.push(together(alloc, all)?)?;
    Ok(insertions)
}

// Adds the actions of each base relvar, in the order of the script, and returns how many tuples they have.
fn push_all<R: Catalogued>(
    alloc: Global,
    site: &R,
    all: &mut Vec<Actions>,
) -> Result<usize, Untold> {
    let catalogue = site.catalogue();
    let mut tuples: usize = 0;
    for place in 0..catalogue.schema().relvar_count() {
        if let (Some((name, _)), Some(Origin::Base(_, opening))) = (
            catalogue.relvar_at(place),
            catalogue.origin(place),
        ) {
            let relvar = BaseRelvar {
                place,
                name,
                has_opening: opening.is_some(),
            };
            all.push(actions_of(alloc, site, relvar, &mut tuples)?)?;
        }
    }
    Ok(tuples)
}

/// What the base relvars of the site have: one statement, if one has room for it, or else statements of 200 tuples of
/// one relvar, or as many as have room, in the order of the script. It costs the length of what it gives.
pub fn tables_of<R: Catalogued>(alloc: Global, site: &R) -> Result<Tables, Untold> {
    let mut all = Vec::new(alloc);
    let tuples = push_all(alloc, site, &mut all)?;
    Ok(Tables {
        insertions: insertions_of(alloc, &all)?,
        relvars: all.len(),
        tuples,
    })
}
