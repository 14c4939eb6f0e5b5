//! Lists with commas.

ghost use Rattle.std.specs.Prelude.{◌≡◌};
ghost use Rattle.td_grammar.specs.ForProofs.Reader as spec;
ghost use Rattle.td_grammar.specs.ForProofs.Reader.{Reader};
ghost use Rattle.td_grammar.specs.ForProofs.Readings.{Follows, Gives};
ghost use Rattle.td_tokens.specs.declared.token.Word.TheVariants as w;

use crate::cursor::Cursor;
use crate::error::ReadError;
use sqlite_items::Items;
use std::alloc::Global;
use td_syntax::tree::{Attributes, Renaming};
use td_tokens::token::Word;
use td_values::Name;

/// One or more items, with commas between.
pub fn list<T: Drop, I: Fn(&mut Cursor<'_>) -> Result<T, ReadError> + Drop>(
    alloc: Global,
    tokens: &mut Cursor<'_>,
    item: I,
) -> Result<Items<T>, ReadError>
    requires { I.IsAlwaysCallable item }
    ensures { (at : Reader T) → Follows at (I.post item) → Gives (spec.list_at at tokens.old) result tokens.new }
{
    let mut found = Items::new(alloc);
    for _turn in 0..tokens.len() {
        found.push(item(tokens)?)?;
        if !tokens.eat(Word::Comma) {
            return Ok(found);
        }
    }
    Err(ReadError::Syntax)
}

/// A list and the word that closes it.
#[tactic(auto, unfolding(crate::specs::ForProofs::Reader::listed))]
pub fn listed<T: Drop, I: Fn(&mut Cursor<'_>) -> Result<T, ReadError> + Drop>(
    alloc: Global,
    tokens: &mut Cursor<'_>,
    end: Word,
    item: I,
) -> Result<Items<T>, ReadError>
    requires { I.IsAlwaysCallable item }
    ensures { (at : Reader T) → Follows at (I.post item) → Gives (spec.listed end at tokens.old) result tokens.new }
{
    let found = list(alloc, tokens, item)?;
    tokens.expect(end)?;
    Ok(found)
}

/// None or a list, and the word that closes it.
#[tactic(auto, unfolding(crate::specs::ForProofs::Reader::up_to))]
pub fn up_to<T: Drop, I: Fn(&mut Cursor<'_>) -> Result<T, ReadError> + Drop>(
    alloc: Global,
    tokens: &mut Cursor<'_>,
    end: Word,
    item: I,
) -> Result<Items<T>, ReadError>
    requires { I.IsAlwaysCallable item }
    ensures { (at : Reader T) → Follows at (I.post item) → Gives (spec.up_to end at tokens.old) result tokens.new }
{
    if tokens.eat(end) {
        return Ok(Items::new(alloc));
    }
    listed(alloc, tokens, end, item)
}

// Names, and the brace that closes them.
fn names(alloc: Global, tokens: &mut Cursor<'_>) -> Result<Items<Name>, ReadError>
    ensures { Gives (spec.up_to w.CloseBrace spec.take_name tokens.old) result tokens.new }
{
    let item = |tokens: &mut Cursor<'_>| tokens.name(alloc);
    up_to(alloc, tokens, Word::CloseBrace, item)
}

/// Attributes in braces.
#[tactic(auto, unfolding(crate::specs::ForProofs::Reader::attributes_at))]
pub fn attributes(alloc: Global, tokens: &mut Cursor<'_>) -> Result<Attributes, ReadError>
    ensures { Gives (spec.attributes_at tokens.old) result tokens.new }
{
    tokens.expect(Word::OpenBrace)?;
    if tokens.eat(Word::All) {
        tokens.expect(Word::But)?;
        return Ok(Attributes::AllBut(names(alloc, tokens)?));
    }
    Ok(Attributes::Only(names(alloc, tokens)?))
}

// An attribute and its new name: `a AS b`.
#[tactic(auto, unfolding(crate::specs::ForProofs::Reader::renaming_at))]
fn renaming(alloc: Global, tokens: &mut Cursor<'_>) -> Result<Renaming, ReadError>
    ensures { Gives (spec.renaming_at tokens.old) result tokens.new }
{
    let from = tokens.name(alloc)?;
    tokens.expect(Word::As)?;
    let to = tokens.name(alloc)?;
    Ok(Renaming { from, to })
}

/// Attributes and their new names, and the word that closes them.
pub fn renamings(
    alloc: Global,
    tokens: &mut Cursor<'_>,
    end: Word,
) -> Result<Items<Renaming>, ReadError>
    ensures { Gives (spec.listed end spec.renaming_at tokens.old) result tokens.new }
{
    let item = |tokens: &mut Cursor<'_>| renaming(alloc, tokens);
    listed(alloc, tokens, end, item)
}
