// Steps, with the actions that they have.

ghost use Rattle.std.specs.Prelude.{◌≡◌};
ghost use Rattle.token_grammar.specs.steps.Parsers.{Reads, ReadsTo, view};
ghost use Rattle.sfc_text.specs.steps.Parse as spec;

use st_expr::{identifier, node_at, or_drop};
use st_tree::{Association, Identifier, Step};
use std::alloc::Global;
use token_grammar::{Cursor, ParseError, TokenKind};
use tree_items::Items;

/// `[ name ]`
#[tactic(auto, unfolding(crate::specs::steps::Parse::optional_name))]
pub(crate) fn optional_name(
    alloc: Global,
    cursor: &mut Cursor<'_>,
) -> Result<Option<Identifier>, ParseError>
    ensures { Reads (spec.optional_name (view cursor.old)) result (view cursor.new) }
{
    if cursor.sees(TokenKind::Name) {
        return Ok(Some(identifier(alloc, cursor)?));
    }
    Ok(None)
}

/// `"(" [ name ] ")"`
#[tactic(auto, unfolding(crate::specs::steps::Parse::qualifier))]
fn qualifier(alloc: Global, cursor: &mut Cursor<'_>) -> Result<Option<Identifier>, ParseError>
    ensures { Reads (spec.qualifier (view cursor.old)) result (view cursor.new) }
{
    let depth = cursor.depth;
    cursor.enter(TokenKind::OpenParenthesis)?;
    let found = optional_name(alloc, cursor)?;
    or_drop!(cursor.take(TokenKind::CloseParenthesis); found);
    cursor.depth = depth;
    Ok(found)
}

/// `name "(" [ name ] ")" ";"`
#[tactic(auto, unfolding(crate::specs::steps::Parse::association))]
fn association(alloc: Global, cursor: &mut Cursor<'_>) -> Result<Association, ParseError>
    ensures { Reads (spec.association (view cursor.old)) result (view cursor.new) }
{
    let start = cursor.start();
    let action = identifier(alloc, cursor)?;
    let qualifier = or_drop!(qualifier(alloc, cursor); action);
    or_drop!(cursor.take(TokenKind::Semicolon); action, qualifier);
    Ok(Association {
        node: node_at(start, cursor.last),
        action,
        qualifier,
    })
}

#[tactic(auto, unfolding(crate::specs::steps::Parse::more_associations))]
fn more_associations(
    alloc: Global,
    cursor: &mut Cursor<'_>,
    found: &mut Items<Association>,
) -> Result<(), ParseError>
    ensures { ReadsTo (spec.more_associations found.old (view cursor.old)) result found.new (view cursor.new) }
{
    found.push(association(alloc, cursor)?)?;
    Ok(())
}

/// `{ name "(" [ name ] ")" ";" }`
#[tactic(auto, unfolding(crate::specs::steps::Parse::associations))]
fn associations(alloc: Global, cursor: &mut Cursor<'_>) -> Result<Items<Association>, ParseError>
    ensures { Reads (spec.associations (view cursor.old)) result (view cursor.new) }
{
    let mut found = Items::new(alloc);
    for _turn in 0..cursor.rest.len() {
        if !cursor.sees(TokenKind::Name) {
            return Ok(found);
        }
        more_associations(alloc, cursor, &mut found)?;
    }
    Ok(found)
}

/// `STEP name ":" { association } END_STEP`, with that word or INITIAL_STEP.
#[tactic(auto, unfolding(crate::specs::steps::Parse::step_as))]
pub(crate) fn step_as(
    alloc: Global,
    cursor: &mut Cursor<'_>,
    kind: TokenKind,
) -> Result<Step, ParseError>
    ensures { Reads (spec.step_as kind (view cursor.old)) result (view cursor.new) }
{
    let start = cursor.start();
    cursor.take(kind)?;
    let name = identifier(alloc, cursor)?;
    or_drop!(cursor.take(TokenKind::Colon); name);
    let associations = or_drop!(associations(alloc, cursor); name);
    or_drop!(cursor.take(TokenKind::EndStep); name, associations);
    Ok(Step {
        node: node_at(start, cursor.last),
        name,
        associations,
    })
}
