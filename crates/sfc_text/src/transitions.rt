// Transitions between steps.

ghost use Rattle.std.specs.Prelude.{◌≡◌};
ghost use Rattle.token_grammar.specs.steps.Parsers.{Reads, view};
ghost use Rattle.sfc_text.specs.steps.Parse as spec;

use crate::steps::optional_name;
use st_expr::{any_expression, identifier, name_list, node_at, or_drop};
use st_tree::{Expr, StepNames, Transition};
use std::alloc::Global;
use token_grammar::{Cursor, ParseError, TokenKind};
use tree_items::Boxed;

/// `"(" names ")"`
#[tactic(auto, unfolding(crate::specs::steps::Parse::several))]
fn several(alloc: Global, cursor: &mut Cursor<'_>) -> Result<StepNames, ParseError>
    ensures { Reads (spec.several (view cursor.old)) result (view cursor.new) }
{
    let start = cursor.start();
    let depth = cursor.depth;
    cursor.enter(TokenKind::OpenParenthesis)?;
    let found = name_list(alloc, cursor)?;
    or_drop!(cursor.take(TokenKind::CloseParenthesis); found);
    cursor.depth = depth;
    Ok(StepNames::Several(node_at(start, cursor.last), found))
}

/// `name | "(" names ")"`
#[tactic(auto, unfolding(crate::specs::steps::Parse::step_names))]
fn step_names(alloc: Global, cursor: &mut Cursor<'_>) -> Result<StepNames, ParseError>
    ensures { Reads (spec.step_names (view cursor.old)) result (view cursor.new) }
{
    if cursor.sees(TokenKind::OpenParenthesis) {
        return several(alloc, cursor);
    }
    Ok(StepNames::One(identifier(alloc, cursor)?))
}

/// `FROM from TO from`
#[tactic(auto, unfolding(crate::specs::steps::Parse::link))]
fn link(alloc: Global, cursor: &mut Cursor<'_>) -> Result<(StepNames, StepNames), ParseError>
    ensures { Reads (spec.link (view cursor.old)) result (view cursor.new) }
{
    cursor.take(TokenKind::From)?;
    let from = step_names(alloc, cursor)?;
    or_drop!(cursor.take(TokenKind::To); from);
    let to = or_drop!(step_names(alloc, cursor); from);
    Ok((from, to))
}

/// `":=" expr ";"`
#[tactic(auto, unfolding(crate::specs::steps::Parse::condition))]
fn condition(alloc: Global, cursor: &mut Cursor<'_>) -> Result<Boxed<Expr>, ParseError>
    ensures { Reads (spec.condition (view cursor.old)) result (view cursor.new) }
{
    cursor.take(TokenKind::Becomes)?;
    let condition = any_expression(alloc, cursor)?;
    or_drop!(cursor.take(TokenKind::Semicolon); condition);
    Ok(condition)
}

/// `TRANSITION [ name ] FROM from TO from ":=" expr ";" END_TRANSITION`
#[tactic(auto, unfolding(crate::specs::steps::Parse::transition))]
pub(crate) fn transition(alloc: Global, cursor: &mut Cursor<'_>) -> Result<Transition, ParseError>
    ensures { Reads (spec.transition (view cursor.old)) result (view cursor.new) }
{
    let start = cursor.start();
    cursor.take(TokenKind::Transition)?;
    let name = optional_name(alloc, cursor)?;
    let (from, to) = or_drop!(link(alloc, cursor); name);
    let condition = or_drop!(condition(alloc, cursor); name, from, to);
    or_drop!(cursor.take(TokenKind::EndTransition); name, from, to, condition);
    Ok(Transition {
        node: node_at(start, cursor.last),
        name,
        from,
        to,
        condition,
    })
}
