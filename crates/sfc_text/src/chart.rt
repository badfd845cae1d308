// Charts: an initial step, and steps, transitions and actions in any order.

ghost use Rattle.std.specs.Prelude.{◌≡◌};
ghost use Rattle.token_grammar.specs.steps.Parsers.{Reads, ReadsTo, view};
ghost use Rattle.sfc_text.specs.steps.Parse as spec;

use crate::actions::action;
use crate::steps::step_as;
use crate::transitions::transition;
use st_expr::{node_at, or_drop};
use st_tree::{Sfc, SfcPart};
use std::alloc::Global;
use token_grammar::{Cursor, ParseError, TokenKind};
use tree_items::Items;

/// Whether a further part of a chart comes next.
#[tactic(auto, unfolding(crate::specs::steps::Parse::sees_part))]
fn sees_part(cursor: &Cursor<'_>) -> bool
    ensures { result ≡ spec.sees_part (view cursor.now).rest }
{
    cursor.sees(TokenKind::Step)
        || (cursor.sees(TokenKind::Transition) || cursor.sees(TokenKind::Action))
}

/// `step | transition | action`
#[tactic(auto, unfolding(crate::specs::steps::Parse::chart_part))]
fn chart_part(alloc: Global, cursor: &mut Cursor<'_>) -> Result<SfcPart, ParseError>
    ensures { Reads (spec.chart_part (view cursor.old)) result (view cursor.new) }
{
    if cursor.sees(TokenKind::Step) {
        Ok(SfcPart::Step(step_as(alloc, cursor, TokenKind::Step)?))
    } else if cursor.sees(TokenKind::Transition) {
        Ok(SfcPart::Transition(transition(alloc, cursor)?))
    } else {
        Ok(SfcPart::Action(action(alloc, cursor)?))
    }
}

#[tactic(auto, unfolding(crate::specs::steps::Parse::more_parts))]
fn more_parts(
    alloc: Global,
    cursor: &mut Cursor<'_>,
    found: &mut Items<SfcPart>,
) -> Result<(), ParseError>
    ensures { ReadsTo (spec.more_parts found.old (view cursor.old)) result found.new (view cursor.new) }
{
    found.push(chart_part(alloc, cursor)?)?;
    Ok(())
}

/// `{ step | transition | action }`
#[tactic(auto, unfolding(crate::specs::steps::Parse::chart_parts))]
fn chart_parts(alloc: Global, cursor: &mut Cursor<'_>) -> Result<Items<SfcPart>, ParseError>
    ensures { Reads (spec.chart_parts (view cursor.old)) result (view cursor.new) }
{
    let mut found = Items::new(alloc);
    for _turn in 0..cursor.rest.len() {
        if !sees_part(cursor) {
            return Ok(found);
        }
        more_parts(alloc, cursor, &mut found)?;
    }
    Ok(found)
}

/// A chart: `initial { step | transition | action }`
#[tactic(auto, unfolding(crate::specs::steps::Parse::sfc))]
pub fn sfc(alloc: Global, cursor: &mut Cursor<'_>) -> Result<Sfc, ParseError>
    ensures { Reads (spec.sfc (view cursor.old)) result (view cursor.new) }
{
    let start = cursor.start();
    let initial = step_as(alloc, cursor, TokenKind::InitialStep)?;
    let parts = or_drop!(chart_parts(alloc, cursor); initial);
    Ok(Sfc {
        node: node_at(start, cursor.last),
        initial,
        parts,
    })
}
