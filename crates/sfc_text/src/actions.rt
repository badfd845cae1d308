// Actions.

ghost use Rattle.std.specs.Prelude.{◌≡◌};
ghost use Rattle.token_grammar.specs.steps.Parsers.{Reads, view};
ghost use Rattle.sfc_text.specs.steps.Parse as spec;

use st_expr::{identifier, node_at, or_drop};
use st_statements::statement_list;
use st_tree::Action;
use std::alloc::Global;
use token_grammar::{Cursor, ParseError, TokenKind};

/// `ACTION name ":" statements END_ACTION`
#[tactic(auto, unfolding(crate::specs::steps::Parse::action))]
pub(crate) fn action(alloc: Global, cursor: &mut Cursor<'_>) -> Result<Action, ParseError>
    ensures { Reads (spec.action (view cursor.old)) result (view cursor.new) }
{
    let start = cursor.start();
    cursor.take(TokenKind::Action)?;
    let name = identifier(alloc, cursor)?;
    or_drop!(cursor.take(TokenKind::Colon); name);
    let body = or_drop!(statement_list(alloc, cursor); name);
    or_drop!(cursor.take(TokenKind::EndAction); name, body);
    Ok(Action {
        node: node_at(start, cursor.last),
        name,
        body,
    })
}
