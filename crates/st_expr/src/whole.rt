// Expressions and paths to any depth.

ghost use Rattle.std.specs.Prelude.{◌≡◌};
ghost use Rattle.token_grammar.specs.steps.Parsers.{Reads, view};
ghost use Rattle.st_expr.specs.steps.Parse as spec;

use crate::expressions::{Grammar, expression_at};
use st_tree::{Expr, Part, Path};
use std::alloc::Global;
use token_grammar::{Cursor, MAX_DEPTH, ParseError};
use tree_items::{Boxed, Items};

/// How deep expressions and statements nest at most, and one more.
pub const NEST: usize = MAX_DEPTH + 1;

/// An expression, to any depth.
pub fn any_expression(alloc: Global, cursor: &mut Cursor<'_>) -> Result<Boxed<Expr>, ParseError>
    ensures { Reads (spec.any_expression (view cursor.old)) result (view cursor.new) }
{
    expression_at(alloc, cursor, NEST)
}

/// `{ part }`, behind what a path begins with.
pub fn parts(alloc: Global, cursor: &mut Cursor<'_>) -> Result<Items<Part>, ParseError>
    ensures { Reads (spec.any_parts (view cursor.old)) result (view cursor.new) }
{
    Grammar {
        alloc,
        nest: NEST,
        expr: expression_at,
    }
    .parts(cursor)
}

/// `( name | address ) { part }`
pub fn path(alloc: Global, cursor: &mut Cursor<'_>) -> Result<Path, ParseError>
    ensures { Reads (spec.any_path (view cursor.old)) result (view cursor.new) }
{
    Grammar {
        alloc,
        nest: NEST,
        expr: expression_at,
    }
    .path(cursor)
}

/// `address { part }`
pub fn located(alloc: Global, cursor: &mut Cursor<'_>) -> Result<Path, ParseError>
    ensures { Reads (spec.any_located (view cursor.old)) result (view cursor.new) }
{
    Grammar {
        alloc,
        nest: NEST,
        expr: expression_at,
    }
    .located(cursor)
}
