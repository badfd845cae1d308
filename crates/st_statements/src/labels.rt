// Labels of a CASE.

ghost use Rattle.std.specs.Prelude.{◌≡◌};
ghost use Rattle.token_grammar.specs.steps.Parsers.{Reads, ReadsTo, view};
ghost use Rattle.st_statements.specs.steps.Parse as spec;
ghost use Rattle.st_statements.specs.Trees as trees;

use st_expr::{identifier, node_at, or_drop, word};
use st_tree::{Identifier, Label, Point};
use std::alloc::Global;
use token_grammar::{Cursor, ParseError, TokenKind};
use tree_items::Items;

fn start_of_point(point: &Point) -> usize
    ensures { result ≡ trees.start_of_point point.now }
{
    match point {
        Point::Number(node, _, _) => node.start,
        Point::Typed(node, _) => node.start,
        Point::Name(name) => name.node.start,
        Point::Value(node, _, _) => node.start,
    }
}

fn end_of_point(point: &Point) -> usize
    ensures { result ≡ trees.end_of_point point.now }
{
    match point {
        Point::Number(node, _, _) => node.end,
        Point::Typed(node, _) => node.end,
        Point::Name(name) => name.node.end,
        Point::Value(node, _, _) => node.end,
    }
}

/// `"-" number`
#[tactic(auto, unfolding(crate::specs::steps::Parse::negative_point))]
fn negative_point(alloc: Global, cursor: &mut Cursor<'_>) -> Result<Point, ParseError>
    ensures { Reads (spec.negative_point (view cursor.old)) result (view cursor.new) }
{
    let start = cursor.start();
    cursor.take(TokenKind::Minus)?;
    let text = word(alloc, cursor, TokenKind::Number)?;
    Ok(Point::Number(node_at(start, cursor.last), true, text))
}

#[tactic(auto, unfolding(crate::specs::steps::Parse::number_point))]
fn number_point(alloc: Global, cursor: &mut Cursor<'_>) -> Result<Point, ParseError>
    ensures { Reads (spec.number_point (view cursor.old)) result (view cursor.new) }
{
    let start = cursor.start();
    let text = word(alloc, cursor, TokenKind::Number)?;
    Ok(Point::Number(node_at(start, cursor.last), false, text))
}

#[tactic(auto, unfolding(crate::specs::steps::Parse::typed_point))]
fn typed_point(alloc: Global, cursor: &mut Cursor<'_>) -> Result<Point, ParseError>
    ensures { Reads (spec.typed_point (view cursor.old)) result (view cursor.new) }
{
    let start = cursor.start();
    let text = word(alloc, cursor, TokenKind::TypedNumber)?;
    Ok(Point::Typed(node_at(start, cursor.last), text))
}

/// `[ "-" ] number | typed`
#[tactic(auto, unfolding(crate::specs::steps::Parse::value_point))]
pub fn value_point(alloc: Global, cursor: &mut Cursor<'_>) -> Result<Point, ParseError>
    ensures { Reads (spec.value_point (view cursor.old)) result (view cursor.new) }
{
    if cursor.sees(TokenKind::Minus) {
        negative_point(alloc, cursor)
    } else if cursor.sees(TokenKind::Number) {
        number_point(alloc, cursor)
    } else {
        typed_point(alloc, cursor)
    }
}

/// Behind a name: `[ "#" name ]`
#[tactic(auto, unfolding(crate::specs::steps::Parse::point_behind))]
pub fn point_behind(
    alloc: Global,
    cursor: &mut Cursor<'_>,
    name: Identifier,
) -> Result<Point, ParseError>
    ensures { Reads (spec.point_behind name (view cursor.old)) result (view cursor.new) }
{
    if cursor.sees(TokenKind::Hash) {
        or_drop!(cursor.take(TokenKind::Hash); name);
        let value = or_drop!(identifier(alloc, cursor); name);
        let node = node_at(name.node.start, value.node.end);
        return Ok(Point::Value(node, name, value));
    }
    Ok(Point::Name(name))
}

/// `[ "-" ] number | typed | name [ "#" name ]`
#[tactic(auto, unfolding(crate::specs::steps::Parse::any_point, crate::specs::steps::Parse::named_point))]
fn any_point(alloc: Global, cursor: &mut Cursor<'_>) -> Result<Point, ParseError>
    ensures { Reads (spec.any_point (view cursor.old)) result (view cursor.new) }
{
    if cursor.sees(TokenKind::Name) {
        let name = identifier(alloc, cursor)?;
        point_behind(alloc, cursor, name)
    } else {
        value_point(alloc, cursor)
    }
}

fn label(first: Point, last: Option<Point>, end: usize) -> Label
    ensures { result ≡ trees.label_to first last end }
{
    let node = node_at(start_of_point(&first), end);
    Label { node, first, last }
}

/// Behind a point: `[ ".." point ]`
#[tactic(auto, unfolding(crate::specs::steps::Parse::label_behind))]
fn label_behind(alloc: Global, cursor: &mut Cursor<'_>, first: Point) -> Result<Label, ParseError>
    ensures { Reads (spec.label_behind first (view cursor.old)) result (view cursor.new) }
{
    if cursor.sees(TokenKind::DotDot) {
        or_drop!(cursor.take(TokenKind::DotDot); first);
        let last = or_drop!(any_point(alloc, cursor); first);
        let end = end_of_point(&last);
        return Ok(label(first, Some(last), end));
    }
    let end = end_of_point(&first);
    Ok(label(first, None, end))
}

/// `"," label`
#[tactic(auto, unfolding(crate::specs::steps::Parse::more_labels))]
fn more_labels(
    alloc: Global,
    cursor: &mut Cursor<'_>,
    found: &mut Items<Label>,
) -> Result<(), ParseError>
    ensures { ReadsTo (spec.more_labels found.old (view cursor.old)) result found.new (view cursor.new) }
{
    cursor.take(TokenKind::Comma)?;
    let first = any_point(alloc, cursor)?;
    found.push(label_behind(alloc, cursor, first)?)?;
    Ok(())
}

/// `{ "," label }`
#[tactic(auto, unfolding(crate::specs::steps::Parse::label_list))]
fn label_list(
    alloc: Global,
    cursor: &mut Cursor<'_>,
    first: Label,
) -> Result<Items<Label>, ParseError>
    ensures { Reads (spec.label_list first (view cursor.old)) result (view cursor.new) }
{
    let mut found = Items::new(alloc);
    found.push(first)?;
    for _turn in 0..cursor.rest.len() {
        if !cursor.sees(TokenKind::Comma) {
            return Ok(found);
        }
        more_labels(alloc, cursor, &mut found)?;
    }
    Ok(found)
}

/// Behind a point: `[ ".." point ] { "," label } ":"`
#[tactic(auto, unfolding(crate::specs::steps::Parse::labels_behind))]
pub fn labels_behind(
    alloc: Global,
    cursor: &mut Cursor<'_>,
    first: Point,
) -> Result<Items<Label>, ParseError>
    ensures { Reads (spec.labels_behind first (view cursor.old)) result (view cursor.new) }
{
    let first = label_behind(alloc, cursor, first)?;
    let found = label_list(alloc, cursor, first)?;
    or_drop!(cursor.take(TokenKind::Colon); found);
    Ok(found)
}

/// The labels of a branch, with the colon behind them.
#[tactic(auto, unfolding(crate::specs::steps::Parse::labels))]
pub fn labels(alloc: Global, cursor: &mut Cursor<'_>) -> Result<Items<Label>, ParseError>
    ensures { Reads (spec.labels (view cursor.old)) result (view cursor.new) }
{
    let first = any_point(alloc, cursor)?;
    labels_behind(alloc, cursor, first)
}
