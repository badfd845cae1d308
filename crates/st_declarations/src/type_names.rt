// Names of types, lists of names, and ranges.

ghost use Rattle.std.specs.Prelude.{◌≡◌};
ghost use Rattle.token_grammar.specs.steps.Parsers.{Reads, view};
ghost use Rattle.st_declarations.specs.steps.Parse as spec;

use crate::lists::{Reader, commas};
use iec_tables::elem::Elem;
use st_expr::{any_expression, identifier, name_list, node_at, or_drop};
use st_tree::{Range, Spec, TypeName};
use std::alloc::Global;
use token_grammar::{Cursor, ParseError, TokenKind};
use tree_items::Items;

/// The name of an elementary type.
#[tactic(auto, unfolding(crate::specs::steps::Parse::elem_as))]
fn elem_as(cursor: &mut Cursor<'_>, kind: TokenKind, elem: Elem) -> Result<TypeName, ParseError>
    ensures { Reads (spec.elem_as kind elem (view cursor.old)) result (view cursor.new) }
{
    let start = cursor.start();
    cursor.take(kind)?;
    Ok(TypeName::Elementary(node_at(start, cursor.last), elem))
}

#[tactic(auto, unfolding(crate::specs::steps::Parse::unsigned_or_time))]
fn unsigned_or_time(cursor: &mut Cursor<'_>) -> Result<TypeName, ParseError>
    ensures { Reads (spec.unsigned_or_time (view cursor.old)) result (view cursor.new) }
{
    if cursor.sees(TokenKind::Usint) {
        elem_as(cursor, TokenKind::Usint, Elem::Usint)
    } else if cursor.sees(TokenKind::Uint) {
        elem_as(cursor, TokenKind::Uint, Elem::Uint)
    } else if cursor.sees(TokenKind::Udint) {
        elem_as(cursor, TokenKind::Udint, Elem::Udint)
    } else if cursor.sees(TokenKind::Ulint) {
        elem_as(cursor, TokenKind::Ulint, Elem::Ulint)
    } else {
        elem_as(cursor, TokenKind::Time, Elem::Time)
    }
}

#[tactic(auto, unfolding(crate::specs::steps::Parse::number_or_time))]
fn number_or_time(cursor: &mut Cursor<'_>) -> Result<TypeName, ParseError>
    ensures { Reads (spec.number_or_time (view cursor.old)) result (view cursor.new) }
{
    if cursor.sees(TokenKind::Sint) {
        elem_as(cursor, TokenKind::Sint, Elem::Sint)
    } else if cursor.sees(TokenKind::Int) {
        elem_as(cursor, TokenKind::Int, Elem::Int)
    } else if cursor.sees(TokenKind::Dint) {
        elem_as(cursor, TokenKind::Dint, Elem::Dint)
    } else if cursor.sees(TokenKind::Lint) {
        elem_as(cursor, TokenKind::Lint, Elem::Lint)
    } else {
        unsigned_or_time(cursor)
    }
}

/// One of the 14 type names.
#[tactic(auto, unfolding(crate::specs::steps::Parse::elementary))]
fn elementary(cursor: &mut Cursor<'_>) -> Result<TypeName, ParseError>
    ensures { Reads (spec.elementary (view cursor.old)) result (view cursor.new) }
{
    if cursor.sees(TokenKind::Bool) {
        elem_as(cursor, TokenKind::Bool, Elem::Bool)
    } else if cursor.sees(TokenKind::Byte) {
        elem_as(cursor, TokenKind::Byte, Elem::Byte)
    } else if cursor.sees(TokenKind::Word) {
        elem_as(cursor, TokenKind::Word, Elem::Word)
    } else if cursor.sees(TokenKind::Dword) {
        elem_as(cursor, TokenKind::Dword, Elem::Dword)
    } else if cursor.sees(TokenKind::Lword) {
        elem_as(cursor, TokenKind::Lword, Elem::Lword)
    } else {
        number_or_time(cursor)
    }
}

/// `name`, or one of the 14 type names.
#[tactic(auto, unfolding(crate::specs::steps::Parse::typename))]
pub fn typename(alloc: Global, cursor: &mut Cursor<'_>) -> Result<TypeName, ParseError>
    ensures { Reads (spec.typename (view cursor.old)) result (view cursor.new) }
{
    if cursor.sees(TokenKind::Name) {
        Ok(TypeName::Named(identifier(alloc, cursor)?))
    } else {
        elementary(cursor)
    }
}

/// `expr ".." expr`
#[tactic(auto, unfolding(crate::specs::steps::Parse::range))]
fn range(alloc: Global, cursor: &mut Cursor<'_>) -> Result<Range, ParseError>
    ensures { Reads (spec.range (view cursor.old)) result (view cursor.new) }
{
    let start = cursor.start();
    let lower = any_expression(alloc, cursor)?;
    or_drop!(cursor.take(TokenKind::DotDot); lower);
    let upper = or_drop!(any_expression(alloc, cursor); lower);
    Ok(Range {
        node: node_at(start, cursor.last),
        lower,
        upper,
    })
}

/// `"(" range ")"`
#[tactic(auto, unfolding(crate::specs::steps::Parse::bounds))]
fn bounds(alloc: Global, cursor: &mut Cursor<'_>) -> Result<Option<Range>, ParseError>
    ensures { Reads (spec.bounds (view cursor.old)) result (view cursor.new) }
{
    let depth = cursor.depth;
    cursor.enter(TokenKind::OpenParenthesis)?;
    let found = range(alloc, cursor)?;
    or_drop!(cursor.take(TokenKind::CloseParenthesis); found);
    cursor.depth = depth;
    Ok(Some(found))
}

/// `[ "(" range ")" ]`
#[tactic(auto, unfolding(crate::specs::steps::Parse::optional_bounds))]
fn optional_bounds(alloc: Global, cursor: &mut Cursor<'_>) -> Result<Option<Range>, ParseError>
    ensures { Reads (spec.optional_bounds (view cursor.old)) result (view cursor.new) }
{
    if cursor.sees(TokenKind::OpenParenthesis) {
        bounds(alloc, cursor)
    } else {
        Ok(None)
    }
}

/// `typename [ "(" range ")" ]`
#[tactic(auto, unfolding(crate::specs::steps::Parse::plain_spec))]
pub fn plain_spec(alloc: Global, cursor: &mut Cursor<'_>) -> Result<Spec, ParseError>
    ensures { Reads (spec.plain_spec (view cursor.old)) result (view cursor.new) }
{
    let start = cursor.start();
    let name = typename(alloc, cursor)?;
    let found = or_drop!(optional_bounds(alloc, cursor); name);
    Ok(Spec::Type(node_at(start, cursor.last), name, found))
}

/// `"(" names ")"`
#[tactic(auto, unfolding(crate::specs::steps::Parse::enumeration))]
pub fn enumeration(alloc: Global, cursor: &mut Cursor<'_>) -> Result<Spec, ParseError>
    ensures { Reads (spec.enumeration (view cursor.old)) result (view cursor.new) }
{
    let start = cursor.start();
    let depth = cursor.depth;
    cursor.enter(TokenKind::OpenParenthesis)?;
    let found = name_list(alloc, cursor)?;
    or_drop!(cursor.take(TokenKind::CloseParenthesis); found);
    cursor.depth = depth;
    Ok(Spec::Enumeration(node_at(start, cursor.last), found))
}

/// Reads a range.
struct RangeReader;

impl Reader<Range> for RangeReader {
    ghost use Rattle.st_declarations.specs.steps.Parse.{range};

    ghost parser = { λ _. range };

    ghost ready = { λ _. Unit {0} };

    fn read(&self, alloc: Global, cursor: &mut Cursor<'_>) -> Result<Range, ParseError> {
        range(alloc, cursor)
    }
}

/// `"[" range { "," range } "]"`
#[tactic(auto, unfolding(crate::specs::steps::Parse::ranges))]
pub fn ranges(alloc: Global, cursor: &mut Cursor<'_>) -> Result<Items<Range>, ParseError>
    ensures { Reads (spec.ranges (view cursor.old)) result (view cursor.new) }
{
    let depth = cursor.depth;
    cursor.enter(TokenKind::OpenBracket)?;
    let found = commas(alloc, cursor, &RangeReader)?;
    or_drop!(cursor.take(TokenKind::CloseBracket); found);
    cursor.depth = depth;
    Ok(found)
}
