// Units, and files of them.

ghost use Rattle.std.specs.Prelude.{◌≡◌};
ghost use Rattle.token_grammar.specs.steps.Parsers.{Reads, view};
ghost use Rattle.st_units.specs.steps.Parse as spec;

use sfc_text::sfc;
use st_declarations::{Reader, config, globals, more, sections, typename, types};
use st_expr::{identifier, node_at, or_drop};
use st_statements::statement_list;
use st_tree::{Body, FilePart, Unit, UnitKind};
use std::alloc::Global;
use token_grammar::{Cursor, ParseError, TokenKind};
use tree_items::Items;

/// A chart.
#[tactic(auto, unfolding(crate::specs::steps::Parse::chart_body))]
fn chart_body(alloc: Global, cursor: &mut Cursor<'_>) -> Result<Body, ParseError>
    ensures { Reads (spec.chart_body (view cursor.old)) result (view cursor.new) }
{
    Ok(Body::Chart(sfc(alloc, cursor)?))
}

/// Statements.
#[tactic(auto, unfolding(crate::specs::steps::Parse::statements_body))]
fn statements_body(alloc: Global, cursor: &mut Cursor<'_>) -> Result<Body, ParseError>
    ensures { Reads (spec.statements_body (view cursor.old)) result (view cursor.new) }
{
    Ok(Body::Statements(statement_list(alloc, cursor)?))
}

/// `sfc | statements`
#[tactic(auto, unfolding(crate::specs::steps::Parse::body))]
fn body(alloc: Global, cursor: &mut Cursor<'_>) -> Result<Body, ParseError>
    ensures { Reads (spec.body (view cursor.old)) result (view cursor.new) }
{
    if cursor.sees(TokenKind::InitialStep) {
        chart_body(alloc, cursor)
    } else {
        statements_body(alloc, cursor)
    }
}

/// `FUNCTION name ":" typename { section } body END_FUNCTION`
#[tactic(auto, unfolding(crate::specs::steps::Parse::function))]
fn function(alloc: Global, cursor: &mut Cursor<'_>) -> Result<Unit, ParseError>
    ensures { Reads (spec.function (view cursor.old)) result (view cursor.new) }
{
    let start = cursor.start();
    cursor.take(TokenKind::Function)?;
    let name = identifier(alloc, cursor)?;
    or_drop!(cursor.take(TokenKind::Colon); name);
    let kind = or_drop!(typename(alloc, cursor); name);
    let sections = or_drop!(sections(alloc, cursor); name, kind);
    let body = or_drop!(body(alloc, cursor); name, kind, sections);
    or_drop!(cursor.take(TokenKind::EndFunction); name, kind, sections, body);
    Ok(Unit {
        node: node_at(start, cursor.last),
        kind: UnitKind::Function(kind),
        name,
        sections,
        body,
    })
}

/// `FUNCTION_BLOCK name { section } body END_FUNCTION_BLOCK`
#[tactic(auto, unfolding(crate::specs::steps::Parse::block, crate::specs::steps::Parse::unit_as))]
fn block(alloc: Global, cursor: &mut Cursor<'_>) -> Result<Unit, ParseError>
    ensures { Reads (spec.block (view cursor.old)) result (view cursor.new) }
{
    let start = cursor.start();
    cursor.take(TokenKind::FunctionBlock)?;
    let name = identifier(alloc, cursor)?;
    let sections = or_drop!(sections(alloc, cursor); name);
    let body = or_drop!(body(alloc, cursor); name, sections);
    or_drop!(cursor.take(TokenKind::EndFunctionBlock); name, sections, body);
    Ok(Unit {
        node: node_at(start, cursor.last),
        kind: UnitKind::Block,
        name,
        sections,
        body,
    })
}

/// `PROGRAM name { section } body END_PROGRAM`
#[tactic(auto, unfolding(crate::specs::steps::Parse::program, crate::specs::steps::Parse::unit_as))]
fn program(alloc: Global, cursor: &mut Cursor<'_>) -> Result<Unit, ParseError>
    ensures { Reads (spec.program (view cursor.old)) result (view cursor.new) }
{
    let start = cursor.start();
    cursor.take(TokenKind::Program)?;
    let name = identifier(alloc, cursor)?;
    let sections = or_drop!(sections(alloc, cursor); name);
    let body = or_drop!(body(alloc, cursor); name, sections);
    or_drop!(cursor.take(TokenKind::EndProgram); name, sections, body);
    Ok(Unit {
        node: node_at(start, cursor.last),
        kind: UnitKind::Program,
        name,
        sections,
        body,
    })
}

/// `types | globals | config`
#[tactic(auto, unfolding(crate::specs::steps::Parse::other_part))]
fn other_part(alloc: Global, cursor: &mut Cursor<'_>) -> Result<FilePart, ParseError>
    ensures { Reads (spec.other_part (view cursor.old)) result (view cursor.new) }
{
    if cursor.sees(TokenKind::Type) {
        Ok(FilePart::Types(types(alloc, cursor)?))
    } else if cursor.sees(TokenKind::VarGlobal) {
        Ok(FilePart::Globals(globals(alloc, cursor)?))
    } else {
        Ok(FilePart::Config(config(alloc, cursor)?))
    }
}

/// `function | block | program | types | globals | config`
#[tactic(auto, unfolding(crate::specs::steps::Parse::file_part))]
fn file_part(alloc: Global, cursor: &mut Cursor<'_>) -> Result<FilePart, ParseError>
    ensures { Reads (spec.file_part (view cursor.old)) result (view cursor.new) }
{
    if cursor.sees(TokenKind::Function) {
        Ok(FilePart::Unit(function(alloc, cursor)?))
    } else if cursor.sees(TokenKind::FunctionBlock) {
        Ok(FilePart::Unit(block(alloc, cursor)?))
    } else if cursor.sees(TokenKind::Program) {
        Ok(FilePart::Unit(program(alloc, cursor)?))
    } else {
        other_part(alloc, cursor)
    }
}

/// Whether a part of a file comes next.
#[tactic(auto, unfolding(crate::specs::steps::Parse::sees_file_part))]
fn sees_file_part(cursor: &Cursor<'_>) -> bool
    ensures { result ≡ spec.sees_file_part (view cursor.now).rest }
{
    cursor.sees(TokenKind::Function)
        || (cursor.sees(TokenKind::FunctionBlock)
            || (cursor.sees(TokenKind::Program)
                || (cursor.sees(TokenKind::Type)
                    || (cursor.sees(TokenKind::VarGlobal)
                        || cursor.sees(TokenKind::Configuration)))))
}

/// Reads a part of a file.
struct PartReader;

impl Reader<FilePart> for PartReader {
    ghost use Rattle.st_units.specs.steps.Parse.{file_part};

    ghost parser = { λ _. file_part };

    ghost ready = { λ _. Unit {0} };

    fn read(&self, alloc: Global, cursor: &mut Cursor<'_>) -> Result<FilePart, ParseError> {
        file_part(alloc, cursor)
    }
}

/// `{ function | block | program | types | globals | config }`
#[tactic(auto, unfolding(crate::specs::steps::Parse::parts))]
fn parts(alloc: Global, cursor: &mut Cursor<'_>) -> Result<Items<FilePart>, ParseError>
    ensures { Reads (spec.parts (view cursor.old)) result (view cursor.new) }
{
    let mut found = Items::new(alloc);
    for _turn in 0..cursor.rest.len() {
        if !sees_file_part(cursor) {
            return Ok(found);
        }
        more(alloc, cursor, &PartReader, &mut found)?;
    }
    Ok(found)
}

/// Nothing is left.
#[tactic(auto, unfolding(crate::specs::steps::Parse::ended, crate::specs::steps::Parse::ended_by))]
fn ended(cursor: &Cursor<'_>) -> Result<(), ParseError>
    ensures { Reads (spec.ended (view cursor.now)) result (view cursor.now) }
{
    match cursor.rest.split_first() {
        None => Ok(()),
        Some(_) => Err(ParseError::Grammar),
    }
}

/// The parts of a file, in the order of the text, to its end.
#[tactic(auto, unfolding(crate::specs::steps::Parse::file))]
pub fn file(alloc: Global, cursor: &mut Cursor<'_>) -> Result<Items<FilePart>, ParseError>
    ensures { Reads (spec.file (view cursor.old)) result (view cursor.new) }
{
    let found = parts(alloc, cursor)?;
    or_drop!(ended(cursor); found);
    Ok(found)
}
