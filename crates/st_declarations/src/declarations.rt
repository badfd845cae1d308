// Declarations of variables and their sections.

ghost use Rattle.std.specs.Prelude.{◌≡◌};
ghost use Rattle.token_grammar.specs.steps.Parsers.{Reads, view};
ghost use Rattle.st_declarations.specs.steps.Parse as spec;

use crate::array_specs::spec;
use crate::initial_values::optional_init;
use crate::lists::{Reader, each, more};
use st_expr::{address, name_list, node_at, or_drop};
use st_tree::{Address, Decl, Globals, Keep, Section, SectionKind};
use std::alloc::Global;
use token_grammar::{Cursor, ParseError, TokenKind};
use tree_items::Items;

/// `AT address`
#[tactic(auto, unfolding(crate::specs::steps::Parse::located))]
fn located(alloc: Global, cursor: &mut Cursor<'_>) -> Result<Option<Address>, ParseError>
    ensures { Reads (spec.located (view cursor.old)) result (view cursor.new) }
{
    cursor.take(TokenKind::At)?;
    Ok(Some(address(alloc, cursor)?))
}

/// `[ AT address ]`
#[tactic(auto, unfolding(crate::specs::steps::Parse::optional_address))]
fn optional_address(alloc: Global, cursor: &mut Cursor<'_>) -> Result<Option<Address>, ParseError>
    ensures { Reads (spec.optional_address (view cursor.old)) result (view cursor.new) }
{
    if cursor.sees(TokenKind::At) {
        located(alloc, cursor)
    } else {
        Ok(None)
    }
}

/// Reads variables declared together: `names [ AT address ] ":" spec [ ":=" init ] ";"`.
struct DeclReader;

impl Reader<Decl> for DeclReader {
    ghost use Rattle.st_declarations.specs.steps.Parse.{decl};

    ghost parser = { λ _. decl };

    ghost ready = { λ _. Unit {0} };

    #[tactic(auto, unfolding(crate::specs::steps::Parse::decl))]
    fn read(&self, alloc: Global, cursor: &mut Cursor<'_>) -> Result<Decl, ParseError> {
        let start = cursor.start();
        let names = name_list(alloc, cursor)?;
        let address = or_drop!(optional_address(alloc, cursor); names);
        or_drop!(cursor.take(TokenKind::Colon); names, address);
        let spec = or_drop!(spec(alloc, cursor); names, address);
        let init = or_drop!(optional_init(alloc, cursor); names, address, spec);
        or_drop!(cursor.take(TokenKind::Semicolon); names, address, spec, init);
        Ok(Decl {
            node: node_at(start, cursor.last),
            names,
            address,
            spec,
            init,
        })
    }
}

#[tactic(auto, unfolding(crate::specs::steps::Parse::keep_as))]
fn keep_as(cursor: &mut Cursor<'_>, kind: TokenKind, keep: Keep) -> Result<Option<Keep>, ParseError>
    ensures { Reads (spec.keep_as kind keep (view cursor.old)) result (view cursor.new) }
{
    cursor.take(kind)?;
    Ok(Some(keep))
}

/// `[ CONSTANT | RETAIN | NON_RETAIN ]`
#[tactic(auto, unfolding(crate::specs::steps::Parse::keep))]
fn keep(cursor: &mut Cursor<'_>) -> Result<Option<Keep>, ParseError>
    ensures { Reads (spec.keep (view cursor.old)) result (view cursor.new) }
{
    if cursor.sees(TokenKind::Constant) {
        keep_as(cursor, TokenKind::Constant, Keep::Constant)
    } else if cursor.sees(TokenKind::Retain) {
        keep_as(cursor, TokenKind::Retain, Keep::Retain)
    } else if cursor.sees(TokenKind::NonRetain) {
        keep_as(cursor, TokenKind::NonRetain, Keep::NonRetain)
    } else {
        Ok(None)
    }
}

#[tactic(auto, unfolding(crate::specs::steps::Parse::section_as))]
fn section_as(
    cursor: &mut Cursor<'_>,
    kind: TokenKind,
    section: SectionKind,
) -> Result<SectionKind, ParseError>
    ensures { Reads (spec.section_as kind section (view cursor.old)) result (view cursor.new) }
{
    cursor.take(kind)?;
    Ok(section)
}

/// `VAR | VAR_INPUT | VAR_OUTPUT | VAR_IN_OUT | VAR_EXTERNAL | VAR_TEMP`
#[tactic(auto, unfolding(crate::specs::steps::Parse::section_word))]
fn section_word(cursor: &mut Cursor<'_>) -> Result<SectionKind, ParseError>
    ensures { Reads (spec.section_word (view cursor.old)) result (view cursor.new) }
{
    if cursor.sees(TokenKind::Var) {
        section_as(cursor, TokenKind::Var, SectionKind::Var)
    } else if cursor.sees(TokenKind::VarInput) {
        section_as(cursor, TokenKind::VarInput, SectionKind::Input)
    } else if cursor.sees(TokenKind::VarOutput) {
        section_as(cursor, TokenKind::VarOutput, SectionKind::Output)
    } else if cursor.sees(TokenKind::VarInOut) {
        section_as(cursor, TokenKind::VarInOut, SectionKind::InOut)
    } else if cursor.sees(TokenKind::VarExternal) {
        section_as(cursor, TokenKind::VarExternal, SectionKind::External)
    } else {
        section_as(cursor, TokenKind::VarTemp, SectionKind::Temp)
    }
}

/// Whether a section comes next.
#[tactic(auto, unfolding(crate::specs::steps::Parse::sees_section))]
fn sees_section(cursor: &Cursor<'_>) -> bool
    ensures { result ≡ spec.sees_section (view cursor.now).rest }
{
    cursor.sees(TokenKind::Var)
        || (cursor.sees(TokenKind::VarInput)
            || (cursor.sees(TokenKind::VarOutput)
                || (cursor.sees(TokenKind::VarInOut)
                    || (cursor.sees(TokenKind::VarExternal) || cursor.sees(TokenKind::VarTemp)))))
}

/// Reads a section: `section_word [ keep ] { decl } END_VAR`.
struct SectionReader;

impl Reader<Section> for SectionReader {
    ghost use Rattle.st_declarations.specs.steps.Parse.{section};

    ghost parser = { λ _. section };

    ghost ready = { λ _. Unit {0} };

    #[tactic(auto, unfolding(crate::specs::steps::Parse::section))]
    fn read(&self, alloc: Global, cursor: &mut Cursor<'_>) -> Result<Section, ParseError> {
        let start = cursor.start();
        let kind = section_word(cursor)?;
        let keep = keep(cursor)?;
        let decls = each(alloc, cursor, TokenKind::Name, &DeclReader)?;
        or_drop!(cursor.take(TokenKind::EndVar); decls);
        Ok(Section {
            node: node_at(start, cursor.last),
            kind,
            keep,
            decls,
        })
    }
}

/// `{ section }`
#[tactic(auto, unfolding(crate::specs::steps::Parse::sections))]
pub fn sections(alloc: Global, cursor: &mut Cursor<'_>) -> Result<Items<Section>, ParseError>
    ensures { Reads (spec.sections (view cursor.old)) result (view cursor.new) }
{
    let mut found = Items::new(alloc);
    for _turn in 0..cursor.rest.len() {
        if !sees_section(cursor) {
            return Ok(found);
        }
        more(alloc, cursor, &SectionReader, &mut found)?;
    }
    Ok(found)
}

/// `VAR_GLOBAL [ keep ] { decl } END_VAR`
#[tactic(auto, unfolding(crate::specs::steps::Parse::globals))]
pub fn globals(alloc: Global, cursor: &mut Cursor<'_>) -> Result<Globals, ParseError>
    ensures { Reads (spec.globals (view cursor.old)) result (view cursor.new) }
{
    let start = cursor.start();
    cursor.take(TokenKind::VarGlobal)?;
    let keep = keep(cursor)?;
    let decls = each(alloc, cursor, TokenKind::Name, &DeclReader)?;
    or_drop!(cursor.take(TokenKind::EndVar); decls);
    Ok(Globals {
        node: node_at(start, cursor.last),
        keep,
        decls,
    })
}

/// Reads a section of global variables.
pub(crate) struct GlobalsReader;

impl Reader<Globals> for GlobalsReader {
    ghost use Rattle.st_declarations.specs.steps.Parse.{globals};

    ghost parser = { λ _. globals };

    ghost ready = { λ _. Unit {0} };

    fn read(&self, alloc: Global, cursor: &mut Cursor<'_>) -> Result<Globals, ParseError> {
        globals(alloc, cursor)
    }
}
