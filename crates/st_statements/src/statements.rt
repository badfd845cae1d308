// Lists of statements. The rules that hold statements take the parser of those that don't begin with a name as a parameter, so that each
// is proved by itself.

ghost use Rattle.std.specs.Prelude.{◌≡◌};
ghost use Rattle.token_grammar.specs.steps.Parsers.{Reads, ReadsTo, view};
ghost use Rattle.st_statements.specs.steps.Parse as spec;
ghost use Rattle.st_statements.specs.steps.Nests.{NestsStatements};

use crate::simple::{assign, continue_stmt, exit_stmt, named, return_stmt};
use st_expr::NEST;
use st_tree::Stmt;
use std::alloc::Global;
use token_grammar::{Cursor, ParseError, TokenKind};
use tree_items::Items;

/// What the rules are read with.
#[derive(Clone, Copy)]
pub struct Block<F> {
    pub alloc: Global,
    /// How deep statements may still nest.
    pub nest: usize,
    /// The parser of the statements within that don't begin with a name.
    pub statement: F,
}

/// Whether a structured statement comes next.
#[tactic(auto, unfolding(crate::specs::steps::Parse::sees_structured))]
fn sees_structured(cursor: &Cursor<'_>) -> bool
    ensures { result ≡ spec.sees_structured (view cursor.now).rest }
{
    cursor.sees(TokenKind::If)
        || (cursor.sees(TokenKind::Case)
            || (cursor.sees(TokenKind::For)
                || (cursor.sees(TokenKind::While) || cursor.sees(TokenKind::Repeat))))
}

/// Whether a statement comes next that doesn't begin with a name.
#[tactic(auto, unfolding(crate::specs::steps::Parse::sees_unnamed))]
pub fn sees_unnamed(cursor: &Cursor<'_>) -> bool
    ensures { result ≡ spec.sees_unnamed (view cursor.now).rest }
{
    cursor.sees(TokenKind::Return)
        || (cursor.sees(TokenKind::Exit)
            || (cursor.sees(TokenKind::Continue)
                || (sees_structured(cursor) || cursor.sees(TokenKind::Address))))
}

/// Whether a statement comes next.
#[tactic(auto, unfolding(crate::specs::steps::Parse::sees_statement))]
fn sees_statement(cursor: &Cursor<'_>) -> bool
    ensures { result ≡ spec.sees_statement (view cursor.now).rest }
{
    cursor.sees(TokenKind::Semicolon) || (cursor.sees(TokenKind::Name) || sees_unnamed(cursor))
}

impl<F: Fn(Global, &mut Cursor<'_>, usize) -> Result<Stmt, ParseError>> Block<F> {
    /// A statement within another that doesn't begin with a name.
    pub fn statement(&self, cursor: &mut Cursor<'_>) -> Result<Stmt, ParseError>
        requires { NestsStatements self.now.nest (F.pre self.now.statement) (F.post self.now.statement) }
        ensures { Reads (spec.nested self.now.nest (view cursor.old)) result (view cursor.new) }
    {
        (self.statement)(self.alloc, cursor, self.nest)
    }

    /// A statement, which is kept, or an empty one, which isn't.
    #[tactic(auto, unfolding(crate::specs::steps::Parse::item))]
    fn item(&self, cursor: &mut Cursor<'_>, found: &mut Items<Stmt>) -> Result<(), ParseError>
        requires { NestsStatements self.now.nest (F.pre self.now.statement) (F.post self.now.statement) }
        ensures { ReadsTo (spec.item (spec.nested self.now.nest) found.old (view cursor.old)) result found.new (view cursor.new) }
    {
        if cursor.sees(TokenKind::Semicolon) {
            cursor.take(TokenKind::Semicolon)?;
            return Ok(());
        }
        if cursor.sees(TokenKind::Name) {
            found.push(named(self.alloc, cursor)?)?;
            return Ok(());
        }
        found.push(self.statement(cursor)?)?;
        Ok(())
    }

    /// Statements.
    #[tactic(auto, unfolding(crate::specs::steps::Parse::body))]
    pub fn body(&self, cursor: &mut Cursor<'_>) -> Result<Items<Stmt>, ParseError>
        requires { NestsStatements self.now.nest (F.pre self.now.statement) (F.post self.now.statement) }
        ensures { Reads (spec.body (spec.nested self.now.nest) (view cursor.old)) result (view cursor.new) }
    {
        let mut found = Items::new(self.alloc);
        for _turn in 0..cursor.rest.len() {
            if !sees_statement(cursor) {
                return Ok(found);
            }
            self.item(cursor, &mut found)?;
        }
        Ok(found)
    }

    /// `[ ELSE statements ]`
    #[tactic(auto, unfolding(crate::specs::steps::Parse::otherwise))]
    pub fn otherwise(&self, cursor: &mut Cursor<'_>) -> Result<Option<Items<Stmt>>, ParseError>
        requires { NestsStatements self.now.nest (F.pre self.now.statement) (F.post self.now.statement) }
        ensures { Reads (spec.otherwise (spec.nested self.now.nest) (view cursor.old)) result (view cursor.new) }
    {
        if cursor.sees(TokenKind::Else) {
            cursor.take(TokenKind::Else)?;
            return Ok(Some(self.body(cursor)?));
        }
        Ok(None)
    }

    #[tactic(auto, unfolding(crate::specs::steps::Parse::looped))]
    fn looped(&self, cursor: &mut Cursor<'_>) -> Result<Stmt, ParseError>
        requires { NestsStatements self.now.nest (F.pre self.now.statement) (F.post self.now.statement) }
        ensures { Reads (spec.looped (spec.nested self.now.nest) (view cursor.old)) result (view cursor.new) }
    {
        if cursor.sees(TokenKind::For) {
            self.counted(cursor)
        } else if cursor.sees(TokenKind::While) {
            self.while_stmt(cursor)
        } else if cursor.sees(TokenKind::Repeat) {
            self.repeat_stmt(cursor)
        } else {
            assign(self.alloc, cursor)
        }
    }

    #[tactic(auto, unfolding(crate::specs::steps::Parse::structured))]
    fn structured(&self, cursor: &mut Cursor<'_>) -> Result<Stmt, ParseError>
        requires { NestsStatements self.now.nest (F.pre self.now.statement) (F.post self.now.statement) }
        ensures { Reads (spec.structured (spec.nested self.now.nest) (view cursor.old)) result (view cursor.new) }
    {
        if cursor.sees(TokenKind::If) {
            self.choice(cursor)
        } else if cursor.sees(TokenKind::Case) {
            self.selection(cursor)
        } else {
            self.looped(cursor)
        }
    }

    /// A statement that doesn't begin with a name.
    #[tactic(auto, unfolding(crate::specs::steps::Parse::unnamed))]
    pub fn unnamed(&self, cursor: &mut Cursor<'_>) -> Result<Stmt, ParseError>
        requires { NestsStatements self.now.nest (F.pre self.now.statement) (F.post self.now.statement) }
        ensures { Reads (spec.unnamed (spec.nested self.now.nest) (view cursor.old)) result (view cursor.new) }
    {
        if cursor.sees(TokenKind::Return) {
            return_stmt(cursor)
        } else if cursor.sees(TokenKind::Exit) {
            exit_stmt(cursor)
        } else if cursor.sees(TokenKind::Continue) {
            continue_stmt(cursor)
        } else {
            self.structured(cursor)
        }
    }
}

/// A statement that doesn't begin with a name, in which such statements nest less deep than the number.
pub fn statement_at(alloc: Global, cursor: &mut Cursor<'_>, nest: usize) -> Result<Stmt, ParseError>
    ensures { Reads (spec.nested nest (view cursor.old)) result (view cursor.new) }
{
    if nest == 0 {
        return Err(ParseError::TooDeep);
    }
    Block {
        alloc,
        nest: nest - 1,
        statement: statement_at,
    }
    .unnamed(cursor)
}

/// Statements, to any depth.
pub fn statement_list(alloc: Global, cursor: &mut Cursor<'_>) -> Result<Items<Stmt>, ParseError>
    ensures { Reads (spec.statements (view cursor.old)) result (view cursor.new) }
{
    Block {
        alloc,
        nest: NEST,
        statement: statement_at,
    }
    .body(cursor)
}
