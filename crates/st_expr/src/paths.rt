// Variables and parts of them.

ghost use Rattle.std.specs.Prelude.{◌≡◌};
ghost use Rattle.token_grammar.specs.steps.Parsers.{Reads, ReadsTo, view};
ghost use Rattle.st_expr.specs.steps.Parse as spec;
ghost use Rattle.st_expr.specs.steps.Nests.{Nests};

use crate::expressions::Grammar;
use crate::names::{address, identifier, node_at};
use crate::or_drop;
use st_tree::{Expr, Part, Path, Root};
use std::alloc::Global;
use token_grammar::{Cursor, ParseError, TokenKind};
use tree_items::{Boxed, Items};

/// Whether a part of a path comes next.
#[tactic(auto, unfolding(crate::specs::steps::Parse::sees_part))]
fn sees_part(cursor: &Cursor<'_>) -> bool
    ensures { result ≡ spec.sees_part (view cursor.now).rest }
{
    cursor.sees(TokenKind::Dot) || cursor.sees(TokenKind::OpenBracket)
}

/// `"." name`
#[tactic(auto, unfolding(crate::specs::steps::Parse::field))]
fn field(alloc: Global, cursor: &mut Cursor<'_>) -> Result<Part, ParseError>
    ensures { Reads (spec.field (view cursor.old)) result (view cursor.new) }
{
    cursor.take(TokenKind::Dot)?;
    Ok(Part::Field(identifier(alloc, cursor)?))
}

impl<F: Fn(Global, &mut Cursor<'_>, usize) -> Result<Boxed<Expr>, ParseError>> Grammar<F> {
    /// `"," expr`
    #[tactic(auto, unfolding(crate::specs::steps::Parse::more_exprs))]
    fn more_exprs(&self, cursor: &mut Cursor<'_>, found: &mut Items<Expr>) -> Result<(), ParseError>
        requires { Nests self.now.nest (F.pre self.now.expr) (F.post self.now.expr) }
        ensures { ReadsTo (spec.more_exprs (spec.nested self.now.nest) found.old (view cursor.old)) result found.new (view cursor.new) }
    {
        cursor.take(TokenKind::Comma)?;
        found.push(self.expr(cursor)?.into_inner())?;
        Ok(())
    }

    /// `expr { "," expr }`
    #[tactic(auto, unfolding(crate::specs::steps::Parse::exprs))]
    fn exprs(&self, cursor: &mut Cursor<'_>) -> Result<Items<Expr>, ParseError>
        requires { Nests self.now.nest (F.pre self.now.expr) (F.post self.now.expr) }
        ensures { Reads (spec.exprs (spec.nested self.now.nest) (view cursor.old)) result (view cursor.new) }
    {
        let mut found = Items::new(self.alloc);
        found.push(self.expr(cursor)?.into_inner())?;
        for _turn in 0..cursor.rest.len() {
            if !cursor.sees(TokenKind::Comma) {
                return Ok(found);
            }
            self.more_exprs(cursor, &mut found)?;
        }
        Ok(found)
    }

    /// `"[" expr { "," expr } "]"`
    #[tactic(auto, unfolding(crate::specs::steps::Parse::index))]
    fn index(&self, cursor: &mut Cursor<'_>) -> Result<Part, ParseError>
        requires { Nests self.now.nest (F.pre self.now.expr) (F.post self.now.expr) }
        ensures { Reads (spec.index (spec.nested self.now.nest) (view cursor.old)) result (view cursor.new) }
    {
        let start = cursor.start();
        let depth = cursor.depth;
        cursor.enter(TokenKind::OpenBracket)?;
        let found = self.exprs(cursor)?;
        or_drop!(cursor.take(TokenKind::CloseBracket); found);
        cursor.depth = depth;
        Ok(Part::Index(node_at(start, cursor.last), found))
    }

    #[tactic(auto, unfolding(crate::specs::steps::Parse::one_part))]
    fn one_part(&self, cursor: &mut Cursor<'_>) -> Result<Part, ParseError>
        requires { Nests self.now.nest (F.pre self.now.expr) (F.post self.now.expr) }
        ensures { Reads (spec.one_part (spec.nested self.now.nest) (view cursor.old)) result (view cursor.new) }
    {
        if cursor.sees(TokenKind::Dot) {
            field(self.alloc, cursor)
        } else {
            self.index(cursor)
        }
    }

    #[tactic(auto, unfolding(crate::specs::steps::Parse::more_parts))]
    fn more_parts(&self, cursor: &mut Cursor<'_>, found: &mut Items<Part>) -> Result<(), ParseError>
        requires { Nests self.now.nest (F.pre self.now.expr) (F.post self.now.expr) }
        ensures { ReadsTo (spec.more_parts (spec.nested self.now.nest) found.old (view cursor.old)) result found.new (view cursor.new) }
    {
        found.push(self.one_part(cursor)?)?;
        Ok(())
    }

    /// `{ "." name | "[" expr { "," expr } "]" }`
    #[tactic(auto, unfolding(crate::specs::steps::Parse::parts))]
    pub fn parts(&self, cursor: &mut Cursor<'_>) -> Result<Items<Part>, ParseError>
        requires { Nests self.now.nest (F.pre self.now.expr) (F.post self.now.expr) }
        ensures { Reads (spec.parts (spec.nested self.now.nest) (view cursor.old)) result (view cursor.new) }
    {
        let mut found = Items::new(self.alloc);
        for _turn in 0..cursor.rest.len() {
            if !sees_part(cursor) {
                return Ok(found);
            }
            self.more_parts(cursor, &mut found)?;
        }
        Ok(found)
    }

    #[tactic(auto, unfolding(crate::specs::steps::Parse::any_root))]
    fn any_root(&self, cursor: &mut Cursor<'_>) -> Result<Root, ParseError>
        ensures { Reads (spec.any_root (view cursor.old)) result (view cursor.new) }
    {
        if cursor.sees(TokenKind::Name) {
            Ok(Root::Name(identifier(self.alloc, cursor)?))
        } else {
            Ok(Root::Address(address(self.alloc, cursor)?))
        }
    }

    /// `( name | address ) { part }`
    #[tactic(auto, unfolding(crate::specs::steps::Parse::path))]
    pub fn path(&self, cursor: &mut Cursor<'_>) -> Result<Path, ParseError>
        requires { Nests self.now.nest (F.pre self.now.expr) (F.post self.now.expr) }
        ensures { Reads (spec.path (spec.nested self.now.nest) (view cursor.old)) result (view cursor.new) }
    {
        let start = cursor.start();
        let root = self.any_root(cursor)?;
        let parts = or_drop!(self.parts(cursor); root);
        Ok(Path {
            node: node_at(start, cursor.last),
            root,
            parts,
        })
    }

    /// `address { part }`
    #[tactic(auto, unfolding(crate::specs::steps::Parse::located))]
    pub fn located(&self, cursor: &mut Cursor<'_>) -> Result<Path, ParseError>
        requires { Nests self.now.nest (F.pre self.now.expr) (F.post self.now.expr) }
        ensures { Reads (spec.located (spec.nested self.now.nest) (view cursor.old)) result (view cursor.new) }
    {
        let start = cursor.start();
        let root = Root::Address(address(self.alloc, cursor)?);
        let parts = or_drop!(self.parts(cursor); root);
        Ok(Path {
            node: node_at(start, cursor.last),
            root,
            parts,
        })
    }
}
