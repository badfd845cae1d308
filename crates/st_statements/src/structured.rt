// Structured statements: IF, FOR, WHILE and REPEAT.

ghost use Rattle.std.specs.Prelude.{◌≡◌};
ghost use Rattle.token_grammar.specs.steps.Parsers.{Reads, ReadsTo, view};
ghost use Rattle.st_statements.specs.steps.Parse as spec;
ghost use Rattle.st_statements.specs.steps.Nests.{NestsStatements};

use crate::statements::Block;
use st_expr::{any_expression, identifier, node_at, or_drop};
use st_tree::{Branch, Counter, Expr, Identifier, Stmt};
use std::alloc::Global;
use token_grammar::{Cursor, ParseError, TokenKind};
use tree_items::{Boxed, Items};

/// `[ BY expr ]`
#[tactic(auto, unfolding(crate::specs::steps::Parse::step))]
fn step(alloc: Global, cursor: &mut Cursor<'_>) -> Result<Option<Boxed<Expr>>, ParseError>
    ensures { Reads (spec.step (view cursor.old)) result (view cursor.new) }
{
    if cursor.sees(TokenKind::By) {
        cursor.take(TokenKind::By)?;
        return Ok(Some(any_expression(alloc, cursor)?));
    }
    Ok(None)
}

/// `name ":=" expr`
#[tactic(auto, unfolding(crate::specs::steps::Parse::start))]
fn start(alloc: Global, cursor: &mut Cursor<'_>) -> Result<(Identifier, Boxed<Expr>), ParseError>
    ensures { Reads (spec.start (view cursor.old)) result (view cursor.new) }
{
    let name = identifier(alloc, cursor)?;
    or_drop!(cursor.take(TokenKind::Becomes); name);
    let first = or_drop!(any_expression(alloc, cursor); name);
    Ok((name, first))
}

/// `name ":=" expr TO expr [ BY expr ]`
#[tactic(auto, unfolding(crate::specs::steps::Parse::counter))]
fn counted_by(alloc: Global, cursor: &mut Cursor<'_>) -> Result<Boxed<Counter>, ParseError>
    ensures { Reads (spec.counter (view cursor.old)) result (view cursor.new) }
{
    let (variable, first) = start(alloc, cursor)?;
    or_drop!(cursor.take(TokenKind::To); variable, first);
    let last = or_drop!(any_expression(alloc, cursor); variable, first);
    let step = or_drop!(step(alloc, cursor); variable, first, last);
    let counter = Counter {
        variable,
        first,
        last,
        step,
    };
    Ok(Boxed::new(alloc, counter)?)
}

impl<F: Fn(Global, &mut Cursor<'_>, usize) -> Result<Stmt, ParseError>> Block<F> {
    /// `expr THEN statements`
    #[tactic(auto, unfolding(crate::specs::steps::Parse::guarded))]
    fn guarded(&self, cursor: &mut Cursor<'_>) -> Result<Branch, ParseError>
        requires { NestsStatements self.now.nest (F.pre self.now.statement) (F.post self.now.statement) }
        ensures { Reads (spec.guarded (spec.nested self.now.nest) (view cursor.old)) result (view cursor.new) }
    {
        let condition = any_expression(self.alloc, cursor)?;
        or_drop!(cursor.take(TokenKind::Then); condition);
        let body = or_drop!(self.body(cursor); condition);
        Ok(Branch { condition, body })
    }

    /// `ELSIF expr THEN statements`
    #[tactic(auto, unfolding(crate::specs::steps::Parse::more_branches))]
    fn more_branches(
        &self,
        cursor: &mut Cursor<'_>,
        found: &mut Items<Branch>,
    ) -> Result<(), ParseError>
        requires { NestsStatements self.now.nest (F.pre self.now.statement) (F.post self.now.statement) }
        ensures { ReadsTo (spec.more_branches (spec.nested self.now.nest) found.old (view cursor.old)) result found.new (view cursor.new) }
    {
        cursor.take(TokenKind::Elsif)?;
        found.push(self.guarded(cursor)?)?;
        Ok(())
    }

    /// `expr THEN statements { ELSIF expr THEN statements }`
    #[tactic(auto, unfolding(crate::specs::steps::Parse::some_branches))]
    fn some_branches(&self, cursor: &mut Cursor<'_>) -> Result<Items<Branch>, ParseError>
        requires { NestsStatements self.now.nest (F.pre self.now.statement) (F.post self.now.statement) }
        ensures { Reads (spec.some_branches (spec.nested self.now.nest) (view cursor.old)) result (view cursor.new) }
    {
        let first = self.guarded(cursor)?;
        let mut found = Items::new(self.alloc);
        found.push(first)?;
        for _turn in 0..cursor.rest.len() {
            if !cursor.sees(TokenKind::Elsif) {
                return Ok(found);
            }
            self.more_branches(cursor, &mut found)?;
        }
        Ok(found)
    }

    /// `IF expr THEN statements { ELSIF expr THEN statements } [ ELSE statements ] END_IF`
    #[tactic(auto, unfolding(crate::specs::steps::Parse::choice))]
    pub fn choice(&self, cursor: &mut Cursor<'_>) -> Result<Stmt, ParseError>
        requires { NestsStatements self.now.nest (F.pre self.now.statement) (F.post self.now.statement) }
        ensures { Reads (spec.choice (spec.nested self.now.nest) (view cursor.old)) result (view cursor.new) }
    {
        let depth = cursor.depth;
        let start = cursor.start();
        cursor.enter(TokenKind::If)?;
        let branches = self.some_branches(cursor)?;
        let otherwise = or_drop!(self.otherwise(cursor); branches);
        or_drop!(cursor.take(TokenKind::EndIf); branches, otherwise);
        cursor.depth = depth;
        Ok(Stmt::If(node_at(start, cursor.last), branches, otherwise))
    }

    /// `FOR counter DO statements END_FOR`
    #[tactic(auto, unfolding(crate::specs::steps::Parse::counted))]
    pub fn counted(&self, cursor: &mut Cursor<'_>) -> Result<Stmt, ParseError>
        requires { NestsStatements self.now.nest (F.pre self.now.statement) (F.post self.now.statement) }
        ensures { Reads (spec.counted (spec.nested self.now.nest) (view cursor.old)) result (view cursor.new) }
    {
        let depth = cursor.depth;
        let start = cursor.start();
        cursor.enter(TokenKind::For)?;
        let counter = counted_by(self.alloc, cursor)?;
        or_drop!(cursor.take(TokenKind::Do); counter);
        let body = or_drop!(self.body(cursor); counter);
        or_drop!(cursor.take(TokenKind::EndFor); counter, body);
        cursor.depth = depth;
        Ok(Stmt::For(node_at(start, cursor.last), counter, body))
    }

    /// `WHILE expr DO statements END_WHILE`
    #[tactic(auto, unfolding(crate::specs::steps::Parse::while_stmt))]
    pub fn while_stmt(&self, cursor: &mut Cursor<'_>) -> Result<Stmt, ParseError>
        requires { NestsStatements self.now.nest (F.pre self.now.statement) (F.post self.now.statement) }
        ensures { Reads (spec.while_stmt (spec.nested self.now.nest) (view cursor.old)) result (view cursor.new) }
    {
        let depth = cursor.depth;
        let start = cursor.start();
        cursor.enter(TokenKind::While)?;
        let condition = any_expression(self.alloc, cursor)?;
        or_drop!(cursor.take(TokenKind::Do); condition);
        let body = or_drop!(self.body(cursor); condition);
        or_drop!(cursor.take(TokenKind::EndWhile); condition, body);
        cursor.depth = depth;
        Ok(Stmt::While(node_at(start, cursor.last), condition, body))
    }

    /// `REPEAT statements UNTIL expr END_REPEAT`
    #[tactic(auto, unfolding(crate::specs::steps::Parse::repeat_stmt))]
    pub fn repeat_stmt(&self, cursor: &mut Cursor<'_>) -> Result<Stmt, ParseError>
        requires { NestsStatements self.now.nest (F.pre self.now.statement) (F.post self.now.statement) }
        ensures { Reads (spec.repeat_stmt (spec.nested self.now.nest) (view cursor.old)) result (view cursor.new) }
    {
        let depth = cursor.depth;
        let start = cursor.start();
        cursor.enter(TokenKind::Repeat)?;
        let body = self.body(cursor)?;
        or_drop!(cursor.take(TokenKind::Until); body);
        let condition = or_drop!(any_expression(self.alloc, cursor); body);
        or_drop!(cursor.take(TokenKind::EndRepeat); body, condition);
        cursor.depth = depth;
        Ok(Stmt::Repeat(node_at(start, cursor.last), body, condition))
    }
}
