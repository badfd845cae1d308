// CASE. Labels and statements that begin with a name are told apart behind the name, so the branches are read as one list.

ghost use Rattle.std.specs.Prelude.{◌≡◌, IfOk};
ghost use Rattle.token_grammar.specs.steps.Parsers.{Reads, ReadsAs, view};
ghost use Rattle.st_statements.specs.steps.Parse as spec;
ghost use Rattle.st_statements.specs.steps.ReadTrees as trees;
ghost use Rattle.st_statements.specs.steps.Held.{branches_of};
ghost use Rattle.st_statements.specs.steps.Nests.{NestsStatements};

use crate::labels::{labels, labels_behind, point_behind, value_point};
use crate::simple::behind_name;
use crate::statements::{Block, sees_unnamed};
use st_expr::{any_expression, identifier, node_at, or_drop};
use st_tree::{Case, Identifier, Label, Stmt};
use std::alloc::{AllocError, Global};
use token_grammar::{Cursor, ParseError, TokenKind};
use tree_items::Items;

/// The branches that were read: those that are whole, and the last one.
#[derive(Drop)]
struct Branches {
    done: Items<Case>,
    labels: Items<Label>,
    body: Items<Stmt>,
}

/// Whether a label comes next that is no name.
#[tactic(auto, unfolding(crate::specs::steps::Parse::sees_value))]
fn sees_value(cursor: &Cursor<'_>) -> bool
    ensures { result ≡ spec.sees_value (view cursor.now).rest }
{
    cursor.sees(TokenKind::Minus)
        || (cursor.sees(TokenKind::Number) || cursor.sees(TokenKind::TypedNumber))
}

/// Whether, behind a name, a label goes on.
#[tactic(auto, unfolding(crate::specs::steps::Parse::sees_label))]
fn sees_label(cursor: &Cursor<'_>) -> bool
    ensures { result ≡ spec.sees_label (view cursor.now).rest }
{
    cursor.sees(TokenKind::Hash)
        || (cursor.sees(TokenKind::DotDot)
            || (cursor.sees(TokenKind::Comma) || cursor.sees(TokenKind::Colon)))
}

/// Whether a label or a statement comes next.
#[tactic(auto, unfolding(crate::specs::steps::Parse::sees_case_item))]
fn sees_case_item(cursor: &Cursor<'_>) -> bool
    ensures { result ≡ spec.sees_case_item (view cursor.now).rest }
{
    cursor.sees(TokenKind::Semicolon)
        || (cursor.sees(TokenKind::Name) || (sees_value(cursor) || sees_unnamed(cursor)))
}

impl Branches {
    fn new(alloc: Global, labels: Items<Label>) -> Self
        ensures { branches_of result ≡ trees.labelled labels }
    {
        Branches {
            done: Items::new(alloc),
            labels,
            body: Items::new(alloc),
        }
    }

    /// One more branch, behind the others.
    fn begin(self, alloc: Global, labels: Items<Label>) -> Result<Branches, AllocError>
        ensures { IfOk result (λ b. branches_of b ≡ trees.with_labels (branches_of self) labels) }
    {
        Ok(Branches {
            done: self.close()?,
            labels,
            body: Items::new(alloc),
        })
    }

    /// One more statement in the last branch.
    fn add(mut self, statement: Stmt) -> Result<Branches, AllocError>
        ensures { IfOk result (λ b. branches_of b ≡ trees.with_stmt (branches_of self) statement) }
    {
        self.body.push(statement)?;
        Ok(self)
    }

    /// All of them.
    fn close(self) -> Result<Items<Case>, AllocError>
        ensures { IfOk result (λ found. found ≡ trees.closed (branches_of self)) }
    {
        let Branches {
            mut done,
            labels,
            body,
        } = self;
        done.push(Case { labels, body })?;
        Ok(done)
    }
}

impl<F: Fn(Global, &mut Cursor<'_>, usize) -> Result<Stmt, ParseError>> Block<F> {
    /// Labels of which the first begins with a name that was read.
    #[tactic(auto, unfolding(crate::specs::steps::Parse::label_case))]
    fn label_case(
        &self,
        cursor: &mut Cursor<'_>,
        found: Branches,
        name: Identifier,
    ) -> Result<Branches, ParseError>
        ensures { ReadsAs branches_of (spec.label_case (spec.nested self.now.nest) (branches_of found) name
            (view cursor.old)) result (view cursor.new) }
    {
        let first = or_drop!(point_behind(self.alloc, cursor, name); found);
        let labels = or_drop!(labels_behind(self.alloc, cursor, first); found);
        Ok(found.begin(self.alloc, labels)?)
    }

    /// Behind a name: labels, or a statement.
    #[tactic(auto, unfolding(crate::specs::steps::Parse::case_behind))]
    fn case_behind(
        &self,
        cursor: &mut Cursor<'_>,
        found: Branches,
        name: Identifier,
    ) -> Result<Branches, ParseError>
        ensures { ReadsAs branches_of (spec.case_behind (spec.nested self.now.nest) (branches_of found) name
            (view cursor.old)) result (view cursor.new) }
    {
        if sees_label(cursor) {
            return self.label_case(cursor, found, name);
        }
        let statement = or_drop!(behind_name(self.alloc, cursor, name); found);
        Ok(found.add(statement)?)
    }

    /// Labels of which the first is no name.
    #[tactic(auto, unfolding(crate::specs::steps::Parse::value_case))]
    fn value_case(&self, cursor: &mut Cursor<'_>, found: Branches) -> Result<Branches, ParseError>
        ensures { ReadsAs branches_of (spec.value_case (spec.nested self.now.nest) (branches_of found)
            (view cursor.old)) result (view cursor.new) }
    {
        let first = or_drop!(value_point(self.alloc, cursor); found);
        let labels = or_drop!(labels_behind(self.alloc, cursor, first); found);
        Ok(found.begin(self.alloc, labels)?)
    }

    /// An empty statement, labels, or a statement.
    #[tactic(auto, unfolding(crate::specs::steps::Parse::case_item))]
    fn case_item(&self, cursor: &mut Cursor<'_>, found: Branches) -> Result<Branches, ParseError>
        requires { NestsStatements self.now.nest (F.pre self.now.statement) (F.post self.now.statement) }
        ensures { ReadsAs branches_of (spec.case_item (spec.nested self.now.nest) (branches_of found)
            (view cursor.old)) result (view cursor.new) }
    {
        if cursor.sees(TokenKind::Semicolon) {
            or_drop!(cursor.take(TokenKind::Semicolon); found);
            return Ok(found);
        }
        if cursor.sees(TokenKind::Name) {
            let name = or_drop!(identifier(self.alloc, cursor); found);
            return self.case_behind(cursor, found, name);
        }
        if sees_value(cursor) {
            return self.value_case(cursor, found);
        }
        let statement = or_drop!(self.statement(cursor); found);
        Ok(found.add(statement)?)
    }

    /// What follows the first labels.
    #[tactic(auto, unfolding(crate::specs::steps::Parse::case_items))]
    fn case_items(
        &self,
        cursor: &mut Cursor<'_>,
        labels: Items<Label>,
    ) -> Result<Branches, ParseError>
        requires { NestsStatements self.now.nest (F.pre self.now.statement) (F.post self.now.statement) }
        ensures { ReadsAs branches_of (spec.case_items (spec.nested self.now.nest) labels (view cursor.old)) result (view cursor.new) }
    {
        let mut found = Branches::new(self.alloc, labels);
        for _turn in 0..cursor.rest.len() {
            if !sees_case_item(cursor) {
                return Ok(found);
            }
            found = self.case_item(cursor, found)?;
        }
        Ok(found)
    }

    /// `labels { labels }`
    #[tactic(auto, unfolding(crate::specs::steps::Parse::branches))]
    fn branches(&self, cursor: &mut Cursor<'_>) -> Result<Items<Case>, ParseError>
        requires { NestsStatements self.now.nest (F.pre self.now.statement) (F.post self.now.statement) }
        ensures { Reads (spec.branches (spec.nested self.now.nest) (view cursor.old)) result (view cursor.new) }
    {
        let first = labels(self.alloc, cursor)?;
        let found = self.case_items(cursor, first)?;
        Ok(found.close()?)
    }

    /// `CASE expr OF labels { labels } [ ELSE statements ] END_CASE`
    #[tactic(auto, unfolding(crate::specs::steps::Parse::selection))]
    pub fn selection(&self, cursor: &mut Cursor<'_>) -> Result<Stmt, ParseError>
        requires { NestsStatements self.now.nest (F.pre self.now.statement) (F.post self.now.statement) }
        ensures { Reads (spec.selection (spec.nested self.now.nest) (view cursor.old)) result (view cursor.new) }
    {
        let depth = cursor.depth;
        let start = cursor.start();
        cursor.enter(TokenKind::Case)?;
        let selector = any_expression(self.alloc, cursor)?;
        or_drop!(cursor.take(TokenKind::Of); selector);
        let found = or_drop!(self.branches(cursor); selector);
        let otherwise = or_drop!(self.otherwise(cursor); selector, found);
        or_drop!(cursor.take(TokenKind::EndCase); selector, found, otherwise);
        cursor.depth = depth;
        Ok(Stmt::Case(node_at(start, cursor.last), selector, found, otherwise))
    }
}
