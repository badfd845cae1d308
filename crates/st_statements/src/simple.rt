// Statements without others within: assignments, calls of instances, RETURN, EXIT and CONTINUE.

ghost use Rattle.std.specs.Prelude.{◌≡◌};
ghost use Rattle.token_grammar.specs.steps.Parsers.{Reads, ReadsTo, view};
ghost use Rattle.st_statements.specs.steps.Parse as spec;
ghost use Rattle.st_statements.specs.steps.ReadTrees as trees;

use st_expr::{any_expression, identifier, located, node_at, or_drop, parts, path};
use st_tree::{Identifier, Node, Part, Path, Root, Stmt, StmtArgument};
use std::alloc::Global;
use token_grammar::{Cursor, ParseError, TokenKind};
use tree_items::Items;

/// The byte after a part.
fn end_of_part(part: &Part) -> usize
    ensures { result ≡ trees.end_of_part part.now }
{
    match part {
        Part::Field(name) => name.node.end,
        Part::Index(node, _) => node.end,
    }
}

/// The byte after the last part, or after the name where there is none.
fn end_of_parts(end: usize, parts: &Items<Part>) -> usize
    ensures { result ≡ trees.end_of_parts end parts.now }
{
    match parts.as_slice().split_last() {
        None => end,
        Some((last, _)) => end_of_part(last),
    }
}

fn path_from(name: Identifier, parts: Items<Part>) -> Path
    ensures { result ≡ trees.path_from name parts }
{
    let node = node_at(name.node.start, end_of_parts(name.node.end, &parts));
    Path {
        node,
        root: Root::Name(name),
        parts,
    }
}

/// A name's node with another end.
fn node_to(name: &Identifier, end: usize) -> Node
    ensures { result ≡ trees.node_to name.now end }
{
    node_at(name.node.start, end)
}

/// `name ":=" expr | name "=>" path`
#[tactic(auto, unfolding(crate::specs::steps::Parse::argument, crate::specs::steps::Parse::input, crate::specs::steps::Parse::output))]
fn argument(alloc: Global, cursor: &mut Cursor<'_>) -> Result<StmtArgument, ParseError>
    ensures { Reads (spec.argument (view cursor.old)) result (view cursor.new) }
{
    let start = cursor.start();
    let name = identifier(alloc, cursor)?;
    if cursor.sees(TokenKind::Becomes) {
        or_drop!(cursor.take(TokenKind::Becomes); name);
        let value = or_drop!(any_expression(alloc, cursor); name);
        return Ok(StmtArgument::Input(node_at(start, cursor.last), name, value));
    }
    or_drop!(cursor.take(TokenKind::Arrow); name);
    let target = or_drop!(path(alloc, cursor); name);
    Ok(StmtArgument::Output(node_at(start, cursor.last), name, target))
}

/// `"," argument`
#[tactic(auto, unfolding(crate::specs::steps::Parse::more_arguments))]
fn more_arguments(
    alloc: Global,
    cursor: &mut Cursor<'_>,
    found: &mut Items<StmtArgument>,
) -> Result<(), ParseError>
    ensures { ReadsTo (spec.more_arguments found.old (view cursor.old)) result found.new (view cursor.new) }
{
    cursor.take(TokenKind::Comma)?;
    found.push(argument(alloc, cursor)?)?;
    Ok(())
}

/// `argument { "," argument }`
#[tactic(auto, unfolding(crate::specs::steps::Parse::some_arguments))]
fn some_arguments(alloc: Global, cursor: &mut Cursor<'_>) -> Result<Items<StmtArgument>, ParseError>
    ensures { Reads (spec.some_arguments (view cursor.old)) result (view cursor.new) }
{
    let first = argument(alloc, cursor)?;
    let mut found = Items::new(alloc);
    found.push(first)?;
    for _turn in 0..cursor.rest.len() {
        if !cursor.sees(TokenKind::Comma) {
            return Ok(found);
        }
        more_arguments(alloc, cursor, &mut found)?;
    }
    Ok(found)
}

/// `[ argument { "," argument } ]`
#[tactic(auto, unfolding(crate::specs::steps::Parse::arguments))]
fn arguments(alloc: Global, cursor: &mut Cursor<'_>) -> Result<Items<StmtArgument>, ParseError>
    ensures { Reads (spec.arguments (view cursor.old)) result (view cursor.new) }
{
    if cursor.sees(TokenKind::Name) {
        some_arguments(alloc, cursor)
    } else {
        Ok(Items::new(alloc))
    }
}

/// `"(" arguments ")"`
#[tactic(auto, unfolding(crate::specs::steps::Parse::called))]
fn called(alloc: Global, cursor: &mut Cursor<'_>) -> Result<Items<StmtArgument>, ParseError>
    ensures { Reads (spec.called (view cursor.old)) result (view cursor.new) }
{
    let depth = cursor.depth;
    cursor.enter(TokenKind::OpenParenthesis)?;
    let found = arguments(alloc, cursor)?;
    or_drop!(cursor.take(TokenKind::CloseParenthesis); found);
    cursor.depth = depth;
    Ok(found)
}

/// Behind a name: `"(" arguments ")" ";"`
#[tactic(auto, unfolding(crate::specs::steps::Parse::call_behind))]
fn call_behind(alloc: Global, cursor: &mut Cursor<'_>, name: Identifier) -> Result<Stmt, ParseError>
    ensures { Reads (spec.call_behind name (view cursor.old)) result (view cursor.new) }
{
    let found = or_drop!(called(alloc, cursor); name);
    let last = or_drop!(cursor.take(TokenKind::Semicolon); name, found);
    Ok(Stmt::Call(node_to(&name, last.end), name, found))
}

/// Behind a name: `{ part } ":=" expr ";"`
#[tactic(auto, unfolding(crate::specs::steps::Parse::assign_behind))]
fn assign_behind(
    alloc: Global,
    cursor: &mut Cursor<'_>,
    name: Identifier,
) -> Result<Stmt, ParseError>
    ensures { Reads (spec.assign_behind name (view cursor.old)) result (view cursor.new) }
{
    let found = or_drop!(parts(alloc, cursor); name);
    or_drop!(cursor.take(TokenKind::Becomes); name, found);
    let value = or_drop!(any_expression(alloc, cursor); name, found);
    let last = or_drop!(cursor.take(TokenKind::Semicolon); name, found, value);
    let node = node_to(&name, last.end);
    Ok(Stmt::Assign(node, path_from(name, found), value))
}

/// Behind a name, a call or an assignment.
#[tactic(auto, unfolding(crate::specs::steps::Parse::behind_name))]
pub fn behind_name(
    alloc: Global,
    cursor: &mut Cursor<'_>,
    name: Identifier,
) -> Result<Stmt, ParseError>
    ensures { Reads (spec.behind_name name (view cursor.old)) result (view cursor.new) }
{
    if cursor.sees(TokenKind::OpenParenthesis) {
        call_behind(alloc, cursor, name)
    } else {
        assign_behind(alloc, cursor, name)
    }
}

/// A call or an assignment that begins with a name.
#[tactic(auto, unfolding(crate::specs::steps::Parse::named))]
pub fn named(alloc: Global, cursor: &mut Cursor<'_>) -> Result<Stmt, ParseError>
    ensures { Reads (spec.named (view cursor.old)) result (view cursor.new) }
{
    let name = identifier(alloc, cursor)?;
    behind_name(alloc, cursor, name)
}

/// `address { part } ":=" expr ";"`
#[tactic(auto, unfolding(crate::specs::steps::Parse::assign))]
pub fn assign(alloc: Global, cursor: &mut Cursor<'_>) -> Result<Stmt, ParseError>
    ensures { Reads (spec.assign (view cursor.old)) result (view cursor.new) }
{
    let start = cursor.start();
    let target = located(alloc, cursor)?;
    or_drop!(cursor.take(TokenKind::Becomes); target);
    let value = or_drop!(any_expression(alloc, cursor); target);
    or_drop!(cursor.take(TokenKind::Semicolon); target, value);
    Ok(Stmt::Assign(node_at(start, cursor.last), target, value))
}

/// `RETURN ";"`
#[tactic(auto, unfolding(crate::specs::steps::Parse::return_stmt))]
pub fn return_stmt(cursor: &mut Cursor<'_>) -> Result<Stmt, ParseError>
    ensures { Reads (spec.return_stmt (view cursor.old)) result (view cursor.new) }
{
    let start = cursor.start();
    cursor.take(TokenKind::Return)?;
    cursor.take(TokenKind::Semicolon)?;
    Ok(Stmt::Return(node_at(start, cursor.last)))
}

/// `EXIT ";"`
#[tactic(auto, unfolding(crate::specs::steps::Parse::exit_stmt))]
pub fn exit_stmt(cursor: &mut Cursor<'_>) -> Result<Stmt, ParseError>
    ensures { Reads (spec.exit_stmt (view cursor.old)) result (view cursor.new) }
{
    let start = cursor.start();
    cursor.take(TokenKind::Exit)?;
    cursor.take(TokenKind::Semicolon)?;
    Ok(Stmt::Exit(node_at(start, cursor.last)))
}

/// `CONTINUE ";"`
#[tactic(auto, unfolding(crate::specs::steps::Parse::continue_stmt))]
pub fn continue_stmt(cursor: &mut Cursor<'_>) -> Result<Stmt, ParseError>
    ensures { Reads (spec.continue_stmt (view cursor.old)) result (view cursor.new) }
{
    let start = cursor.start();
    cursor.take(TokenKind::Continue)?;
    cursor.take(TokenKind::Semicolon)?;
    Ok(Stmt::Continue(node_at(start, cursor.last)))
}
