// Copies of statements.

ghost use Rattle.std.specs.Prelude.{◌≡◌, IfOk};

use crate::copied::Copied;
use crate::results::{both, four, three};
use st_tree::{Branch, Case, Counter, Label, Point, Stmt, StmtArgument};
use station_ports::outside::NoMemory;
use std::alloc::Global;
use tree_items::Items;

impl Copied for Point {
    fn copy(&self, alloc: Global) -> Result<Self, NoMemory> {
        match self {
            Point::Number(node, minus, text) => Ok(Point::Number(*node, *minus, text.copy(alloc)?)),
            Point::Typed(node, text) => Ok(Point::Typed(*node, text.copy(alloc)?)),
            Point::Name(name) => Ok(Point::Name(name.copy(alloc)?)),
            Point::Value(node, name, value) => {
                let (name, value) = both(name.copy(alloc), value.copy(alloc))?;
                Ok(Point::Value(*node, name, value))
            }
        }
    }
}

impl Copied for Label {
    fn copy(&self, alloc: Global) -> Result<Self, NoMemory> {
        let (first, last) = both(self.first.copy(alloc), self.last.copy(alloc))?;
        Ok(Label {
            node: self.node,
            first,
            last,
        })
    }
}

impl Copied for StmtArgument {
    fn copy(&self, alloc: Global) -> Result<Self, NoMemory> {
        match self {
            StmtArgument::Input(node, name, value) => {
                let (name, value) = both(name.copy(alloc), value.copy(alloc))?;
                Ok(StmtArgument::Input(*node, name, value))
            }
            StmtArgument::Output(node, name, target) => {
                let (name, target) = both(name.copy(alloc), target.copy(alloc))?;
                Ok(StmtArgument::Output(*node, name, target))
            }
        }
    }
}

impl Copied for Counter {
    fn copy(&self, alloc: Global) -> Result<Self, NoMemory> {
        let (variable, first, last, step) = four(
            self.variable.copy(alloc),
            self.first.copy(alloc),
            self.last.copy(alloc),
            self.step.copy(alloc),
        )?;
        Ok(Counter {
            variable,
            first,
            last,
            step,
        })
    }
}

#[cycle(statement)]
fn copy_stmt(alloc: Global, tree: &Stmt) -> Result<Stmt, NoMemory>
    ensures { IfOk result (λ t. t ≡ tree.now) }
{
    match tree {
        Stmt::Assign(node, target, value) => {
            let (target, value) = both(target.copy(alloc), value.copy(alloc))?;
            Ok(Stmt::Assign(*node, target, value))
        }
        Stmt::Call(node, name, arguments) => {
            let (name, arguments) = both(name.copy(alloc), arguments.copy(alloc))?;
            Ok(Stmt::Call(*node, name, arguments))
        }
        Stmt::Return(node) => Ok(Stmt::Return(*node)),
        Stmt::Exit(node) => Ok(Stmt::Exit(*node)),
        Stmt::Continue(node) => Ok(Stmt::Continue(*node)),
        Stmt::If(node, branches, otherwise) => {
            let (branches, otherwise) = both(
                copy_branches(alloc, branches.as_slice()),
                copy_else(alloc, otherwise),
            )?;
            Ok(Stmt::If(*node, branches, otherwise))
        }
        Stmt::Case(node, selector, cases, otherwise) => {
            let (selector, cases, otherwise) = three(
                selector.copy(alloc),
                copy_cases(alloc, cases.as_slice()),
                copy_else(alloc, otherwise),
            )?;
            Ok(Stmt::Case(*node, selector, cases, otherwise))
        }
        Stmt::For(node, counter, body) => {
            let (counter, body) = both(counter.copy(alloc), copy_stmts(alloc, body.as_slice()))?;
            Ok(Stmt::For(*node, counter, body))
        }
        Stmt::While(node, condition, body) => {
            let (condition, body) = both(
                condition.copy(alloc),
                copy_stmts(alloc, body.as_slice()),
            )?;
            Ok(Stmt::While(*node, condition, body))
        }
        Stmt::Repeat(node, body, condition) => {
            let (body, condition) = both(
                copy_stmts(alloc, body.as_slice()),
                condition.copy(alloc),
            )?;
            Ok(Stmt::Repeat(*node, body, condition))
        }
    }
}

#[cycle(statement)]
fn copy_branch(alloc: Global, tree: &Branch) -> Result<Branch, NoMemory>
    ensures { IfOk result (λ t. t ≡ tree.now) }
{
    let (condition, body) = both(
        tree.condition.copy(alloc),
        copy_stmts(alloc, tree.body.as_slice()),
    )?;
    Ok(Branch { condition, body })
}

#[cycle(statement)]
fn copy_case(alloc: Global, tree: &Case) -> Result<Case, NoMemory>
    ensures { IfOk result (λ t. t ≡ tree.now) }
{
    let (labels, body) = both(
        tree.labels.copy(alloc),
        copy_stmts(alloc, tree.body.as_slice()),
    )?;
    Ok(Case { labels, body })
}

#[cycle(statement)]
fn copy_stmts(alloc: Global, trees: &[Stmt]) -> Result<Items<Stmt>, NoMemory>
    ensures { IfOk result (λ t. t ≡ trees.now) }
{
    let mut made = Items::new(alloc);
    for tree in trees {
        made.push(copy_stmt(alloc, tree)?)?;
    }
    Ok(made)
}

#[cycle(statement)]
fn copy_branches(alloc: Global, trees: &[Branch]) -> Result<Items<Branch>, NoMemory>
    ensures { IfOk result (λ t. t ≡ trees.now) }
{
    let mut made = Items::new(alloc);
    for tree in trees {
        made.push(copy_branch(alloc, tree)?)?;
    }
    Ok(made)
}

#[cycle(statement)]
fn copy_cases(alloc: Global, trees: &[Case]) -> Result<Items<Case>, NoMemory>
    ensures { IfOk result (λ t. t ≡ trees.now) }
{
    let mut made = Items::new(alloc);
    for tree in trees {
        made.push(copy_case(alloc, tree)?)?;
    }
    Ok(made)
}

#[cycle(statement)]
fn copy_else(alloc: Global, trees: &Option<Items<Stmt>>) -> Result<Option<Items<Stmt>>, NoMemory>
    ensures { IfOk result (λ t. t ≡ trees.now) }
{
    match trees {
        None => Ok(None),
        Some(trees) => Ok(Some(copy_stmts(alloc, trees.as_slice())?)),
    }
}

impl Copied for Stmt {
    fn copy(&self, alloc: Global) -> Result<Self, NoMemory> {
        copy_stmt(alloc, self)
    }
}

impl Copied for Branch {
    fn copy(&self, alloc: Global) -> Result<Self, NoMemory> {
        copy_branch(alloc, self)
    }
}

impl Copied for Case {
    fn copy(&self, alloc: Global) -> Result<Self, NoMemory> {
        copy_case(alloc, self)
    }
}
