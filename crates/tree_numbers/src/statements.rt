// The nodes of statements.

ghost use Rattle.std.specs.Prelude.{◌≡◌, map, OnOk};
ghost use Rattle.tree_numbers.specs.steps.Turns.{each};
ghost use Rattle.tree_numbers.specs.steps.Counted.{counted_stmt, counted_branch, counted_case};

use crate::expressions::number_in_expr;
use crate::numbered::{Numbered, number_each, number_option, number_three, number_two};
use crate::numbers::Counting;
use st_tree::{Branch, Case, Counter, Label, Point, Stmt, StmtArgument};
use station_ports::outside::NoMemory;
use tree_items::Items;

impl Numbered for Point {
    ghost use Rattle.tree_numbers.specs.steps.Counted.{counted_point};

    ghost counted = { counted_point };

    fn number(&mut self, counting: &mut Counting<'_>) -> Result<(), NoMemory> {
        match self {
            Point::Number(node, _, _) => counting.number(node),
            Point::Typed(node, _) => counting.number(node),
            Point::Name(name) => name.number(counting),
            Point::Value(node, name, value) => number_three(node, name, value, counting),
        }
    }
}

impl Numbered for Label {
    ghost use Rattle.tree_numbers.specs.steps.Counted.{counted_label};

    ghost counted = { counted_label };

    fn number(&mut self, counting: &mut Counting<'_>) -> Result<(), NoMemory> {
        number_two(&mut self.node, &mut self.first, counting)?;
        number_option(&mut self.last, counting)
    }
}

impl Numbered for StmtArgument {
    ghost use Rattle.tree_numbers.specs.steps.Counted.{counted_stmt_argument};

    ghost counted = { counted_stmt_argument };

    fn number(&mut self, counting: &mut Counting<'_>) -> Result<(), NoMemory> {
        match self {
            StmtArgument::Input(node, name, value) => number_three(node, name, value, counting),
            StmtArgument::Output(node, name, target) => number_three(node, name, target, counting),
        }
    }
}

impl Numbered for Counter {
    ghost use Rattle.tree_numbers.specs.steps.Counted.{counted_counter};

    ghost counted = { counted_counter };

    fn number(&mut self, counting: &mut Counting<'_>) -> Result<(), NoMemory> {
        self.variable.number(counting)?;
        self.first.number(counting)?;
        self.last.number(counting)?;
        number_option(&mut self.step, counting)
    }
}

#[cycle(statement)]
#[tactic(auto, unfolding(crate::specs::steps::Counted::counted_stmt, crate::specs::steps::Counted::counted_branch, crate::specs::steps::Counted::counted_case,))]
pub(crate) fn number_in_stmt(tree: &mut Stmt, counting: &mut Counting<'_>) -> Result<(), NoMemory>
    ensures tree { OnOk result (tree.new ≡ (counted_stmt tree.old counting.old).0) }
    ensures rest { OnOk result (counting.new ≡ (counted_stmt tree.old counting.old).1) }
{
    match tree {
        Stmt::Assign(node, target, value) => number_three(node, target, value, counting),
        Stmt::Call(node, name, arguments) => {
            number_two(node, name, counting)?;
            number_each(arguments, counting)
        }
        Stmt::Return(node) => counting.number(node),
        Stmt::Exit(node) => counting.number(node),
        Stmt::Continue(node) => counting.number(node),
        Stmt::If(node, branches, otherwise) => {
            counting.number(node)?;
            number_in_branches(branches, counting)?;
            match otherwise {
                None => Ok(()),
                Some(body) => number_in_stmts(body, counting),
            }
        }
        Stmt::Case(node, selector, cases, otherwise) => {
            number_two(node, selector, counting)?;
            number_in_cases(cases, counting)?;
            match otherwise {
                None => Ok(()),
                Some(body) => number_in_stmts(body, counting),
            }
        }
        Stmt::For(node, counter, body) => {
            number_two(node, counter, counting)?;
            number_in_stmts(body, counting)
        }
        Stmt::While(node, condition, body) => {
            number_two(node, condition, counting)?;
            number_in_stmts(body, counting)
        }
        Stmt::Repeat(node, body, condition) => {
            counting.number(node)?;
            number_in_stmts(body, counting)?;
            number_in_expr(condition.get_mut(), counting)
        }
    }
}

#[cycle(statement)]
#[tactic(auto, unfolding(crate::specs::steps::Counted::counted_stmt, crate::specs::steps::Counted::counted_branch, crate::specs::steps::Counted::counted_case,))]
fn number_in_branch(tree: &mut Branch, counting: &mut Counting<'_>) -> Result<(), NoMemory>
    ensures tree { OnOk result (tree.new ≡ (counted_branch tree.old counting.old).0) }
    ensures rest { OnOk result (counting.new ≡ (counted_branch tree.old counting.old).1) }
{
    number_in_expr(tree.condition.get_mut(), counting)?;
    number_in_stmts(&mut tree.body, counting)
}

#[cycle(statement)]
#[tactic(auto, unfolding(crate::specs::steps::Counted::counted_stmt, crate::specs::steps::Counted::counted_branch, crate::specs::steps::Counted::counted_case,))]
fn number_in_case(tree: &mut Case, counting: &mut Counting<'_>) -> Result<(), NoMemory>
    ensures tree { OnOk result (tree.new ≡ (counted_case tree.old counting.old).0) }
    ensures rest { OnOk result (counting.new ≡ (counted_case tree.old counting.old).1) }
{
    number_each(&mut tree.labels, counting)?;
    number_in_stmts(&mut tree.body, counting)
}

#[cycle(statement)]
pub(crate) fn number_in_stmts(
    trees: &mut Items<Stmt>,
    counting: &mut Counting<'_>,
) -> Result<(), NoMemory>
    ensures tree { OnOk result (trees.new ≡ (each (map counted_stmt trees.old) counting.old).0) }
    ensures rest { OnOk result (counting.new ≡ (each (map counted_stmt trees.old) counting.old).1) }
{
    number_in_stmt_slice(trees.as_mut_slice(), counting)
}

#[cycle(statement)]
fn number_in_stmt_slice(trees: &mut [Stmt], counting: &mut Counting<'_>) -> Result<(), NoMemory>
    ensures tree { OnOk result (trees.new ≡ (each (map counted_stmt trees.old) counting.old).0) }
    ensures rest { OnOk result (counting.new ≡ (each (map counted_stmt trees.old) counting.old).1) }
{
    for i in 0..trees.len() {
        number_in_stmt(&mut trees[i], counting)?;
    }
    Ok(())
}

#[cycle(statement)]
fn number_in_branches(
    trees: &mut Items<Branch>,
    counting: &mut Counting<'_>,
) -> Result<(), NoMemory>
    ensures tree { OnOk result (trees.new ≡ (each (map counted_branch trees.old) counting.old).0) }
    ensures rest { OnOk result (counting.new ≡ (each (map counted_branch trees.old) counting.old).1) }
{
    number_in_branch_slice(trees.as_mut_slice(), counting)
}

#[cycle(statement)]
fn number_in_branch_slice(trees: &mut [Branch], counting: &mut Counting<'_>) -> Result<(), NoMemory>
    ensures tree { OnOk result (trees.new ≡ (each (map counted_branch trees.old) counting.old).0) }
    ensures rest { OnOk result (counting.new ≡ (each (map counted_branch trees.old) counting.old).1) }
{
    for i in 0..trees.len() {
        number_in_branch(&mut trees[i], counting)?;
    }
    Ok(())
}

#[cycle(statement)]
fn number_in_cases(trees: &mut Items<Case>, counting: &mut Counting<'_>) -> Result<(), NoMemory>
    ensures tree { OnOk result (trees.new ≡ (each (map counted_case trees.old) counting.old).0) }
    ensures rest { OnOk result (counting.new ≡ (each (map counted_case trees.old) counting.old).1) }
{
    number_in_case_slice(trees.as_mut_slice(), counting)
}

#[cycle(statement)]
fn number_in_case_slice(trees: &mut [Case], counting: &mut Counting<'_>) -> Result<(), NoMemory>
    ensures tree { OnOk result (trees.new ≡ (each (map counted_case trees.old) counting.old).0) }
    ensures rest { OnOk result (counting.new ≡ (each (map counted_case trees.old) counting.old).1) }
{
    for i in 0..trees.len() {
        number_in_case(&mut trees[i], counting)?;
    }
    Ok(())
}

impl Numbered for Stmt {
    ghost use Rattle.tree_numbers.specs.steps.Counted.{counted_stmt};

    ghost counted = { counted_stmt };

    fn number(&mut self, counting: &mut Counting<'_>) -> Result<(), NoMemory> {
        number_in_stmt(self, counting)
    }
}
