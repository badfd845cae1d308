// The nodes of expressions.

ghost use Rattle.std.specs.Prelude.{◌≡◌, map, OnOk};
ghost use Rattle.tree_numbers.specs.steps.Turns.{each};
ghost use Rattle.tree_numbers.specs.steps.Counted.{counted_expr, counted_part, counted_argument, counted_path};

use crate::numbered::{Numbered, number_option, number_three, number_two};
use crate::numbers::Counting;
use st_tree::{Address, Argument, Expr, Identifier, Part, Path, Root};
use station_ports::outside::NoMemory;

impl Numbered for Identifier {
    ghost use Rattle.tree_numbers.specs.steps.Counted.{counted_identifier};

    ghost counted = { counted_identifier };

    fn number(&mut self, counting: &mut Counting<'_>) -> Result<(), NoMemory> {
        counting.number(&mut self.node)
    }
}

impl Numbered for Address {
    ghost use Rattle.tree_numbers.specs.steps.Counted.{counted_address};

    ghost counted = { counted_address };

    fn number(&mut self, counting: &mut Counting<'_>) -> Result<(), NoMemory> {
        counting.number(&mut self.node)
    }
}

impl Numbered for Root {
    ghost use Rattle.tree_numbers.specs.steps.Counted.{counted_root};

    ghost counted = { counted_root };

    fn number(&mut self, counting: &mut Counting<'_>) -> Result<(), NoMemory> {
        match self {
            Root::Name(name) => name.number(counting),
            Root::Address(address) => address.number(counting),
        }
    }
}

#[cycle(expression)]
#[tactic(auto, unfolding(crate::specs::steps::Counted::counted_expr, crate::specs::steps::Counted::counted_part, crate::specs::steps::Counted::counted_argument, crate::specs::steps::Counted::counted_path,))]
pub(crate) fn number_in_expr(tree: &mut Expr, counting: &mut Counting<'_>) -> Result<(), NoMemory>
    ensures tree { OnOk result (tree.new ≡ (counted_expr tree.old counting.old).0) }
    ensures rest { OnOk result (counting.new ≡ (counted_expr tree.old counting.old).1) }
{
    match tree {
        Expr::Number(node, _, _) => counting.number(node),
        Expr::Typed(node, _) => counting.number(node),
        Expr::Time(node, _) => counting.number(node),
        Expr::Truth(node, _) => counting.number(node),
        Expr::Path(path) => number_in_path(path, counting),
        Expr::Value(node, name, value) => number_three(node, name, value, counting),
        Expr::Parenthesized(node, inner) => {
            counting.number(node)?;
            number_in_expr(inner.get_mut(), counting)
        }
        Expr::Unary(node, _, operand) => {
            counting.number(node)?;
            number_in_expr(operand.get_mut(), counting)
        }
        Expr::Binary(node, _, left, right) => {
            counting.number(node)?;
            number_in_expr(left.get_mut(), counting)?;
            number_in_expr(right.get_mut(), counting)
        }
        Expr::Call(node, name, arguments) => {
            number_two(node, name, counting)?;
            number_in_arguments(arguments.as_mut_slice(), counting)
        }
    }
}

#[cycle(expression)]
#[tactic(auto, unfolding(crate::specs::steps::Counted::counted_expr, crate::specs::steps::Counted::counted_part, crate::specs::steps::Counted::counted_argument, crate::specs::steps::Counted::counted_path,))]
fn number_in_part(tree: &mut Part, counting: &mut Counting<'_>) -> Result<(), NoMemory>
    ensures tree { OnOk result (tree.new ≡ (counted_part tree.old counting.old).0) }
    ensures rest { OnOk result (counting.new ≡ (counted_part tree.old counting.old).1) }
{
    match tree {
        Part::Field(name) => name.number(counting),
        Part::Index(node, indices) => {
            counting.number(node)?;
            number_in_exprs(indices.as_mut_slice(), counting)
        }
    }
}

#[cycle(expression)]
#[tactic(auto, unfolding(crate::specs::steps::Counted::counted_expr, crate::specs::steps::Counted::counted_part, crate::specs::steps::Counted::counted_argument, crate::specs::steps::Counted::counted_path,))]
fn number_in_argument(tree: &mut Argument, counting: &mut Counting<'_>) -> Result<(), NoMemory>
    ensures tree { OnOk result (tree.new ≡ (counted_argument tree.old counting.old).0) }
    ensures rest { OnOk result (counting.new ≡ (counted_argument tree.old counting.old).1) }
{
    counting.number(&mut tree.node)?;
    number_option(&mut tree.name, counting)?;
    number_in_expr(tree.value.get_mut(), counting)
}

#[cycle(expression)]
#[tactic(auto, unfolding(crate::specs::steps::Counted::counted_expr, crate::specs::steps::Counted::counted_part, crate::specs::steps::Counted::counted_argument, crate::specs::steps::Counted::counted_path,))]
pub(crate) fn number_in_path(tree: &mut Path, counting: &mut Counting<'_>) -> Result<(), NoMemory>
    ensures tree { OnOk result (tree.new ≡ (counted_path tree.old counting.old).0) }
    ensures rest { OnOk result (counting.new ≡ (counted_path tree.old counting.old).1) }
{
    counting.number(&mut tree.node)?;
    tree.root.number(counting)?;
    number_in_parts(tree.parts.as_mut_slice(), counting)
}

#[cycle(expression)]
fn number_in_exprs(trees: &mut [Expr], counting: &mut Counting<'_>) -> Result<(), NoMemory>
    ensures tree { OnOk result (trees.new ≡ (each (map counted_expr trees.old) counting.old).0) }
    ensures rest { OnOk result (counting.new ≡ (each (map counted_expr trees.old) counting.old).1) }
{
    for i in 0..trees.len() {
        number_in_expr(&mut trees[i], counting)?;
    }
    Ok(())
}

#[cycle(expression)]
fn number_in_parts(trees: &mut [Part], counting: &mut Counting<'_>) -> Result<(), NoMemory>
    ensures tree { OnOk result (trees.new ≡ (each (map counted_part trees.old) counting.old).0) }
    ensures rest { OnOk result (counting.new ≡ (each (map counted_part trees.old) counting.old).1) }
{
    for i in 0..trees.len() {
        number_in_part(&mut trees[i], counting)?;
    }
    Ok(())
}

#[cycle(expression)]
fn number_in_arguments(trees: &mut [Argument], counting: &mut Counting<'_>) -> Result<(), NoMemory>
    ensures tree { OnOk result (trees.new ≡ (each (map counted_argument trees.old) counting.old).0) }
    ensures rest { OnOk result (counting.new ≡ (each (map counted_argument trees.old) counting.old).1) }
{
    for i in 0..trees.len() {
        number_in_argument(&mut trees[i], counting)?;
    }
    Ok(())
}

impl Numbered for Path {
    ghost use Rattle.tree_numbers.specs.steps.Counted.{counted_path};

    ghost counted = { counted_path };

    fn number(&mut self, counting: &mut Counting<'_>) -> Result<(), NoMemory> {
        number_in_path(self, counting)
    }
}

impl Numbered for Expr {
    ghost use Rattle.tree_numbers.specs.steps.Counted.{counted_expr};

    ghost counted = { counted_expr };

    fn number(&mut self, counting: &mut Counting<'_>) -> Result<(), NoMemory> {
        number_in_expr(self, counting)
    }
}
