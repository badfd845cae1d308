// Trees whose nodes are numbered, and lists of them.

ghost use Rattle.std.specs.Prelude.{◌≡◌, map, OnOk};
ghost use Rattle.std.specs.Option.{option_map};
ghost use Rattle.tree_numbers.specs.steps.Counted.{counted as counted_node};
ghost use Rattle.tree_numbers.specs.steps.Turns.{Turn, each, perhaps};

use crate::numbers::Counting;
use st_tree::Node;
use station_ports::outside::NoMemory;
use tree_items::{Boxed, Items};

/// A tree whose nodes are numbered in the order of the text, an outer node before the nodes within
/// it.
pub(crate) trait Numbered {
    /// The tree with its nodes numbered, and the counter behind them.
    ghost counted: { Self → Turn Self };

    /// Gives each node its number. NoMemory where one is past 2^32 - 1, or there is none to note a
    /// node.
    fn number(&mut self, counting: &mut Counting<'_>) -> Result<(), NoMemory>
        ensures tree { OnOk result (self.new ≡ (counted self.old counting.old).0) }
        ensures rest { OnOk result (counting.new ≡ (counted self.old counting.old).1) };
}

fn number_slice<T: Numbered>(trees: &mut [T], counting: &mut Counting<'_>) -> Result<(), NoMemory>
    ensures tree { OnOk result (trees.new ≡ (each (map T.counted trees.old) counting.old).0) }
    ensures rest { OnOk result (counting.new ≡ (each (map T.counted trees.old) counting.old).1) }
{
    for i in 0..trees.len() {
        trees[i].number(counting)?;
    }
    Ok(())
}

/// Numbers the trees one after the other.
pub(crate) fn number_each<T: Numbered>(
    trees: &mut Items<T>,
    counting: &mut Counting<'_>,
) -> Result<(), NoMemory>
    ensures tree { OnOk result (trees.new ≡ (each (map T.counted trees.old) counting.old).0) }
    ensures rest { OnOk result (counting.new ≡ (each (map T.counted trees.old) counting.old).1) }
{
    number_slice(trees.as_mut_slice(), counting)
}

/// Numbers a node, and the tree behind it.
pub(crate) fn number_two<T: Numbered>(
    node: &mut Node,
    tree: &mut T,
    counting: &mut Counting<'_>,
) -> Result<(), NoMemory>
    ensures node { OnOk result (node.new ≡ (counted_node node.old counting.old).0) }
    ensures tree { OnOk result (tree.new ≡ (T.counted tree.old (counted_node node.old counting.old).1).0) }
    ensures rest { OnOk result (counting.new ≡ (T.counted tree.old (counted_node node.old counting.old).1).1) }
{
    counting.number(node)?;
    tree.number(counting)
}

/// Numbers a node, and the two trees behind it.
pub(crate) fn number_three<T: Numbered, U: Numbered>(
    node: &mut Node,
    first: &mut T,
    second: &mut U,
    counting: &mut Counting<'_>,
) -> Result<(), NoMemory>
    ensures node { OnOk result (node.new ≡ (counted_node node.old counting.old).0) }
    ensures first { OnOk result (first.new ≡ (T.counted first.old (counted_node node.old counting.old).1).0) }
    ensures second { OnOk result (second.new
        ≡ (U.counted second.old (T.counted first.old (counted_node node.old counting.old).1).1).0) }
    ensures rest { OnOk result (counting.new
        ≡ (U.counted second.old (T.counted first.old (counted_node node.old counting.old).1).1).1) }
{
    number_two(node, first, counting)?;
    second.number(counting)
}

/// Numbers the tree, if there is one.
pub(crate) fn number_option<T: Numbered>(
    tree: &mut Option<T>,
    counting: &mut Counting<'_>,
) -> Result<(), NoMemory>
    ensures tree { OnOk result (tree.new ≡ (perhaps (option_map T.counted tree.old) counting.old).0) }
    ensures rest { OnOk result (counting.new ≡ (perhaps (option_map T.counted tree.old) counting.old).1) }
{
    match tree {
        None => Ok(()),
        Some(tree) => tree.number(counting),
    }
}

impl<T: Numbered> Numbered for Boxed<T> {
    ghost counted = { T.counted };

    fn number(&mut self, counting: &mut Counting<'_>) -> Result<(), NoMemory> {
        self.get_mut().number(counting)
    }
}
