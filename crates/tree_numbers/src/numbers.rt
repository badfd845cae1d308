// Nodes numbered in the order of the text, with a file's comments counted among them.

ghost use Rattle.std.specs.Prelude.{◌≡◌, ◌+◌, [], IfOk, OnOk};
ghost use Rattle.tree_numbers.specs.NumberedAt.{numbered_at};
ghost use Rattle.tree_numbers.specs.steps.Counted.{counted};

use crate::starts::Starts;
use st_tree::{Node, NodeNo};
use station_ports::outside::NoMemory;
use std::alloc::Global;
use tree_items::Items;

/// Gives each node its number in its file.
#[derive(Drop)]
pub struct Counting<'a> {
    /// The first bytes of the file's comments.
    pub comments: Starts<'a>,
    /// The first bytes of the nodes that came before, without comments.
    pub starts: Items<usize>,
}

impl<'a> Counting<'a> {
    /// Before the first node of a file with these comments.
    pub fn new(alloc: Global, comments: Starts<'a>) -> Self
        ensures comments { result.comments ≡ comments.entry }
        ensures starts { result.starts ≡ [] }
    {
        Counting {
            comments,
            starts: Items::new(alloc),
        }
    }

    /// Gives the node the next number. NoMemory where it is past 2^32 - 1, or there is none to note
    /// the node.
    pub(crate) fn number(&mut self, node: &mut Node) -> Result<(), NoMemory>
        ensures node { OnOk result (node.new ≡ (counted node.old self.old).0) }
        ensures rest { OnOk result (self.new ≡ (counted node.old self.old).1) }
    {
        let given = numbered_node(*node, self.starts.len(), &self.comments)?;
        self.starts.push(node.start)?;
        *node = given;
        Ok(())
    }
}

/// The number of a node that so many nodes and comments come before. NoMemory where it is past 2^32
/// - 1.
fn number_of(next: usize, before: usize) -> Result<u32, NoMemory>
    ensures { IfOk result (λ n. n ≡ next + before) }
{
    let Some(number) = next.checked_add(before) else {
        return Err(NoMemory);
    };
    if number > u32::MAX as usize {
        return Err(NoMemory);
    }
    Ok(number as u32)
}

/// The node with the number that so many of its own kind before it give, and those of the others
/// that start before it: comments for a node, nodes for a comment. NoMemory where the number is
/// past 2^32 - 1.
pub fn numbered_node(node: Node, index: usize, others: &Starts<'_>) -> Result<Node, NoMemory>
    ensures { IfOk result (λ n. n ≡ numbered_at others.now index node) }
{
    let number = number_of(index, others.before(node.start))?;
    Ok(Node {
        number: NodeNo(number),
        start: node.start,
        end: node.end,
    })
}
