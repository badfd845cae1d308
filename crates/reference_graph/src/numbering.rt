// The strongly connected components of a graph.

ghost use Rattle.std.specs.Prelude.{◌≡◌, ◌+◌, ◌-◌, ◌*◌, ◌/◌, ◌^◌, ◌<◌, ◌≤◌, ℕ, IfOk, length, get_or, slice_get, slice_index};
ghost use Rattle.reference_graph.specs.Graph.{IsTransposed};
ghost use Rattle.reference_graph.specs.Reach.{AreComponents};
ghost use Rattle.reference_graph.specs.steps.Groups.{AreGroups, IsSettled};

use crate::depth_first::depth_first;
use crate::graph::Graph;
use crate::group::split;
use crate::transposed::transposed;
use std::alloc::{AllocError, Global};
use std::marker::Model;

/// The number of each node's component. To contracts it is the list of these numbers.
#[derive(Debug, Drop)]
pub struct ComponentNumbers {
    numbers: Vec<usize>,
}

impl Model for ComponentNumbers {
    ghost use Rattle.std.specs.Prelude.{List, ℕ};

    ghost Value = { List ℕ };

    ghost view = { λ c. c.numbers.items };
}

impl ComponentNumbers {
    /// The number of a node's component.
    pub fn number(&self, node: usize) -> usize
        requires { node < length self.now }
        ensures { result ≡ get_or self.now node 0 }
    {
        self.numbers[node]
    }

    /// The number of a node's component, or None where the graph has no such node.
    pub fn get(&self, node: usize) -> Option<usize>
        ensures { result ≡ slice_get self.now node }
    {
        self.numbers.get(node).copied()
    }
}

/// Numbers the strongly connected components of a graph: two nodes have one number exactly where they are the
/// same node or each reaches the other. Takes time and memory linear in nodes and edges.
pub fn components(alloc: Global, graph: &Graph) -> Result<ComponentNumbers, AllocError>
    ensures { IfOk result (λ numbers. AreComponents graph.now numbers) }
{
    let mut left = depth_first(alloc, graph)?.finished;
    let turned = transposed(alloc, graph)?;
    let mut groups = vec![in alloc; 1; graph.nodes()]?;
    let mut found = Vec::new(alloc);
    let mut count = 0;
    while let Some(node) = left.pop() {
        count = settle(graph, &turned, node, count, &mut groups, &mut found)?;
    }
    number(&mut groups);
    Ok(ComponentNumbers { numbers: groups })
}

/// Moves the component of a node to a group of its own, unless it is in one, and answers how many such groups
/// there are. The nodes of its group that reach it are found first, and then those of them that it reaches:
/// whatever node is taken, these are its component. Where nodes are taken in the order in which a search depth
/// first leaves them, from the last one on, both are the same nodes, so that none is found in vain.
fn settle(
    graph: &Graph,
    turned: &Graph,
    node: usize,
    count: usize,
    groups: &mut Vec<usize>,
    found: &mut Vec<usize>,
) -> Result<usize, AllocError>
    requires turned { IsTransposed graph.now turned.now }
    requires groups { AreGroups graph.now groups.old.items count }
    requires node { node < length graph.now }
    requires room { count + 1 < 2 ^ 63 }
    ensures { IfOk result
        (λ after. IsSettled graph.now node groups.old.items count groups.new.items after) }
{
    let group = groups[node];
    if group % 2 == 0 {
        return Ok(count);
    }
    split(turned, node, group, 2 * count + 3, groups, found)?;
    split(graph, node, 2 * count + 3, 2 * count + 2, groups, found)?;
    Ok(count + 1)
}

/// Numbers components from 0 on: the one with group 2 * k + 2 gets k.
fn number(groups: &mut Vec<usize>)
    requires { (a : ℕ) → a < length groups.old.items → 2 ≤ slice_index groups.old.items a }
    ensures long { length groups.new.items ≡ length groups.old.items }
    ensures each { (a : ℕ) → a < length groups.old.items →
        slice_index groups.new.items a ≡ slice_index groups.old.items a / 2 - 1 }
{
    for node in 0..groups.len() {
        groups[node] = groups[node] / 2 - 1;
    }
}
