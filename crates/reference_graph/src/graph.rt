// Graphs: numbered nodes and their targets.

ghost use Rattle.std.specs.Prelude.{◌≡◌, ◌+◌, ◌<◌, ◌≤◌, IfOk, OnOk, OnErr, [], ◌∷◌, ◌++◌, length, get_or, slice_range};
ghost use Rattle.reference_graph.specs.Graph.{targets, with_target};

use std::alloc::{AllocError, Global};
use std::marker::Model;
use tree_items::Items;

/// Nodes numbered from 0, each with its targets. To contracts it is the list of each node's targets. Takes
/// one number a node and one a target.
#[derive(Debug, Drop)]
pub struct Graph {
    starts: Vec<usize>,
    targets: Vec<usize>,
}

impl Model for Graph {
    ghost use Rattle.std.specs.Prelude.{length};
    ghost use Rattle.reference_graph.specs.Graph.{Rows};
    ghost use Rattle.reference_graph.specs.steps.Stored.{rows, AreStarts};

    ghost Value = { Rows };

    ghost view = { λ g. rows g.starts.items g.targets.items };

    ghost invariant = { λ g. AreStarts g.starts.items (length g.targets.items) };
}

impl Graph {
    /// A graph without nodes.
    pub fn new(alloc: Global) -> Graph
        ensures { result ≡ [] }
    {
        Graph {
            starts: Vec::new(alloc),
            targets: Vec::new(alloc),
        }
    }

    /// The graph in which each node has the targets of its row.
    pub fn of(alloc: Global, rows: &[Items<usize>]) -> Result<Graph, AllocError>
        ensures { IfOk result (λ graph. graph ≡ rows.now) }
    {
        let mut graph = Graph::new(alloc);
        for row in rows {
            graph.add_node(row.as_slice())?;
        }
        Ok(graph)
    }

    /// Adds a node without targets, whose number is the number of nodes before it.
    pub fn start_node(&mut self) -> Result<(), AllocError>
        ensures ok { OnOk result (self.new ≡ self.old ++ [] ∷ []) }
        ensures err { OnErr result (self.new ≡ self.old) }
    {
        self.starts.push(self.targets.len())?;
        Ok(())
    }

    /// Adds a target to the last node. Where no node has that number in the end, it makes no edge. Without a node
    /// it changes nothing.
    pub fn edge(&mut self, target: usize) -> Result<(), AllocError>
        ensures ok { OnOk result (self.new ≡ with_target self.old target) }
        ensures err { OnErr result (self.new ≡ self.old) }
    {
        self.targets.push(target)?;
        Ok(())
    }

    /// Adds a node with its targets. After an error there may be one more node, without targets.
    pub fn add_node(&mut self, targets: &[usize]) -> Result<(), AllocError>
        ensures { OnOk result (self.new ≡ self.old ++ targets.now ∷ []) }
    {
        self.starts.push(self.targets.len())?;
        self.targets.extend_from_slice(targets)?;
        Ok(())
    }

    /// The number of nodes.
    pub fn nodes(&self) -> usize
        ensures { result ≡ length self.now }
    {
        self.starts.len()
    }

    /// The targets of a node.
    pub fn targets(&self, node: usize) -> &[usize]
        requires { node < length self.now }
        ensures { result.now ≡ targets self.now node }
    {
        let end = start_behind(&self.starts, node, self.targets.len());
        part(&self.targets, self.starts[node], end)
    }
}

/// The start behind that of a node, or the end where the node is the last one.
fn start_behind(starts: &[usize], node: usize, end: usize) -> usize
    requires { node < length starts.now }
    ensures { result ≡ get_or starts.now (node + 1) end }
{
    match starts.get(node + 1) {
        Some(start) => *start,
        None => end,
    }
}

fn part(items: &[usize], from: usize, to: usize) -> &[usize]
    requires order { from ≤ to }
    requires within { to ≤ length items.now }
    ensures { result.now ≡ slice_range items.now from to }
{
    &items[from..to]
}
