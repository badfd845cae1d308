// A search of a whole graph, depth first: nodes in the order in which the search leaves them.

ghost use Rattle.std.specs.Prelude.{◌≡◌, ◌≢◌, ℕ, ◌+◌, ◌*◌, ◌<◌, ◌≤◌, ◌↔◌, IsTrue, true, false, OnOk, IfOk, [], ◌∷◌, ◌++◌, length, slice_get, slice_index, slice_set, vec_len};
ghost use Rattle.std.specs.List.{Contains};
ghost use Rattle.reference_graph.specs.Graph.{targets};
ghost use Rattle.reference_graph.specs.steps.DepthFirst as steps;

use crate::graph::Graph;
use std::alloc::{AllocError, Global};

/// What the search knows of a node: not entered yet, entered and not left, or left.
#[derive(Clone, Copy)]
pub(crate) enum Mark {
    New,
    Open,
    Finished,
}

/// An entered node, and the place of the target that is looked at next.
#[derive(Clone, Copy)]
pub(crate) struct Frame {
    pub(crate) node: usize,
    pub(crate) next: usize,
}

/// A search: the marks of the nodes, the nodes on the way to the one that is searched, those that were left,
/// first to last, and whether a cycle was met.
#[derive(Drop)]
pub(crate) struct Search {
    marks: Vec<Mark>,
    stack: Vec<Frame>,
    pub(crate) finished: Vec<usize>,
    pub(crate) cyclic: bool,
}

/// Searches all nodes of a graph, in time linear in nodes and edges.
pub(crate) fn depth_first(alloc: Global, graph: &Graph) -> Result<Search, AllocError>
    ensures { IfOk result (λ search. steps.IsSearched graph.now search.finished.items search.cyclic) }
{
    let mut search = Search {
        marks: vec![in alloc; Mark::New; graph.nodes()]?,
        stack: Vec::new(alloc),
        finished: Vec::new(alloc),
        cyclic: false,
    };
    for root in 0..graph.nodes() {
        search.visit(graph, root)?;
    }
    Ok(search)
}

impl Search {
    /// Searches a node and what it reaches, as far as that is new.
    fn visit(&mut self, graph: &Graph, root: usize) -> Result<(), AllocError>
        requires stack { self.old.stack.items ≡ [] }
        requires search { steps.IsSearch graph.now self.old.marks.items [] self.old.finished.items
            self.old.cyclic }
        ensures stack { OnOk result (self.new.stack.items ≡ []) }
        ensures search { OnOk result (steps.IsSearch graph.now self.new.marks.items [] self.new.finished.items
            self.new.cyclic) }
        ensures seen { OnOk result (steps.KeepsSeen self.old.marks.items self.new.marks.items) }
        ensures root { OnOk result (steps.IsSeen self.new.marks.items root) }
    {
        if is_new(&self.marks, root) {
            self.enter(root)?;
            while let Some(frame) = self.stack.pop() {
                self.step(graph, frame)?;
            }
        }
        Ok(())
    }

    /// Goes on at a frame that was taken off the stack: enters the next target that is new, or leaves the
    /// node.
    fn step(&mut self, graph: &Graph, frame: Frame) -> Result<(), AllocError>
        requires search { steps.IsSearch graph.now self.old.marks.items
            (steps.way_of self.old.stack.items ++ frame.node ∷ []) self.old.finished.items self.old.cyclic }
        requires passed { steps.HavePassed graph.now self.old.marks.items
            (self.old.stack.items ++ frame ∷ []) }
        ensures { OnOk result (steps.IsStep graph.now self.old.marks.items self.old.stack.items
            self.new.marks.items self.new.stack.items self.new.finished.items self.new.cyclic) }
    {
        let row = graph.targets(frame.node);
        let at = first_new(row, frame.next, &self.marks);
        if at < row.len() {
            self.stack.push(Frame {
                node: frame.node,
                next: at + 1,
            })?;
            self.enter(row[at])?;
        } else {
            self.leave(row, frame.node)?;
        }
        Ok(())
    }

    /// Enters a new node.
    fn enter(&mut self, node: usize) -> Result<(), AllocError>
        requires { node < vec_len self.old.marks }
        ensures marks { OnOk result
            (self.new.marks.items ≡ slice_set self.old.marks.items node Mark.Open) }
        ensures stack { OnOk result
            (self.new.stack.items ≡ self.old.stack.items ++ record { node = node; next = 0 } ∷ []) }
        ensures finished { self.new.finished.items ≡ self.old.finished.items }
        ensures cyclic { self.new.cyclic ≡ self.old.cyclic }
    {
        self.marks[node] = Mark::Open;
        self.stack.push(Frame { node, next: 0 })?;
        Ok(())
    }

    /// Leaves a node whose targets were all entered. One that was not left is on the way to the node.
    fn leave(&mut self, row: &[usize], node: usize) -> Result<(), AllocError>
        requires { node < vec_len self.old.marks }
        ensures marks { OnOk result
            (self.new.marks.items ≡ slice_set self.old.marks.items node Mark.Finished) }
        ensures stack { self.new.stack.items ≡ self.old.stack.items }
        ensures finished { OnOk result
            (self.new.finished.items ≡ self.old.finished.items ++ node ∷ []) }
        ensures cyclic { steps.Meets row.now self.old.marks.items self.old.cyclic self.new.cyclic }
    {
        if meets_open(row, &self.marks) {
            self.cyclic = true;
        }
        self.marks[node] = Mark::Finished;
        self.finished.push(node)?;
        Ok(())
    }
}

/// Whether a number is that of a new node.
fn is_new(marks: &[Mark], node: usize) -> bool
    ensures { IsTrue result ↔ (slice_get marks.now node ≡ Some Mark.New) }
{
    match marks.get(node) {
        Some(Mark::New) => true,
        _ => false,
    }
}

/// Whether a number is that of a node that was entered and not left.
fn is_open(marks: &[Mark], node: usize) -> bool
    ensures { IsTrue result ↔ (slice_get marks.now node ≡ Some Mark.Open) }
{
    match marks.get(node) {
        Some(Mark::Open) => true,
        _ => false,
    }
}

/// The first place from one on at which a new node stands, or the end of the list.
fn first_new(row: &[usize], from: usize, marks: &[Mark]) -> usize
    ensures within { result ≤ length row.now }
    ensures passed { (k : ℕ) → from ≤ k → k < result → steps.IsSeen marks.now (slice_index row.now k) }
    ensures found { result < length row.now →
        slice_get marks.now (slice_index row.now result) ≡ Some Mark.New }
{
    for at in from..row.len() {
        if is_new(marks, row[at]) {
            return at;
        }
    }
    row.len()
}

/// Whether one of the numbers is that of a node that was entered and not left.
fn meets_open(row: &[usize], marks: &[Mark]) -> bool
    ensures yes { result ≡ true →
        (b : ℕ) × Contains row.now b × (slice_get marks.now b ≡ Some Mark.Open) }
    ensures no { result ≡ false →
        (b : ℕ) → Contains row.now b → slice_get marks.now b ≢ Some Mark.Open }
{
    for target in row {
        if is_open(marks, *target) {
            return true;
        }
    }
    false
}
