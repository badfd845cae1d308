// Which node reaches which, by a plain search in cubic time, apart from the search that it is compared with.
use reference_graph::Graph;
use std::alloc::{AllocError, Global};

/// For each two nodes whether the one reaches the other by one or more edges.
#[derive(Drop)]
pub struct Reach {
    nodes: usize,
    reached: Vec<bool>,
}

impl Reach {
    pub fn of(alloc: Global, graph: &Graph) -> Result<Reach, AllocError> {
        let nodes = graph.nodes();
        let mut reach = Reach {
            nodes,
            reached: vec![in alloc; false; nodes.saturating_mul(nodes)]?,
        };
        for a in 0..nodes {
            reach.add_edges(a, graph.targets(a));
        }
        for by in 0..nodes {
            reach.join(by);
        }
        Ok(reach)
    }

    fn place(&self, a: usize, b: usize) -> usize {
        a.saturating_mul(self.nodes).saturating_add(b)
    }

    /// Whether one node reaches the other.
    pub fn has(&self, a: usize, b: usize) -> bool {
        match self.reached.get(self.place(a, b)) {
            Some(reached) => *reached,
            None => false,
        }
    }

    fn add(&mut self, a: usize, b: usize) {
        let place = self.place(a, b);
        if place < self.reached.len() {
            self.reached[place] = true;
        }
    }

    fn add_edges(&mut self, a: usize, targets: &[usize]) {
        for b in targets {
            if *b < self.nodes {
                self.add(a, *b);
            }
        }
    }

    /// Adds the ways over one node.
    fn join(&mut self, by: usize) {
        for a in 0..self.nodes {
            for b in 0..self.nodes {
                if self.has(a, by) && self.has(by, b) {
                    self.add(a, b);
                }
            }
        }
    }

    /// Whether some node reaches itself.
    pub fn has_cycle(&self) -> bool {
        for a in 0..self.nodes {
            if self.has(a, a) {
                return true;
            }
        }
        false
    }
}
