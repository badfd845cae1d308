// Graphs from a seed.
use reference_graph::Graph;
use std::alloc::{AllocError, Global};

/// Numbers from a seed: a linear congruential generator, of which the upper bits are taken.
#[derive(Drop)]
pub struct Random {
    state: u64,
}

impl Random {
    pub fn new(seed: u64) -> Self {
        Random { state: seed }
    }

    /// A number below the bound; 0 where the bound is 0.
    pub fn below(&mut self, bound: usize) -> usize {
        self.state = self
            .state
            .wrapping_mul(6364136223846793005)
            .wrapping_add(1442695040888963407);
        let upper = (self.state >> 33) as usize;
        if bound == 0 { 0 } else { upper % bound }
    }

    /// A graph in which each node has fewer targets than `most`. A target may be the number behind the last node, which is none.
    pub fn graph(&mut self, alloc: Global, nodes: usize, most: usize) -> Result<Graph, AllocError> {
        let mut graph = Graph::new(alloc);
        for _ in 0..nodes {
            let targets = self.targets(alloc, nodes.saturating_add(1), most)?;
            graph.add_node(&targets)?;
        }
        Ok(graph)
    }

    fn targets(
        &mut self,
        alloc: Global,
        bound: usize,
        most: usize,
    ) -> Result<Vec<usize>, AllocError> {
        let mut targets = Vec::new(alloc);
        for _ in 0..self.below(most) {
            targets.push(self.below(bound))?;
        }
        Ok(targets)
    }
}
