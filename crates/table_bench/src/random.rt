// Nets from a seed.
use crate::net::{Arc, Sources};
use std::alloc::{AllocError, Global};

/// Numbers from a seed: a linear congruential generator, of which the upper bits are taken.
#[derive(Drop)]
pub struct Random {
    state: u64,
}

impl Random {
    pub fn new(seed: u64) -> Self {
        Random { state: seed }
    }

    /// A number below the bound; 0 where the bound is 0.
    pub fn below(&mut self, bound: usize) -> usize {
        self.state = self
            .state
            .wrapping_mul(6364136223846793005)
            .wrapping_add(1442695040888963407);
        let upper = (self.state >> 33) as usize;
        if bound == 0 { 0 } else { upper % bound }
    }

    fn sources(&mut self, nodes: usize) -> Sources {
        (
            self.below(nodes),
            self.below(nodes),
            self.below(nodes),
            self.below(nodes),
        )
    }

    /// An arc between nodes, some of which are none, that moves by -3 to 3 and starts with 0 once
    /// in four times.
    fn arc(&mut self, nodes: usize) -> Arc {
        let some = nodes.saturating_add(nodes / 2).saturating_add(1);
        let from = self.sources(some);
        let starts = self.below(4) == 0;
        let to = self.below(nodes.saturating_add(1));
        let by = self.below(7) as i128 - 3;
        (from, starts, to, by)
    }

    pub fn arcs(
        &mut self,
        alloc: Global,
        nodes: usize,
        count: usize,
    ) -> Result<Vec<Arc>, AllocError> {
        let mut arcs = Vec::new(alloc);
        for _ in 0..count {
            arcs.push(self.arc(nodes))?;
        }
        Ok(arcs)
    }

    /// For each node one arc that leads to it from four others.
    pub fn one_each(&mut self, alloc: Global, nodes: usize) -> Result<Vec<Arc>, AllocError> {
        let mut arcs = Vec::new(alloc);
        for to in 0..nodes {
            let from = self.sources(nodes);
            let by = self.below(3) as i128 - 1;
            arcs.push((from, self.below(16) == 0, to, by))?;
        }
        Ok(arcs)
    }
}
