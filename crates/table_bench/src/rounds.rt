// The least table of a net by plain rounds over all arcs, apart from the solver and from the trait:
// what the solver is compared with.
use crate::net::{Arc, Sources, moved, start};
use interval_domain::interval::{Interval, join};
use std::alloc::{AllocError, Global};

/// The intervals of the nodes, and how many arcs were evaluated.
#[derive(Drop)]
pub struct Solved {
    pub nodes: Vec<Interval>,
    pub steps: u64,
}

/// Goes round over all arcs until nothing grows. A table that is no least one may be answered where
/// that takes more rounds than nodes hold numbers.
pub fn by_rounds(alloc: Global, nodes: usize, arcs: &[Arc]) -> Result<Solved, AllocError> {
    let mut solved = Solved {
        nodes: vec![in alloc; Interval::empty(); nodes]?,
        steps: 0,
    };
    for _ in 0..nodes.saturating_mul(16).saturating_add(1) {
        let next = round(alloc, &solved.nodes, arcs)?;
        solved.steps = solved.steps.saturating_add(arcs.len() as u64);
        if next == solved.nodes {
            break;
        }
        solved.nodes = next;
    }
    Ok(solved)
}

/// Each node joined with what every arc gives for it under the table.
fn round(alloc: Global, table: &[Interval], arcs: &[Arc]) -> Result<Vec<Interval>, AllocError> {
    let mut next = Vec::from_slice(alloc, table)?;
    for (from, starts, to, by) in arcs {
        if *to < next.len() {
            next[*to] = join(
                next[*to],
                moved(join(start(*starts), read(*from, table)), *by),
            );
        }
    }
    Ok(next)
}

fn read(from: Sources, table: &[Interval]) -> Interval {
    let first = join(at(from.0, table), at(from.1, table));
    join(first, join(at(from.2, table), at(from.3, table)))
}

fn at(node: usize, table: &[Interval]) -> Interval {
    match table.get(node) {
        None => Interval::empty(),
        Some(i) => *i,
    }
}
