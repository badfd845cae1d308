// Graphs of 16,384 nodes of several shapes, and a long chain.
use crate::random::Random;
use reference_graph::Graph;
use std::alloc::{AllocError, Global};

pub const NAMES: [&str; 8] = [
    "chain forward",
    "chain backward",
    "long chain",
    "one cycle",
    "small cycles",
    "full levels",
    "random",
    "random without cycles",
];

/// Nodes of all shapes but the long chain, which has more.
const NODES: usize = 16384;

/// The graph of that name.
pub fn shape(alloc: Global, name: &str, seed: u64) -> Result<Graph, AllocError> {
    let mut random = Random::new(seed);
    let nodes = if name == "long chain" { 40000 } else { NODES };
    let mut graph = Graph::new(alloc);
    for node in 0..nodes {
        let targets = targets(alloc, name, nodes, node, &mut random)?;
        graph.add_node(&targets)?;
    }
    Ok(graph)
}

fn targets(
    alloc: Global,
    name: &str,
    nodes: usize,
    node: usize,
    random: &mut Random,
) -> Result<Vec<usize>, AllocError> {
    let mut targets = Vec::new(alloc);
    match name {
        "chain forward" | "long chain" => targets.push(node.saturating_add(1))?,
        "chain backward" => targets.push(node.wrapping_sub(1))?,
        "one cycle" => targets.push(node.saturating_add(1) % nodes.max(1))?,
        "small cycles" => targets.push((node / 4) * 4 + node.saturating_add(1) % 4)?,
        "full levels" => {
            for place in 0..6 {
                targets.push(
                    (node / 6)
                        .saturating_add(1)
                        .saturating_mul(6)
                        .saturating_add(place),
                )?;
            }
        },
        "random" => {
            for _ in 0..6 {
                targets.push(random.below(nodes))?;
            }
        },
        _ => {
            for _ in 0..6 {
                targets.push(node.wrapping_sub(random.below(node).saturating_add(1)))?;
            }
        },
    }
    Ok(targets)
}
