// Whether components and an order are those that a plain search gives.
ghost use Rattle.std.specs.Prelude.{◌≡◌, length};

use crate::plain::Reach;
use reference_graph::{ComponentNumbers, Graph, components, order};
use std::alloc::{AllocError, Global};

/// Whether two nodes have one number exactly where they are the same or reach each other.
pub fn has_right_components(
    alloc: Global,
    graph: &Graph,
    reach: &Reach,
) -> Result<bool, AllocError> {
    let found = components(alloc, graph)?;
    for a in 0..graph.nodes() {
        for b in 0..graph.nodes() {
            let mutual = a == b || (reach.has(a, b) && reach.has(b, a));
            let one = found.number(a) == found.number(b);
            if one != mutual {
                return Ok(false);
            }
        }
    }
    Ok(true)
}

/// Whether there is an order exactly where no node reaches itself, and each node stands in it once and behind its targets.
pub fn has_right_order(alloc: Global, graph: &Graph, reach: &Reach) -> Result<bool, AllocError> {
    match order(alloc, graph)? {
        None => Ok(reach.has_cycle()),
        Some(list) => {
            let right = is_order(alloc, graph, &list)?;
            Ok(right && !reach.has_cycle())
        },
    }
}

fn is_order(alloc: Global, graph: &Graph, list: &[usize]) -> Result<bool, AllocError> {
    let nodes = graph.nodes();
    let mut places = vec![in alloc; nodes; nodes]?;
    if list.len() != nodes {
        return Ok(false);
    }
    for (place, node) in list.iter().enumerate() {
        if *node >= places.len() || places[*node] != nodes {
            return Ok(false);
        }
        places[*node] = place;
    }
    for node in 0..nodes {
        if !is_behind(graph.targets(node), node, &places) {
            return Ok(false);
        }
    }
    Ok(true)
}

/// Whether a node stands behind each of its targets that is a node.
fn is_behind(targets: &[usize], node: usize, places: &[usize]) -> bool {
    for target in targets {
        if let (Some(before), Some(behind)) = (places.get(*target), places.get(node)) {
            if *before >= *behind {
                return false;
            }
        }
    }
    true
}

/// How many components there are, since they are numbered from 0 on.
pub fn count(graph: &Graph, found: &ComponentNumbers) -> usize
    requires { length found.now ≡ length graph.now }
{
    let mut most = 0;
    for node in 0..graph.nodes() {
        most = most.max(found.number(node).saturating_add(1));
    }
    most
}
