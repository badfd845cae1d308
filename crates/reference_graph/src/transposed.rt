// The graph with each edge turned round.

ghost use Rattle.std.specs.Prelude.{◌≡◌, ◌<◌, IfOk, OnOk, [], ◌∷◌, ◌++◌, length, replicate, slice_set, vec_len};
ghost use Rattle.reference_graph.specs.Graph.{targets, IsTransposed};
ghost use Rattle.reference_graph.specs.steps.Sources.{HaveSource};

use crate::graph::Graph;
use std::alloc::{AllocError, Global};
use tree_items::Items;

/// The graph with the same nodes and each edge turned round. Takes time linear in nodes and edges.
pub(crate) fn transposed(alloc: Global, graph: &Graph) -> Result<Graph, AllocError>
    ensures { IfOk result (λ turned. IsTransposed graph.now turned) }
{
    let mut sources = no_sources(alloc, graph.nodes())?;
    for node in 0..graph.nodes() {
        add_source(node, graph.targets(node), &mut sources)?;
    }
    let turned = Graph::of(alloc, &sources)?;
    Ok(turned)
}

fn no_sources(alloc: Global, nodes: usize) -> Result<Vec<Items<usize>>, AllocError>
    ensures { IfOk result (λ sources. sources.items ≡ replicate nodes []) }
{
    let mut sources = Vec::with_capacity(alloc, nodes)?;
    for _ in 0..nodes {
        sources.push(Items::new(alloc))?;
    }
    Ok(sources)
}

/// Adds a node to the sources of its targets.
fn add_source(
    node: usize,
    targets: &[usize],
    sources: &mut Vec<Items<usize>>,
) -> Result<(), AllocError>
    ensures { OnOk result (HaveSource node targets.now sources.old.items sources.new.items) }
{
    for target in targets {
        if *target < sources.len() {
            push_at(sources, *target, node)?;
        }
    }
    Ok(())
}

fn push_at(sources: &mut Vec<Items<usize>>, at: usize, node: usize) -> Result<(), AllocError>
    requires { at < vec_len sources.old }
    ensures { OnOk result
        (sources.new.items ≡ slice_set sources.old.items at (targets sources.old.items at ++ node ∷ [])) }
{
    sources[at].push(node)
}
