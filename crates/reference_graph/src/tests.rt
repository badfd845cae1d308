// Each public call once, with ample memory.
ghost use Rattle.std.specs.Prelude.{◌≡◌, length};

use crate::{ComponentNumbers, Graph, components, order};
use std::alloc::AllocError;
use std::test::Fail;
use tree_items::Items;

/// A graph of five nodes, built node by node: 0 to 1, 1 to 2 twice and to 3, 2 to 1, 3 to 3 and to a number
/// that is no node.
fn small(rt: &HostRuntime) -> Result<Graph, AllocError> {
    let mut graph = Graph::new(rt.alloc());
    graph.add_node(&[1])?;
    graph.add_node(&[2, 2, 3])?;
    graph.add_node(&[1])?;
    graph.add_node(&[3, 9])?;
    graph.add_node(&[])?;
    Ok(graph)
}

/// Two diamonds, built from rows: 0 to 1 and 2, both to 3, 3 to 4 and 5, both to 6.
fn diamonds(rt: &HostRuntime) -> Result<Graph, AllocError> {
    let rows: [&[usize]; 7] = [&[1, 2], &[3], &[3], &[4, 5], &[6], &[6], &[]];
    let mut items = Vec::new(rt.alloc());
    for row in rows {
        items.push(Items::from_slice(rt.alloc(), row)?)?;
    }
    Graph::of(rt.alloc(), &items)
}

#[test]
fn graphs(rt: HostRuntime) -> Result<(), Fail> {
    let mut graph = small(&rt)?;
    assert_eq!(rt; graph.nodes(), 5);
    graph.start_node()?;
    graph.edge(4)?;
    graph.edge(0)?;
    assert_eq!(rt; graph.nodes(), 6);
    assert!(rt; graph.targets(5) == [4, 0].as_slice());
    assert!(rt; graph.targets(1) == [2, 2, 3].as_slice());
    Ok(())
}

/// The number of a node's component, for comparison; none where it is no node.
fn number(graph: &Graph, found: &ComponentNumbers, node: usize) -> Option<usize>
    requires { length found.now ≡ length graph.now }
{
    if node < graph.nodes() {
        Some(found.number(node))
    } else {
        None
    }
}

#[test]
fn numbers(rt: HostRuntime) -> Result<(), Fail> {
    let graph = small(&rt)?;
    let found = components(rt.alloc(), &graph)?;
    assert!(rt; number(&graph, &found, 1) == number(&graph, &found, 2));
    assert!(rt; number(&graph, &found, 0) != number(&graph, &found, 1));
    assert!(rt; number(&graph, &found, 3) != number(&graph, &found, 1));
    assert!(rt; number(&graph, &found, 4) != number(&graph, &found, 0));
    assert!(rt; number(&graph, &found, 4).is_some());
    Ok(())
}

#[test]
fn orders(rt: HostRuntime) -> Result<(), Fail> {
    assert!(rt; order(rt.alloc(), &small(&rt)?)?.is_none());
    let list = order(rt.alloc(), &diamonds(&rt)?)?.unwrap_or(Vec::new(rt.alloc()));
    assert!(rt; list.as_slice() == [6, 4, 5, 3, 1, 2, 0].as_slice());
    Ok(())
}
