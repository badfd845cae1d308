// Groups of nodes, and how a group is split.

ghost use Rattle.std.specs.Prelude.{◌≡◌, ◌≢◌, ◌↔◌, IsTrue, OnOk, [], ◌∷◌, length, slice_get};
ghost use Rattle.reference_graph.specs.steps.Groups.{IsSplit, IsSpread};

use crate::graph::Graph;
use std::alloc::AllocError;

/// Moves a node, and each that it reaches by ways through nodes of its group, to a group of their own. `found`
/// is room for the search. Takes time linear in the moved nodes and their edges.
pub(crate) fn split(
    graph: &Graph,
    root: usize,
    group: usize,
    own: usize,
    groups: &mut Vec<usize>,
    found: &mut Vec<usize>,
) -> Result<(), AllocError>
    requires nodes { length groups.old.items ≡ length graph.now }
    requires root { slice_get groups.old.items root ≡ Some group }
    requires apart { group ≢ own }
    ensures { OnOk result (IsSplit graph.now root group own groups.old.items groups.new.items) }
{
    found.clear();
    move_node(root, group, own, groups, found)?;
    let mut at = 0;
    while at < found.len() {
        move_nodes(graph.targets(found[at]), group, own, groups, found)?;
        at += 1;
    }
    Ok(())
}

/// Moves the nodes of a list that are in one group to the other, and lists them.
fn move_nodes(
    row: &[usize],
    group: usize,
    own: usize,
    groups: &mut Vec<usize>,
    found: &mut Vec<usize>,
) -> Result<(), AllocError>
    requires { group ≢ own }
    ensures { OnOk result
        (IsSpread row.now group own groups.old.items found.old.items groups.new.items found.new.items) }
{
    for target in row {
        move_node(*target, group, own, groups, found)?;
    }
    Ok(())
}

/// Moves a node, if it is one and in the group, and lists it.
fn move_node(
    node: usize,
    group: usize,
    own: usize,
    groups: &mut Vec<usize>,
    found: &mut Vec<usize>,
) -> Result<(), AllocError>
    requires { group ≢ own }
    ensures { OnOk result
        (IsSpread (node ∷ []) group own groups.old.items found.old.items groups.new.items found.new.items) }
{
    if !is_in(groups, node, group) {
        return Ok(());
    }
    groups[node] = own;
    found.push(node)?;
    Ok(())
}

/// Whether a number is that of a node in the group.
fn is_in(groups: &[usize], node: usize, group: usize) -> bool
    ensures { IsTrue result ↔ (slice_get groups.now node ≡ Some group) }
{
    match groups.get(node) {
        Some(own) => *own == group,
        None => false,
    }
}
