// An order of the nodes.

ghost use Rattle.std.specs.Prelude.{◌≡◌, ℕ, IfOk, IfSome, IfNone};
ghost use Rattle.reference_graph.specs.Reach.{IsOrder, HasCycle};

use crate::depth_first::depth_first;
use crate::graph::Graph;
use std::alloc::{AllocError, Global};

/// An order of the nodes in which each stands once, behind all of its targets; none exactly where a node
/// reaches itself. Takes time and memory linear in nodes and edges.
pub fn order(alloc: Global, graph: &Graph) -> Result<Option<Vec<usize>>, AllocError>
    ensures order { IfOk result (λ order. IfSome order (λ list. IsOrder graph.now list.items)) }
    ensures acyclic { IfOk result (λ order. IfSome order (λ list. ¬ HasCycle graph.now)) }
    ensures cycle { IfOk result (λ order. IfNone order (HasCycle graph.now)) }
{
    let search = depth_first(alloc, graph)?;
    if search.cyclic {
        Ok(None)
    } else {
        Ok(Some(search.finished))
    }
}
