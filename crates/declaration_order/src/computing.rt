// An order in which what declarations are can be computed.

ghost use Rattle.std.specs.Prelude.{◌≡◌, ◌<◌, ◌++◌, length, IfOk, OnOk};
ghost use Rattle.declaration_order.specs.Leads as spec;
ghost use Rattle.declaration_order.specs.LeadBack.{AreDeclComponents};
ghost use Rattle.declaration_order.specs.Computable.{IsComputingOrder};
ghost use Rattle.declaration_order.specs.Tables.{decls_in, components_in};
ghost use Rattle.declaration_order.specs.steps.Waiting.{AreWaits, apart};

use crate::declared::DeclTable;
use crate::graphs::{Wanted, graph_of};
use crate::leading::DeclComponents;
use project_declarations::What;
use reference_graph::{ComponentNumbers, Graph, order};
use scope_names::Names;
use station_ports::outside::NoMemory;
use std::alloc::{AllocError, Global};

// Adds the targets of a node that are in another component.
fn add_apart(
    row: &mut Vec<usize>,
    nodes: usize,
    numbers: &ComponentNumbers,
    node: usize,
    targets: &[usize],
) -> Result<(), AllocError>
    requires nodes { nodes ≡ length numbers.now }
    requires node { node < nodes }
    ensures { OnOk result (row.new.items ≡ row.old.items ++ apart numbers.now node targets.now) }
{
    for target in targets {
        if *target < nodes && numbers.number(node) != numbers.number(*target) {
            row.push(*target)?;
        }
    }
    Ok(())
}

// Which node waits for which.
fn waits(
    alloc: Global,
    leads: &Graph,
    in_leads: &ComponentNumbers,
    values: &Graph,
    in_all: &ComponentNumbers,
) -> Result<Graph, AllocError>
    requires leads { length in_leads.now ≡ length leads.now }
    requires values { length values.now ≡ length leads.now }
    requires all { length in_all.now ≡ length leads.now }
    ensures { IfOk result (λ graph.
        AreWaits leads.now in_leads.now values.now in_all.now (length leads.now) graph) }
{
    let nodes = leads.nodes();
    let mut graph = Graph::new(alloc);
    for node in 0..nodes {
        let mut row = Vec::new(alloc);
        add_apart(&mut row, nodes, in_leads, node, leads.targets(node))?;
        add_apart(&mut row, nodes, in_all, node, values.targets(node))?;
        graph.add_node(&row)?;
    }
    Ok(graph)
}

/// The numbers of all declarations, each behind those that it waits for: those to which it leads and
/// which don't lead back to it, and the types of the values that it names. Takes time linear in
/// declarations and their expressions, with a search by halves for each name.
pub fn computing_order(
    alloc: Global,
    table: &DeclTable<'_>,
    names: &Names<'_, What>,
    found: &DeclComponents,
) -> Result<Vec<usize>, NoMemory>
    requires { AreDeclComponents (spec.found_in names.now) (decls_in table.now)
        (components_in found.now) }
    ensures { IfOk result (λ list.
        IsComputingOrder (spec.found_in names.now) (decls_in table.now) list.items) }
{
    let leads = graph_of(alloc, Wanted::Leads, table, names)?;
    let values = graph_of(alloc, Wanted::NamesAValue, table, names)?;
    let graph = waits(alloc, &leads, &found.all, &values, &found.by_names)?;
    match order(alloc, &graph)? {
        Some(list) => Ok(list),
        None => unreachable!(),
    }
}
