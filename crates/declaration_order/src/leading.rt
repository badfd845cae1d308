// Which declarations lead back to themselves.

ghost use Rattle.std.specs.Prelude.{◌≡◌, IfOk};
ghost use Rattle.declaration_order.specs.Leads as spec;
ghost use Rattle.declaration_order.specs.LeadBack.{AreDeclComponents};
ghost use Rattle.declaration_order.specs.LeadBack as back;
ghost use Rattle.declaration_order.specs.Tables.{decls_in, components_in};

use crate::declared::DeclTable;
use crate::graphs::{Wanted, graph_of};
use project_declarations::What;
use reference_graph::{ComponentNumbers, components};
use scope_names::Names;
use station_ports::outside::NoMemory;
use std::alloc::Global;

/// The components of declarations that lead to one another: of all names by which they do so, of
/// types by their specifications alone, and of all names, those of the types of values among them.
#[derive(Drop)]
pub struct DeclComponents {
    pub(crate) all: ComponentNumbers,
    pub(crate) by_type: ComponentNumbers,
    pub(crate) by_names: ComponentNumbers,
}

fn have_one_number(numbers: &ComponentNumbers, a: usize, b: usize) -> bool
    ensures { result ≡ back.have_one_number numbers.now a b }
{
    match numbers.get(a) {
        None => false,
        Some(m) => match numbers.get(b) {
            None => false,
            Some(n) => m == n,
        },
    }
}

impl DeclComponents {
    /// Whether two declarations lead to each other, or are one.
    pub fn lead_together(&self, a: usize, b: usize) -> bool
        ensures { result ≡ back.lead_together (components_in self.now) a b }
    {
        have_one_number(&self.all, a, b)
    }

    /// Whether they do so by their specifications alone.
    pub fn lead_together_by_type(&self, a: usize, b: usize) -> bool
        ensures { result ≡ back.lead_together_by_type (components_in self.now) a b }
    {
        have_one_number(&self.by_type, a, b)
    }

    /// Whether two declarations lead to each other by any names, those of the types of values among
    /// them, or are one.
    pub fn name_together(&self, a: usize, b: usize) -> bool
        ensures { result ≡ back.name_together (components_in self.now) a b }
    {
        have_one_number(&self.by_names, a, b)
    }
}

/// Finds the declarations that lead back to themselves, with one search of all. Takes time linear in
/// declarations and their expressions, with a search by halves for each name.
pub fn decl_components(
    alloc: Global,
    table: &DeclTable<'_>,
    names: &Names<'_, What>,
) -> Result<DeclComponents, NoMemory>
    ensures { IfOk result (λ found. AreDeclComponents (spec.found_in names.now) (decls_in table.now)
        (components_in found)) }
{
    let all = graph_of(alloc, Wanted::Leads, table, names)?;
    let by_type = graph_of(alloc, Wanted::LeadsByType, table, names)?;
    let by_names = graph_of(alloc, Wanted::Names, table, names)?;
    Ok(DeclComponents {
        all: components(alloc, &all)?,
        by_type: components(alloc, &by_type)?,
        by_names: components(alloc, &by_names)?,
    })
}
