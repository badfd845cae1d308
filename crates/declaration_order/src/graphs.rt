// Which declarations name which others.

ghost use Rattle.std.specs.Prelude.{◌≡◌, ◌++◌, flat_map, map, IfOk, OnOk};
ghost use Rattle.project_declarations.specs.Declarations.{Declaration};
ghost use Rattle.project_declarations.specs.Rows.{bare_decl};
ghost use Rattle.declaration_references.specs.References.{bare};
ghost use Rattle.declaration_order.specs.Leads as spec;
ghost use Rattle.declaration_order.specs.Tables.{decls_in};
ghost use Rattle.declaration_order.specs.Wants as wants;

use crate::declared::DeclTable;
use declaration_references::{Reference, ReferenceKind, References};
use project_declarations::{DeclRow, GLOBAL, OUTERMOST, Owner, What, locals};
use reference_graph::Graph;
use scope_names::Names;
use st_tree::Site;
use station_ports::outside::NoMemory;
use std::alloc::Global;

/// What a name stands for in a scope.
pub fn found(names: &Names<'_, What>, scope: u32, name: &[u8]) -> Option<What>
    ensures { result ≡ spec.found_in names.now scope name.now }
{
    match names.find(scope, name) {
        Some(row) => Some(row.what),
        None => None,
    }
}

fn type_site(what: Option<What>) -> Option<Site>
    ensures { result ≡ spec.type_site what }
{
    match what {
        Some(What::Type(site)) => Some(site),
        _ => None,
    }
}

/// Where the variable is declared that a name stands for.
pub fn variable_site(what: Option<What>) -> Option<Site>
    ensures { result ≡ spec.variable_site what }
{
    match what {
        Some(What::Variable(site)) => Some(site),
        _ => None,
    }
}

/// Where the global variable of a name is declared.
pub fn global_named(names: &Names<'_, What>, name: &[u8]) -> Option<Site>
    ensures { result ≡ spec.global_named (spec.found_in names.now) name.now }
{
    variable_site(found(names, GLOBAL, name))
}

/// Where the type of a name is declared.
pub fn type_named(names: &Names<'_, What>, name: &[u8]) -> Option<Site>
    ensures { result ≡ spec.type_named (spec.found_in names.now) name.now }
{
    type_site(found(names, OUTERMOST, name))
}

fn own_named(names: &Names<'_, What>, owner: Owner, name: &[u8]) -> Result<Option<Site>, NoMemory>
    ensures { IfOk result (λ site. site ≡ spec.own_named (spec.found_in names.now) owner name.now) }
{
    match owner {
        Owner::Type => Ok(None),
        Owner::Global(_) => Ok(None),
        Owner::Local(local) => Ok(variable_site(found(names, locals(local.unit.0)?, name))),
        Owner::Result(unit) => Ok(variable_site(found(names, locals(unit.0)?, name))),
    }
}

fn variable_named(
    names: &Names<'_, What>,
    owner: Owner,
    name: &[u8],
) -> Result<Option<Site>, NoMemory>
    ensures { IfOk result
        (λ site. site ≡ spec.variable_named (spec.found_in names.now) owner name.now) }
{
    match own_named(names, owner, name)? {
        Some(site) => Ok(Some(site)),
        None => Ok(global_named(names, name)),
    }
}

fn site_named(
    names: &Names<'_, What>,
    owner: Owner,
    reference: &Reference<'_>,
) -> Result<Option<Site>, NoMemory>
    ensures { IfOk result (λ site. site ≡ spec.site_named (spec.found_in names.now) owner
        reference.now.kind reference.now.name.now) }
{
    match reference.kind {
        ReferenceKind::Type => Ok(type_named(names, reference.name)),
        ReferenceKind::Variable => variable_named(names, owner, reference.name),
        ReferenceKind::ValueType => Ok(type_named(names, reference.name)),
        ReferenceKind::Global => Ok(global_named(names, reference.name)),
    }
}

fn number_named(
    table: &DeclTable<'_>,
    names: &Names<'_, What>,
    owner: Owner,
    reference: &Reference<'_>,
) -> Result<Option<usize>, NoMemory>
    ensures { IfOk result (λ number. number ≡ spec.number_named (spec.found_in names.now)
        (decls_in table.now) owner (bare reference.now)) }
{
    match site_named(names, owner, reference)? {
        Some(site) => Ok(table.number(site)),
        None => Ok(None),
    }
}

/// Which names count.
#[derive(Clone, Copy, Debug, PartialEq, Eq)]
pub(crate) enum Wanted {
    /// All by which a declaration leads to others.
    Leads,
    /// Types by their specifications.
    LeadsByType,
    /// The types of values that are written `Type#value`.
    NamesAValue,
    /// All names.
    Names,
}

fn counts(wanted: Wanted, kind: ReferenceKind) -> bool
    ensures { result ≡ wants.wanted_of wanted kind }
{
    match wanted {
        Wanted::Leads => match kind {
            ReferenceKind::ValueType => false,
            _ => true,
        },
        Wanted::LeadsByType => match kind {
            ReferenceKind::Type => true,
            _ => false,
        },
        Wanted::NamesAValue => match kind {
            ReferenceKind::ValueType => true,
            _ => false,
        },
        Wanted::Names => true,
    }
}

fn targets(
    alloc: Global,
    wanted: Wanted,
    table: &DeclTable<'_>,
    names: &Names<'_, What>,
    owner: Owner,
    references: &[Reference<'_>],
) -> Result<Vec<usize>, NoMemory>
    ensures { IfOk result (λ list. list.items ≡ flat_map (spec.target (wants.wanted_of wanted)
        (spec.found_in names.now) (decls_in table.now) owner) (map bare references.now)) }
{
    let mut list = Vec::new(alloc);
    for reference in references {
        if counts(wanted, reference.kind) {
            if let Some(number) = number_named(table, names, owner, reference)? {
                list.push(number)?;
            }
        }
    }
    Ok(list)
}

/// For each declaration the numbers of those that it names, as often as it names them. Takes time
/// linear in the declarations' expressions, with a search by halves for each name.
pub(crate) fn graph_of(
    alloc: Global,
    wanted: Wanted,
    table: &DeclTable<'_>,
    names: &Names<'_, What>,
) -> Result<Graph, NoMemory>
    ensures { IfOk result (λ graph. graph ≡ spec.graph_of (wants.wanted_of wanted)
        (spec.found_in names.now) (decls_in table.now)) }
{
    let mut graph = Graph::new(alloc);
    for row in table.rows() {
        let mut references = References::new(alloc);
        references.declaration(row)?;
        let list = targets(
            alloc,
            wanted,
            table,
            names,
            row.owner,
            references.as_slice(),
        )?;
        graph.add_node(&list)?;
    }
    Ok(graph)
}
