// Names of variables, and what declarations belong to.

ghost use Rattle.std.specs.Prelude.{◌≡◌, slice_get};
ghost use Rattle.std.specs.Option.{option_map};
ghost use Rattle.project_declarations.specs.Rows.{bare_unit};
ghost use Rattle.declaration_order.specs.Leads as leads;
ghost use Rattle.declared_names.specs.Project as spec;
ghost use Rattle.declared_names.specs.Tables.{known_at, here_of, project_in};

use crate::at::At;
use crate::project::Project;
use declaration_order::{global_named, variable_site};
use declared_types::Given;
use project_declarations::{Local, Owner, UnitNo, UnitRow, What};
use st_tree::{Keep, SectionKind, Site, UnitKind};

/// What a name stands for in a scope.
pub fn found(project: &Project<'_>, scope: u32, name: &[u8]) -> Option<What>
    ensures { result ≡ spec.finds (project_in project.now) scope name.now }
{
    declaration_order::found(&project.names, scope, name)
}

/// The number of the declaration at a site.
pub fn number_there(project: &Project<'_>, site: Option<Site>) -> Option<usize>
    ensures { result ≡ spec.number_there (project_in project.now) site }
{
    match site {
        None => None,
        Some(site) => project.table.number(site),
    }
}

/// The number of the declaration of a global variable.
pub fn global_number(project: &Project<'_>, name: &[u8]) -> Option<usize>
    ensures { result ≡ spec.global_number (project_in project.now) name.now }
{
    number_there(project, global_named(&project.names, name))
}

#[tactic(auto, using(crate::proofs::Scopes::own_by_scope))]
fn own_site(at: &At<'_, '_>, name: &[u8]) -> Option<Site>
    ensures { result ≡ leads.own_named (spec.finds (known_at at.now).project)
        (here_of at.now).owner name.now }
{
    match at.own {
        None => None,
        Some(scope) => variable_site(found(at.project, scope, name)),
    }
}

/// The number of the declaration of a variable of the unit's own.
pub fn own_number(at: &At<'_, '_>, name: &[u8]) -> Option<usize>
    ensures { result ≡ spec.own_number (known_at at.now).project (here_of at.now).owner name.now }
{
    number_there(at.project, own_site(at, name))
}

/// The number of the declaration of a variable: the unit's own, else a global one.
pub(crate) fn variable_number(at: &At<'_, '_>, name: &[u8]) -> Option<usize>
    ensures { result ≡ spec.variable_number (known_at at.now).project (here_of at.now).owner
        name.now }
{
    match own_number(at, name) {
        Some(number) => Some(number),
        None => global_number(at.project, name),
    }
}

/// What the declaration of a number belongs to.
pub fn owner_at(project: &Project<'_>, number: usize) -> Option<Owner>
    ensures { result ≡ spec.owner_at (project_in project.now) number }
{
    match project.table.rows().get(number) {
        None => None,
        Some(row) => Some(row.owner),
    }
}

/// What the declaration of a number gives, or None where it holds a fault or isn't known.
pub fn given_at(at: &At<'_, '_>, number: usize) -> Option<Given>
    ensures { result ≡ spec.given_at (known_at at.now) number }
{
    match at.given.get(number) {
        None => None,
        Some(given) => *given,
    }
}

fn is_constant_keep(keep: Option<Keep>) -> bool
    ensures { result ≡ spec.is_constant_keep keep }
{
    match keep {
        Some(Keep::Constant) => true,
        _ => false,
    }
}

fn is_var(kind: SectionKind) -> bool
    ensures { result ≡ spec.is_var kind }
{
    match kind {
        SectionKind::Var => true,
        _ => false,
    }
}

/// Whether what belongs there is a constant. A VAR_EXTERNAL is none: its global may be one.
pub fn is_constant(owner: Option<Owner>) -> bool
    ensures { result ≡ spec.is_constant owner }
{
    match owner {
        Some(Owner::Global(keep)) => is_constant_keep(keep),
        Some(Owner::Local(local)) => is_var(local.kind) && is_constant_keep(local.keep),
        _ => false,
    }
}

/// Whether what belongs there names globals.
pub fn is_external(owner: Option<Owner>) -> bool
    ensures { result ≡ spec.is_external owner }
{
    match owner {
        Some(Owner::Local(local)) => match local.kind {
            SectionKind::External => true,
            _ => false,
        },
        _ => false,
    }
}

/// Whether a unit is a function.
pub fn is_function(project: &Project<'_>, unit: UnitNo) -> bool
    ensures { result ≡ spec.is_function (project_in project.now) unit }
{
    match project.units.get(unit.0 as usize) {
        None => false,
        Some(row) => match &row.unit.kind {
            UnitKind::Function(_) => true,
            UnitKind::Block => false,
            UnitKind::Program => false,
        },
    }
}

/// Whether a declaration stands in a function.
pub fn in_function(project: &Project<'_>, owner: Owner) -> bool
    ensures { result ≡ spec.in_function (project_in project.now) owner }
{
    match owner {
        Owner::Local(local) => is_function(project, local.unit),
        Owner::Result(unit) => is_function(project, unit),
        Owner::Global(_) => false,
        Owner::Type => false,
    }
}

/// Whether variables of a section are a program's or a block's own, in a VAR section, and no constants.
pub fn is_own_variable(project: &Project<'_>, local: Local) -> bool
    ensures { result ≡ spec.is_own_variable (project_in project.now) local }
{
    is_var(local.kind) && !is_constant_keep(local.keep) && !is_function(project, local.unit)
}

/// The number of the declaration of the variable that a name stands for in a scope.
pub fn number_named(project: &Project<'_>, scope: u32, name: &[u8]) -> Option<usize>
    ensures { result ≡ spec.number_named (project_in project.now) scope name.now }
{
    number_there(project, variable_site(found(project, scope, name)))
}

/// The number of the declaration of a variable of a unit.
pub fn number_in_unit(project: &Project<'_>, unit: UnitNo, name: &[u8]) -> Option<usize>
    ensures { result ≡ spec.number_in_unit (project_in project.now) unit name.now }
{
    if (unit.0 as usize) < project.units.len() {
        number_named(project, unit.0 * 3 + 6, name)
    } else {
        None
    }
}

/// A unit by its number.
pub fn unit_at<'a, 't>(project: &'a Project<'t>, unit: UnitNo) -> Option<&'a UnitRow<'t>>
    ensures { option_map (λ row. bare_unit row.now) result
        ≡ slice_get (project_in project.now).units unit.0 }
{
    project.units.get(unit.0 as usize)
}
