// The component of a file: the task MAIN of its one program, with a cell for each variable.

ghost use Rattle.std.specs.Prelude.{◌≡◌, ℕ, List, [], ◌∷◌, ◌++◌, IfOk, OnOk, length, flat_map};
ghost use Rattle.st_tree.specs.Code.{reading};
ghost use Rattle.first_form.specs.Names.{UsesDeclared};
ghost use Rattle.st_tree.specs.Steady.{IsSteadyComponent};
ghost use Rattle.st_tree.specs.Writes.{WritesCells};
ghost use Rattle.first_form.specs.declared.tree.Unit.{Unit as SourceUnit};
ghost use Rattle.task_config.specs.Plan.{cell_of, decl_cells, unit_cells, IsComponent};
ghost use Rattle.task_config.specs.Written.{place_in, place_among, with_place, written_body, IsWritten};

use crate::code::{Cells, body_code, collect_literals};
use first_form::{Decl, Identifier, Section, SourceTree, Spec, Unit};
use st_tree::{CellInfo, Component, TaskCode};
use station_ports::outside::NoMemory;
use station_ports::texts::Name;
use std::alloc::{AllocError, Global};
use std::collections::BTreeMap;
use tree_items::Items;

/// The component of a file of the first form. Its one program is run by the task MAIN; a variable starts at 0.
pub fn plan(alloc: Global, tree: &SourceTree) -> Result<Component, NoMemory>
    ensures tasks { IfOk result (λ component. length component.tasks ≡ length tree.now.units) }
    ensures written { (unit : SourceUnit) → tree.now.units ≡ unit ∷ [] → IfOk result (λ component. IsWritten unit component) }
    ensures component { (unit : SourceUnit) → tree.now.units ≡ unit ∷ [] → UsesDeclared unit → IfOk result (λ component. IsComponent unit component) }
    ensures steady { (unit : SourceUnit) → tree.now.units ≡ unit ∷ [] → UsesDeclared unit → IfOk result IsSteadyComponent }
    ensures writes { (unit : SourceUnit) → tree.now.units ≡ unit ∷ [] → UsesDeclared unit → IfOk result WritesCells }
{
    Ok(component_of(alloc, tree)?)
}

fn component_of(alloc: Global, tree: &SourceTree) -> Result<Component, AllocError>
    ensures tasks { IfOk result (λ component. length component.tasks ≡ length tree.now.units) }
    ensures written { (unit : SourceUnit) → tree.now.units ≡ unit ∷ [] → IfOk result (λ component. IsWritten unit component) }
{
    let mut tasks = Items::new(alloc);
    let mut literals = Items::new(alloc);
    for unit in tree.units.as_slice() {
        tasks.push(task_of(alloc, unit)?)?;
        collect_literals(unit.body.as_slice(), &mut literals)?;
    }
    Ok(Component {
        tasks,
        shared: Items::new(alloc),
        literals,
    })
}

/// The task that runs a program.
fn task_of(alloc: Global, unit: &Unit) -> Result<TaskCode, AllocError>
    ensures cells { IfOk result (λ task. task.cells ≡ unit_cells unit.now) }
    ensures code { IfOk result (λ task. reading task.code ≡ written_body (place_among task.cells) unit.now.body) }
{
    let mut cells = Items::new(alloc);
    let mut names: Cells<'_> = BTreeMap::new(alloc);
    for section in unit.sections.as_slice() {
        add_section(alloc, section, &mut cells, &mut names)?;
    }
    let code = body_code(alloc, &names, unit.body.as_slice())?;
    Ok(TaskCode { code, cells })
}

/// Adds the variables of a section.
fn add_section<'t>(
    alloc: Global,
    section: &'t Section,
    cells: &mut Items<CellInfo>,
    names: &mut Cells<'t>,
) -> Result<(), AllocError>
    ensures cells { OnOk result (cells.new ≡ cells.old ++ flat_map decl_cells section.now.decls) }
    ensures names { OnOk result (place_in (λ key. key.now) names.old ≡ place_among cells.old → place_in (λ key. key.now) names.new ≡ place_among cells.new) }
{
    for decl in section.decls.as_slice() {
        add_decl(alloc, decl, cells, names)?;
    }
    Ok(())
}

/// Adds the variables of a declaration.
fn add_decl<'t>(
    alloc: Global,
    decl: &'t Decl,
    cells: &mut Items<CellInfo>,
    names: &mut Cells<'t>,
) -> Result<(), AllocError>
    ensures cells { OnOk result (cells.new ≡ cells.old ++ decl_cells decl.now) }
    ensures names { OnOk result (place_in (λ key. key.now) names.old ≡ place_among cells.old → place_in (λ key. key.now) names.new ≡ place_among cells.new) }
{
    for identifier in decl.names.as_slice() {
        let cell = cell_of(alloc, identifier, decl.spec)?;
        add_name(identifier.name.bytes(), cells.len(), names)?;
        cells.push(cell)?;
    }
    Ok(())
}

/// Adds the place of a name. Of two variables of one name the first keeps it.
fn add_name<'t>(name: &'t [u8], place: usize, names: &mut Cells<'t>) -> Result<(), AllocError>
    ensures { OnOk result ((q : List ℕ) → place_in (λ key. key.now) names.new q ≡ with_place (place_in (λ key. key.now) names.old) name.now place q) }
{
    if names.get(name).is_none() {
        names.insert(name, place)?;
    }
    Ok(())
}

/// The cell of a variable of the task MAIN.
fn cell_of(alloc: Global, identifier: &Identifier, spec: Spec) -> Result<CellInfo, AllocError>
    ensures { IfOk result (λ cell. cell ≡ cell_of spec.elem identifier.now) }
{
    let mut path = Vec::from_slice(alloc, b"MAIN.")?;
    path.extend_from_slice(identifier.name.bytes())?;
    Ok(CellInfo {
        path: Name::from_vec(path),
        elem: spec.elem,
        start: 0,
    })
}
