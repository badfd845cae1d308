// The rows of a keeper in memory: what they hold of a caller, and how they change.
ghost use Rattle.std.specs.Prelude.{◌≡◌, ◌≤◌, ◌<◌, ◌+◌, ◌-◌, ◌^◌, ℕ, List, true, min, length, map, [], ◌∷◌, ◌++◌, IfOk, OnOk, OnErr, IsOk, IfSome, IsErrOf, MatchOption, Some, None};
ghost use Rattle.std.specs.List.{list_all, position_or_len, sum_by};
ghost use Rattle.project_keeper.specs.declared.rows.CallerRows.{CallerRows as Caller};
ghost use Rattle.project_keeper.specs.Names.{is_name};
ghost use Rattle.project_keeper.specs.Projects.{is_lawful, cost_of, is_named, edits_of, stored, with_project, with_edit, changed_for};
ghost use Rattle.project_keeper.specs.Keeping.{max_edits, HasRoom, are_lawful_edits, is_lawful_project, are_lawful, own_of, is_caller};

use crate::edit::Edit;
use crate::keeper::KeeperRefusal;
use crate::rows::{CallerRows, ProjectRow};
use station_ports::outside::NoMemory;
use station_ports::texts::Name;
use std::alloc::{AllocError, Global};
use tree_items::Items;

/// The most edits of a project.
pub const MAX_EDITS: usize = 10_000;

/// The projects of the caller of that name.
fn own<'a>(callers: &'a [CallerRows], caller: &Name) -> &'a [ProjectRow]
    ensures own { result.now ≡ own_of callers.now caller.now }
    ensures lawful { are_lawful callers.now ≡ true → list_all is_lawful_project result.now ≡ true }
{
    for row in callers {
        if row.name.bytes() == caller.bytes() {
            return row.projects.as_slice();
        }
    }
    &[]
}

/// The names of the caller's projects.
pub(crate) fn names(
    alloc: Global,
    callers: &[CallerRows],
    caller: &Name,
) -> Result<Items<Name>, NoMemory>
    ensures names { IfOk result (λ names. names ≡ map (λ project. project.name) (own_of callers.now caller.now)) }
    ensures lawful { are_lawful callers.now ≡ true → IfOk result (λ names. list_all is_name names ≡ true) }
{
    project_names(alloc, own(callers, caller))
}

fn project_names(alloc: Global, projects: &[ProjectRow]) -> Result<Items<Name>, NoMemory>
    ensures names { IfOk result (λ names. names ≡ map (λ project. project.name) projects.now) }
    ensures lawful { list_all is_lawful_project projects.now ≡ true → IfOk result (λ names. list_all is_name names ≡ true) }
{
    let mut names = Items::new(alloc);
    for project in projects {
        names.push(project.name.copy(alloc)?)?;
    }
    Ok(names)
}

/// The edits of the caller's project.
pub(crate) fn edits(
    alloc: Global,
    callers: &[CallerRows],
    caller: &Name,
    project: &Name,
) -> Result<Option<Items<Edit>>, NoMemory>
    ensures edits { IfOk result (λ found. found ≡ edits_of project.now (own_of callers.now caller.now)) }
    ensures lawful { are_lawful callers.now ≡ true → IfOk result (λ found. IfSome found (λ edits. are_lawful_edits edits ≡ true)) }
{
    match project_of(own(callers, caller), project) {
        None => Ok(None),
        Some(row) => Ok(Some(copy_edits(alloc, row.edits.as_slice())?)),
    }
}

/// The project of that name.
fn project_of<'a>(projects: &'a [ProjectRow], project: &Name) -> Option<&'a ProjectRow>
    ensures { MatchOption result (edits_of project.now projects.now ≡ None) (λ row. edits_of project.now projects.now ≡ Some row.now.edits) }
{
    for row in projects {
        if project.bytes() == row.name.bytes() {
            return Some(row);
        }
    }
    None
}

fn copy_edits(alloc: Global, edits: &[Edit]) -> Result<Items<Edit>, NoMemory>
    ensures { IfOk result (λ copy. copy ≡ edits.now) }
{
    let mut copy = Items::new(alloc);
    for edit in edits {
        copy.push(edit.copy(alloc)?)?;
    }
    Ok(copy)
}

/// What the caller's edits cost, as far as a u64 goes. Takes no memory.
pub(crate) fn stored_bytes(callers: &[CallerRows], caller: &Name) -> u64
    ensures { result ≡ min (stored (own_of callers.now caller.now)) (2 ^ 64 - 1) }
{
    project_bytes(own(callers, caller))
}

fn project_bytes(projects: &[ProjectRow]) -> u64
    ensures { result ≡ min (stored projects.now) (2 ^ 64 - 1) }
{
    let mut total = 0;
    for project in projects {
        total = with_costs(total, project.edits.as_slice());
    }
    total
}

/// The number and the costs of these edits, as far as a u64 goes.
fn with_costs(before: u64, edits: &[Edit]) -> u64
    ensures { result ≡ min (before + sum_by cost_of edits.now) (2 ^ 64 - 1) }
{
    let mut total = before;
    for edit in edits {
        total = total.saturating_add(edit.cost());
    }
    total
}

/// The place of the caller of that name, or how many callers there are.
fn caller_place(callers: &[CallerRows], caller: &Name) -> usize
    ensures { result ≡ position_or_len (is_caller caller.now) callers.now }
{
    let mut at = 0;
    for row in callers {
        if row.name.bytes() == caller.bytes() {
            return at;
        }
        at += 1;
    }
    at
}

/// The place of the project of that name, or how many projects there are.
fn project_place(projects: &[ProjectRow], project: &Name) -> usize
    ensures { result ≡ position_or_len (is_named project.now) projects.now }
{
    let mut at = 0;
    for row in projects {
        if project.bytes() == row.name.bytes() {
            return at;
        }
        at += 1;
    }
    at
}

/// Adds a project with no edits as the caller's last one.
pub(crate) fn create(
    alloc: Global,
    callers: &mut Items<CallerRows>,
    caller: &Name,
    project: &Name,
) -> Result<(), NoMemory>
    requires caller { is_name caller.now ≡ true }
    requires project { is_name project.now ≡ true }
    ensures created { OnOk result ((other : List ℕ) → own_of callers.new other ≡
        changed_for caller.now (with_project project.now) (own_of callers.old) other) }
    ensures refused { OnErr result (callers.new ≡ callers.old) }
    ensures lawful { are_lawful callers.old ≡ true → are_lawful callers.new ≡ true }
{
    let name = project.copy(alloc)?;
    let row = ProjectRow {
        name,
        edits: Items::new(alloc),
    };
    let at = caller_place(callers.as_slice(), caller);
    if at < callers.len() {
        add_project(&mut callers.item_mut(at).projects, row)
    } else {
        add_caller(alloc, callers, caller, row)
    }
}

fn add_project(projects: &mut Items<ProjectRow>, row: ProjectRow) -> Result<(), NoMemory>
    ensures added { OnOk result (projects.new ≡ projects.old ++ row ∷ []) }
    ensures refused { OnErr result (projects.new ≡ projects.old) }
{
    Ok(projects.push(row)?)
}

/// Adds a caller with this one project.
fn add_caller(
    alloc: Global,
    callers: &mut Items<CallerRows>,
    caller: &Name,
    row: ProjectRow,
) -> Result<(), NoMemory>
    ensures added { OnOk result (callers.new ≡ callers.old ++ (record { name = caller.now; projects = row ∷ [] }) ∷ []) }
    ensures refused { OnErr result (callers.new ≡ callers.old) }
{
    let name = caller.copy(alloc)?;
    let mut projects = Items::new(alloc);
    projects.push(row)?;
    callers.push(CallerRows { name, projects })?;
    Ok(())
}

/// Adds the edit as the last one of the caller's project.
pub(crate) fn append(
    callers: &mut Items<CallerRows>,
    caller: &Name,
    project: &Name,
    edit: Edit,
) -> Result<(), NoMemory>
    requires edit { is_lawful edit ≡ true }
    ensures appended { HasRoom project.now (own_of callers.old caller.now) → OnOk result ((other : List ℕ) → own_of callers.new other ≡
        changed_for caller.now (with_edit project.now edit) (own_of callers.old) other) }
    ensures refused { OnErr result (callers.new ≡ callers.old) }
    ensures lawful { are_lawful callers.old ≡ true → are_lawful callers.new ≡ true }
{
    let at = caller_place(callers.as_slice(), caller);
    if at < callers.len() {
        append_to(&mut callers.item_mut(at).projects, project, edit)
    } else {
        Ok(())
    }
}

fn append_to(projects: &mut Items<ProjectRow>, project: &Name, edit: Edit) -> Result<(), NoMemory>
    requires edit { is_lawful edit ≡ true }
    ensures appended { HasRoom project.now projects.old → OnOk result (projects.new ≡ with_edit project.now edit projects.old) }
    ensures refused { OnErr result (projects.new ≡ projects.old) }
    ensures lawful { list_all is_lawful_project projects.old ≡ true → list_all is_lawful_project projects.new ≡ true }
{
    let at = project_place(projects.as_slice(), project);
    if at < projects.len() {
        add_edit(&mut projects.item_mut(at).edits, edit)
    } else {
        Ok(())
    }
}

fn add_edit(edits: &mut Items<Edit>, edit: Edit) -> Result<(), NoMemory>
    ensures added { length edits.old < max_edits → OnOk result (edits.new ≡ edits.old ++ edit ∷ []) }
    ensures refused { OnErr result (edits.new ≡ edits.old) }
    ensures lawful { is_lawful edit ≡ true → are_lawful_edits edits.old ≡ true → are_lawful_edits edits.new ≡ true }
{
    if edits.len() < MAX_EDITS {
        Ok(edits.push(edit)?)
    } else {
        Ok(())
    }
}
