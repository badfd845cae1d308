// Projects from files, and the order in which their declarations can be computed.

ghost use Rattle.std.specs.Prelude.{◌≡◌, ◌+◌, ◌<◌, ◌≤◌, ◌^◌, map, IfOk};
ghost use Rattle.project_declarations.specs.Scopes as scopes;
ghost use Rattle.project_declarations.specs.Rows.{bare_decl, bare_unit};
ghost use Rattle.declaration_order.specs.LeadBack.{AreDeclComponents};
ghost use Rattle.declaration_order.specs.Computable.{IsComputingOrder};
ghost use Rattle.declared_names.specs.Files.{IsProject};
ghost use Rattle.declared_names.specs.Project.{finds};
ghost use Rattle.declared_names.specs.Tables.{project_in};

use crate::project::Project;
use declaration_order::{DeclTable, computing_order, decl_components};
use project_declarations::{Collected, DeclRow, UnitRow, What, collect, locals};
use scope_names::Names;
use st_tree::SourceTree;
use station_ports::outside::NoMemory;
use std::alloc::Global;
use type_parts::{Enumerations, StructureFields};

fn first_behind(units: usize) -> Result<u32, NoMemory>
    ensures { IfOk result (λ first. first ≡ 9 + units) }
{
    match u32::try_from(units) {
        Ok(count) => count.checked_add(9).ok_or(NoMemory),
        Err(_) => Err(NoMemory),
    }
}

fn scopes_fit(units: usize) -> Result<(), NoMemory>
    ensures { IfOk result (λ done. scopes.locals units < 2 ^ 32) }
{
    match u32::try_from(units) {
        Ok(count) => {
            let _last = locals(count)?;
            Ok(())
        },
        Err(_) => Err(NoMemory),
    }
}

fn has_room(first: u32, more: usize) -> Result<(), NoMemory>
    ensures { IfOk result (λ done. first + more ≤ 2 ^ 32) }
{
    match u32::try_from(more) {
        Ok(count) => match first.checked_add(count) {
            Some(_) => Ok(()),
            None => Err(NoMemory),
        },
        Err(_) => Err(NoMemory),
    }
}

impl<'t> Project<'t> {
    /// What the files declare. Takes time in the order of the declarations' text, with a search by halves
    /// for each name. NoMemory where there is no memory for the tables, or no room for the numbers of more
    /// than 65,536 files, or of more than 2^32 units, enumerations and names.
    pub fn of(alloc: Global, files: &'t [SourceTree]) -> Result<Project<'t>, NoMemory>
        ensures { IfOk result (λ p. IsProject files.now (project_in p)) }
    {
        let Collected {
            units,
            decls,
            names,
        } = collect(alloc, files)?;
        let names = Names::of(names);
        let enumerations = Enumerations::of(alloc, &decls)?;
        let fields = StructureFields::of(alloc, &decls)?;
        let table = DeclTable::of(alloc, decls)?;
        let components = decl_components(alloc, &table, &names)?;
        scopes_fit(units.len())?;
        let first_listed = first_behind(units.len())?;
        has_room(first_listed, enumerations.count())?;
        Ok(Project {
            names,
            units,
            table,
            enumerations,
            fields,
            components,
            first_listed,
        })
    }

    /// All declarations, in the order of their numbers.
    pub fn decls(&self) -> &[DeclRow<'t>]
        ensures { map bare_decl result.now ≡ (project_in self.now).decls }
    {
        self.table.rows()
    }

    /// The names of all scopes.
    pub fn names(&self) -> &Names<'t, What>
        ensures { result.now ≡ (project_in self.now).names }
    {
        &self.names
    }

    /// All units, in the order of their numbers.
    pub fn units(&self) -> &[UnitRow<'t>]
        ensures { map bare_unit result.now ≡ (project_in self.now).units }
    {
        &self.units
    }

    /// The numbers of all declarations, in an order in which they can be computed: each behind those that
    /// it waits for.
    pub fn order(&self, alloc: Global) -> Result<Vec<usize>, NoMemory>
        requires { AreDeclComponents (finds (project_in self.now)) (project_in self.now).decls
            (project_in self.now).components }
        ensures { IfOk result (λ list. IsComputingOrder (finds (project_in self.now))
            (project_in self.now).decls list.items) }
    {
        computing_order(alloc, &self.table, &self.names, &self.components)
    }
}
