// The files of a project.

ghost use Rattle.std.specs.Prelude.{◌≡◌, [], map, flat_map, IfOk, OnOk};
ghost use Rattle.project_declarations.specs.Named as names;
ghost use Rattle.project_declarations.specs.Declarations as declared;
ghost use Rattle.project_declarations.specs.Rows as rows;
ghost use Rattle.project_declarations.specs.Rows.{Adds, AddsUnits};

use crate::collected::Collected;
use st_tree::{Config, SourceTree, Types, Unit};
use station_ports::outside::NoMemory;
use std::alloc::{AllocError, Global};

impl<'t> Collected<'t> {
    fn all_types(&mut self, file: u16, list: &'t [Types]) -> Result<(), AllocError>
        ensures { OnOk result (Adds self.old self.new [] (flat_map (declared.types_decls file) list.now)
            (flat_map (names.types_names file) list.now)) }
    {
        for types in list {
            self.types(file, types)?;
        }
        Ok(())
    }

    fn all_configs(&mut self, file: u16, list: &'t [Config]) -> Result<(), AllocError>
        ensures { OnOk result (Adds self.old self.new [] (flat_map (declared.config_decls file) list.now)
            (flat_map (names.config_names file) list.now)) }
    {
        for config in list {
            self.config(file, config)?;
        }
        Ok(())
    }

    /// What a file declares outside its units.
    fn outer(&mut self, file: u16, tree: &'t SourceTree) -> Result<(), AllocError>
        ensures { OnOk result (Adds self.old self.new [] (declared.outer_decls file tree.now)
            (declared.outer_names file tree.now)) }
    {
        self.all_types(file, tree.types.as_slice())?;
        self.all_globals(file, tree.globals.as_slice())?;
        self.all_configs(file, tree.config.as_slice())?;
        Ok(())
    }
}

/// The number of a unit behind so many. NoMemory where units have no room for it.
fn number_of(units: usize) -> Result<u32, NoMemory>
    ensures { IfOk result (λ number. number ≡ units) }
{
    match u32::try_from(units) {
        Ok(number) => Ok(number),
        Err(_) => Err(NoMemory),
    }
}

/// The place of a file among those of a project.
fn file_number(place: usize) -> Result<u16, NoMemory>
    ensures { IfOk result (λ file. file ≡ place) }
{
    match u16::try_from(place) {
        Ok(file) => Ok(file),
        Err(_) => Err(NoMemory),
    }
}

impl<'t> Collected<'t> {
    /// The units of a file, under the numbers behind those that are there.
    fn all_units(&mut self, file: u16, list: &'t [Unit]) -> Result<(), NoMemory>
        ensures { OnOk result (AddsUnits self.old self.new (map (declared.placed file) list.now)) }
    {
        for unit in list {
            let number = number_of(self.units.len())?;
            self.unit(file, number, unit)?;
        }
        Ok(())
    }

    fn units_of_files(&mut self, files: &'t [SourceTree]) -> Result<(), NoMemory>
        ensures { OnOk result (AddsUnits self.old self.new (declared.units_from 0 files.now)) }
    {
        for (place, tree) in files.iter().enumerate() {
            let file = file_number(place)?;
            self.all_units(file, tree.units.as_slice())?;
        }
        Ok(())
    }

    fn outer_of_files(&mut self, files: &'t [SourceTree]) -> Result<(), NoMemory>
        ensures { OnOk result (Adds self.old self.new [] (declared.outer_decls_from 0 files.now)
            (declared.outer_names_from 0 files.now)) }
    {
        for (place, tree) in files.iter().enumerate() {
            let file = file_number(place)?;
            self.outer(file, tree)?;
        }
        Ok(())
    }
}

/// What files declare, each unit under its number: its place in file and text order. Files stand in
/// the order of the project. NoMemory where there is no memory for the rows, or no room for the
/// numbers of more than 65,536 files or of more units than scopes have numbers for.
pub fn collect<'t>(alloc: Global, files: &'t [SourceTree]) -> Result<Collected<'t>, NoMemory>
    ensures units { IfOk result (λ c. rows.units_in c ≡ declared.units_of files.now) }
    ensures decls { IfOk result (λ c. rows.decls_in c ≡ declared.decls_of files.now) }
    ensures names { IfOk result (λ c. rows.names_in c ≡ declared.names_of files.now) }
{
    let mut collected = Collected::new(alloc);
    collected.units_of_files(files)?;
    collected.outer_of_files(files)?;
    Ok(collected)
}
