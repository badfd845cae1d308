// The fields of a project's structures.

ghost use Rattle.std.specs.Prelude.{◌≡◌, map, flat_map, IfOk, OnOk};
ghost use Rattle.project_declarations.specs.Rows.{bare_decl};
ghost use Rattle.type_parts.specs.Parts as parts;
ghost use Rattle.type_parts.specs.Places as places;
ghost use Rattle.type_parts.specs.Tables.{AddsNames, whole_list, fields_lists, IsTable};

use crate::places::{add_names, place_of};
use crate::twice::{is_marked, twice_of};
use project_declarations::{DeclRow, Source};
use scope_names::{NameRow, Names};
use st_tree::{Fields, Shape};
use station_ports::outside::NoMemory;
use std::alloc::Global;
use std::marker::Model;

/// The names of the fields of the structures that declarations declare, each structure known by the
/// number of its declaration. To contracts it is the list of the declarations.
#[derive(Drop)]
pub struct StructureFields<'t> {
    rows: Vec<DeclRow<'t>>,
    names: Names<'t, u32>,
    twice: Vec<bool>,
}

impl<'t> Model for StructureFields<'t> {
    ghost use Rattle.std.specs.Prelude.{List, map};
    ghost use Rattle.project_declarations.specs.Declarations.{Declaration};
    ghost use Rattle.project_declarations.specs.Rows.{bare_decl};
    ghost use Rattle.type_parts.specs.Tables.{fields_lists};
    ghost use Rattle.type_parts.specs.steps.Kept.{AreNamed};
    ghost use Rattle.std.specs.Coded.{codes};
    ghost use Rattle.st_tree.specs.contracts.declaration.Spec as spec;
    ghost use Rattle.st_tree.specs.contracts.declaration.Init as init;
    ghost use Rattle.st_tree.specs.contracts.expression.Expr as expr;

    ghost Value = { List Declaration };

    ghost coded = { Prim.hlevel (codes, spec.the_row.coded, init.the_row.coded, expr.the_row.coded) };

    ghost view = { λ f. map bare_decl f.rows.items };

    ghost invariant = { λ f. AreNamed (fields_lists (map bare_decl f.rows.items)) f.names f.twice.items };
}

impl<'t> StructureFields<'t> {
    /// The fields of the structures that declarations declare. It keeps a copy of the rows.
    /// NoMemory where there is no memory for them, or no room for the numbers of 2^32 declarations
    /// or fields.
    pub fn of(alloc: Global, decls: &[DeclRow<'t>]) -> Result<StructureFields<'t>, NoMemory>
        ensures { IfOk result (λ f. f ≡ map bare_decl decls.now) }
    {
        let rows = Vec::from_slice(alloc, decls)?;
        let names = names_of_fields(alloc, decls)?;
        let twice = twice_of(alloc, &names, decls.len())?;
        Ok(StructureFields { rows, names, twice })
    }

    /// The place of the first field of a name, counted from 0 over the names of all fields, in the
    /// structure that the declaration of a number declares, or None where it has no such field.
    /// Takes time in the logarithm of the count of all fields.
    pub fn place(&self, number: usize, name: &[u8]) -> Option<usize>
        ensures { result ≡ places.place_of_field self.now number name.now }
    {
        place_of(&self.names, number, name)
    }

    /// Whether two fields of the structure that the declaration of a number declares have one name.
    pub fn has_twice(&self, number: usize) -> bool
        ensures { result ≡ places.has_field_twice_at self.now number }
    {
        is_marked(&self.twice, number)
    }
}

/// The fields of one structure, counted over all their names.
fn add_fields<'t>(
    names: &mut Vec<NameRow<'t, u32>>,
    number: usize,
    groups: &'t [Fields],
) -> Result<(), NoMemory>
    ensures { OnOk result (AddsNames names.old.items names.new.items
        (whole_list number (flat_map parts.fields_names groups.now))) }
{
    let mut place = 0;
    for group in groups {
        let some = group.names.as_slice();
        add_names(names, number, place, some)?;
        place = some.len().checked_add(place).ok_or(NoMemory)?;
    }
    Ok(())
}

#[tactic(auto, using(crate::proofs::Adding::nothing_named))]
fn add_shape<'t>(
    names: &mut Vec<NameRow<'t, u32>>,
    number: usize,
    shape: &'t Shape,
) -> Result<(), NoMemory>
    ensures { OnOk result (AddsNames names.old.items names.new.items
        (whole_list number (parts.shape_fields shape.now))) }
{
    match shape {
        Shape::Spec(_) => Ok(()),
        Shape::Structure(_, groups) => add_fields(names, number, groups.as_slice()),
    }
}

#[tactic(auto, using(crate::proofs::Adding::nothing_named))]
fn add_decl<'t>(
    names: &mut Vec<NameRow<'t, u32>>,
    number: usize,
    decl: &DeclRow<'t>,
) -> Result<(), NoMemory>
    ensures { OnOk result (AddsNames names.old.items names.new.items
        (whole_list number (parts.fields_of (bare_decl decl.now)))) }
{
    match decl.source {
        Source::Type(written) => add_shape(names, number, &written.shape),
        Source::Variables(_) => Ok(()),
        Source::Result(_) => Ok(()),
    }
}

fn names_of_fields<'t>(alloc: Global, decls: &[DeclRow<'t>]) -> Result<Names<'t, u32>, NoMemory>
    ensures { IfOk result (λ names. IsTable names (fields_lists (map bare_decl decls.now))) }
{
    if decls.len() > u32::MAX as usize {
        return Err(NoMemory);
    }
    let mut names = Vec::new(alloc);
    for (number, decl) in decls.iter().enumerate() {
        add_decl(&mut names, number, decl)?;
    }
    Ok(Names::of(names))
}
