// What the declarations of a project give, one after the other.

ghost use Rattle.std.specs.Prelude.{◌≡◌, IfOk, OnOk, slice_set};
ghost use Rattle.project_declarations.specs.Rows.{bare_decl};
ghost use Rattle.declared_names.specs.Tables.{project_in};
ghost use Rattle.declared_project.specs.Computing as spec;
ghost use Rattle.declared_project.specs.Tables.{computed_in};

use crate::declaring::declare;
use crate::early::Early;
use crate::reading::Reading;
use declared_names::{At, Project};
use declared_types::{Form, Given};
use initial_values::Written;
use link_faults::Faults;
use project_declarations::DeclRow;
use station_ports::outside::NoMemory;
use std::alloc::Global;

/// What declarations give, by their numbers: None where one holds a fault or isn't computed yet. The rows of
/// types that aren't elementary, and of initial values of whole arrays and structures.
#[derive(Drop)]
pub struct Computed<'t> {
    pub given: Vec<Option<Given>>,
    pub forms: Vec<Form<'t>>,
    pub rows: Vec<Written>,
}

fn nothing_yet<'t>(alloc: Global, project: &Project<'t>) -> Result<Computed<'t>, NoMemory>
    ensures { IfOk result (λ c. computed_in c ≡ spec.nothing_yet (project_in project.now)) }
{
    Ok(Computed {
        given: vec![in alloc; None; project.decls().len()]?,
        forms: project.first_forms(alloc)?,
        rows: Vec::new(alloc),
    })
}

fn set_given(given: &mut Vec<Option<Given>>, number: usize, made: Option<Given>)
    ensures { given.new.items ≡ slice_set given.old.items number made }
{
    if number < given.len() {
        given[number] = made;
    }
}

fn compute_row<'t>(
    alloc: Global,
    project: &Project<'t>,
    computed: &mut Computed<'t>,
    number: usize,
    row: &DeclRow<'t>,
) -> Result<(), NoMemory>
    ensures { OnOk result (computed_in computed.new ≡ spec.with_made (computed_in computed.old) number
        (spec.made (project_in project.now) (computed_in computed.old) number (bare_decl row.now))) }
{
    let mut faults = Faults::new();
    let made = {
        let at = At::of(project, &computed.given, row, number)?;
        let early = Early { at };
        let reading = Reading {
            at,
            meaning: &early,
        };
        declare(
            alloc,
            &at,
            &reading,
            &mut computed.forms,
            &mut computed.rows,
            &mut faults,
            row,
        )?
    };
    set_given(&mut computed.given, number, made);
    Ok(())
}

fn turn<'t>(
    alloc: Global,
    project: &Project<'t>,
    computed: &mut Computed<'t>,
    number: usize,
) -> Result<(), NoMemory>
    ensures { OnOk result (computed_in computed.new
        ≡ spec.turn (project_in project.now) (computed_in computed.old) number) }
{
    match project.decls().get(number) {
        None => Ok(()),
        Some(row) => compute_row(alloc, project, computed, number, row),
    }
}

/// What the declarations of a project give, computed in an order in which each stands behind those that
/// it waits for. Their faults are told where they are read once all are known.
pub fn compute<'t>(
    alloc: Global,
    project: &Project<'t>,
    order: &[usize],
) -> Result<Computed<'t>, NoMemory>
    ensures { IfOk result (λ c. computed_in c ≡ spec.computed (project_in project.now) order.now) }
{
    let mut computed = nothing_yet(alloc, project)?;
    for number in order {
        turn(alloc, project, &mut computed, *number)?;
    }
    Ok(computed)
}
