// Program lines.

ghost use Rattle.std.specs.Prelude.{◌≡◌, flat_map, map};
ghost use Rattle.link_faults.specs.First.{after};
ghost use Rattle.project_declarations.specs.Rows.{bare_unit};
ghost use Rattle.unit_rules.specs.Running as spec;

use crate::noted::note_at;
use link_faults::{Faults, LinkCode};
use project_declarations::{OUTERMOST, TASKS, UnitNo, UnitRow, What};
use scope_names::Names;
use st_tree::{Identifier, ProgramLine, UnitKind};

fn is_program_kind(kind: &UnitKind) -> bool
    ensures { result ≡ spec.program_kind kind.now }
{
    match kind {
        UnitKind::Program => true,
        UnitKind::Block => false,
        UnitKind::Function(_) => false,
    }
}

fn is_program_unit(units: &[UnitRow<'_>], unit: UnitNo) -> bool
    ensures { result ≡ spec.is_program_unit (map bare_unit units.now) unit }
{
    match units.get(unit.0 as usize) {
        Some(row) => is_program_kind(&row.unit.kind),
        None => false,
    }
}

fn stands_for_program(units: &[UnitRow<'_>], what: What) -> bool
    ensures { result ≡ spec.stands_for_program (map bare_unit units.now) what }
{
    match what {
        What::Unit(unit) => is_program_unit(units, unit),
        What::Type(_) => false,
        What::Variable(_) => false,
        What::Value(_, _) => false,
        What::Task(_) => false,
        What::Line(_) => false,
        What::Step(_) => false,
        What::Action(_) => false,
    }
}

fn names_program(names: &Names<'_, What>, units: &[UnitRow<'_>], name: &[u8]) -> bool
    ensures { result ≡ spec.names_program (spec.outer names.now units.now) name.now }
{
    match names.find(OUTERMOST, name) {
        Some(row) => stands_for_program(units, row.what),
        None => false,
    }
}

fn is_task(names: &Names<'_, What>, name: &[u8]) -> bool
    ensures { result ≡ spec.is_task names.now name.now }
{
    match names.find(TASKS, name) {
        Some(_) => true,
        None => false,
    }
}

fn note_with(
    names: &Names<'_, What>,
    file: u16,
    line: &ProgramLine,
    task: &Option<Identifier>,
    faults: &mut Faults,
)
    ensures { faults.new ≡ after faults.old (spec.with_faults names.now file line.now task.now) }
{
    match task {
        None => note_at(file, line.node, LinkCode::OutOfProfile, faults),
        Some(task) => {
            if !is_task(names, task.name.bytes()) {
                note_at(file, task.node, LinkCode::Unknown, faults);
            }
        },
    }
}

fn note_type(
    names: &Names<'_, What>,
    units: &[UnitRow<'_>],
    file: u16,
    line: &ProgramLine,
    faults: &mut Faults,
)
    ensures { faults.new ≡ after faults.old (spec.type_faults (spec.outer names.now units.now)
        file line.now) }
{
    if !names_program(names, units, line.program.name.bytes()) {
        note_at(file, line.node, LinkCode::WrongCall, faults);
    }
}

fn note_line(
    names: &Names<'_, What>,
    units: &[UnitRow<'_>],
    file: u16,
    line: &ProgramLine,
    faults: &mut Faults,
)
    ensures { faults.new ≡ after faults.old (spec.line_faults (spec.outer names.now units.now)
        file line.now) }
{
    note_with(names, file, line, &line.task, faults);
    note_type(names, units, file, line, faults);
}

/// Notes what is wrong with program lines.
pub(crate) fn note_lines(
    names: &Names<'_, What>,
    units: &[UnitRow<'_>],
    file: u16,
    lines: &[ProgramLine],
    faults: &mut Faults,
)
    ensures { faults.new ≡ after faults.old (flat_map (spec.line_faults (spec.outer names.now
        units.now) file) lines.now) }
{
    for line in lines {
        note_line(names, units, file, line, faults);
    }
}
