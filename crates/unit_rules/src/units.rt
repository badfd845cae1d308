// Units beyond the most that a project may have, and what units may not hold.

ghost use Rattle.std.specs.Prelude.{◌≡◌, map, flat_map, drop};
ghost use Rattle.link_faults.specs.First.{after};
ghost use Rattle.project_declarations.specs.Rows.{bare_unit};
ghost use Rattle.unit_rules.specs.Forms as spec;

use crate::noted::note_at;
use link_faults::{Faults, LinkCode};
use project_declarations::UnitRow;
use st_tree::{Body, Keep, Section, SectionKind, UnitKind};

/// The most units of a project.
pub const MAX_UNITS: usize = 16_384;

fn note_body(file: u16, kind: &UnitKind, body: &Body, faults: &mut Faults)
    ensures { faults.new ≡ after faults.old (spec.body_faults file kind.now body.now) }
{
    match kind {
        UnitKind::Function(_) => match body {
            Body::Statements(_) => {},
            Body::Chart(chart) => note_at(file, chart.node, LinkCode::OutOfProfile, faults),
        },
        UnitKind::Block => {},
        UnitKind::Program => {},
    }
}

fn is_constant(keep: Option<Keep>) -> bool
    ensures { result ≡ spec.is_constant keep }
{
    match keep {
        Some(Keep::Constant) => true,
        Some(Keep::Retain) => false,
        Some(Keep::NonRetain) => false,
        None => false,
    }
}

fn may_be_constant(kind: SectionKind) -> bool
    ensures { result ≡ spec.may_be_constant kind }
{
    match kind {
        SectionKind::Var => true,
        SectionKind::External => true,
        SectionKind::Input => false,
        SectionKind::Output => false,
        SectionKind::InOut => false,
        SectionKind::Temp => false,
    }
}

fn function_has(kind: SectionKind) -> bool
    ensures { result ≡ spec.function_has kind }
{
    match kind {
        SectionKind::Var => true,
        SectionKind::Input => true,
        SectionKind::Temp => true,
        SectionKind::Output => false,
        SectionKind::InOut => false,
        SectionKind::External => false,
    }
}

fn program_has(kind: SectionKind) -> bool
    ensures { result ≡ spec.program_has kind }
{
    match kind {
        SectionKind::InOut => false,
        SectionKind::Var => true,
        SectionKind::Input => true,
        SectionKind::Output => true,
        SectionKind::External => true,
        SectionKind::Temp => true,
    }
}

fn has_section(kind: &UnitKind, section: SectionKind) -> bool
    ensures { result ≡ spec.has_section kind.now section }
{
    match kind {
        UnitKind::Function(_) => function_has(section),
        UnitKind::Program => program_has(section),
        UnitKind::Block => true,
    }
}

fn has_place(kind: &UnitKind, section: &Section) -> bool
    ensures { result ≡ spec.has_place kind.now section.now }
{
    has_section(kind, section.kind) && (!is_constant(section.keep) || may_be_constant(section.kind))
}

fn note_section(file: u16, kind: &UnitKind, section: &Section, faults: &mut Faults)
    ensures { faults.new ≡ after faults.old (spec.section_faults file kind.now section.now) }
{
    if !has_place(kind, section) {
        note_at(file, section.node, LinkCode::OutOfProfile, faults);
    }
}

fn note_sections(file: u16, kind: &UnitKind, sections: &[Section], faults: &mut Faults)
    ensures { faults.new ≡ after faults.old
        (flat_map (spec.section_faults file kind.now) sections.now) }
{
    for section in sections {
        note_section(file, kind, section, faults);
    }
}

fn note_unit(row: &UnitRow<'_>, faults: &mut Faults)
    ensures { faults.new ≡ after faults.old (spec.unit_faults (bare_unit row.now)) }
{
    note_body(row.file, &row.unit.kind, &row.unit.body, faults);
    note_sections(
        row.file,
        &row.unit.kind,
        row.unit.sections.as_slice(),
        faults,
    );
}

fn note_all(units: &[UnitRow<'_>], faults: &mut Faults)
    ensures { faults.new ≡ after faults.old (flat_map spec.unit_faults (map bare_unit units.now)) }
{
    for row in units {
        note_unit(row, faults);
    }
}

/// Units that the project may not have.
fn note_spare(units: &[UnitRow<'_>], faults: &mut Faults)
    ensures { faults.new ≡ after faults.old (map spec.unit_beyond (map bare_unit units.now)) }
{
    for row in units {
        note_at(row.file, row.unit.node, LinkCode::OutOfProfile, faults);
    }
}

fn note_beyond(units: &[UnitRow<'_>], faults: &mut Faults)
    ensures { faults.new ≡ after faults.old
        (map spec.unit_beyond (drop spec.max_units (map bare_unit units.now))) }
{
    if units.len() > MAX_UNITS {
        note_spare(&units[MAX_UNITS..], faults);
    }
}

/// Notes the first unit beyond the most that a project may have, the first chart of a function, or the
/// first section of variables that has no place in its unit. The units stand in file and text order.
#[tactic(auto, using(crate::proofs::Noting::after_append))]
pub fn note_units(units: &[UnitRow<'_>], faults: &mut Faults)
    ensures { faults.new ≡ after faults.old (spec.units_faults (map bare_unit units.now)) }
{
    note_beyond(units, faults);
    note_all(units, faults);
}
