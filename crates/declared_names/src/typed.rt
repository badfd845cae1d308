// What the name of a type stands for.

ghost use Rattle.std.specs.Prelude.{◌≡◌, slice_get, map};
ghost use Rattle.declared_names.specs.NamedTypes as spec;
ghost use Rattle.declared_names.specs.Shapes as shapes;
ghost use Rattle.declared_names.specs.Tables.{known_at, here_of, project_in};

use crate::at::At;
use crate::base::{found, given_at, number_there};
use crate::project::Project;
use declared_types::NamedType;
use expression_types::ShapeNo;
use project_declarations::{OUTERMOST, UnitNo, What};
use st_tree::UnitKind;
use standard_names::StandardBlock;
use standard_types::{block_named, is_function_name, is_left_out_type};

fn block_number(block: StandardBlock) -> u32
    ensures { result ≡ shapes.block_number block }
{
    match block {
        StandardBlock::Ctd => 0,
        StandardBlock::Ctu => 1,
        StandardBlock::FTrig => 2,
        StandardBlock::Rs => 3,
        StandardBlock::RTrig => 4,
        StandardBlock::Sr => 5,
        StandardBlock::Tof => 6,
        StandardBlock::Ton => 7,
        StandardBlock::Tp => 8,
    }
}

fn of_standard(name: &[u8]) -> NamedType
    ensures { result ≡ spec.standard_named name.now }
{
    match block_named(name) {
        Some(block) => NamedType::Block(ShapeNo(block_number(block))),
        None => {
            if is_function_name(name) {
                NamedType::NoType
            } else if is_left_out_type(name) {
                NamedType::LeftOut
            } else {
                NamedType::Unknown
            }
        },
    }
}

fn of_unit(project: &Project<'_>, unit: UnitNo) -> NamedType
    ensures { result ≡ spec.unit_named (project_in project.now) unit }
{
    match project.units.get(unit.0 as usize) {
        None => NamedType::Unknown,
        Some(row) => match &row.unit.kind {
            UnitKind::Block => NamedType::Block(ShapeNo(9 + unit.0)),
            UnitKind::Program => NamedType::NoType,
            UnitKind::Function(_) => NamedType::NoType,
        },
    }
}

fn of_number(at: &At<'_, '_>, number: Option<usize>) -> NamedType
    ensures { result ≡ spec.of_number (known_at at.now) (here_of at.now) number }
{
    match number {
        None => NamedType::Unknown,
        Some(number) => {
            if at
                .project
                .components
                .lead_together_by_type(at.number, number)
            {
                NamedType::LeadsBack
            } else {
                match given_at(at, number) {
                    None => NamedType::Faulty,
                    Some(given) => NamedType::Is(given),
                }
            }
        },
    }
}

/// What the name of a type stands for where a declaration stands.
pub fn named_type(at: &At<'_, '_>, name: &[u8]) -> NamedType
    ensures { result ≡ spec.named_here (known_at at.now) (here_of at.now) name.now }
{
    match found(at.project, OUTERMOST, name) {
        Some(What::Type(site)) => of_number(at, number_there(at.project, Some(site))),
        Some(What::Unit(unit)) => of_unit(at.project, unit),
        _ => of_standard(name),
    }
}
