// Values of enumerations by their names alone, and the types of values.

ghost use Rattle.std.specs.Prelude.{◌≡◌};
ghost use Rattle.declared_names.specs.Seen as seen;
ghost use Rattle.declared_names.specs.Shapes as spec;
ghost use Rattle.declared_names.specs.Tables.{project_in};

use crate::project::Project;
use declared_types::DeclType;
use expression_types::{Constant, Seen, ShapeNo, ValueType};
use project_declarations::{VALUES, What};
use scope_names::NameRow;
use st_tree::{Number, Site};

/// The number of the enumeration that a shape is, or None where it is something else.
pub fn shape_listed(project: &Project<'_>, shape: ShapeNo) -> Option<usize>
    ensures { result ≡ spec.shape_listed (project_in project.now) shape }
{
    if shape.0 < project.first_listed {
        return None;
    }
    let number = (shape.0 - project.first_listed) as usize;
    if number < project.enumerations.count() {
        Some(number)
    } else {
        None
    }
}

/// Whether two shapes are one type: only enumerations are.
pub fn is_same(project: &Project<'_>, a: ShapeNo, b: ShapeNo) -> bool
    ensures { result ≡ spec.is_same (project_in project.now) a b }
{
    match shape_listed(project, a) {
        None => false,
        Some(_) => a.0 == b.0,
    }
}

/// The type of a value. A subrange counts as its base type.
pub fn value_type(ty: DeclType) -> ValueType
    ensures { result ≡ spec.value_type ty }
{
    match ty {
        DeclType::Scalar(bounds) => ValueType::Elem(bounds.elem),
        DeclType::Enumeration(shape) => ValueType::Other(shape),
        DeclType::Array(shape) => ValueType::Other(shape),
        DeclType::Structure(shape) => ValueType::Other(shape),
        DeclType::Instance(shape) => ValueType::Other(shape),
    }
}

/// The shape of the enumeration at a site.
pub(crate) fn shape_at(project: &Project<'_>, site: Site) -> Option<ShapeNo>
    ensures { result ≡ seen.shape_at (project_in project.now) site }
{
    match project.enumerations.number(site) {
        None => None,
        Some(number) => Some(ShapeNo(project.first_listed + number as u32)),
    }
}

fn is_one_site(a: Site, b: Site) -> bool
    ensures { result ≡ seen.is_one_site a b }
{
    a.file == b.file && a.node.0 == b.node.0
}

fn of_enumeration(shape: Option<ShapeNo>, alone: bool, place: usize) -> Seen
    ensures { result ≡ seen.of_enumeration alone place shape }
{
    match shape {
        None => Seen::Faulty,
        Some(shape) => {
            if alone {
                Seen::Constant(Constant {
                    ty: ValueType::Other(shape),
                    number: Number {
                        value: place as i128,
                    },
                })
            } else {
                Seen::NoValue(shape)
            }
        },
    }
}

fn value_by(project: &Project<'_>, first: What, last: What) -> Seen
    ensures { result ≡ seen.value_by (project_in project.now) first last }
{
    match first {
        What::Value(site, place) => match last {
            What::Value(other, _) => {
                of_enumeration(shape_at(project, site), is_one_site(site, other), place)
            },
            _ => Seen::Faulty,
        },
        _ => Seen::Faulty,
    }
}

fn value_among(project: &Project<'_>, rows: &[NameRow<'_, What>]) -> Seen
    ensures { result ≡ seen.value_among (project_in project.now) rows.now }
{
    match rows {
        [] => Seen::Unknown,
        [first, ..] => value_by(project, first.what, rows[rows.len() - 1].what),
    }
}

/// The value of an enumeration by its name alone.
pub(crate) fn value_seen(project: &Project<'_>, name: &[u8]) -> Seen
    ensures { result ≡ seen.value_seen (project_in project.now) name.now }
{
    value_among(project, project.names.all(VALUES, name))
}
