// What `Type#value` stands for.

ghost use Rattle.std.specs.Prelude.{◌≡◌};
ghost use Rattle.declared_names.specs.TypeValues as spec;
ghost use Rattle.declared_names.specs.Tables.{known_at, here_of, project_in};

use crate::at::At;
use crate::base::{found, given_at, number_there};
use crate::project::Project;
use crate::values::shape_listed;
use crate::written::written_enumeration;
use declared_types::{DeclType, Given};
use expression_types::{Constant, ShapeNo, TypeValue, ValueType};
use project_declarations::{OUTERMOST, What};
use st_tree::Number;

fn of_enumeration(project: &Project<'_>, name: &[u8], enumeration: Option<usize>) -> TypeValue
    ensures { result ≡ spec.of_enumeration (project_in project.now) name.now enumeration }
{
    match enumeration {
        None => TypeValue::NoEnumeration,
        Some(number) => match project.enumerations.place(number, name) {
            None => TypeValue::UnknownValue,
            Some(place) => TypeValue::Is(Constant {
                ty: ValueType::Other(ShapeNo(project.first_listed + number as u32)),
                number: Number {
                    value: place as i128,
                },
            }),
        },
    }
}

fn of_given(project: &Project<'_>, name: &[u8], given: Option<Given>) -> TypeValue
    ensures { result ≡ spec.of_given (project_in project.now) name.now given }
{
    match given {
        None => TypeValue::Faulty,
        Some(given) => match given.ty {
            DeclType::Enumeration(shape) => {
                of_enumeration(project, name, shape_listed(project, shape))
            },
            _ => TypeValue::NoEnumeration,
        },
    }
}

fn leads_back(at: &At<'_, '_>, number: usize) -> bool
    ensures { result ≡ spec.leads_back (known_at at.now) (here_of at.now) number }
{
    number != at.number && at.project.components.lead_together(at.number, number)
}

fn of_declaration(at: &At<'_, '_>, name: &[u8], number: usize) -> TypeValue
    ensures { result ≡ spec.of_declaration (known_at at.now) (here_of at.now) name.now number }
{
    if leads_back(at, number) {
        TypeValue::Faulty
    } else if at.project.components.name_together(at.number, number) {
        of_enumeration(at.project, name, written_enumeration(at.project, number))
    } else {
        of_given(at.project, name, given_at(at, number))
    }
}

/// What `type_name#value_name` stands for where a declaration stands.
pub fn type_value_here(at: &At<'_, '_>, type_name: &[u8], value_name: &[u8]) -> TypeValue
    ensures { result ≡ spec.type_value_here (known_at at.now) (here_of at.now) type_name.now
        value_name.now }
{
    match found(at.project, OUTERMOST, type_name) {
        None => TypeValue::UnknownType,
        Some(What::Type(site)) => match number_there(at.project, Some(site)) {
            None => TypeValue::Faulty,
            Some(number) => of_declaration(at, value_name, number),
        },
        Some(_) => TypeValue::NoEnumeration,
    }
}
