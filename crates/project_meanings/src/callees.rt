// What the call of a name calls.

ghost use Rattle.std.specs.Prelude.{◌≡◌};
ghost use Rattle.declared_names.specs.Tables.{project_in};
ghost use Rattle.project_meanings.specs.Callees as spec;
ghost use Rattle.project_meanings.specs.Tables.{whole_in};

use crate::whole::Whole;
use declared_names::{Project, found, is_function, own_number, owner_at};
use expression_types::{Callee, FunctionNo};
use project_declarations::{OUTERMOST, Owner, UnitNo, What};
use standard_types::{function_named, is_left_out_function};

fn is_result(owner: Option<Owner>) -> bool
    ensures { result ≡ spec.is_result owner }
{
    match owner {
        Some(Owner::Result(_)) => true,
        _ => false,
    }
}

fn hides(project: &Project<'_>, number: Option<usize>) -> bool
    ensures { result ≡ spec.hides (project_in project.now) number }
{
    match number {
        None => false,
        Some(number) => !is_result(owner_at(project, number)),
    }
}

fn is_hidden(whole: &Whole<'_, '_>, name: &[u8]) -> bool
    ensures { result ≡ spec.is_hidden (whole_in whole.now) name.now }
{
    hides(whole.at.project(), own_number(&whole.at, name))
}

fn left_out_callee(name: &[u8]) -> Callee
    ensures { result ≡ spec.left_out_callee name.now }
{
    if is_left_out_function(name) {
        Callee::LeftOut
    } else {
        Callee::Unknown
    }
}

fn declared_callee(name: &[u8]) -> Callee
    ensures { result ≡ spec.declared_callee name.now }
{
    match function_named(name) {
        None => Callee::Unknown,
        Some(function) => Callee::Standard(function),
    }
}

fn undeclared_callee(name: &[u8]) -> Callee
    ensures { result ≡ spec.undeclared_callee name.now }
{
    match function_named(name) {
        None => left_out_callee(name),
        Some(function) => Callee::Standard(function),
    }
}

fn unit_callee(project: &Project<'_>, name: &[u8], unit: UnitNo) -> Callee
    ensures { result ≡ spec.unit_callee (project_in project.now) name.now unit }
{
    if is_function(project, unit) {
        Callee::Function(FunctionNo(unit.0))
    } else {
        declared_callee(name)
    }
}

fn outer_callee(project: &Project<'_>, name: &[u8], what: Option<What>) -> Callee
    ensures { result ≡ spec.outer_callee (project_in project.now) name.now what }
{
    match what {
        None => undeclared_callee(name),
        Some(What::Unit(unit)) => unit_callee(project, name, unit),
        Some(_) => declared_callee(name),
    }
}

/// What the call of a name calls.
pub(crate) fn callee_there(whole: &Whole<'_, '_>, name: &[u8]) -> Callee
    ensures { result ≡ spec.callee_there (whole_in whole.now) name.now }
{
    let project = whole.at.project();
    if is_hidden(whole, name) {
        Callee::Unknown
    } else {
        outer_callee(project, name, found(project, OUTERMOST, name))
    }
}
