// What a name alone stands for.

ghost use Rattle.std.specs.Prelude.{◌≡◌};
ghost use Rattle.declared_names.specs.Seen as spec;
ghost use Rattle.declared_names.specs.Shapes.{value_type};
ghost use Rattle.declared_names.specs.Tables.{known_at, here_of};

use crate::at::At;
use crate::base::{
    given_at, global_number, in_function, is_constant, is_external, own_number, owner_at,
};
use crate::values::{value_seen, value_type};
use declared_types::{Given, Initial};
use expression_types::{Constant, Seen};

fn varying(given: Option<Given>) -> Seen
    ensures { result ≡ spec.varying given }
{
    match given {
        None => Seen::Faulty,
        Some(given) => Seen::Variable(value_type(given.ty)),
    }
}

fn constant(given: Option<Given>, value: Option<Given>) -> Seen
    ensures { result ≡ spec.constant given value }
{
    match given {
        None => Seen::Faulty,
        Some(given) => match value {
            None => Seen::Faulty,
            Some(value) => with_initial(given, value.value),
        },
    }
}

fn with_initial(given: Given, value: Initial) -> Seen
    ensures { result ≡ spec.with_initial (value_type given.ty) value }
{
    match value {
        Initial::Number(number) => Seen::Constant(Constant {
            ty: value_type(given.ty),
            number,
        }),
        Initial::Own => Seen::Variable(value_type(given.ty)),
        Initial::Written(_) => Seen::Variable(value_type(given.ty)),
    }
}

fn plain(at: &At<'_, '_>, number: usize) -> Seen
    ensures { result ≡ spec.plain (known_at at.now) number }
{
    let given = given_at(at, number);
    if is_constant(owner_at(at.project, number)) {
        constant(given, given)
    } else {
        varying(given)
    }
}

fn external(at: &At<'_, '_>, given: Option<Given>, global: Option<usize>) -> Seen
    ensures { result ≡ spec.external (known_at at.now) given global }
{
    match global {
        None => varying(given),
        Some(number) => {
            if is_constant(owner_at(at.project, number)) {
                constant(given, given_at(at, number))
            } else {
                varying(given)
            }
        },
    }
}

fn own_seen(at: &At<'_, '_>, name: &[u8], number: usize) -> Seen
    ensures { result ≡ spec.own_seen (known_at at.now) name.now number }
{
    if is_external(owner_at(at.project, number)) {
        external(at, given_at(at, number), global_number(at.project, name))
    } else {
        plain(at, number)
    }
}

fn global_seen(at: &At<'_, '_>, number: usize) -> Seen
    ensures { result ≡ spec.global_seen (known_at at.now) (here_of at.now) number }
{
    if in_function(at.project, at.owner) && !is_constant(owner_at(at.project, number)) {
        Seen::Foreign
    } else {
        plain(at, number)
    }
}

fn global_or_value(at: &At<'_, '_>, name: &[u8]) -> Seen
    ensures { result ≡ spec.own_or_outer (known_at at.now) (here_of at.now) name.now None }
{
    match global_number(at.project, name) {
        Some(number) => global_seen(at, number),
        None => value_seen(at.project, name),
    }
}

/// What a name alone stands for where a declaration stands.
pub fn seen_here(at: &At<'_, '_>, name: &[u8]) -> Seen
    ensures { result ≡ spec.seen_here (known_at at.now) (here_of at.now) name.now }
{
    match own_number(at, name) {
        Some(number) => own_seen(at, name, number),
        None => global_or_value(at, name),
    }
}
