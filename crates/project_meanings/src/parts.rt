// Fields and elements of variables.

ghost use Rattle.std.specs.Prelude.{◌≡◌, map, Some};
ghost use Rattle.std.specs.List.{find};
ghost use Rattle.std.specs.Option.{option_map};
ghost use Rattle.standard_names.specs.Blocks.{part_of};
ghost use Rattle.declared_types.specs.BareForms.{bare_field, bare_form};
ghost use Rattle.declared_names.specs.Tables.{known_at};
ghost use Rattle.project_meanings.specs.Parts as spec;
ghost use Rattle.project_meanings.specs.Tables.{body_in, whole_in};

use crate::letters::{is_one_name, is_raised};
use crate::whole::{Body, Whole};
use declared_names::{At, given_at, number_in_unit, owner_at, value_type};
use declared_types::{ArrayForm, FieldForm, Form, Given};
use expression_types::{Field, ShapeNo, ValueType};
use iec_tables::elem::Elem;
use project_declarations::{Owner, UnitNo};
use st_tree::SectionKind;
use standard_names::{BlockPart, StandardBlock, block_parts};

fn step_field(name: &[u8]) -> Field
    ensures { result ≡ spec.step_field name.now }
{
    if is_raised(b"X", name) {
        Field::Is(ValueType::Elem(Elem::Bool))
    } else if is_raised(b"T", name) {
        Field::LeftOut
    } else {
        Field::Unknown
    }
}

fn is_step_shape(body: &Option<Body>, shape: ShapeNo) -> bool
    ensures { result ≡ spec.is_step_shape (option_map body_in body.now) shape }
{
    match body {
        None => false,
        Some(body) => body.step.0 == shape.0,
    }
}

fn structure_field(fields: &[FieldForm<'_>], name: &[u8]) -> Field
    ensures { result ≡ spec.structure_field (map bare_field fields.now) name.now }
{
    for field in fields {
        if is_one_name(field.name, name) {
            return Field::Is(value_type(field.given.ty));
        }
    }
    Field::Unknown
}

fn part_field(parts: &[BlockPart], name: &[u8]) -> Field
    ensures { result ≡ spec.of_part (find (spec.is_part name.now) (map part_of parts.now)) }
{
    for part in parts {
        if is_raised(part.name, name) {
            return Field::Is(ValueType::Elem(part.elem));
        }
    }
    Field::Unknown
}

fn standard_field(block: StandardBlock, name: &[u8]) -> Field
    ensures { result ≡ spec.standard_field block name.now }
{
    part_field(block_parts(block), name)
}

fn is_shown_kind(kind: SectionKind) -> bool
    ensures { result ≡ spec.is_shown_kind kind }
{
    match kind {
        SectionKind::Input => true,
        SectionKind::Output => true,
        _ => false,
    }
}

fn is_shown(owner: Option<Owner>) -> bool
    ensures { result ≡ spec.is_shown owner }
{
    match owner {
        Some(Owner::Local(local)) => is_shown_kind(local.kind),
        _ => false,
    }
}

fn of_given(given: Option<Given>) -> Field
    ensures { result ≡ spec.of_given given }
{
    match given {
        None => Field::Faulty,
        Some(given) => Field::Is(value_type(given.ty)),
    }
}

fn of_number(at: &At<'_, '_>, number: Option<usize>) -> Field
    ensures { result ≡ spec.of_number (known_at at.now) number }
{
    match number {
        None => Field::Unknown,
        Some(number) => {
            if is_shown(owner_at(at.project(), number)) {
                of_given(given_at(at, number))
            } else {
                Field::Unknown
            }
        },
    }
}

fn block_field(at: &At<'_, '_>, unit: UnitNo, name: &[u8]) -> Field
    ensures { result ≡ spec.block_field (known_at at.now) unit name.now }
{
    of_number(at, number_in_unit(at.project(), unit, name))
}

fn form_field(at: &At<'_, '_>, name: &[u8], form: &Form<'_>) -> Field
    ensures { result ≡ spec.form_field (known_at at.now) name.now (Some (bare_form form.now)) }
{
    match form {
        Form::Standard(block) => standard_field(*block, name),
        Form::Block(unit) => block_field(at, *unit, name),
        Form::Enumeration(_) => Field::NoParts,
        Form::Array(_) => Field::NoParts,
        Form::Structure(fields) => structure_field(fields.as_slice(), name),
    }
}

/// The part of a type with this name.
pub(crate) fn field_there(whole: &Whole<'_, '_>, shape: ShapeNo, name: &[u8]) -> Field
    ensures { result ≡ spec.field_there (whole_in whole.now) shape name.now }
{
    if is_step_shape(&whole.body, shape) {
        return step_field(name);
    }
    match whole.form_at(shape) {
        None => Field::NoParts,
        Some(form) => form_field(&whole.at, name, form),
    }
}

fn array_element(form: &ArrayForm, indices: usize) -> Option<ValueType>
    ensures { result ≡ spec.array_element form.now indices }
{
    if form.dims.len() == indices {
        Some(value_type(form.element.ty))
    } else {
        None
    }
}

fn form_element(form: &Form<'_>, indices: usize) -> Option<ValueType>
    ensures { result ≡ spec.form_element indices (Some (bare_form form.now)) }
{
    match form {
        Form::Standard(_) => None,
        Form::Block(_) => None,
        Form::Enumeration(_) => None,
        Form::Array(array) => array_element(array, indices),
        Form::Structure(_) => None,
    }
}

/// What an element is under so many indices.
pub(crate) fn element_there(
    whole: &Whole<'_, '_>,
    shape: ShapeNo,
    indices: usize,
) -> Option<ValueType>
    ensures { result ≡ spec.element_there (whole_in whole.now) shape indices }
{
    match whole.form_at(shape) {
        None => None,
        Some(form) => form_element(form, indices),
    }
}
