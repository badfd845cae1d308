// Initial values of structures.

ghost use Rattle.std.specs.Prelude.{◌≡◌, ◌++◌, map, slice_get, IfOk, OnOk};
ghost use Rattle.std.specs.Option.{option_copied, option_map, option_to_list};
ghost use Rattle.declared_types.specs.BareForms.{bare_field, bare_forms};
ghost use Rattle.expression_types.specs.steps.Several.{still_good};
ghost use Rattle.initial_values.specs.Initials as written_by;
ghost use Rattle.initial_values.specs.steps.Telling.{fields_row};

use crate::written::{FieldAt, Part, Written};
use declared_types::{DeclType, FieldForm, Form, Initial};
use scope_names::compare_names;
use station_ports::outside::NoMemory;
use std::alloc::Global;
use std::cmp::Ordering;
use tree_items::Items;

/// The fields of a type that is a structure.
pub(crate) fn fields_in<'f, 't>(forms: &'f [Form<'t>], ty: DeclType) -> Option<&'f [FieldForm<'t>]>
    ensures { option_map (map bare_field) (option_copied result)
        ≡ written_by.fields_in (bare_forms forms.now) ty }
{
    match ty {
        DeclType::Structure(shape) => match forms.get(shape.0 as usize) {
            Some(Form::Structure(fields)) => Some(fields.as_slice()),
            _ => None,
        },
        _ => None,
    }
}

fn is_named(name: &[u8], field: &FieldForm<'_>) -> bool
    ensures { result ≡ written_by.is_named name.now (bare_field field.now) }
{
    match compare_names(field.name, name) {
        Ordering::Equal => true,
        _ => false,
    }
}

/// The first field of a name.
pub(crate) fn field_named(fields: &[FieldForm<'_>], name: &[u8]) -> Option<FieldAt>
    ensures { result ≡ written_by.field_named (map bare_field fields.now) name.now }
{
    let mut place = 0;
    for field in fields {
        if is_named(name, field) {
            return Some(FieldAt {
                place,
                given: field.given,
            });
        }
        place += 1;
    }
    None
}

/// The own values of fields, and that none of them is written.
pub(crate) fn own_values(alloc: Global, fields: &[FieldForm<'_>]) -> Result<Vec<Initial>, NoMemory>
    ensures { IfOk result (λ it. it.items ≡ map written_by.own_value (map bare_field fields.now)) }
{
    let mut values = Vec::new(alloc);
    for field in fields {
        values.push(field.given.value)?;
    }
    Ok(values)
}

pub(crate) fn none_taken(alloc: Global, fields: &[FieldForm<'_>]) -> Result<Vec<bool>, NoMemory>
    ensures { IfOk result (λ it. it.items ≡ written_by.none_taken (map bare_field fields.now)) }
{
    Ok(vec![in alloc; false; fields.len()]?)
}

/// Whether the field at a place is written.
pub(crate) fn is_taken(taken: &[bool], place: usize) -> bool
    ensures { result ≡ written_by.is_taken (slice_get taken.now place) }
{
    match taken.get(place) {
        Some(is) => *is,
        None => false,
    }
}

/// Marks the field as written, where there is one.
pub(crate) fn take(taken: &mut Vec<bool>, at: Option<FieldAt>)
    ensures { taken.new.items ≡ written_by.taken_after taken.old.items at }
{
    if let Some(at) = at {
        if at.place < taken.len() {
            taken[at.place] = true;
        }
    }
}

/// Adds a part, where there is one, and tells whether there were all so far.
pub(crate) fn add_part(
    parts: &mut Vec<Part>,
    all: bool,
    part: Option<Part>,
) -> Result<bool, NoMemory>
    ensures parts { OnOk result (parts.new.items ≡ parts.old.items ++ option_to_list part) }
    ensures all { IfOk result (λ it. it ≡ still_good all part) }
{
    match part {
        None => Ok(false),
        Some(part) => {
            parts.push(part)?;
            Ok(all)
        },
    }
}

/// The values of all fields, with those that are written in the places of their own ones.
pub(crate) fn written_over(values: &mut Vec<Initial>, parts: &[Part])
    ensures { values.new.items ≡ written_by.written_over values.old.items parts.now }
{
    for part in parts {
        if part.place < values.len() {
            values[part.place] = part.value;
        }
    }
}

/// The row of a structure's value.
pub(crate) fn fields_known(
    alloc: Global,
    fields: &[FieldForm<'_>],
    all: bool,
    parts: &[Part],
) -> Result<Option<Written>, NoMemory>
    ensures { IfOk result (λ it. it ≡ fields_row (map bare_field fields.now) all parts.now) }
{
    if all {
        let mut values = own_values(alloc, fields)?;
        written_over(&mut values, parts);
        Ok(Some(Written::Fields(Items::from_vec(values))))
    } else {
        Ok(None)
    }
}
