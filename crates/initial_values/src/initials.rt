// Initial values.

ghost use Rattle.std.specs.Prelude.{◌≡◌, List, length, slice_get, IfOk, Some};
ghost use Rattle.link_faults.specs.Checked.{Tells, bind};
ghost use Rattle.std.specs.Prelude.{map};
ghost use Rattle.declared_types.specs.Ranges.{wrong_at};
ghost use Rattle.declared_types.specs.declared.forms.Form.{Form};
ghost use Rattle.declared_types.specs.BareForms.{bare_field};
ghost use Rattle.declared_types.specs.declared.outside.ConstantPlace.TheVariants as place;
ghost use Rattle.initial_values.specs.Initials as written_by;
ghost use Rattle.initial_values.specs.steps.Telling.{Writes, ground};

use crate::elements::{add_row, add_run, array_in, elements_known, room_left};
use crate::fields::{add_part, field_named, fields_in, fields_known, is_taken, none_taken, take};
use crate::nodes::node_of;
use crate::outside::Counts;
use crate::written::{FieldAt, Part, Written};
use declared_types::{
    ArrayForm, Bounds, ConstantPlace, DeclType, FieldForm, Form, Given, Initial, Outside,
};
use link_faults::{Faults, LinkCode};
use st_tree::{Expr, FieldInit, Init, Item, Node, Number, Site};
use station_ports::outside::NoMemory;
use std::alloc::Global;

/// Notes a fault at a node of the file.
pub(crate) fn wrong<C: Counts, A: Drop>(
    outside: &C,
    faults: &mut Faults,
    node: Node,
    code: LinkCode,
) -> Option<A>
    ensures { Tells (wrong_at {A = A} (C.around outside.now) node code) faults.old faults.new result }
{
    faults.note(
        Site {
            file: outside.file(),
            node: node.number,
        },
        code,
    );
    None
}

fn within<C: Counts>(
    outside: &C,
    faults: &mut Faults,
    node: Node,
    bounds: Bounds,
    number: Number,
) -> Option<Initial>
    ensures { Tells (written_by.within (C.around outside.now) node bounds number)
        faults.old faults.new result }
{
    if bounds.low <= number.value && number.value <= bounds.high {
        Some(Initial::Number(number))
    } else {
        wrong(outside, faults, node, LinkCode::BadBound)
    }
}

#[tactic(auto, using(crate::proofs::Told::bind_some, crate::proofs::Told::bind_none))]
fn value_of<C: Counts>(outside: &C, faults: &mut Faults, ty: DeclType, e: &Expr) -> Option<Initial>
    ensures { Tells (written_by.value_of (C.around outside.now) ty e.now) faults.old faults.new result }
{
    match ty {
        DeclType::Scalar(bounds) => {
            match outside.constant(faults, ConstantPlace::Elem(bounds.elem), e) {
                None => None,
                Some(number) => within(outside, faults, node_of(e), bounds, number),
            }
        },
        DeclType::Enumeration(shape) => {
            match outside.constant(faults, ConstantPlace::Enumeration(shape), e) {
                None => None,
                Some(number) => Some(Initial::Number(number)),
            }
        },
        DeclType::Array(_) => no_value(outside, faults, e),
        DeclType::Structure(_) => no_value(outside, faults, e),
        DeclType::Instance(_) => no_value(outside, faults, e),
    }
}

// An expression is no value of an array, a structure or an instance.
#[tactic(auto, using(crate::proofs::Told::bind_some, crate::proofs::Told::bind_none))]
fn no_value<C: Counts>(outside: &C, faults: &mut Faults, e: &Expr) -> Option<Initial>
    ensures { Tells (bind ((C.around outside.now).constant place.Nothing e.now) written_by.no_value)
        faults.old faults.new result }
{
    match outside.constant(faults, ConstantPlace::Nothing, e) {
        None => None,
        Some(_) => None,
    }
}

#[tactic(auto, unfolding(crate::specs::Initials::item_value))]
fn item_count<C: Counts>(outside: &C, item: &Item) -> u32
    ensures { (forms : List Form) → result ≡ (written_by.item_value
        (ground (C.around outside.now) (C.repeats outside.now) forms) item.now).count }
{
    match item {
        Item::One(_) => 1,
        Item::Repeated(_, text, _) => outside.repeat(text.bytes()),
    }
}

#[cycle(init)]
#[tactic(auto, unfolding(crate::specs::Initials::initial_value, crate::specs::Initials::item_value, crate::specs::Initials::field_value))]
pub fn initial_value<C: Counts>(
    alloc: Global,
    outside: &C,
    forms: &[Form<'_>],
    rows: &mut Vec<Written>,
    faults: &mut Faults,
    given: Given,
    init: &Init,
) -> Result<Option<Initial>, NoMemory>
    ensures { IfOk result (λ it. Writes (written_by.initial_value (ground (C.around outside.now) (C.repeats outside.now) forms.now)
        init.now given (length rows.old.items)) rows.old.items rows.new.items faults.old faults.new it) }
{
    match init {
        Init::Value(e) => Ok(value_of(outside, faults, given.ty, e.get())),
        Init::Array(node, items) => match array_in(forms, given.ty) {
            None => Ok(wrong(outside, faults, *node, LinkCode::WrongType)),
            Some(array) => elements(
                alloc,
                outside,
                forms,
                rows,
                faults,
                *node,
                array,
                items.as_slice(),
            ),
        },
        Init::Structure(node, list) => match fields_in(forms, given.ty) {
            None => Ok(wrong(outside, faults, *node, LinkCode::WrongType)),
            Some(fields) => structure(alloc, outside, forms, rows, faults, fields, list.as_slice()),
        },
    }
}

#[cycle(init)]
#[tactic(auto, unfolding(crate::specs::Initials::initial_value, crate::specs::Initials::item_value, crate::specs::Initials::field_value))]
fn item_value<C: Counts>(
    alloc: Global,
    outside: &C,
    forms: &[Form<'_>],
    rows: &mut Vec<Written>,
    faults: &mut Faults,
    element: Given,
    item: &Item,
) -> Result<Option<Initial>, NoMemory>
    ensures { IfOk result (λ it. Writes ((written_by.item_value (ground (C.around outside.now) (C.repeats outside.now) forms.now)
        item.now).value element (length rows.old.items)) rows.old.items rows.new.items faults.old faults.new it) }
{
    match item {
        Item::One(init) => initial_value(alloc, outside, forms, rows, faults, element, init),
        Item::Repeated(_, _, init) => initial_value(
            alloc, outside, forms, rows, faults, element, init,
        ),
    }
}

#[cycle(init)]
fn elements<C: Counts>(
    alloc: Global,
    outside: &C,
    forms: &[Form<'_>],
    rows: &mut Vec<Written>,
    faults: &mut Faults,
    node: Node,
    array: &ArrayForm,
    items: &[Item],
) -> Result<Option<Initial>, NoMemory>
    ensures { IfOk result (λ it. Writes (written_by.array_value (C.around outside.now) node (Some array.now)
        (map (written_by.item_value (ground (C.around outside.now) (C.repeats outside.now) forms.now)) items.now)
        (length rows.old.items)) rows.old.items rows.new.items faults.old faults.new it) }
{
    let mut runs = Vec::new(alloc);
    let mut all = true;
    let mut left = Some(array.count);
    for item in items {
        let value = item_value(alloc, outside, forms, rows, faults, array.element, item)?;
        let count = item_count(outside, item);
        all = add_run(&mut runs, all, count, value)?;
        left = room_left(left, count);
    }
    let row = elements_known(outside, faults, node, array, left, all, runs)?;
    add_row(rows, row)
}

// A field's value, also where the field is written before, which is told first.
#[cycle(init)]
#[tactic(auto, unfolding(crate::specs::Initials::initial_value, crate::specs::Initials::item_value, crate::specs::Initials::field_value))]
fn part_at<C: Counts>(
    alloc: Global,
    outside: &C,
    forms: &[Form<'_>],
    rows: &mut Vec<Written>,
    faults: &mut Faults,
    taken: bool,
    at: FieldAt,
    field: &FieldInit,
) -> Result<Option<Part>, NoMemory>
    ensures { IfOk result (λ it. Writes (written_by.part_made (C.around outside.now) field.now.name.node at.place taken
        ((written_by.field_value (ground (C.around outside.now) (C.repeats outside.now) forms.now) field.now).value
        at.given (length rows.old.items))) rows.old.items rows.new.items faults.old faults.new it) }
{
    if taken {
        let _: Option<Part> = wrong(outside, faults, field.name.node, LinkCode::Twice);
        let _ = initial_value(alloc, outside, forms, rows, faults, at.given, &field.value)?;
        Ok(None)
    } else {
        match initial_value(alloc, outside, forms, rows, faults, at.given, &field.value)? {
            None => Ok(None),
            Some(value) => Ok(Some(Part {
                place: at.place,
                value,
            })),
        }
    }
}

#[cycle(init)]
#[tactic(auto, unfolding(crate::specs::Initials::initial_value, crate::specs::Initials::item_value, crate::specs::Initials::field_value))]
fn part<C: Counts>(
    alloc: Global,
    outside: &C,
    forms: &[Form<'_>],
    rows: &mut Vec<Written>,
    faults: &mut Faults,
    taken: &[bool],
    at: Option<FieldAt>,
    field: &FieldInit,
) -> Result<Option<Part>, NoMemory>
    ensures { IfOk result (λ it. Writes (written_by.part_for (C.around outside.now) (length rows.old.items) taken.now
        (written_by.field_value (ground (C.around outside.now) (C.repeats outside.now) forms.now) field.now) at)
        rows.old.items rows.new.items faults.old faults.new it) }
{
    match at {
        None => Ok(wrong(outside, faults, field.name.node, LinkCode::Unknown)),
        Some(at) => {
            part_at(
                alloc,
                outside,
                forms,
                rows,
                faults,
                is_taken(taken, at.place),
                at,
                field,
            )
        },
    }
}

#[cycle(init)]
fn structure<C: Counts>(
    alloc: Global,
    outside: &C,
    forms: &[Form<'_>],
    rows: &mut Vec<Written>,
    faults: &mut Faults,
    fields: &[FieldForm<'_>],
    list: &[FieldInit],
) -> Result<Option<Initial>, NoMemory>
    ensures { IfOk result (λ it. Writes (written_by.structure_parts (map bare_field fields.now) (length rows.old.items)
        (written_by.parts_made (C.around outside.now) (map bare_field fields.now) (length rows.old.items) (written_by.none_taken (map bare_field fields.now))
        (map (written_by.field_value (ground (C.around outside.now) (C.repeats outside.now) forms.now)) list.now)))
        rows.old.items rows.new.items faults.old faults.new it) }
{
    let mut taken = none_taken(alloc, fields)?;
    let mut parts = Vec::new(alloc);
    let mut all = true;
    for field in list {
        let at = field_named(fields, field.name.name.bytes());
        let part = part(alloc, outside, forms, rows, faults, &taken, at, field)?;
        all = add_part(&mut parts, all, part)?;
        take(&mut taken, at);
    }
    let row = fields_known(alloc, fields, all, &parts)?;
    add_row(rows, row)
}
