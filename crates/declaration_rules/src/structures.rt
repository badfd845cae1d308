// Structures, and data types that are declared.

ghost use Rattle.std.specs.Prelude.{◌≡◌, ◌++◌, map, length, IfOk, OnOk};
ghost use Rattle.expression_types.specs.steps.Several.{still_good};
ghost use Rattle.declared_types.specs.BareForms.{bare_field, bare_forms};
ghost use Rattle.declaration_rules.specs.Declarations as gives;
ghost use Rattle.declaration_rules.specs.steps.Telling.{Gives, around_of, known_fields, known_structure, structure_rows, structure_under};

use crate::initialised::{if_written, variable};
use crate::outside::Declares;
use declared_types::{DeclType, FieldForm, Form, Given, Initial, Outside, specification};
use expression_types::ShapeNo;
use initial_values::{Counts, Written};
use link_faults::Faults;
use st_tree::{Fields, Identifier, Node, Shape, TypeDecl};
use station_ports::outside::NoMemory;
use std::alloc::Global;
use tree_items::Items;

// Adds the fields of a group, where its specification gives something, and tells whether all did so far.
fn add_group<'t>(
    fields: &mut Vec<FieldForm<'t>>,
    all: bool,
    given: Option<Given>,
    names: &'t [Identifier],
) -> Result<bool, NoMemory>
    ensures fields { OnOk result (map bare_field fields.new.items
        ≡ map bare_field fields.old.items ++ known_fields given names.now) }
    ensures all { IfOk result (λ it. it ≡ still_good all given) }
{
    match given {
        None => Ok(false),
        Some(given) => {
            add_fields(fields, given, names)?;
            Ok(all)
        },
    }
}

fn add_fields<'t>(
    fields: &mut Vec<FieldForm<'t>>,
    given: Given,
    names: &'t [Identifier],
) -> Result<(), NoMemory>
    ensures { OnOk result (map bare_field fields.new.items
        ≡ map bare_field fields.old.items ++ gives.fields_of given names.now) }
{
    for name in names {
        fields.push(FieldForm {
            name: name.name.bytes(),
            given,
        })?;
    }
    Ok(())
}

// As many elements as the largest field has.
fn size_of(fields: &[FieldForm<'_>]) -> u32
    ensures { result ≡ gives.size_of (map bare_field fields.now) }
{
    let mut size = 1;
    for field in fields {
        if field.given.size > size {
            size = field.given.size;
        }
    }
    size
}

// Adds the row of a structure, and answers what it gives, where all its fields are known.
fn add_structure<'t>(
    forms: &mut Vec<Form<'t>>,
    all: bool,
    twice: bool,
    fields: Vec<FieldForm<'t>>,
) -> Result<Option<Given>, NoMemory>
    ensures rows { OnOk result (bare_forms forms.new.items ≡ bare_forms forms.old.items
        ++ structure_rows (known_structure all twice (map bare_field fields.entry.items))) }
    ensures given { IfOk result (λ it. it ≡ structure_under (length forms.old.items)
        (known_structure all twice (map bare_field fields.entry.items))) }
{
    if !all || twice {
        return Ok(None);
    }
    let Ok(number) = u32::try_from(forms.len()) else {
        return Err(NoMemory);
    };
    let size = size_of(&fields);
    forms.push(Form::Structure(Items::from_vec(fields)))?;
    Ok(Some(Given {
        ty: DeclType::Structure(ShapeNo(number)),
        value: Initial::Own,
        size,
    }))
}

fn structure<'t, D: Declares>(
    alloc: Global,
    outside: &D,
    forms: &mut Vec<Form<'t>>,
    rows: &mut Vec<Written>,
    faults: &mut Faults,
    node: Node,
    list: &'t [Fields],
) -> Result<Option<Given>, NoMemory>
    ensures { IfOk result (λ it. Gives (gives.structure (around_of (D.around outside.now) (D.repeats outside.now)
        (D.leads outside.now) (D.twice outside.now) (D.holds outside.now)) (bare_forms forms.old.items)
        (length rows.old.items) node list.now) forms.old.items forms.new.items rows.old.items
        rows.new.items faults.old faults.new it) }
{
    let mut fields = Vec::new(alloc);
    let mut all = true;
    for group in list {
        let given = variable(
            alloc,
            outside,
            forms,
            rows,
            faults,
            false,
            &group.spec,
            &group.init,
        )?;
        all = add_group(&mut fields, all, given, group.names.as_slice())?;
    }
    add_structure(forms, all, outside.has_field_twice(node), fields)
}

fn shape_made<'t, D: Declares>(
    alloc: Global,
    outside: &D,
    forms: &mut Vec<Form<'t>>,
    rows: &mut Vec<Written>,
    faults: &mut Faults,
    shape: &'t Shape,
) -> Result<Option<Given>, NoMemory>
    ensures { IfOk result (λ it. Gives (gives.shape_made (around_of (D.around outside.now) (D.repeats outside.now)
        (D.leads outside.now) (D.twice outside.now) (D.holds outside.now)) (bare_forms forms.old.items)
        (length rows.old.items) shape.now) forms.old.items forms.new.items rows.old.items
        rows.new.items faults.old faults.new it) }
{
    match shape {
        Shape::Spec(spec) => specification(alloc, outside, forms, faults, false, spec),
        Shape::Structure(node, list) => {
            structure(alloc, outside, forms, rows, faults, *node, list.as_slice())
        },
    }
}

/// What a data type gives that is declared, or None where a fault stands in its declaration. Adds rows to
/// the tables of forms and of written values. Two fields of one name are told elsewhere.
pub fn data_type<'t, D: Declares>(
    alloc: Global,
    outside: &D,
    forms: &mut Vec<Form<'t>>,
    rows: &mut Vec<Written>,
    faults: &mut Faults,
    decl: &'t TypeDecl,
) -> Result<Option<Given>, NoMemory>
    ensures { IfOk result (λ it. Gives (gives.data_type (around_of (D.around outside.now) (D.repeats outside.now)
        (D.leads outside.now) (D.twice outside.now) (D.holds outside.now)) (bare_forms forms.old.items)
        (length rows.old.items) decl.now) forms.old.items forms.new.items rows.old.items
        rows.new.items faults.old faults.new it) }
{
    let given = shape_made(alloc, outside, forms, rows, faults, &decl.shape)?;
    if_written(alloc, outside, forms, rows, faults, given, &decl.init)
}
