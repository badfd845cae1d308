// Initial values of arrays.

ghost use Rattle.std.specs.Prelude.{◌≡◌, ◌++◌, length, IfOk, OnOk};
ghost use Rattle.std.specs.Option.{option_to_list, option_map, option_copied};
ghost use Rattle.link_faults.specs.Checked.{Tells};
ghost use Rattle.expression_types.specs.steps.Several.{still_good};
ghost use Rattle.declared_types.specs.BareForms.{bare_forms};
ghost use Rattle.initial_values.specs.Initials as written_by;
ghost use Rattle.initial_values.specs.steps.Telling.{kept, room_after, known_elements, rows_of, initial_of};

use crate::initials::wrong;
use crate::outside::Counts;
use crate::written::{Run, Written};
use declared_types::{ArrayForm, DeclType, Form, Initial, ValueNo};
use link_faults::{Faults, LinkCode};
use st_tree::Node;
use station_ports::outside::NoMemory;
use tree_items::Items;

/// The array of a type that is one.
pub(crate) fn array_in<'f>(forms: &'f [Form<'_>], ty: DeclType) -> Option<&'f ArrayForm>
    ensures { option_copied result ≡ written_by.array_in (bare_forms forms.now) ty }
{
    match ty {
        DeclType::Array(shape) => match forms.get(shape.0 as usize) {
            Some(Form::Array(array)) => Some(array),
            _ => None,
        },
        _ => None,
    }
}

/// Adds a run, where there is a value, and tells whether there were all so far.
pub(crate) fn add_run(
    runs: &mut Vec<Run>,
    all: bool,
    count: u32,
    value: Option<Initial>,
) -> Result<bool, NoMemory>
    ensures runs { OnOk result (runs.new.items ≡ runs.old.items
        ++ option_to_list (option_map (written_by.run_of count) value)) }
    ensures all { IfOk result (λ it. it ≡ still_good all (option_map (written_by.run_of count) value)) }
{
    match value {
        None => Ok(false),
        Some(value) => {
            runs.push(Run { count, value })?;
            Ok(all)
        },
    }
}

/// How many elements are left behind so many more.
pub(crate) fn room_left(left: Option<u32>, count: u32) -> Option<u32>
    ensures { result ≡ room_after left count }
{
    match left {
        None => None,
        Some(left) => left.checked_sub(count),
    }
}

/// The row of an array's value, with how many elements are left and the runs of the others.
pub(crate) fn elements_known<C: Counts>(
    outside: &C,
    faults: &mut Faults,
    node: Node,
    array: &ArrayForm,
    left: Option<u32>,
    all: bool,
    runs: Vec<Run>,
) -> Result<Option<Written>, NoMemory>
    ensures { IfOk result (λ it. Tells (known_elements (C.around outside.now) node array.now left
        (kept all runs.items)) faults.old faults.new it) }
{
    match left {
        None => Ok(wrong(outside, faults, node, LinkCode::BadBound)),
        Some(left) => {
            if all {
                let mut runs = runs;
                runs.push(Run {
                    count: left,
                    value: array.element.value,
                })?;
                Ok(Some(Written::Elements(Items::from_vec(runs))))
            } else {
                Ok(None)
            }
        },
    }
}

/// Adds a row to the table of written values, where there is one, and answers the value under its number.
pub(crate) fn add_row(
    rows: &mut Vec<Written>,
    row: Option<Written>,
) -> Result<Option<Initial>, NoMemory>
    ensures rows { OnOk result (rows.new.items ≡ rows.old.items ++ rows_of row) }
    ensures value { IfOk result (λ it. it ≡ initial_of (length rows.old.items) row) }
{
    match row {
        None => Ok(None),
        Some(row) => {
            let Ok(number) = u32::try_from(rows.len()) else {
                return Err(NoMemory);
            };
            rows.push(row)?;
            Ok(Some(Initial::Written(ValueNo(number))))
        },
    }
}
