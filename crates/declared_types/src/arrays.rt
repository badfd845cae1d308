// Arrays: how many elements they have.

ghost use Rattle.std.specs.Prelude.{◌≡◌, ◌≤◌, ◌*◌, ◌++◌, length, IfOk, OnOk};
ghost use Rattle.link_faults.specs.Checked.{Tells};
ghost use Rattle.declared_types.specs.Specifications as spec;
ghost use Rattle.declared_types.specs.steps.Telling.{counted, known_array, items_in, rows_of, given_of};

use crate::bounds::wrong;
use crate::forms::{ArrayForm, Dim, Form};
use crate::given::{DeclType, Given, Initial};
use crate::outside::Outside;
use expression_types::ShapeNo;
use link_faults::{Faults, LinkCode};
use st_tree::Node;
use station_ports::outside::NoMemory;
use tree_items::Items;

/// The most dimensions of an array.
const MAX_DIMS: usize = 3;
/// The most elements of an array, those of nested arrays multiplied.
const MAX_ELEMENTS: u32 = 65_536;

// So many elements in each place of one more dimension, where they aren't too many.
fn in_each(count: u32, dim: &Dim) -> Option<u32>
    requires some { 1 ≤ count }
    requires few { count ≤ spec.max_elements }
    ensures { result ≡ counted (count * spec.length_of dim.now) }
{
    let gap = dim.high.abs_diff(dim.low);
    if gap >= MAX_ELEMENTS as u128 {
        return None;
    }
    let product = count as u64 * (gap as u64 + 1);
    if product > MAX_ELEMENTS as u64 {
        None
    } else {
        Some(product as u32)
    }
}

// How many elements dimensions have together, where they aren't too many.
fn count_of(dims: &[Dim]) -> Option<u32>
    ensures { result ≡ counted (spec.count_of dims.now) }
{
    let mut count = 1;
    for dim in dims {
        match in_each(count, dim) {
            None => return None,
            Some(next) => count = next,
        }
    }
    Some(count)
}

fn small_array<O: Outside>(
    outside: &O,
    faults: &mut Faults,
    node: Node,
    dims: Vec<Dim>,
    element: Given,
) -> Option<ArrayForm>
    ensures { Tells (spec.small_array (O.around outside.now) node dims.items element)
        faults.old faults.new result }
{
    match count_of(&dims) {
        Some(count) => {
            let size = count as u64 * element.size as u64;
            if size <= MAX_ELEMENTS as u64 {
                Some(ArrayForm {
                    dims: Items::from_vec(dims),
                    count,
                    element,
                    size: size as u32,
                })
            } else {
                wrong(outside, faults, node, LinkCode::BadBound)
            }
        },
        None => wrong(outside, faults, node, LinkCode::BadBound),
    }
}

// An array over ranges whose dimensions are known, or hold faults, as its element does.
pub(crate) fn array_from<O: Outside>(
    outside: &O,
    faults: &mut Faults,
    node: Node,
    ranges: usize,
    dims: Option<Vec<Dim>>,
    element: Option<Given>,
) -> Option<ArrayForm>
    ensures { Tells (known_array (O.around outside.now) node ranges (items_in dims) element)
        faults.old faults.new result }
{
    if ranges > MAX_DIMS {
        return wrong(outside, faults, node, LinkCode::BadBound);
    }
    match dims {
        None => None,
        Some(dims) => match element {
            None => None,
            Some(element) => small_array(outside, faults, node, dims, element),
        },
    }
}

/// Adds the row of an array to the table of forms, where there is one, and answers what the array gives.
pub(crate) fn add_array<'t>(
    forms: &mut Vec<Form<'t>>,
    array: Option<ArrayForm>,
) -> Result<Option<Given>, NoMemory>
    ensures rows { OnOk result (forms.new.items ≡ forms.old.items ++ rows_of array) }
    ensures given { IfOk result (λ it. it ≡ given_of (length forms.old.items) array) }
{
    match array {
        None => Ok(None),
        Some(array) => {
            let Ok(number) = u32::try_from(forms.len()) else {
                return Err(NoMemory);
            };
            let size = array.size;
            forms.push(Form::Array(array))?;
            Ok(Some(Given {
                ty: DeclType::Array(ShapeNo(number)),
                value: Initial::Own,
                size,
            }))
        },
    }
}
