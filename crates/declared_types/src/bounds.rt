// Bounds of ranges.

ghost use Rattle.std.specs.Prelude.{◌≡◌, ◌++◌, IfOk, OnOk};
ghost use Rattle.std.specs.Option.{option_to_list};
ghost use Rattle.link_faults.specs.Checked.{Tells};
ghost use Rattle.expression_types.specs.steps.Several.{still_good};
ghost use Rattle.declared_types.specs.Ranges as ranges;
ghost use Rattle.declared_types.specs.Specifications as spec;
ghost use Rattle.declared_types.specs.steps.Telling.{TellsList, items_in, on_both};

use crate::forms::Dim;
use crate::outside::{ConstantPlace, Outside};
use link_faults::{Faults, LinkCode};
use st_tree::{Node, Number, Range, Site};
use station_ports::outside::NoMemory;
use std::alloc::Global;

/// Notes a fault at a node of the file.
pub(crate) fn wrong<O: Outside, A: Drop>(
    outside: &O,
    faults: &mut Faults,
    node: Node,
    code: LinkCode,
) -> Option<A>
    ensures { Tells (ranges.wrong_at {A = A} (O.around outside.now) node code) faults.old faults.new result }
{
    faults.note(
        Site {
            file: outside.file(),
            node: node.number,
        },
        code,
    );
    None
}

fn in_order<O: Outside>(
    outside: &O,
    faults: &mut Faults,
    node: Node,
    low: Number,
    high: Number,
) -> Option<Dim>
    ensures { Tells (ranges.in_order (O.around outside.now) node low high) faults.old faults.new result }
{
    if low.value <= high.value {
        Some(Dim {
            low: low.value,
            high: high.value,
        })
    } else {
        wrong(outside, faults, node, LinkCode::BadBound)
    }
}

fn in_order_known<O: Outside>(
    outside: &O,
    faults: &mut Faults,
    node: Node,
    low: Option<Number>,
    high: Option<Number>,
) -> Option<Dim>
    ensures { Tells (on_both low high (ranges.in_order (O.around outside.now) node))
        faults.old faults.new result }
{
    match low {
        None => None,
        Some(low) => match high {
            None => None,
            Some(high) => in_order(outside, faults, node, low, high),
        },
    }
}

/// The bounds of a range, each at that place.
#[tactic(auto, using(crate::proofs::Told::both_of))]
pub fn bounds_of<O: Outside>(
    outside: &O,
    faults: &mut Faults,
    place: ConstantPlace,
    range: &Range,
) -> Option<Dim>
    ensures { Tells (ranges.bounds (O.around outside.now) place range.now) faults.old faults.new result }
{
    let lower = outside.constant(faults, place, range.lower.get());
    let upper = outside.constant(faults, place, range.upper.get());
    in_order_known(outside, faults, range.node, lower, upper)
}

// Adds a dimension, where there is one, and tells whether there were all so far.
fn add_dim(dims: &mut Vec<Dim>, all: bool, dim: Option<Dim>) -> Result<bool, NoMemory>
    ensures dims { OnOk result (dims.new.items ≡ dims.old.items ++ option_to_list dim) }
    ensures all { IfOk result (λ it. it ≡ still_good all dim) }
{
    match dim {
        Some(dim) => {
            dims.push(dim)?;
            Ok(all)
        },
        None => Ok(false),
    }
}

/// The dimensions of an array.
pub(crate) fn dims_of<O: Outside>(
    alloc: Global,
    outside: &O,
    faults: &mut Faults,
    list: &[Range],
) -> Result<Option<Vec<Dim>>, NoMemory>
    ensures { IfOk result (λ it. TellsList (spec.dims_in (O.around outside.now) list.now)
        faults.old faults.new (items_in it)) }
{
    let mut dims = Vec::new(alloc);
    let mut all = true;
    for range in list {
        let dim = bounds_of(outside, faults, ConstantPlace::Integer, range);
        all = add_dim(&mut dims, all, dim)?;
    }
    if all { Ok(Some(dims)) } else { Ok(None) }
}
