// What specifications give.

ghost use Rattle.std.specs.Prelude.{◌≡◌, length, IfOk};
ghost use Rattle.link_faults.specs.Checked.{Tells, answer};
ghost use Rattle.declared_types.specs.Specifications as given_by;
ghost use Rattle.declared_types.specs.declared.given.DeclType.TheVariants as ty;
ghost use Rattle.declared_types.specs.steps.Telling.{Makes, narrowed_known};

use crate::arrays::{add_array, array_from};
use crate::bounds::{bounds_of, dims_of, wrong};
use crate::forms::{Dim, Form};
use crate::given::{Bounds, DeclType, Given, Initial};
use crate::outside::{ConstantPlace, NamedType, Outside};
use expression_types::ShapeNo;
use iec_tables::elem::{Elem, high, low};
use link_faults::{Faults, LinkCode};
use st_tree::{Node, Number, Range, Spec, TypeName};
use station_ports::outside::NoMemory;
use std::alloc::Global;

fn single(ty: DeclType, value: Initial) -> Given
    ensures { result ≡ given_by.single ty value }
{
    Given { ty, value, size: 1 }
}

/// All numbers of an elementary type, from 0.
pub fn elementary(elem: Elem) -> Given
    ensures { result ≡ given_by.elementary elem }
{
    let bounds = Bounds {
        elem,
        low: low(elem),
        high: high(elem),
    };
    single(
        DeclType::Scalar(bounds),
        Initial::Number(Number { value: 0 }),
    )
}

fn instance_of<O: Outside>(
    outside: &O,
    faults: &mut Faults,
    may_be: bool,
    node: Node,
    shape: ShapeNo,
) -> Option<Given>
    ensures { Tells (given_by.instance_of (O.around outside.now) may_be node shape) faults.old faults.new result }
{
    if may_be {
        Some(single(DeclType::Instance(shape), Initial::Own))
    } else {
        wrong(outside, faults, node, LinkCode::OutOfProfile)
    }
}

fn of_name<O: Outside>(
    outside: &O,
    faults: &mut Faults,
    may_be: bool,
    node: Node,
    name_node: Node,
    named: NamedType,
) -> Option<Given>
    ensures { Tells (given_by.of_name (O.around outside.now) may_be node name_node named)
        faults.old faults.new result }
{
    match named {
        NamedType::Is(given) => Some(given),
        NamedType::Faulty => None,
        NamedType::LeadsBack => wrong(outside, faults, node, LinkCode::OutOfProfile),
        NamedType::Block(shape) => instance_of(outside, faults, may_be, node, shape),
        NamedType::NoType => wrong(outside, faults, name_node, LinkCode::WrongCall),
        NamedType::LeftOut => wrong(outside, faults, name_node, LinkCode::OutOfProfile),
        NamedType::Unknown => wrong(outside, faults, name_node, LinkCode::Unknown),
    }
}

/// What the name of a type gives. `may_be` tells whether an instance may stand there.
pub fn type_named<O: Outside>(
    outside: &O,
    faults: &mut Faults,
    may_be: bool,
    node: Node,
    name: &TypeName,
) -> Option<Given>
    ensures { Tells (given_by.of_type_name (O.around outside.now) may_be node name.now)
        faults.old faults.new result }
{
    match name {
        TypeName::Elementary(_, elem) => Some(elementary(*elem)),
        TypeName::Named(name) => of_name(
            outside,
            faults,
            may_be,
            node,
            name.node,
            outside.named(name.name.bytes()),
        ),
    }
}

fn within<O: Outside>(
    outside: &O,
    faults: &mut Faults,
    node: Node,
    bounds: Bounds,
    dim: Dim,
) -> Option<Given>
    ensures { Tells (given_by.within (O.around outside.now) node bounds dim) faults.old faults.new result }
{
    if bounds.low <= dim.low && dim.high <= bounds.high {
        let narrow = Bounds {
            elem: bounds.elem,
            low: dim.low,
            high: dim.high,
        };
        Some(single(
            DeclType::Scalar(narrow),
            Initial::Number(Number { value: dim.low }),
        ))
    } else {
        wrong(outside, faults, node, LinkCode::BadBound)
    }
}

// What the bounds of a range break where nothing may have one.
#[tactic(auto)]
fn no_range<O: Outside>(
    outside: &O,
    faults: &mut Faults,
    node: Node,
    range: &Range,
) -> Option<Given>
    ensures { Tells (given_by.no_range (O.around outside.now) node range.now) faults.old faults.new result }
{
    let none: Option<Given> = wrong(outside, faults, node, LinkCode::WrongType);
    let _ = bounds_of(outside, faults, ConstantPlace::Any, range);
    none
}

#[tactic(auto, using(crate::proofs::Told::bind_some, crate::proofs::Told::bind_none))]
fn narrowed_scalar<O: Outside>(
    outside: &O,
    faults: &mut Faults,
    node: Node,
    range: &Range,
    bounds: Bounds,
) -> Option<Given>
    ensures { Tells (given_by.narrowed_type (O.around outside.now) node range.now (ty.Scalar bounds))
        faults.old faults.new result }
{
    match bounds_of(outside, faults, ConstantPlace::Elem(bounds.elem), range) {
        None => None,
        Some(dim) => within(outside, faults, range.node, bounds, dim),
    }
}

fn narrowed_type<O: Outside>(
    outside: &O,
    faults: &mut Faults,
    node: Node,
    range: &Range,
    ty: DeclType,
) -> Option<Given>
    ensures { Tells (given_by.narrowed_type (O.around outside.now) node range.now ty)
        faults.old faults.new result }
{
    match ty {
        DeclType::Scalar(bounds) => narrowed_scalar(outside, faults, node, range, bounds),
        _ => no_range(outside, faults, node, range),
    }
}

// A type, or its faults, with a range of its own or none. What was told of the type stands before.
#[tactic(auto)]
fn narrowed<O: Outside>(
    outside: &O,
    faults: &mut Faults,
    node: Node,
    range: &Option<Range>,
    given: Option<Given>,
) -> Option<Given>
    ensures { Tells (narrowed_known (O.around outside.now) node range.now given) faults.old faults.new result }
{
    match range {
        None => given,
        Some(range) => match given {
            Some(given) => narrowed_type(outside, faults, node, range, given.ty),
            None => {
                let _ = bounds_of(outside, faults, ConstantPlace::Any, range);
                None
            },
        },
    }
}

fn enumerated(shape: Option<ShapeNo>) -> Option<Given>
    ensures { result ≡ answer (given_by.enumerated shape) }
{
    match shape {
        None => None,
        Some(shape) => Some(single(
            DeclType::Enumeration(shape),
            Initial::Number(Number { value: 0 }),
        )),
    }
}

/// What a specification gives, or None where it or what it names holds a fault. `may_be` tells whether
/// an instance may stand there. The rows of its arrays are added to the table of forms. Takes time linear in the specification.
#[tactic(auto, unfolding(crate::specs::Specifications::made))]
pub fn specification<'t, O: Outside>(
    alloc: Global,
    outside: &O,
    forms: &mut Vec<Form<'t>>,
    faults: &mut Faults,
    may_be: bool,
    spec: &Spec,
) -> Result<Option<Given>, NoMemory>
    ensures { IfOk result (λ it. Makes (given_by.made (O.around outside.now) spec.now may_be (length forms.old.items))
        forms.old.items forms.new.items faults.old faults.new it) }
{
    match spec {
        Spec::Type(node, name, range) => {
            let given = type_named(outside, faults, may_be, *node, name);
            Ok(narrowed(outside, faults, *node, range, given))
        },
        Spec::Enumeration(node, _) => Ok(enumerated(outside.enumeration(*node))),
        Spec::Array(node, ranges, element) => {
            let dims = dims_of(alloc, outside, faults, ranges.as_slice())?;
            let inner = specification(alloc, outside, forms, faults, false, element.get())?;
            let array = array_from(outside, faults, *node, ranges.len(), dims, inner);
            add_array(forms, array)
        },
    }
}
