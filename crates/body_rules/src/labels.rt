// The selector of a CASE, and the labels of its branches.

ghost use Rattle.std.specs.Prelude.{◌≡◌};
ghost use Rattle.link_faults.specs.Checked.{Tells};
ghost use Rattle.link_faults.specs.First.{after};
ghost use Rattle.expression_types.specs.Reads.{fits_elem};
ghost use Rattle.body_rules.specs.Surroundings.{here};
ghost use Rattle.body_rules.specs.Labels as spec;
ghost use Rattle.body_rules.specs.steps.Both.{of_both};

use crate::noted::{anywhere, constant, wrong};
use crate::outside::Bodies;
use crate::rules::{is_in, known_number, typed_literal, used, value_of_type};
use expression_types::{ExprType, Judged, Meaning, Names, Place, ShapeNo, node_of, placed};
use iec_tables::elem::{Elem, converts};
use link_faults::{Faults, LinkCode};
use st_tree::{Expr, Identifier, Label, Node, Number, Point};

/// What labels are compared with.
#[derive(Clone, Copy)]
pub(crate) enum Selector {
    /// It holds a fault.
    Unknown,
    Elem(Elem),
    Enumeration(ShapeNo),
}

// ---- the selector

fn selected_shape<B: Bodies>(
    outside: &B,
    file: u16,
    faults: &mut Faults,
    e: &Expr,
    shape: ShapeNo,
) -> Option<Selector>
    ensures { Tells (spec.selected_shape (here (B.names outside.now) (B.parts outside.now)
        (B.around outside.now) file) e.now shape) faults.old faults.new result }
{
    if outside.is_enumeration(shape) {
        Some(Selector::Enumeration(shape))
    } else {
        let standing = anywhere(file);
        wrong(
            faults,
            standing,
            node_of(outside, standing, e),
            LinkCode::WrongType,
        )
    }
}

fn selected_type<B: Bodies>(
    outside: &B,
    file: u16,
    faults: &mut Faults,
    e: &Expr,
    ty: ExprType,
) -> Option<Selector>
    ensures { Tells (spec.selected_type (here (B.names outside.now) (B.parts outside.now)
        (B.around outside.now) file) e.now ty) faults.old faults.new result }
{
    match ty {
        ExprType::Elem(elem) => Some(Selector::Elem(elem)),
        ExprType::Other(shape) => selected_shape(outside, file, faults, e, shape),
        ExprType::Loose => {
            let standing = anywhere(file);
            wrong(
                faults,
                standing,
                node_of(outside, standing, e),
                LinkCode::WrongType,
            )
        },
    }
}

/// The type of a selector.
#[tactic(auto, using(crate::proofs::Told::bind_some, crate::proofs::Told::bind_none))]
pub(crate) fn selected<B: Bodies>(
    outside: &B,
    file: u16,
    faults: &mut Faults,
    e: &Expr,
) -> Option<Selector>
    ensures { Tells (spec.selected (here (B.names outside.now) (B.parts outside.now)
        (B.around outside.now) file) e.now) faults.old faults.new result }
{
    match placed(outside, anywhere(file), faults, Place::Any, e) {
        None => None,
        Some(judged) => selected_type(outside, file, faults, e, judged.ty),
    }
}

pub(crate) fn known_selector(selector: Option<Selector>) -> Selector
    ensures { result ≡ spec.known_selector selector }
{
    match selector {
        None => Selector::Unknown,
        Some(selector) => selector,
    }
}

// ---- labels

fn fits_elementary(elem: Elem, ty: ExprType) -> bool
    ensures { result ≡ fits_elem elem ty }
{
    match ty {
        ExprType::Elem(from) => converts(from, elem),
        ExprType::Loose => false,
        ExprType::Other(_) => false,
    }
}

fn fits_enumeration<B: Bodies>(outside: &B, file: u16, shape: ShapeNo, ty: ExprType) -> bool
    ensures { result ≡ spec.fits_enumeration (here (B.names outside.now) (B.parts outside.now)
        (B.around outside.now) file) shape ty }
{
    match ty {
        ExprType::Other(other) => outside.is_same(shape, other),
        ExprType::Loose => false,
        ExprType::Elem(_) => false,
    }
}

fn fits_label<B: Bodies>(outside: &B, file: u16, selector: Selector, ty: ExprType) -> bool
    ensures { result ≡ spec.fits_label (here (B.names outside.now) (B.parts outside.now)
        (B.around outside.now) file) selector ty }
{
    match selector {
        Selector::Unknown => true,
        Selector::Elem(elem) => fits_elementary(elem, ty),
        Selector::Enumeration(shape) => fits_enumeration(outside, file, shape, ty),
    }
}

fn fitting_type<B: Bodies>(
    outside: &B,
    file: u16,
    faults: &mut Faults,
    selector: Selector,
    node: Node,
    ty: ExprType,
    number: Number,
) -> Option<Number>
    ensures { Tells (spec.fitting_type (here (B.names outside.now) (B.parts outside.now)
        (B.around outside.now) file) selector node ty number) faults.old faults.new result }
{
    if fits_label(outside, file, selector, ty) {
        Some(number)
    } else {
        wrong(faults, constant(file), node, LinkCode::WrongType)
    }
}

/// The number of a label that is constant and of the selector's type.
#[tactic(auto, using(crate::proofs::Told::bind_some, crate::proofs::Told::bind_none))]
fn fitting<B: Bodies>(
    outside: &B,
    file: u16,
    faults: &mut Faults,
    selector: Selector,
    node: Node,
    judged: Judged,
) -> Option<Number>
    ensures { Tells (spec.fitting (here (B.names outside.now) (B.parts outside.now)
        (B.around outside.now) file) selector node judged) faults.old faults.new result }
{
    match known_number(faults, constant(file), node, judged.number) {
        None => None,
        Some(number) => fitting_type(outside, file, faults, selector, node, judged.ty, number),
    }
}

fn number_in<B: Bodies>(
    _outside: &B,
    file: u16,
    faults: &mut Faults,
    elem: Elem,
    node: Node,
    number: Option<Number>,
) -> Option<Number>
    ensures { Tells (spec.number_in (here (B.names _outside.now) (B.parts _outside.now)
        (B.around _outside.now) file) elem node number) faults.old faults.new result }
{
    match number {
        None => wrong(faults, constant(file), node, LinkCode::WrongType),
        Some(number) => {
            if is_in(elem, number.value) {
                Some(number)
            } else {
                wrong(faults, constant(file), node, LinkCode::WrongType)
            }
        },
    }
}

/// A number without a type, at the type of the selector.
fn number_label<B: Bodies>(
    outside: &B,
    file: u16,
    faults: &mut Faults,
    selector: Selector,
    node: Node,
    number: Option<Number>,
) -> Option<Number>
    ensures { Tells (spec.number_label (here (B.names outside.now) (B.parts outside.now)
        (B.around outside.now) file) selector node number) faults.old faults.new result }
{
    match selector {
        Selector::Unknown => match number {
            None => None,
            Some(number) => Some(number),
        },
        Selector::Elem(elem) => number_in(outside, file, faults, elem, node, number),
        Selector::Enumeration(_) => wrong(faults, constant(file), node, LinkCode::WrongType),
    }
}

fn typed_number<B: Bodies>(
    outside: &B,
    file: u16,
    faults: &mut Faults,
    node: Node,
    text: &[u8],
) -> Option<Judged>
    ensures { Tells (spec.typed_number (here (B.names outside.now) (B.parts outside.now)
        (B.around outside.now) file) node text.now) faults.old faults.new result }
{
    typed_literal(faults, constant(file), node, outside.typed_literal(text))
}

#[tactic(auto, using(crate::proofs::Told::bind_some, crate::proofs::Told::bind_none))]
fn typed_label<B: Bodies>(
    outside: &B,
    file: u16,
    faults: &mut Faults,
    selector: Selector,
    node: Node,
    text: &[u8],
) -> Option<Number>
    ensures { Tells (spec.typed_label (here (B.names outside.now) (B.parts outside.now)
        (B.around outside.now) file) selector node text.now) faults.old faults.new result }
{
    match typed_number(outside, file, faults, node, text) {
        None => None,
        Some(judged) => fitting(outside, file, faults, selector, node, judged),
    }
}

#[tactic(auto, using(crate::proofs::Told::bind_some, crate::proofs::Told::bind_none))]
fn name_label<B: Bodies>(
    outside: &B,
    file: u16,
    faults: &mut Faults,
    selector: Selector,
    node: Node,
    name: &[u8],
) -> Option<Number>
    ensures { Tells (spec.name_label (here (B.names outside.now) (B.parts outside.now)
        (B.around outside.now) file) selector node name.now) faults.old faults.new result }
{
    match used(faults, constant(file), node, outside.seen(name)) {
        None => None,
        Some(judged) => fitting(outside, file, faults, selector, node, judged),
    }
}

#[tactic(auto, using(crate::proofs::Told::bind_some, crate::proofs::Told::bind_none))]
fn value_label<B: Bodies>(
    outside: &B,
    file: u16,
    faults: &mut Faults,
    selector: Selector,
    node: Node,
    name: &Identifier,
    value: &Identifier,
) -> Option<Number>
    ensures { Tells (spec.value_label (here (B.names outside.now) (B.parts outside.now)
        (B.around outside.now) file) selector node name.now value.now) faults.old faults.new
        result }
{
    let named = outside.type_value(name.name.bytes(), value.name.bytes());
    match value_of_type(faults, constant(file), node, name.node, value.node, named) {
        None => None,
        Some(judged) => fitting(outside, file, faults, selector, node, judged),
    }
}

/// The number that a label names.
fn point_number<B: Bodies>(
    outside: &B,
    file: u16,
    faults: &mut Faults,
    selector: Selector,
    point: &Point,
) -> Option<Number>
    ensures { Tells (spec.point_number (here (B.names outside.now) (B.parts outside.now)
        (B.around outside.now) file) selector point.now) faults.old faults.new result }
{
    match point {
        Point::Number(node, negative, text) => {
            let number = outside.literal(*negative, text.bytes());
            number_label(outside, file, faults, selector, *node, number)
        },
        Point::Typed(node, text) => {
            typed_label(outside, file, faults, selector, *node, text.bytes())
        },
        Point::Name(name) => {
            name_label(
                outside,
                file,
                faults,
                selector,
                name.node,
                name.name.bytes(),
            )
        },
        Point::Value(node, name, value) => {
            value_label(outside, file, faults, selector, *node, name, value)
        },
    }
}

fn rising<B: Bodies>(
    _outside: &B,
    file: u16,
    faults: &mut Faults,
    node: Node,
    first: Number,
    last: Number,
) -> Option<Number>
    ensures { Tells (spec.rising (here (B.names _outside.now) (B.parts _outside.now)
        (B.around _outside.now) file) node first last) faults.old faults.new result }
{
    if first.value <= last.value {
        Some(last)
    } else {
        wrong(faults, constant(file), node, LinkCode::BadBound)
    }
}

fn both_rising<B: Bodies>(
    outside: &B,
    file: u16,
    faults: &mut Faults,
    node: Node,
    first: Option<Number>,
    last: Option<Number>,
) -> Option<Number>
    ensures { Tells (of_both first last (spec.rising (here (B.names outside.now)
        (B.parts outside.now) (B.around outside.now) file) node)) faults.old faults.new result }
{
    match (first, last) {
        (Some(first), Some(last)) => rising(outside, file, faults, node, first, last),
        _ => None,
    }
}

fn pair<B: Bodies>(
    outside: &B,
    file: u16,
    faults: &mut Faults,
    selector: Selector,
    node: Node,
    first: &Point,
    last: &Point,
) -> Option<Number>
    ensures { Tells (spec.pair (here (B.names outside.now) (B.parts outside.now)
        (B.around outside.now) file) selector node first.now last.now) faults.old faults.new
        result }
{
    let a = point_number(outside, file, faults, selector, first);
    let b = point_number(outside, file, faults, selector, last);
    both_rising(outside, file, faults, node, a, b)
}

fn range<B: Bodies>(
    outside: &B,
    file: u16,
    faults: &mut Faults,
    selector: Selector,
    node: Node,
    first: &Point,
    last: &Option<Point>,
) -> Option<Number>
    ensures { Tells (spec.range (here (B.names outside.now) (B.parts outside.now)
        (B.around outside.now) file) selector node first.now last.now) faults.old faults.new
        result }
{
    match last {
        None => point_number(outside, file, faults, selector, first),
        Some(last) => pair(outside, file, faults, selector, node, first, last),
    }
}

fn label<B: Bodies>(outside: &B, file: u16, faults: &mut Faults, selector: Selector, label: &Label)
    ensures { faults.new ≡ after faults.old (spec.label (here (B.names outside.now)
        (B.parts outside.now) (B.around outside.now) file) selector label.now) }
{
    let _also = range(
        outside,
        file,
        faults,
        selector,
        label.node,
        &label.first,
        &label.last,
    );
}

/// Notes the faults of the labels of a branch.
#[tactic(auto, using(crate::proofs::Told::after_append))]
pub(crate) fn labels<B: Bodies>(
    outside: &B,
    file: u16,
    faults: &mut Faults,
    selector: Selector,
    labels: &[Label],
)
    ensures { faults.new ≡ after faults.old (spec.labels (here (B.names outside.now)
        (B.parts outside.now) (B.around outside.now) file) selector labels.now) }
{
    for each in labels {
        label(outside, file, faults, selector, each);
    }
}
