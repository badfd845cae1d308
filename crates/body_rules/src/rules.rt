// What literals and names are where they must be constant.

ghost use Rattle.std.specs.Prelude.{◌≡◌};
ghost use Rattle.link_faults.specs.Checked.{Tells};
ghost use Rattle.expression_types.specs.Types as types;
ghost use Rattle.expression_types.specs.Rules as spec;

use crate::noted::wrong;
use expression_types::{
    Constant, ExprType, Judged, Seen, Standing, TypeValue, TypedNumber, ValueType,
};
use iec_tables::elem::{Elem, high, low};
use link_faults::{Faults, LinkCode};
use st_tree::{Node, Number};

/// Whether the number is one of the type.
pub(crate) fn is_in(t: Elem, number: i128) -> bool
    ensures { result ≡ types.in_range t number }
{
    low(t) <= number && number <= high(t)
}

fn typed(ty: ValueType) -> ExprType
    ensures { result ≡ spec.typed ty }
{
    match ty {
        ValueType::Elem(elem) => ExprType::Elem(elem),
        ValueType::Other(shape) => ExprType::Other(shape),
    }
}

fn known(ty: ExprType, number: Number) -> Judged
    ensures { result ≡ spec.known ty number }
{
    Judged {
        ty,
        number: Some(number),
        own: None,
    }
}

fn varying(standing: Standing, ty: ExprType) -> Judged
    ensures { result ≡ spec.varying standing ty }
{
    let own = if standing.constant {
        Some(LinkCode::NotConstant)
    } else {
        None
    };
    Judged {
        ty,
        number: None,
        own,
    }
}

fn foreign<T>(faults: &mut Faults, standing: Standing, node: Node) -> Option<T>
    ensures { Tells (spec.foreign standing node) faults.old faults.new result }
{
    if standing.constant {
        wrong(faults, standing, node, LinkCode::NotConstant)
    } else {
        wrong(faults, standing, node, LinkCode::OutOfProfile)
    }
}

fn constant_known(constant: Constant) -> Judged
    ensures { result ≡ spec.known (spec.typed constant.ty) constant.number }
{
    known(typed(constant.ty), constant.number)
}

/// A name alone.
pub(crate) fn used(
    faults: &mut Faults,
    standing: Standing,
    node: Node,
    seen: Seen,
) -> Option<Judged>
    ensures { Tells (spec.used standing node seen) faults.old faults.new result }
{
    match seen {
        Seen::Unknown => wrong(faults, standing, node, LinkCode::Unknown),
        Seen::Faulty => None,
        Seen::Foreign => foreign(faults, standing, node),
        Seen::NoValue(_) => wrong(faults, standing, node, LinkCode::WrongType),
        Seen::Variable(ty) => Some(varying(standing, typed(ty))),
        Seen::Constant(constant) => Some(constant_known(constant)),
    }
}

/// `type#value`, with the nodes of both names.
pub(crate) fn value_of_type(
    faults: &mut Faults,
    standing: Standing,
    node: Node,
    type_node: Node,
    value_node: Node,
    value: TypeValue,
) -> Option<Judged>
    ensures { Tells (spec.value_of_type standing node type_node value_node value) faults.old
        faults.new result }
{
    match value {
        TypeValue::UnknownType => wrong(faults, standing, type_node, LinkCode::Unknown),
        TypeValue::Faulty => None,
        TypeValue::NoEnumeration => wrong(faults, standing, node, LinkCode::WrongType),
        TypeValue::UnknownValue => wrong(faults, standing, value_node, LinkCode::Unknown),
        TypeValue::Is(constant) => Some(constant_known(constant)),
    }
}

fn of_type(
    faults: &mut Faults,
    standing: Standing,
    node: Node,
    elem: Elem,
    number: Number,
) -> Option<Judged>
    ensures { Tells (spec.of_type standing node elem number) faults.old faults.new result }
{
    if is_in(elem, number.value) {
        Some(known(ExprType::Elem(elem), number))
    } else {
        wrong(faults, standing, node, LinkCode::WrongType)
    }
}

pub(crate) fn typed_literal(
    faults: &mut Faults,
    standing: Standing,
    node: Node,
    value: Option<TypedNumber>,
) -> Option<Judged>
    ensures { Tells (spec.typed_literal standing node value) faults.old faults.new result }
{
    match value {
        None => wrong(faults, standing, node, LinkCode::WrongType),
        Some(value) => of_type(faults, standing, node, value.elem, value.number),
    }
}

/// What has no number isn't constant.
pub(crate) fn known_number(
    faults: &mut Faults,
    standing: Standing,
    node: Node,
    number: Option<Number>,
) -> Option<Number>
    ensures { Tells (spec.known_number standing node number) faults.old faults.new result }
{
    match number {
        None => wrong(faults, standing, node, LinkCode::NotConstant),
        Some(number) => Some(number),
    }
}
