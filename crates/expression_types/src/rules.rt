// The rules of operators and of names, each asked of operands without faults.

ghost use Rattle.std.specs.Prelude.{◌≡◌, ℤ, neg_ℤ, ◌+ℤ◌, ◌-ℤ◌, ◌*ℤ◌};
ghost use Rattle.link_faults.specs.Checked.{Tells};
ghost use Rattle.expression_types.specs.Rules as spec;
ghost use Rattle.expression_types.specs.steps.Exact.{IsExact};

use crate::judged::{ExprType, Judged, Standing};
use crate::meaning::{Seen, TypeValue, TypedNumber, ValueType};
use crate::types::{is_bits, is_counted, is_in, is_integer};
use iec_tables::elem::Elem;
use link_faults::{Faults, LinkCode};
use st_tree::{BinaryOperator, Node, Number, Site};

fn site(standing: Standing, node: Node) -> Site
    ensures { result ≡ spec.site_of standing node }
{
    Site {
        file: standing.file,
        node: node.number,
    }
}

/// Notes a fault.
pub(crate) fn wrong<T>(
    faults: &mut Faults,
    standing: Standing,
    node: Node,
    code: LinkCode,
) -> Option<T>
    ensures { Tells (spec.wrong_at standing node code) faults.old faults.new result }
{
    faults.note(site(standing, node), code);
    None
}

// ---- what an expression is

pub(crate) fn typed(ty: ValueType) -> ExprType
    ensures { result ≡ spec.typed ty }
{
    match ty {
        ValueType::Elem(elem) => ExprType::Elem(elem),
        ValueType::Other(shape) => ExprType::Other(shape),
    }
}

pub(crate) fn plain(ty: ExprType) -> Judged
    ensures { result ≡ spec.plain ty }
{
    Judged {
        ty,
        number: None,
        own: None,
    }
}

pub(crate) fn known(ty: ExprType, number: Number) -> Judged
    ensures { result ≡ spec.known ty number }
{
    Judged {
        ty,
        number: Some(number),
        own: None,
    }
}

fn own(standing: Standing, ty: ExprType, code: LinkCode) -> Judged
    ensures { result ≡ spec.own standing ty code }
{
    let own = if standing.constant { Some(code) } else { None };
    Judged {
        ty,
        number: None,
        own,
    }
}

pub(crate) fn varying(standing: Standing, ty: ExprType) -> Judged
    ensures { result ≡ spec.varying standing ty }
{
    own(standing, ty, LinkCode::NotConstant)
}

/// A literal of a type.
fn of_type(
    faults: &mut Faults,
    standing: Standing,
    node: Node,
    elem: Elem,
    number: Number,
) -> Option<Judged>
    ensures { Tells (spec.of_type standing node elem number) faults.old faults.new result }
{
    if is_in(elem, number.value) {
        Some(known(ExprType::Elem(elem), number))
    } else {
        wrong(faults, standing, node, LinkCode::WrongType)
    }
}

pub(crate) fn typed_literal(
    faults: &mut Faults,
    standing: Standing,
    node: Node,
    value: Option<TypedNumber>,
) -> Option<Judged>
    ensures { Tells (spec.typed_literal standing node value) faults.old faults.new result }
{
    match value {
        None => wrong(faults, standing, node, LinkCode::WrongType),
        Some(value) => of_type(faults, standing, node, value.elem, value.number),
    }
}

pub(crate) fn number_literal(
    faults: &mut Faults,
    standing: Standing,
    node: Node,
    number: Option<Number>,
    elem: Elem,
) -> Option<Judged>
    ensures { Tells (spec.number_literal standing node number elem) faults.old faults.new result }
{
    match number {
        None => wrong(faults, standing, node, LinkCode::WrongType),
        Some(number) => of_type(faults, standing, node, elem, number),
    }
}

pub(crate) fn fits_number(number: Option<Number>, elem: Elem) -> bool
    ensures { result ≡ spec.fits_number number elem }
{
    match number {
        None => false,
        Some(number) => is_in(elem, number.value),
    }
}

/// TRUE as 1, FALSE as 0.
pub(crate) fn truth_number(truth: bool) -> Number
    ensures { result.value ≡ spec.truth_number truth }
{
    Number {
        value: if truth { 1 } else { 0 },
    }
}

/// A fault of its own counts.
pub(crate) fn without_own(
    faults: &mut Faults,
    standing: Standing,
    node: Node,
    judged: Judged,
) -> Option<Judged>
    ensures { Tells (spec.without_own standing node judged) faults.old faults.new result }
{
    match judged.own {
        None => Some(judged),
        Some(code) => wrong(faults, standing, node, code),
    }
}

/// What has no number isn't constant.
pub(crate) fn known_number(
    faults: &mut Faults,
    standing: Standing,
    node: Node,
    number: Option<Number>,
) -> Option<Number>
    ensures { Tells (spec.known_number standing node number) faults.old faults.new result }
{
    match number {
        None => wrong(faults, standing, node, LinkCode::NotConstant),
        Some(number) => Some(number),
    }
}

// ---- names

pub(crate) fn foreign<T>(faults: &mut Faults, standing: Standing, node: Node) -> Option<T>
    ensures { Tells (spec.foreign standing node) faults.old faults.new result }
{
    if standing.constant {
        wrong(faults, standing, node, LinkCode::NotConstant)
    } else {
        wrong(faults, standing, node, LinkCode::OutOfProfile)
    }
}

/// A name alone, or an address.
pub(crate) fn used(
    faults: &mut Faults,
    standing: Standing,
    node: Node,
    seen: Seen,
) -> Option<Judged>
    ensures { Tells (spec.used standing node seen) faults.old faults.new result }
{
    match seen {
        Seen::Unknown => wrong(faults, standing, node, LinkCode::Unknown),
        Seen::Faulty => None,
        Seen::Foreign => foreign(faults, standing, node),
        Seen::NoValue(_) => wrong(faults, standing, node, LinkCode::WrongType),
        Seen::Variable(ty) => Some(varying(standing, typed(ty))),
        Seen::Constant(constant) => Some(known(typed(constant.ty), constant.number)),
    }
}

/// `type#value`
pub(crate) fn value_of_type(
    faults: &mut Faults,
    standing: Standing,
    node: Node,
    type_node: Node,
    value_node: Node,
    value: TypeValue,
) -> Option<Judged>
    ensures { Tells (spec.value_of_type standing node type_node value_node value) faults.old
        faults.new result }
{
    match value {
        TypeValue::UnknownType => wrong(faults, standing, type_node, LinkCode::Unknown),
        TypeValue::Faulty => None,
        TypeValue::NoEnumeration => wrong(faults, standing, node, LinkCode::WrongType),
        TypeValue::UnknownValue => wrong(faults, standing, value_node, LinkCode::Unknown),
        TypeValue::Is(constant) => Some(known(typed(constant.ty), constant.number)),
    }
}

// ---- operators

fn sum(a: Number, b: Number) -> Option<Number>
    ensures { IsExact result (a.value +ℤ b.value) }
{
    match a.value.checked_add(b.value) {
        Some(value) => Some(Number { value }),
        None => None,
    }
}

fn difference(a: Number, b: Number) -> Option<Number>
    ensures { IsExact result (a.value -ℤ b.value) }
{
    match a.value.checked_sub(b.value) {
        Some(value) => Some(Number { value }),
        None => None,
    }
}

fn product(a: Number, b: Number) -> Option<Number>
    ensures { IsExact result (a.value *ℤ b.value) }
{
    match a.value.checked_mul(b.value) {
        Some(value) => Some(Number { value }),
        None => None,
    }
}

fn negative(a: Number) -> Option<Number>
    ensures { IsExact result (neg_ℤ a.value) }
{
    match a.value.checked_neg() {
        Some(value) => Some(Number { value }),
        None => None,
    }
}

/// What an operator of a type is whose number this is; none where no type has the number.
#[tactic(auto, using(crate::proofs::Numbers::outcome_some, crate::proofs::Numbers::outcome_none, crate::proofs::Numbers::outcome_out))]
fn outcome(standing: Standing, elem: Elem, number: Option<Number>) -> Judged
    ensures { (z : ℤ) → IsExact number z → result ≡ spec.outcome standing elem z }
{
    match number {
        None => own(standing, ExprType::Elem(elem), LinkCode::BadBound),
        Some(number) => {
            if is_in(elem, number.value) {
                known(ExprType::Elem(elem), number)
            } else {
                own(standing, ExprType::Elem(elem), LinkCode::BadBound)
            }
        }
    }
}

fn takes(operator: BinaryOperator, elem: Elem) -> bool
    ensures { result ≡ spec.takes operator elem }
{
    match operator {
        BinaryOperator::Add | BinaryOperator::Subtract => is_counted(elem),
        _ => is_integer(elem),
    }
}

fn result_of(
    standing: Standing,
    operator: BinaryOperator,
    elem: Elem,
    left: Option<Number>,
    right: Option<Number>,
) -> Judged
    ensures { result ≡ spec.result_of standing operator elem left right }
{
    match operator {
        BinaryOperator::Add => match (left, right) {
            (Some(a), Some(b)) => outcome(standing, elem, sum(a, b)),
            _ => plain(ExprType::Elem(elem)),
        },
        BinaryOperator::Subtract => match (left, right) {
            (Some(a), Some(b)) => outcome(standing, elem, difference(a, b)),
            _ => plain(ExprType::Elem(elem)),
        },
        BinaryOperator::Multiply => match (left, right) {
            (Some(a), Some(b)) => outcome(standing, elem, product(a, b)),
            _ => plain(ExprType::Elem(elem)),
        },
        _ => varying(standing, ExprType::Elem(elem)),
    }
}

/// `+ - * / MOD` at a type.
pub(crate) fn arithmetic(
    faults: &mut Faults,
    standing: Standing,
    node: Node,
    operator: BinaryOperator,
    elem: Elem,
    left: Option<Number>,
    right: Option<Number>,
) -> Option<Judged>
    ensures { Tells (spec.arithmetic standing node operator elem left right) faults.old faults.new
        result }
{
    if takes(operator, elem) {
        Some(result_of(standing, operator, elem, left, right))
    } else {
        wrong(faults, standing, node, LinkCode::WrongType)
    }
}

fn logic(faults: &mut Faults, standing: Standing, node: Node, elem: Elem) -> Option<Judged>
    ensures { Tells (spec.logic standing node elem) faults.old faults.new result }
{
    if is_bits(elem) {
        Some(varying(standing, ExprType::Elem(elem)))
    } else {
        wrong(faults, standing, node, LinkCode::WrongType)
    }
}

/// An operator at the type of both its operands.
pub(crate) fn operation(
    faults: &mut Faults,
    standing: Standing,
    node: Node,
    operator: BinaryOperator,
    elem: Elem,
    left: Option<Number>,
    right: Option<Number>,
) -> Option<Judged>
    ensures { Tells (spec.operation standing node operator elem left right) faults.old faults.new
        result }
{
    match operator {
        BinaryOperator::Or | BinaryOperator::Xor | BinaryOperator::And => logic(
            faults, standing, node, elem,
        ),
        BinaryOperator::Equal
        | BinaryOperator::NotEqual
        | BinaryOperator::Less
        | BinaryOperator::Greater
        | BinaryOperator::LessEqual
        | BinaryOperator::GreaterEqual => Some(varying(standing, ExprType::Elem(Elem::Bool))),
        _ => arithmetic(faults, standing, node, operator, elem, left, right),
    }
}

pub(crate) fn at_common(
    faults: &mut Faults,
    standing: Standing,
    node: Node,
    operator: BinaryOperator,
    elem: Option<Elem>,
    left: Option<Number>,
    right: Option<Number>,
) -> Option<Judged>
    ensures { Tells (spec.at_common standing node operator elem left right) faults.old faults.new
        result }
{
    match elem {
        None => wrong(faults, standing, node, LinkCode::WrongType),
        Some(elem) => operation(faults, standing, node, operator, elem, left, right),
    }
}

fn opposite(standing: Standing, elem: Elem, number: Option<Number>) -> Judged
    ensures { result ≡ spec.opposite standing elem number }
{
    match number {
        None => plain(ExprType::Elem(elem)),
        Some(number) => outcome(standing, elem, negative(number)),
    }
}

/// A minus at a type.
pub(crate) fn negated_at(
    faults: &mut Faults,
    standing: Standing,
    node: Node,
    elem: Elem,
    number: Option<Number>,
) -> Option<Judged>
    ensures { Tells (spec.negated_at standing node elem number) faults.old faults.new result }
{
    if is_counted(elem) {
        Some(opposite(standing, elem, number))
    } else {
        wrong(faults, standing, node, LinkCode::WrongType)
    }
}

pub(crate) fn negated(
    faults: &mut Faults,
    standing: Standing,
    node: Node,
    judged: Judged,
) -> Option<Judged>
    ensures { Tells (spec.negated standing node judged judged.ty) faults.old faults.new result }
{
    match judged.ty {
        ExprType::Loose => Some(judged),
        ExprType::Elem(elem) => negated_at(faults, standing, node, elem, judged.number),
        ExprType::Other(_) => wrong(faults, standing, node, LinkCode::WrongType),
    }
}

/// NOT
pub(crate) fn inverted(
    faults: &mut Faults,
    standing: Standing,
    node: Node,
    ty: ExprType,
) -> Option<Judged>
    ensures { Tells (spec.inverted standing node ty) faults.old faults.new result }
{
    match ty {
        ExprType::Elem(elem) => logic(faults, standing, node, elem),
        ExprType::Loose => wrong(faults, standing, node, LinkCode::WrongType),
        ExprType::Other(_) => wrong(faults, standing, node, LinkCode::WrongType),
    }
}
