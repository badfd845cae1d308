// Operators on judged operands.

ghost use Rattle.std.specs.Prelude.{◌≡◌};
ghost use Rattle.link_faults.specs.Checked.{Tells};
ghost use Rattle.expression_types.specs.Meanings.{meant};
ghost use Rattle.expression_types.specs.steps.Pairs.{of_both};
ghost use Rattle.expression_types.specs.Types.{own_type as own_type_of};
ghost use Rattle.expression_types.specs.Rules as rules;
ghost use Rattle.expression_types.specs.Reads as reads;
ghost use Rattle.expression_types.specs.Judge as spec;

use crate::judged::{ExprType, Judged, Standing};
use crate::loose::{holds, node_of, own_type, settled_operand};
use crate::meaning::{Meaning, Names};
use crate::places::settled_by;
use crate::rules::{at_common, inverted, negated, operation, plain, varying, without_own, wrong};
use crate::types::common;
use iec_tables::elem::Elem;
use link_faults::{Faults, LinkCode};
use st_tree::{BinaryOperator, Expr, Node, Number, UnaryOperator};

fn own_type_of_both<M: Meaning>(
    meaning: &M,
    standing: Standing,
    left: &Expr,
    right: &Expr,
) -> Option<Elem>
    ensures { result ≡ own_type_of (reads.holds_both (spec.read (meant (M.names meaning.now)
        (M.parts meaning.now)) standing left.now) (spec.read (meant (M.names meaning.now) (M.parts
        meaning.now)) standing right.now)) }
{
    if holds(meaning, standing, Elem::Dint, left) && holds(meaning, standing, Elem::Dint, right) {
        Some(Elem::Dint)
    } else if holds(meaning, standing, Elem::Lint, left)
        && holds(meaning, standing, Elem::Lint, right)
    {
        Some(Elem::Lint)
    } else if holds(meaning, standing, Elem::Ulint, left)
        && holds(meaning, standing, Elem::Ulint, right)
    {
        Some(Elem::Ulint)
    } else {
        None
    }
}

/// An operator between operands that are settled at a type.
fn operation_of(
    faults: &mut Faults,
    standing: Standing,
    node: Node,
    operator: BinaryOperator,
    elem: Elem,
    left: Option<Judged>,
    right: Option<Judged>,
) -> Option<Judged>
    ensures { Tells (of_both left right (reads.operation_of standing node operator elem))
        faults.old faults.new result }
{
    match (left, right) {
        (Some(a), Some(b)) => {
            operation(faults, standing, node, operator, elem, a.number, b.number)
        }
        _ => None,
    }
}

#[tactic(auto, using(crate::proofs::Told::both_of))]
fn loose_pair_at<M: Meaning>(
    meaning: &M,
    standing: Standing,
    faults: &mut Faults,
    node: Node,
    operator: BinaryOperator,
    left: &Expr,
    right: &Expr,
    elem: Option<Elem>,
) -> Option<Judged>
    ensures { Tells (reads.loose_pair_at standing node operator (spec.read (meant (M.names
        meaning.now) (M.parts meaning.now)) standing left.now) (spec.read (meant (M.names
        meaning.now) (M.parts meaning.now)) standing right.now) elem) faults.old faults.new result }
{
    match elem {
        None => wrong(faults, standing, node, LinkCode::WrongType),
        Some(elem) => {
            let a = settled_operand(meaning, standing, faults, elem, left);
            let b = settled_operand(meaning, standing, faults, elem, right);
            operation_of(faults, standing, node, operator, elem, a, b)
        }
    }
}

/// An operator on two operands without a type.
fn loose_pair<M: Meaning>(
    meaning: &M,
    standing: Standing,
    faults: &mut Faults,
    node: Node,
    operator: BinaryOperator,
    left: &Expr,
    right: &Expr,
) -> Option<Judged>
    ensures { Tells (reads.loose_pair standing node (rules.group_of operator) operator (spec.read
        (meant (M.names meaning.now) (M.parts meaning.now)) standing left.now) (spec.read (meant
        (M.names meaning.now) (M.parts meaning.now)) standing right.now)) faults.old faults.new
        result }
{
    match operator {
        BinaryOperator::Add
        | BinaryOperator::Subtract
        | BinaryOperator::Multiply
        | BinaryOperator::Divide
        | BinaryOperator::Modulo => Some(plain(ExprType::Loose)),
        _ => {
            let elem = own_type_of_both(meaning, standing, left, right);
            loose_pair_at(meaning, standing, faults, node, operator, left, right, elem)
        }
    }
}

fn is_equality(operator: BinaryOperator) -> bool
    ensures { result ≡ reads.is_equality (rules.group_of operator) }
{
    match operator {
        BinaryOperator::Equal | BinaryOperator::NotEqual => true,
        _ => false,
    }
}

/// A right operand without a type, with the number of the left one.
#[tactic(auto, using(crate::proofs::Told::bind_some, crate::proofs::Told::bind_none))]
fn loose_right<M: Meaning>(
    meaning: &M,
    standing: Standing,
    faults: &mut Faults,
    node: Node,
    operator: BinaryOperator,
    elem: Elem,
    number: Option<Number>,
    right: &Expr,
) -> Option<Judged>
    ensures { Tells (reads.loose_right standing node operator elem number (spec.read (meant
        (M.names meaning.now) (M.parts meaning.now)) standing right.now)) faults.old faults.new
        result }
{
    match settled_operand(meaning, standing, faults, elem, right) {
        Some(judged) => operation(
            faults,
            standing,
            node,
            operator,
            elem,
            number,
            judged.number,
        ),
        None => None,
    }
}

/// A left operand without a type, with the number of the right one.
#[tactic(auto, using(crate::proofs::Told::bind_some, crate::proofs::Told::bind_none))]
fn loose_left<M: Meaning>(
    meaning: &M,
    standing: Standing,
    faults: &mut Faults,
    node: Node,
    operator: BinaryOperator,
    elem: Elem,
    number: Option<Number>,
    left: &Expr,
) -> Option<Judged>
    ensures { Tells (reads.loose_left standing node operator elem number (spec.read (meant (M.names
        meaning.now) (M.parts meaning.now)) standing left.now)) faults.old faults.new result }
{
    match settled_operand(meaning, standing, faults, elem, left) {
        Some(judged) => operation(
            faults,
            standing,
            node,
            operator,
            elem,
            judged.number,
            number,
        ),
        None => None,
    }
}

/// An operator on two judged operands.
fn operated<M: Meaning>(
    meaning: &M,
    standing: Standing,
    faults: &mut Faults,
    node: Node,
    operator: BinaryOperator,
    left: &Expr,
    right: &Expr,
    a: Judged,
    b: Judged,
) -> Option<Judged>
    ensures { Tells (reads.operated (meant (M.names meaning.now) (M.parts meaning.now)) standing
        node operator (spec.read (meant (M.names meaning.now) (M.parts meaning.now)) standing
        left.now) (spec.read (meant (M.names meaning.now) (M.parts meaning.now)) standing
        right.now) a b) faults.old faults.new result }
{
    match (a.ty, b.ty) {
        (ExprType::Loose, ExprType::Loose) => {
            loose_pair(meaning, standing, faults, node, operator, left, right)
        }
        (ExprType::Elem(elem), ExprType::Loose) => {
            loose_right(
                meaning, standing, faults, node, operator, elem, a.number, right,
            )
        }
        (ExprType::Loose, ExprType::Elem(elem)) => {
            loose_left(
                meaning, standing, faults, node, operator, elem, b.number, left,
            )
        }
        (ExprType::Elem(s), ExprType::Elem(t)) => at_common(
            faults,
            standing,
            node,
            operator,
            common(s, t),
            a.number,
            b.number,
        ),
        (ExprType::Other(x), ExprType::Other(y)) => {
            if is_equality(operator) && meaning.is_enumeration(x) && meaning.is_same(x, y) {
                Some(varying(standing, ExprType::Elem(Elem::Bool)))
            } else {
                wrong(faults, standing, node, LinkCode::WrongType)
            }
        }
        (ExprType::Other(_), ExprType::Loose) => wrong(faults, standing, node, LinkCode::WrongType),
        (ExprType::Other(_), ExprType::Elem(_)) => {
            wrong(faults, standing, node, LinkCode::WrongType)
        }
        (ExprType::Loose, ExprType::Other(_)) => wrong(faults, standing, node, LinkCode::WrongType),
        (ExprType::Elem(_), ExprType::Other(_)) => {
            wrong(faults, standing, node, LinkCode::WrongType)
        }
    }
}

/// An operand to which nothing gives a type.
#[tactic(auto, using(crate::proofs::Told::bind_some, crate::proofs::Told::bind_none))]
fn own_operand<M: Meaning>(
    meaning: &M,
    standing: Standing,
    faults: &mut Faults,
    e: &Expr,
) -> Option<Judged>
    ensures { Tells (reads.own_operand standing (spec.read (meant (M.names meaning.now) (M.parts
        meaning.now)) standing e.now)) faults.old faults.new result }
{
    match settled_by(meaning, standing, faults, own_type(meaning, standing, e), e) {
        Some(judged) => without_own(faults, standing, node_of(meaning, standing, e), judged),
        None => None,
    }
}

/// NOT before an operand without a type.
#[tactic(auto, using(crate::proofs::Told::bind_some, crate::proofs::Told::bind_none))]
fn inverted_own<M: Meaning>(
    meaning: &M,
    standing: Standing,
    faults: &mut Faults,
    node: Node,
    e: &Expr,
) -> Option<Judged>
    ensures { Tells (reads.inverted_own standing node (spec.read (meant (M.names meaning.now)
        (M.parts meaning.now)) standing e.now)) faults.old faults.new result }
{
    match own_operand(meaning, standing, faults, e) {
        Some(judged) => inverted(faults, standing, node, judged.ty),
        None => None,
    }
}

/// NOT gives its operand no type.
fn not_of<M: Meaning>(
    meaning: &M,
    standing: Standing,
    faults: &mut Faults,
    node: Node,
    e: &Expr,
    ty: ExprType,
) -> Option<Judged>
    ensures { Tells (reads.not_of standing node (spec.read (meant (M.names meaning.now) (M.parts
        meaning.now)) standing e.now) ty) faults.old faults.new result }
{
    match ty {
        ExprType::Loose => inverted_own(meaning, standing, faults, node, e),
        ExprType::Elem(_) => inverted(faults, standing, node, ty),
        ExprType::Other(_) => inverted(faults, standing, node, ty),
    }
}

/// An operator before a judged operand.
pub(crate) fn with_unary<M: Meaning>(
    meaning: &M,
    standing: Standing,
    faults: &mut Faults,
    node: Node,
    operator: UnaryOperator,
    e: &Expr,
    judged: Judged,
) -> Option<Judged>
    ensures { Tells (reads.with_unary standing node operator (spec.read (meant (M.names
        meaning.now) (M.parts meaning.now)) standing e.now) judged) faults.old faults.new result }
{
    match operator {
        UnaryOperator::Negate => negated(faults, standing, node, judged),
        UnaryOperator::Not => not_of(meaning, standing, faults, node, e, judged.ty),
    }
}

/// An operator between operands as they are judged.
pub(crate) fn operated_pair<M: Meaning>(
    meaning: &M,
    standing: Standing,
    faults: &mut Faults,
    node: Node,
    operator: BinaryOperator,
    left: &Expr,
    right: &Expr,
    a: Option<Judged>,
    b: Option<Judged>,
) -> Option<Judged>
    ensures { Tells (of_both a b (reads.operated (meant (M.names meaning.now) (M.parts
        meaning.now)) standing node operator (spec.read (meant (M.names meaning.now) (M.parts
        meaning.now)) standing left.now) (spec.read (meant (M.names meaning.now) (M.parts
        meaning.now)) standing right.now))) faults.old faults.new result }
{
    match (a, b) {
        (Some(a), Some(b)) => {
            operated(meaning, standing, faults, node, operator, left, right, a, b)
        }
        _ => None,
    }
}
