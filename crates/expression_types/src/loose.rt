// Literals without a type, and arithmetic on them alone.

ghost use Rattle.std.specs.Prelude.{◌≡◌};
ghost use Rattle.link_faults.specs.Checked.{Tells};
ghost use Rattle.expression_types.specs.Meanings.{meant};
ghost use Rattle.expression_types.specs.steps.Pairs.{of_both};
ghost use Rattle.expression_types.specs.Types.{own_type as own_type_of};
ghost use Rattle.expression_types.specs.Reads as reads;
ghost use Rattle.expression_types.specs.Judge as spec;

use crate::judged::{Judged, Standing};
use crate::meaning::{Meaning, Names};
use crate::rules::{arithmetic, fits_number, negated_at, number_literal, without_own};
use iec_tables::elem::Elem;
use link_faults::Faults;
use st_tree::{BinaryOperator, Expr, Node};

/// The node of an expression, in parentheses that of the one within.
#[tactic(auto, unfolding(crate::specs::Judge::read, crate::specs::Judge::read_path))]
pub fn node_of<M: Meaning>(meaning: &M, standing: Standing, e: &Expr) -> Node
    ensures { result ≡ (spec.read (meant (M.names meaning.now) (M.parts meaning.now)) standing
        e.now).node }
{
    match e {
        Expr::Number(node, _, _) => *node,
        Expr::Typed(node, _) => *node,
        Expr::Time(node, _) => *node,
        Expr::Truth(node, _) => *node,
        Expr::Path(path) => path.node,
        Expr::Value(node, _, _) => *node,
        Expr::Parenthesized(_, inner) => node_of(meaning, standing, inner.get()),
        Expr::Unary(node, _, _) => *node,
        Expr::Binary(node, _, _, _) => *node,
        Expr::Call(node, _, _) => *node,
    }
}

/// Whether a type holds all literals without a type.
#[tactic(auto, unfolding(crate::specs::Judge::read))]
pub(crate) fn holds<M: Meaning>(meaning: &M, standing: Standing, elem: Elem, e: &Expr) -> bool
    ensures { result ≡ (spec.read (meant (M.names meaning.now) (M.parts meaning.now)) standing
        e.now).holds elem }
{
    match e {
        Expr::Number(_, negative, text) => {
            fits_number(meaning.literal(*negative, text.bytes()), elem)
        }
        Expr::Parenthesized(_, inner) => holds(meaning, standing, elem, inner.get()),
        Expr::Unary(_, _, operand) => holds(meaning, standing, elem, operand.get()),
        Expr::Binary(_, _, left, right) => {
            holds(meaning, standing, elem, left.get())
                && holds(meaning, standing, elem, right.get())
        }
        _ => true,
    }
}

/// The type that literals take where nothing gives one.
pub(crate) fn own_type<M: Meaning>(meaning: &M, standing: Standing, e: &Expr) -> Option<Elem>
    ensures { result ≡ own_type_of (spec.read (meant (M.names meaning.now) (M.parts meaning.now))
        standing e.now).holds }
{
    if holds(meaning, standing, Elem::Dint, e) {
        Some(Elem::Dint)
    } else if holds(meaning, standing, Elem::Lint, e) {
        Some(Elem::Lint)
    } else if holds(meaning, standing, Elem::Ulint, e) {
        Some(Elem::Ulint)
    } else {
        None
    }
}

/// An operator between operands that are settled at a type.
fn settled_pair(
    faults: &mut Faults,
    standing: Standing,
    node: Node,
    operator: BinaryOperator,
    elem: Elem,
    left: Option<Judged>,
    right: Option<Judged>,
) -> Option<Judged>
    ensures { Tells (of_both left right (reads.settled_pair standing node operator elem))
        faults.old faults.new result }
{
    match (left, right) {
        (Some(a), Some(b)) => {
            arithmetic(faults, standing, node, operator, elem, a.number, b.number)
        }
        _ => None,
    }
}

/// A minus before a loose operand, at a type.
#[cycle(settle)]
#[tactic(auto, using(crate::proofs::Told::bind_some, crate::proofs::Told::bind_none))]
fn settled_unary<M: Meaning>(
    meaning: &M,
    standing: Standing,
    faults: &mut Faults,
    node: Node,
    elem: Elem,
    e: &Expr,
) -> Option<Judged>
    ensures { Tells (reads.settled_unary standing node (spec.read (meant (M.names meaning.now)
        (M.parts meaning.now)) standing e.now) elem) faults.old faults.new result }
{
    match settled_operand(meaning, standing, faults, elem, e) {
        Some(judged) => negated_at(faults, standing, node, elem, judged.number),
        None => None,
    }
}

/// What a loose expression is at a type.
#[cycle(settle)]
#[tactic(auto, unfolding(crate::specs::Judge::read))]
pub(crate) fn settle<M: Meaning>(
    meaning: &M,
    standing: Standing,
    faults: &mut Faults,
    elem: Elem,
    e: &Expr,
) -> Option<Judged>
    ensures { Tells ((spec.read (meant (M.names meaning.now) (M.parts meaning.now)) standing
        e.now).settled elem) faults.old faults.new result }
{
    match e {
        Expr::Number(node, negative, text) => number_literal(
            faults,
            standing,
            *node,
            meaning.literal(*negative, text.bytes()),
            elem,
        ),
        Expr::Parenthesized(_, inner) => settle(meaning, standing, faults, elem, inner.get()),
        Expr::Unary(node, _, operand) => {
            settled_unary(meaning, standing, faults, *node, elem, operand.get())
        }
        Expr::Binary(node, operator, left, right) => {
            let l = left.get();
            let r = right.get();
            let a = settled_operand(meaning, standing, faults, elem, l);
            let b = settled_operand(meaning, standing, faults, elem, r);
            settled_pair(faults, standing, *node, *operator, elem, a, b)
        }
        _ => None,
    }
}

/// An operand at a type: a fault of its own counts.
#[cycle(settle)]
#[tactic(auto, using(crate::proofs::Told::bind_some, crate::proofs::Told::bind_none))]
pub(crate) fn settled_operand<M: Meaning>(
    meaning: &M,
    standing: Standing,
    faults: &mut Faults,
    elem: Elem,
    e: &Expr,
) -> Option<Judged>
    ensures { Tells (reads.settled_operand standing (spec.read (meant (M.names meaning.now)
        (M.parts meaning.now)) standing e.now) elem) faults.old faults.new result }
{
    match settle(meaning, standing, faults, elem, e) {
        Some(judged) => without_own(faults, standing, node_of(meaning, standing, e), judged),
        None => None,
    }
}
