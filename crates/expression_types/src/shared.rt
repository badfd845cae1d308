// The type that the operands of a function of the standard share.

ghost use Rattle.std.specs.Prelude.{◌≡◌, [], ◌∷◌, Some};
ghost use Rattle.std.specs.List.{list_all};
ghost use Rattle.link_faults.specs.Checked.{Tells};
ghost use Rattle.expression_types.specs.Meanings.{meant};
ghost use Rattle.expression_types.specs.Types.{first_that, own_type};
ghost use Rattle.expression_types.specs.Reads.{Read};
ghost use Rattle.expression_types.specs.Judge as judge;
ghost use Rattle.expression_types.specs.Shared as spec;
ghost use Rattle.expression_types.specs.steps.Three as three;

use crate::answers::{still_good, where_all};
use crate::judged::{ExprType, Judged, Place, Standing};
use crate::loose::holds;
use crate::meaning::{Meaning, Names};
use crate::places::fitted;
use crate::rules::{varying, without_own, wrong};
use crate::types::ORDER;
use iec_tables::elem::{Elem, converts};
use link_faults::{Faults, LinkCode};
use st_tree::{Expr, Node};

/// An operand: of an elementary type, or literals without a type.
pub(crate) fn elementary(
    faults: &mut Faults,
    standing: Standing,
    node: Node,
    judged: Judged,
) -> Option<Judged>
    ensures { Tells (spec.elementary standing node judged judged.ty) faults.old faults.new result }
{
    match judged.ty {
        ExprType::Other(_) => wrong(faults, standing, node, LinkCode::WrongType),
        ExprType::Elem(_) => without_own(faults, standing, node, judged),
        ExprType::Loose => without_own(faults, standing, node, judged),
    }
}

// ---- their types

fn is_loose(ty: ExprType) -> bool
    ensures { result ≡ spec.is_loose ty }
{
    match ty {
        ExprType::Loose => true,
        ExprType::Elem(_) => false,
        ExprType::Other(_) => false,
    }
}

fn are_loose(types: &[ExprType]) -> bool
    ensures { result ≡ list_all spec.is_loose types.now }
{
    match types {
        [] => true,
        [first, rest @ ..] => is_loose(*first) && are_loose(rest),
    }
}

fn goes_to(elem: Elem, ty: ExprType) -> bool
    ensures { result ≡ spec.goes_to elem ty }
{
    match ty {
        ExprType::Elem(from) => converts(from, elem),
        ExprType::Loose => true,
        ExprType::Other(_) => false,
    }
}

fn all_go_to(elem: Elem, types: &[ExprType]) -> bool
    ensures { result ≡ spec.all_go_to types.now elem }
{
    match types {
        [] => true,
        [first, rest @ ..] => goes_to(elem, *first) && all_go_to(elem, rest),
    }
}

/// The first type to which all convert.
fn first_shared(order: &[Elem], types: &[ExprType]) -> Option<Elem>
    ensures { result ≡ first_that (spec.all_go_to types.now) order.now }
{
    match order {
        [] => None,
        [first, rest @ ..] => {
            if all_go_to(*first, types) {
                Some(*first)
            } else {
                first_shared(rest, types)
            }
        }
    }
}

fn common_of(types: &[ExprType]) -> Option<Elem>
    ensures { result ≡ spec.common_of types.now }
{
    first_shared(&ORDER, types)
}

// ---- two operands

fn hold_two<M: Meaning>(meaning: &M, standing: Standing, elem: Elem, x: &Expr, y: &Expr) -> bool
    ensures { result ≡ list_all (λ (r : Read). r.holds elem) (judge.read (meant (M.names
        meaning.now)
        (M.parts meaning.now)) standing x.now ∷ judge.read (meant (M.names meaning.now) (M.parts
        meaning.now)) standing y.now ∷ []) }
{
    holds(meaning, standing, elem, x) && holds(meaning, standing, elem, y)
}

fn own_type_of_two<M: Meaning>(meaning: &M, standing: Standing, x: &Expr, y: &Expr) -> Option<Elem>
    ensures { result ≡ own_type (λ t. list_all (λ (r : Read). r.holds t) (judge.read (meant (M.names
        meaning.now) (M.parts meaning.now)) standing x.now ∷ judge.read (meant (M.names meaning.now)
        (M.parts meaning.now)) standing y.now ∷ [])) }
{
    if hold_two(meaning, standing, Elem::Dint, x, y) {
        Some(Elem::Dint)
    } else if hold_two(meaning, standing, Elem::Lint, x, y) {
        Some(Elem::Lint)
    } else if hold_two(meaning, standing, Elem::Ulint, x, y) {
        Some(Elem::Ulint)
    } else {
        None
    }
}

fn type_of_two<M: Meaning>(
    meaning: &M,
    standing: Standing,
    x: &Expr,
    y: &Expr,
    i: Judged,
    j: Judged,
) -> Option<Elem>
    ensures { result ≡ spec.shared_type (three.two_of (judge.read (meant (M.names meaning.now)
        (M.parts meaning.now)) standing x.now) i (judge.read (meant (M.names meaning.now) (M.parts
        meaning.now)) standing y.now) j) }
{
    let types = [i.ty, j.ty];
    if are_loose(&types) {
        own_type_of_two(meaning, standing, x, y)
    } else {
        common_of(&types)
    }
}

/// Two operands at a type.
#[tactic(auto, using(crate::proofs::Sharing::two_told))]
fn two_at<M: Meaning>(
    meaning: &M,
    standing: Standing,
    faults: &mut Faults,
    elem: Elem,
    x: &Expr,
    y: &Expr,
    i: Judged,
    j: Judged,
) -> Option<Judged>
    ensures { Tells (spec.all_at (meant (M.names meaning.now) (M.parts meaning.now)) standing elem
        (three.two_of (judge.read (meant (M.names meaning.now) (M.parts meaning.now)) standing x.now)
        i (judge.read (meant (M.names meaning.now) (M.parts meaning.now)) standing y.now) j))
        faults.old faults.new result }
{
    let a = fitted(meaning, standing, faults, Place::Elem(elem), x, i);
    let b = fitted(meaning, standing, faults, Place::Elem(elem), y, j);
    let all = still_good(still_good(true, a), b);
    where_all(all, Some(varying(standing, ExprType::Elem(elem))))
}

fn two_at_shared<M: Meaning>(
    meaning: &M,
    standing: Standing,
    faults: &mut Faults,
    node: Node,
    x: &Expr,
    y: &Expr,
    i: Judged,
    j: Judged,
) -> Option<Judged>
    ensures { Tells (spec.at_shared (meant (M.names meaning.now) (M.parts meaning.now)) standing
        node
        (three.two_of (judge.read (meant (M.names meaning.now) (M.parts meaning.now)) standing x.now)
        i (judge.read (meant (M.names meaning.now) (M.parts meaning.now)) standing y.now) j))
        faults.old faults.new result }
{
    match type_of_two(meaning, standing, x, y, i, j) {
        None => wrong(faults, standing, node, LinkCode::WrongType),
        Some(elem) => two_at(meaning, standing, faults, elem, x, y, i, j),
    }
}

/// Two operands, where both hold no faults.
pub(crate) fn of_two<M: Meaning>(
    meaning: &M,
    standing: Standing,
    faults: &mut Faults,
    node: Node,
    x: &Expr,
    y: &Expr,
    i: Option<Judged>,
    j: Option<Judged>,
) -> Option<Judged>
    ensures { Tells (three.of_operands (three.with_operand (judge.read (meant (M.names meaning.now)
        (M.parts meaning.now)) standing x.now) i (three.with_operand (judge.read (meant (M.names
        meaning.now) (M.parts meaning.now)) standing y.now) j (Some []))) (spec.at_shared (meant
        (M.names meaning.now) (M.parts meaning.now)) standing node)) faults.old faults.new result }
{
    match (i, j) {
        (Some(i), Some(j)) => two_at_shared(meaning, standing, faults, node, x, y, i, j),
        _ => None,
    }
}

// ---- three operands

fn hold_three<M: Meaning>(
    meaning: &M,
    standing: Standing,
    elem: Elem,
    x: &Expr,
    y: &Expr,
    z: &Expr,
) -> bool
    ensures { result ≡ list_all (λ (r : Read). r.holds elem) (judge.read (meant (M.names
        meaning.now) (M.parts meaning.now)) standing x.now ∷ judge.read (meant (M.names meaning.now)
        (M.parts meaning.now)) standing y.now ∷ judge.read (meant (M.names meaning.now) (M.parts
        meaning.now)) standing z.now ∷ []) }
{
    holds(meaning, standing, elem, x)
        && holds(meaning, standing, elem, y)
        && holds(meaning, standing, elem, z)
}

fn own_type_of_three<M: Meaning>(
    meaning: &M,
    standing: Standing,
    x: &Expr,
    y: &Expr,
    z: &Expr,
) -> Option<Elem>
    ensures { result ≡ own_type (λ t. list_all (λ (r : Read). r.holds t) (judge.read (meant (M.names
        meaning.now) (M.parts meaning.now)) standing x.now ∷ judge.read (meant (M.names meaning.now)
        (M.parts meaning.now)) standing y.now ∷ judge.read (meant (M.names meaning.now) (M.parts
        meaning.now)) standing z.now ∷ [])) }
{
    if hold_three(meaning, standing, Elem::Dint, x, y, z) {
        Some(Elem::Dint)
    } else if hold_three(meaning, standing, Elem::Lint, x, y, z) {
        Some(Elem::Lint)
    } else if hold_three(meaning, standing, Elem::Ulint, x, y, z) {
        Some(Elem::Ulint)
    } else {
        None
    }
}

fn type_of_three<M: Meaning>(
    meaning: &M,
    standing: Standing,
    x: &Expr,
    y: &Expr,
    z: &Expr,
    i: Judged,
    j: Judged,
    k: Judged,
) -> Option<Elem>
    ensures { result ≡ spec.shared_type (three.three_of (judge.read (meant (M.names meaning.now)
        (M.parts meaning.now)) standing x.now) i (judge.read (meant (M.names meaning.now) (M.parts
        meaning.now)) standing y.now) j (judge.read (meant (M.names meaning.now) (M.parts
        meaning.now)) standing z.now) k) }
{
    let types = [i.ty, j.ty, k.ty];
    if are_loose(&types) {
        own_type_of_three(meaning, standing, x, y, z)
    } else {
        common_of(&types)
    }
}

/// Three operands at a type.
#[tactic(auto, using(crate::proofs::Sharing::three_told))]
fn three_at<M: Meaning>(
    meaning: &M,
    standing: Standing,
    faults: &mut Faults,
    elem: Elem,
    x: &Expr,
    y: &Expr,
    z: &Expr,
    i: Judged,
    j: Judged,
    k: Judged,
) -> Option<Judged>
    ensures { Tells (spec.all_at (meant (M.names meaning.now) (M.parts meaning.now)) standing elem
        (three.three_of (judge.read (meant (M.names meaning.now) (M.parts meaning.now)) standing
        x.now) i (judge.read (meant (M.names meaning.now) (M.parts meaning.now)) standing y.now) j
        (judge.read (meant (M.names meaning.now) (M.parts meaning.now)) standing z.now) k))
        faults.old faults.new result }
{
    let a = fitted(meaning, standing, faults, Place::Elem(elem), x, i);
    let b = fitted(meaning, standing, faults, Place::Elem(elem), y, j);
    let c = fitted(meaning, standing, faults, Place::Elem(elem), z, k);
    let all = still_good(still_good(still_good(true, a), b), c);
    where_all(all, Some(varying(standing, ExprType::Elem(elem))))
}

fn three_at_shared<M: Meaning>(
    meaning: &M,
    standing: Standing,
    faults: &mut Faults,
    node: Node,
    x: &Expr,
    y: &Expr,
    z: &Expr,
    i: Judged,
    j: Judged,
    k: Judged,
) -> Option<Judged>
    ensures { Tells (spec.at_shared (meant (M.names meaning.now) (M.parts meaning.now)) standing
        node (three.three_of (judge.read (meant (M.names meaning.now) (M.parts meaning.now))
        standing x.now) i (judge.read (meant (M.names meaning.now) (M.parts meaning.now)) standing
        y.now) j (judge.read (meant (M.names meaning.now) (M.parts meaning.now)) standing z.now) k))
        faults.old faults.new result }
{
    match type_of_three(meaning, standing, x, y, z, i, j, k) {
        None => wrong(faults, standing, node, LinkCode::WrongType),
        Some(elem) => three_at(meaning, standing, faults, elem, x, y, z, i, j, k),
    }
}

/// Three operands, where they hold no faults.
pub(crate) fn of_three<M: Meaning>(
    meaning: &M,
    standing: Standing,
    faults: &mut Faults,
    node: Node,
    x: &Expr,
    y: &Expr,
    z: &Expr,
    i: Option<Judged>,
    j: Option<Judged>,
    k: Option<Judged>,
) -> Option<Judged>
    ensures { Tells (three.of_operands (three.with_operand (judge.read (meant (M.names meaning.now)
        (M.parts meaning.now)) standing x.now) i (three.with_operand (judge.read (meant (M.names
        meaning.now) (M.parts meaning.now)) standing y.now) j (three.with_operand (judge.read (meant
        (M.names meaning.now) (M.parts meaning.now)) standing z.now) k (Some [])))) (spec.at_shared
        (meant (M.names meaning.now) (M.parts meaning.now)) standing node)) faults.old faults.new
        result }
{
    match (i, j, k) {
        (Some(i), Some(j), Some(k)) => three_at_shared(
            meaning, standing, faults, node, x, y, z, i, j, k,
        ),
        _ => None,
    }
}
