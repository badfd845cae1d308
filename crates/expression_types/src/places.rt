// What the place of an expression asks of it.

ghost use Rattle.std.specs.Prelude.{◌≡◌};
ghost use Rattle.link_faults.specs.Checked.{Tells};
ghost use Rattle.expression_types.specs.Meanings.{meant};
ghost use Rattle.expression_types.specs.Reads as reads;
ghost use Rattle.expression_types.specs.Judge as spec;

use crate::judged::{ExprType, Judged, Place, Standing};
use crate::loose::{node_of, own_type, settle};
use crate::meaning::{Meaning, Names};
use crate::rules::{without_own, wrong};
use crate::types::{is_bit_string, is_integer};
use iec_tables::elem::{Elem, converts};
use link_faults::{Faults, LinkCode};
use st_tree::Expr;

fn fits<M: Meaning>(meaning: &M, place: Place, ty: ExprType) -> bool
    ensures { result ≡ reads.fits (meant (M.names meaning.now) (M.parts meaning.now)) place ty }
{
    match place {
        Place::Any => true,
        Place::Integer => match ty {
            ExprType::Elem(elem) => is_integer(elem),
            ExprType::Loose => false,
            ExprType::Other(_) => false,
        },
        Place::Bits => match ty {
            ExprType::Elem(elem) => is_bit_string(elem),
            ExprType::Loose => false,
            ExprType::Other(_) => false,
        },
        Place::Elem(to) => match ty {
            ExprType::Elem(from) => converts(from, to),
            ExprType::Loose => false,
            ExprType::Other(_) => false,
        },
        Place::Shape(wanted) => match ty {
            ExprType::Other(shape) => meaning.is_same(wanted, shape),
            ExprType::Loose => false,
            ExprType::Elem(_) => false,
        },
    }
}

pub(crate) fn settled_by<M: Meaning>(
    meaning: &M,
    standing: Standing,
    faults: &mut Faults,
    elem: Option<Elem>,
    e: &Expr,
) -> Option<Judged>
    ensures { Tells (reads.settled_by standing (spec.read (meant (M.names meaning.now) (M.parts
        meaning.now)) standing e.now) elem) faults.old faults.new result }
{
    match elem {
        None => wrong(
            faults,
            standing,
            node_of(meaning, standing, e),
            LinkCode::WrongType,
        ),
        Some(elem) => settle(meaning, standing, faults, elem, e),
    }
}

/// Literals without a type at a place.
fn settled_at<M: Meaning>(
    meaning: &M,
    standing: Standing,
    faults: &mut Faults,
    place: Place,
    e: &Expr,
) -> Option<Judged>
    ensures { Tells (reads.settled_at standing place (spec.read (meant (M.names meaning.now)
        (M.parts meaning.now)) standing e.now)) faults.old faults.new result }
{
    match place {
        Place::Elem(elem) => settle(meaning, standing, faults, elem, e),
        Place::Any => { settled_by(meaning, standing, faults, own_type(meaning, standing, e), e) }
        Place::Integer => {
            settled_by(meaning, standing, faults, own_type(meaning, standing, e), e)
        }
        Place::Bits => { settled_by(meaning, standing, faults, own_type(meaning, standing, e), e) }
        Place::Shape(_) => {
            settled_by(meaning, standing, faults, own_type(meaning, standing, e), e)
        }
    }
}

fn fitting<M: Meaning>(
    meaning: &M,
    standing: Standing,
    faults: &mut Faults,
    place: Place,
    e: &Expr,
    judged: Judged,
) -> Option<Judged>
    ensures { Tells (reads.fitting (meant (M.names meaning.now) (M.parts meaning.now)) standing
        place (spec.read (meant (M.names meaning.now) (M.parts meaning.now)) standing e.now)
        judged) faults.old faults.new result }
{
    let node = node_of(meaning, standing, e);
    if fits(meaning, place, judged.ty) {
        without_own(faults, standing, node, judged)
    } else {
        wrong(faults, standing, node, LinkCode::WrongType)
    }
}

/// What the place asks of a judged expression.
#[tactic(auto, using(crate::proofs::Told::bind_some, crate::proofs::Told::bind_none))]
pub(crate) fn fitted<M: Meaning>(
    meaning: &M,
    standing: Standing,
    faults: &mut Faults,
    place: Place,
    e: &Expr,
    judged: Judged,
) -> Option<Judged>
    ensures { Tells (reads.fitted (meant (M.names meaning.now) (M.parts meaning.now)) standing
        place (spec.read (meant (M.names meaning.now) (M.parts meaning.now)) standing e.now)
        judged) faults.old faults.new result }
{
    match judged.ty {
        ExprType::Loose => match settled_at(meaning, standing, faults, place, e) {
            Some(settled) => fitting(meaning, standing, faults, place, e, settled),
            None => None,
        },
        ExprType::Elem(_) => fitting(meaning, standing, faults, place, e, judged),
        ExprType::Other(_) => fitting(meaning, standing, faults, place, e, judged),
    }
}
