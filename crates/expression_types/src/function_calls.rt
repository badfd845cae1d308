// What calls of functions of the project ask of judged values, and what they are.

ghost use Rattle.std.specs.Prelude.{◌≡◌};
ghost use Rattle.link_faults.specs.Checked.{Tells};
ghost use Rattle.expression_types.specs.Meanings.{meant};
ghost use Rattle.expression_types.specs.Calls as spec;

use crate::judged::{ExprType, Judged, Standing};
use crate::meaning::{FunctionNo, Meaning, Names, Taken};
use crate::rules::{typed, varying, wrong};
use link_faults::{Faults, LinkCode};
use st_tree::Node;

/// A value for an input that none gives.
pub(crate) fn whole_code<M: Meaning>(
    meaning: &M,
    standing: Standing,
    faults: &mut Faults,
    node: Node,
    ty: ExprType,
) -> Option<Judged>
    ensures { Tells (spec.whole_code (meant (M.names meaning.now) (M.parts meaning.now)) standing
        node ty) faults.old faults.new result }
{
    match ty {
        ExprType::Other(shape) => {
            if meaning.is_enumeration(shape) {
                wrong(faults, standing, node, LinkCode::WrongType)
            } else {
                wrong(faults, standing, node, LinkCode::OutOfProfile)
            }
        }
        ExprType::Elem(_) => wrong(faults, standing, node, LinkCode::WrongType),
        ExprType::Loose => wrong(faults, standing, node, LinkCode::WrongType),
    }
}

/// What the input at a place takes.
pub(crate) fn taken_by<M: Meaning>(
    meaning: &M,
    function: FunctionNo,
    at: Option<usize>,
) -> Option<Taken>
    ensures { result ≡ spec.taken_by ((M.parts meaning.now).function function).inputs at }
{
    match at {
        None => None,
        Some(at) => meaning.input(function, at),
    }
}

/// The result of a function, where the list of arguments fits.
pub(crate) fn function_result<M: Meaning>(
    meaning: &M,
    standing: Standing,
    faults: &mut Faults,
    node: Node,
    function: FunctionNo,
    fits: bool,
) -> Option<Judged>
    ensures { Tells (spec.where_fits standing node fits (spec.result_of_type standing ((M.parts
        meaning.now).function function).result)) faults.old faults.new result }
{
    if fits {
        match meaning.result_type(function) {
            None => None,
            Some(ty) => Some(varying(standing, typed(ty))),
        }
    } else {
        wrong(faults, standing, node, LinkCode::WrongCall)
    }
}
