// What calls of functions of the standard are.

ghost use Rattle.std.specs.Prelude.{◌≡◌};
ghost use Rattle.expression_types.specs.steps.Three as three;

use crate::judged::{ExprType, Judged, Standing};
use crate::rules::varying;

/// A call of the type of a value.
pub(crate) fn its_type(standing: Standing, value: Option<Judged>) -> Option<Judged>
    ensures { result ≡ three.its_type standing value }
{
    match value {
        None => None,
        Some(judged) => Some(varying(standing, judged.ty)),
    }
}

/// A call of a type of its own.
pub(crate) fn this_type(standing: Standing, ty: ExprType, value: Option<Judged>) -> Option<Judged>
    ensures { result ≡ three.this_type standing ty value }
{
    match value {
        None => None,
        Some(_) => Some(varying(standing, ty)),
    }
}
