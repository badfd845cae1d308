// All that is known where an expression stands once all declarations are known.

ghost use Rattle.std.specs.Prelude.{◌≡◌, map};
ghost use Rattle.project_declarations.specs.Scopes as scopes;
ghost use Rattle.declared_names.specs.Tables.{known_at};
ghost use Rattle.project_meanings.specs.Rows.{bare_signature};
ghost use Rattle.project_meanings.specs.Signatures.{signatures_of};

use crate::table::Signatures;
use declared_names::At;
use declared_types::Form;
use expression_types::ShapeNo;
use project_declarations::UnitNo;

/// The body of a unit: its number, the type of its steps, and their scope.
#[derive(Clone, Copy)]
pub struct Body {
    pub(crate) unit: UnitNo,
    pub(crate) step: ShapeNo,
    pub(crate) scope: u32,
    ghost scope_is: { scope ≡ scopes.steps unit.0 },
}

/// All that is known where an expression stands: where that is, what each type is that isn't elementary,
/// what calls see of units, and the body in which it stands.
#[derive(Clone, Copy)]
pub struct Whole<'a, 't> {
    pub(crate) at: At<'a, 't>,
    pub(crate) forms: &'a [Form<'t>],
    pub(crate) signatures: &'a Signatures<'a, 't>,
    pub(crate) body: Option<Body>,
    ghost are_of: { map bare_signature signatures.now.rows.items
        ≡ signatures_of (known_at at).project },
}
