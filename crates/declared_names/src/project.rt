// What the files of a project declare, as tables.

ghost use Rattle.std.specs.Prelude.{◌≡◌, ◌+◌, ◌<◌, ◌≤◌, ◌^◌, length};
ghost use Rattle.project_declarations.specs.Scopes as scopes;
ghost use Rattle.declaration_order.specs.Tables.{decls_in};
ghost use Rattle.type_parts.specs.Parts.{enumerations_of};

use declaration_order::{DeclComponents, DeclTable};
use project_declarations::{UnitRow, What};
use scope_names::Names;
use type_parts::{Enumerations, StructureFields};

/// What the files of a project declare.
#[derive(Drop)]
pub struct Project<'t> {
    pub(crate) names: Names<'t, What>,
    pub(crate) units: Vec<UnitRow<'t>>,
    pub(crate) table: DeclTable<'t>,
    pub(crate) enumerations: Enumerations<'t>,
    pub(crate) fields: StructureFields<'t>,
    pub(crate) components: DeclComponents,
    // The shape of the first enumeration.
    pub(crate) first_listed: u32,
    ghost first_is: { first_listed ≡ 9 + length units.items },
    ghost listed: { enumerations ≡ enumerations_of (decls_in table) },
    ghost structures: { fields ≡ decls_in table },
    ghost scopes_fit: { scopes.locals (length units.items) < 2 ^ 32 },
    ghost fits: { first_listed + length (enumerations_of (decls_in table)) ≤ 2 ^ 32 },
}
