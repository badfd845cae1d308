// The table of declarations.

ghost use Rattle.std.specs.Prelude.{map};
ghost use Rattle.project_declarations.specs.Rows.{bare_decl};
ghost use Rattle.declaration_order.specs.steps.Numbered.{AreNumbers};

use project_declarations::DeclRow;
use std::collections::BTreeMap;

/// Declarations, each numbered by its place from 0, and found by its site.
#[derive(Drop)]
pub struct DeclTable<'t> {
    pub(crate) rows: Vec<DeclRow<'t>>,
    pub(crate) numbers: BTreeMap<(u16, u32), usize>,
    ghost are_numbers: { AreNumbers 0 (map bare_decl rows.items) numbers },
}
