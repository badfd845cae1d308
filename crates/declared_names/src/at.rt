// Where a declaration stands.

ghost use Rattle.std.specs.Prelude.{◌≡◌};
ghost use Rattle.declared_names.specs.Project.{own_scope};

use crate::project::Project;
use declared_types::Given;
use project_declarations::Owner;

/// Where a declaration of a project stands, and what declarations give as far as it is known, by their
/// numbers.
#[derive(Clone, Copy)]
pub struct At<'a, 't> {
    pub(crate) project: &'a Project<'t>,
    pub(crate) given: &'a [Option<Given>],
    pub(crate) number: usize,
    pub(crate) file: u16,
    pub(crate) owner: Owner,
    // The scope of the unit's own variables.
    pub(crate) own: Option<u32>,
    ghost own_is: { own ≡ own_scope owner },
}
