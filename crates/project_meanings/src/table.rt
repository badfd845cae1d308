// The signatures of a project's units.

ghost use Rattle.std.specs.Prelude.{◌≡◌, map};
ghost use Rattle.declared_names.specs.Tables.{project_in};
ghost use Rattle.project_meanings.specs.Rows.{bare_signature};
ghost use Rattle.project_meanings.specs.Signatures.{signatures_of};

use crate::rows::Signature;
use declared_names::Project;

/// The signatures of a project's units, by their numbers.
#[derive(Drop)]
pub struct Signatures<'a, 't> {
    pub(crate) project: &'a Project<'t>,
    pub(crate) rows: Vec<Signature<'t>>,
    ghost are_of: { map bare_signature rows.items ≡ signatures_of (project_in project.now) },
}
