// Enumerations by where they are listed, and what declarations list twice.

ghost use Rattle.std.specs.Prelude.{◌≡◌};
ghost use Rattle.declared_names.specs.Twice as spec;
ghost use Rattle.declared_names.specs.Tables.{known_at, here_of};

use crate::at::At;
use expression_types::ShapeNo;
use st_tree::{Node, Site};

/// The enumeration whose values are listed at a node of the declaration's file, or None where it lists
/// one twice.
pub fn enumeration_here(at: &At<'_, '_>, node: Node) -> Option<ShapeNo>
    ensures { result ≡ spec.enumeration_here (known_at at.now).project (here_of at.now) node }
{
    let site = Site {
        file: at.file,
        node: node.number,
    };
    match at.project.enumerations.number(site) {
        None => None,
        Some(number) => {
            if at.project.enumerations.has_twice(number) {
                None
            } else {
                Some(ShapeNo(at.project.first_listed + number as u32))
            }
        },
    }
}

/// Whether the structure that the declaration declares has two fields of one name.
pub fn has_field_twice(at: &At<'_, '_>) -> bool
    ensures { result ≡ spec.has_field_twice (known_at at.now).project (here_of at.now) }
{
    at.project.fields.has_twice(at.number)
}
