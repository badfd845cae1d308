// Faults at nodes.

ghost use Rattle.std.specs.Prelude.{◌≡◌, [], ◌∷◌};
ghost use Rattle.link_faults.specs.First.{after};
ghost use Rattle.unit_rules.specs.Noted as noted;

use link_faults::{Faults, LinkCode};
use st_tree::{Node, Site};

pub(crate) fn note_at(file: u16, node: Node, code: LinkCode, faults: &mut Faults)
    ensures { faults.new ≡ after faults.old (noted.fault_at file node code ∷ []) }
{
    let site = Site {
        file,
        node: node.number,
    };
    faults.note(site, code);
}
