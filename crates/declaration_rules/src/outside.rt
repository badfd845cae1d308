// What stands around a declaration.

ghost use Rattle.std.specs.Prelude.{◌≡◌};

use iec_tables::elem::Elem;
use initial_values::Counts;
use st_tree::{Init, Node};

/// What stands around a declaration, beside constants, names of types and repeat counts.
pub trait Declares: Counts {
    ghost use Rattle.std.specs.Prelude.{ℕ, Bool, List};
    ghost use Rattle.iec_tables.specs.declared.elem.Elem.{Elem};
    ghost use Rattle.st_tree.specs.declared.node.Node.{Node};
    ghost use Rattle.st_tree.specs.declared.declaration.Init.{Init};

    ghost leads: { Self → Init → Bool };

    ghost twice: { Self → Node → Bool };

    ghost holds: { Self → List ℕ → Elem → Bool };

    /// Whether an initial value names the next declaration on a way that leads back to this one.
    fn leads_back(&self, init: &Init) -> bool
        ensures { result ≡ leads self.now init.now };

    /// Whether the structure at a node has two fields of one name.
    fn has_field_twice(&self, node: Node) -> bool
        ensures { result ≡ twice self.now node };

    /// Whether an address holds a variable of a type: an integer or bit type of the address's size.
    fn address_holds(&self, address: &[u8], elem: Elem) -> bool
        ensures { result ≡ holds self.now address.now elem };
}
