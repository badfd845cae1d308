// What stands around a specification.

ghost use Rattle.std.specs.Prelude.{◌≡◌};
ghost use Rattle.link_faults.specs.Checked.{Tells};

use crate::given::Given;
use expression_types::ShapeNo;
use iec_tables::elem::Elem;
use link_faults::Faults;
use st_tree::{Expr, Node, Number};

/// What the place of a constant asks of it.
#[derive(Clone, Copy, Debug, PartialEq, Eq)]
pub enum ConstantPlace {
    /// Any type.
    Any,
    /// An integer of any type.
    Integer,
    /// What converts to this type.
    Elem(Elem),
    /// A value of this enumeration.
    Enumeration(ShapeNo),
    /// Nothing: no expression fits.
    Nothing,
}

/// What the name of a type stands for.
#[derive(Clone, Copy, Debug, PartialEq, Eq)]
pub enum NamedType {
    Is(Given),
    /// The declaration of the type holds a fault.
    Faulty,
    /// The type leads back to the declaration by specifications alone.
    LeadsBack,
    /// A block of the project or of the standard.
    Block(ShapeNo),
    /// A program or a function.
    NoType,
    /// What the profile leaves out.
    LeftOut,
    /// Nothing declares it.
    Unknown,
}

/// What stands around a specification: constants, the names of types, the numbers of enumerations.
pub trait Outside {
    ghost use Rattle.declared_types.specs.Around.{Around};

    ghost around: { Self → Around };

    /// The place of the specification's file among the project's files.
    fn file(&self) -> u16
        ensures { result ≡ (around self.now).file };

    /// The number of an expression that must be constant, at its place.
    fn constant(&self, faults: &mut Faults, place: ConstantPlace, e: &Expr) -> Option<Number>
        ensures { Tells ((around self.now).constant place e.now) faults.old faults.new result };

    /// What the name of a type stands for.
    fn named(&self, name: &[u8]) -> NamedType
        ensures { result ≡ (around self.now).named name.now };

    /// The number of the enumeration whose specification stands at a node; none where it lists a value
    /// twice.
    fn enumeration(&self, node: Node) -> Option<ShapeNo>
        ensures { result ≡ (around self.now).enumeration node };
}
