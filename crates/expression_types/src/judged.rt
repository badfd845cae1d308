// What an expression is, and what its place asks of it.

use crate::meaning::ShapeNo;
use iec_tables::elem::Elem;
use link_faults::LinkCode;
use st_tree::Number;

/// The type of an expression.
#[derive(Clone, Copy, Debug, PartialEq, Eq)]
pub enum ExprType {
    /// Literals without a type, and arithmetic on them alone: it takes the type of its place.
    Loose,
    Elem(Elem),
    /// No elementary type.
    Other(ShapeNo),
}

/// What an expression is: its type, its number where it is known, and a fault at the expression itself
/// (that it isn't constant or its number is outside its type, where it must be constant) that counts
/// once its type is known to fit.
#[derive(Clone, Copy, Debug, PartialEq, Eq)]
pub struct Judged {
    pub ty: ExprType,
    pub number: Option<Number>,
    pub own: Option<LinkCode>,
}

/// What the place of an expression asks for.
#[derive(Clone, Copy, Debug, PartialEq, Eq)]
pub enum Place {
    /// Any type; literals without a type take their own.
    Any,
    /// An integer of any type.
    Integer,
    /// A bit string other than BOOL, of any type.
    Bits,
    /// What converts to this type.
    Elem(Elem),
    /// This very type.
    Shape(ShapeNo),
}

/// Where an expression stands: the file's place among the project's files, and whether the expression
/// must be constant.
#[derive(Clone, Copy, Debug, PartialEq, Eq)]
pub struct Standing {
    pub file: u16,
    pub constant: bool,
}
