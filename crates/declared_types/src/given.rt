// What a specification gives.

use expression_types::ShapeNo;
use iec_tables::elem::Elem;
use st_tree::Number;

/// The numbers of an elementary type from a lower bound to an upper one.
#[derive(Clone, Copy, Debug, PartialEq, Eq)]
pub struct Bounds {
    pub elem: Elem,
    pub low: i128,
    pub high: i128,
}

/// A type. What isn't elementary is known by its place in the table of forms.
#[derive(Clone, Copy, Debug, PartialEq, Eq)]
pub enum DeclType {
    /// An elementary type or a subrange of one.
    Scalar(Bounds),
    Enumeration(ShapeNo),
    Array(ShapeNo),
    Structure(ShapeNo),
    /// An instance of a block, of the project or of the standard.
    Instance(ShapeNo),
}

/// An initial value that is written for a whole array or structure, by its place in the table of these.
#[derive(Clone, Copy, Debug, PartialEq, Eq)]
pub struct ValueNo(pub u32);

/// The initial value of what has a type.
#[derive(Clone, Copy, Debug, PartialEq, Eq)]
pub enum Initial {
    /// A number; of an enumeration the place of the value, from 0.
    Number(Number),
    /// None is written for the whole: each element or field has that of its own specification.
    Own,
    Written(ValueNo),
}

/// What a specification gives: the type, the initial value of what has it, and how many elements it has
/// (those of nested arrays multiplied, of a structure those of its largest field; 1 of other types).
#[derive(Clone, Copy, Debug, PartialEq, Eq)]
pub struct Given {
    pub ty: DeclType,
    pub value: Initial,
    pub size: u32,
}
