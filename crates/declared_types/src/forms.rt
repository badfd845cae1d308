// Types that aren't elementary, as rows of a table.

use crate::given::Given;
use project_declarations::UnitNo;
use standard_names::StandardBlock;
use tree_items::Items;

/// The bounds of a dimension.
#[derive(Clone, Copy, Debug, PartialEq, Eq)]
pub struct Dim {
    pub low: i128,
    pub high: i128,
}

/// An array: its dimensions, how many elements they have together, what each element is, and how many
/// elements there are, those of nested arrays multiplied.
#[derive(Drop)]
pub struct ArrayForm {
    pub dims: Items<Dim>,
    pub count: u32,
    pub element: Given,
    pub size: u32,
}

/// A field of a structure, by the bytes of its name as they are written.
#[derive(Clone, Copy)]
pub struct FieldForm<'t> {
    pub name: &'t [u8],
    pub given: Given,
}

/// What a type that isn't elementary is.
#[derive(Drop)]
pub enum Form<'t> {
    Standard(StandardBlock),
    Block(UnitNo),
    /// An enumeration with so many values.
    Enumeration(u32),
    Array(ArrayForm),
    Structure(Items<FieldForm<'t>>),
}
