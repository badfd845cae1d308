// Initial values of whole arrays and structures, as rows of a table.

use declared_types::{Given, Initial};
use tree_items::Items;

/// So many elements, one behind the other, with one value.
#[derive(Clone, Copy, Debug, PartialEq, Eq)]
pub struct Run {
    pub count: u32,
    pub value: Initial,
}

/// The value that is written for a field, by the field's place from 0.
#[derive(Clone, Copy, Debug, PartialEq, Eq)]
pub struct Part {
    pub place: usize,
    pub value: Initial,
}

/// An initial value that is written for a whole array or structure.
#[derive(Drop)]
pub enum Written {
    /// The values of the elements, from the first to the last. A run may hold no element.
    Elements(Items<Run>),
    /// The values of the fields, in their order.
    Fields(Items<Initial>),
}

/// A field of a structure: its place from 0, and what its specification gives.
#[derive(Clone, Copy, Debug, PartialEq, Eq)]
pub struct FieldAt {
    pub place: usize,
    pub given: Given,
}
