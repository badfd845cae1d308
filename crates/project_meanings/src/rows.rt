// What calls see of a unit, as rows of tables.

use tree_items::Items;

/// An input of a unit: its name as it is written, and the number of its declaration.
#[derive(Clone, Copy)]
pub struct InputRow<'t> {
    pub name: &'t [u8],
    pub number: Option<usize>,
}

/// What calls see of a unit: the scope of its variables, its inputs in the order of the text, and the
/// number of the declaration of its result.
#[derive(Drop)]
pub struct Signature<'t> {
    pub scope: u32,
    pub inputs: Items<InputRow<'t>>,
    pub result: Option<usize>,
}
