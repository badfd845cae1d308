// Enumerations where they are listed.

ghost use Rattle.std.specs.Prelude.{◌≡◌, length};

use st_tree::{Identifier, Site};

/// An enumeration: where its values are listed, and the values.
#[derive(Clone, Copy)]
pub struct Listed<'t> {
    pub(crate) site: Site,
    pub(crate) values: &'t [Identifier],
}

impl<'t> Listed<'t> {
    /// How many values it has.
    pub fn count(&self) -> usize
        ensures { result ≡ length self.now.values.now }
    {
        self.values.len()
    }
}
