// References while they are collected.

ghost use Rattle.std.specs.Prelude.{◌≡◌, [], ◌∷◌, ◌++◌, OnOk};
ghost use Rattle.declaration_references.specs.References.{by};

use st_tree::Identifier;
use std::alloc::{AllocError, Global};
use std::marker::Model;

/// What a name refers to.
#[derive(Clone, Copy, Debug, PartialEq, Eq)]
pub enum ReferenceKind {
    /// The type of a variable, of an array's elements or of a field.
    Type,
    /// A variable in a bound or in an initial value.
    Variable,
    /// The enumeration of a value that is written `Type#value`.
    ValueType,
    /// The global variable that a VAR_EXTERNAL names.
    Global,
}

/// A name and what it refers to.
#[derive(Clone, Copy)]
pub struct Reference<'t> {
    /// The bytes of the name as they are written.
    pub name: &'t [u8],
    pub kind: ReferenceKind,
}

/// References in the order in which they are found. To contracts they are names with their kinds.
#[derive(Drop)]
pub struct References<'t> {
    list: Vec<Reference<'t>>,
}

impl<'t> Model for References<'t> {
    ghost use Rattle.std.specs.Prelude.{List, map};
    ghost use Rattle.declaration_references.specs.References.{Referred, bare};

    ghost Value = { List Referred };

    ghost view = { λ s. map bare s.list.items };
}

impl<'t> References<'t> {
    ghost use Rattle.std.specs.Prelude.{map};
    ghost use Rattle.declaration_references.specs.References.{bare};

    pub fn new(alloc: Global) -> Self
        ensures { result ≡ [] }
    {
        References {
            list: Vec::new(alloc),
        }
    }

    pub fn as_slice(&self) -> &[Reference<'t>]
        ensures { map bare result.now ≡ self.now }
    {
        &self.list
    }

    /// Adds the name of a declaration.
    pub(crate) fn add(
        &mut self,
        kind: ReferenceKind,
        name: &'t Identifier,
    ) -> Result<(), AllocError>
        ensures { OnOk result (self.new ≡ self.old ++ by kind name.now ∷ []) }
    {
        self.list.push(Reference {
            name: name.name.bytes(),
            kind,
        })?;
        Ok(())
    }
}
