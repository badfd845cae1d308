// The names that a unit declares.

ghost use Rattle.std.specs.Prelude.{◌≡◌};
ghost use Rattle.first_form.specs.Names.{names_of, declared, declared_in};

use crate::refusal::Refusal;
use crate::tree::{Decl, Identifier, Section};
use std::alloc::{AllocError, Global};
use std::collections::BTreeSet;

/// Names with their ASCII letters raised.
#[derive(Drop)]
pub(crate) struct Declared {
    names: BTreeSet<Vec<u8>>,
}

impl Declared {
    ghost use Rattle.std.specs.Prelude.{[], ◌∷◌, OnOk};
    ghost use Rattle.first_form.specs.steps.Known.{known_in, knows, Adds, Declares};

    /// The names of sections, if none stands twice.
    pub fn of(alloc: Global, sections: &[Section]) -> Result<Self, Refusal>
        ensures { Declares (declared_in sections.now) result }
    {
        let mut declared = Declared {
            names: BTreeSet::new(alloc),
        };
        for section in sections {
            declared.add_decls(alloc, section.decls.as_slice())?;
        }
        Ok(declared)
    }

    fn add_decls(&mut self, alloc: Global, decls: &[Decl]) -> Result<(), Refusal>
        ensures { Adds (known_in self.old) (declared decls.now) (known_in self.new) result }
    {
        for decl in decls {
            self.add_names(alloc, decl.names.as_slice())?;
        }
        Ok(())
    }

    fn add_names(&mut self, alloc: Global, names: &[Identifier]) -> Result<(), Refusal>
        ensures { Adds (known_in self.old) (names_of names.now) (known_in self.new) result }
    {
        for identifier in names {
            self.add(alloc, identifier.name.bytes())?;
        }
        Ok(())
    }

    fn add(&mut self, alloc: Global, name: &[u8]) -> Result<(), Refusal>
        ensures { Adds (known_in self.old) (name.now ∷ []) (known_in self.new) result }
    {
        if self.has(name) {
            return Err(Refusal::OtherForm);
        }
        self.insert(name.to_vec(alloc)?)?;
        Ok(())
    }

    fn insert(&mut self, name: Vec<u8>) -> Result<(), AllocError>
        ensures { OnOk result (known_in self.new ≡ knows (known_in self.old) (name.items ∷ [])) }
    {
        self.names.insert(name)?;
        Ok(())
    }

    pub fn has(&self, name: &[u8]) -> bool
        ensures { result ≡ known_in self.now name.now }
    {
        self.names.contains(name)
    }
}
