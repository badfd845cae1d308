// Rows while they are collected.

ghost use Rattle.std.specs.Prelude.{◌≡◌, [], ◌∷◌, OnOk};
ghost use Rattle.project_declarations.specs.Named.{named};
ghost use Rattle.project_declarations.specs.Rows as spec;

use crate::rows::{DeclRow, Owner, Source, UnitRow, What};
use scope_names::NameRow;
use st_tree::{Identifier, Node, Site};
use std::alloc::{AllocError, Global};

/// The units of files, their declarations, and the names of all scopes.
#[derive(Drop)]
pub struct Collected<'t> {
    /// In file and text order.
    pub units: Vec<UnitRow<'t>>,
    pub decls: Vec<DeclRow<'t>>,
    pub names: Vec<NameRow<'t, What>>,
}

/// A node of the file at a place.
pub(crate) fn site_of(file: u16, node: Node) -> Site
    ensures { result ≡ record { file = file; node = node.number } }
{
    Site {
        file,
        node: node.number,
    }
}

impl<'t> Collected<'t> {
    pub fn new(alloc: Global) -> Self
        ensures { spec.IsEmpty result }
    {
        Collected {
            units: Vec::new(alloc),
            decls: Vec::new(alloc),
            names: Vec::new(alloc),
        }
    }

    /// Adds a name that a scope declares.
    pub(crate) fn name(
        &mut self,
        file: u16,
        scope: u32,
        identifier: &'t Identifier,
        what: What,
    ) -> Result<(), AllocError>
        ensures { OnOk result
            (spec.Adds self.old self.new [] [] (named file scope identifier.now what ∷ [])) }
    {
        self.names.push(NameRow {
            scope,
            name: identifier.name.bytes(),
            site: site_of(file, identifier.node),
            node: identifier.node,
            what,
        })?;
        Ok(())
    }

    pub(crate) fn decl(
        &mut self,
        file: u16,
        owner: Owner,
        source: Source<'t>,
    ) -> Result<(), AllocError>
        ensures { OnOk result (spec.Adds self.old self.new []
            (spec.declaration file owner source.entry ∷ []) []) }
    {
        self.decls.push(DeclRow {
            file,
            owner,
            source,
        })?;
        Ok(())
    }
}
