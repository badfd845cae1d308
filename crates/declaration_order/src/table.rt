// The declarations of a project by number and by site.

ghost use Rattle.std.specs.Prelude.{◌≡◌, map, IfOk};
ghost use Rattle.project_declarations.specs.Rows.{bare_decl};
ghost use Rattle.declaration_order.specs.Numbers.{decl_node, number_at};
ghost use Rattle.declaration_order.specs.Tables.{decls_in};

use crate::declared::DeclTable;
use project_declarations::{DeclRow, Source};
use st_tree::{Node, Site, TypeName};
use station_ports::outside::NoMemory;
use std::alloc::{AllocError, Global};
use std::collections::BTreeMap;

fn node_of(row: &DeclRow<'_>) -> Node
    ensures { result ≡ decl_node (bare_decl row.now) }
{
    match row.source {
        Source::Type(decl) => decl.node,
        Source::Variables(decl) => decl.node,
        Source::Result(TypeName::Elementary(node, _)) => *node,
        Source::Result(TypeName::Named(name)) => name.node,
    }
}

fn key_of(site: Site) -> (u16, u32)
    ensures file { result.0 ≡ site.file }
    ensures node { result.1 ≡ site.node.0 }
{
    (site.file, site.node.0)
}

impl<'t> DeclTable<'t> {
    /// The table of these declarations.
    pub fn of(alloc: Global, rows: Vec<DeclRow<'t>>) -> Result<DeclTable<'t>, NoMemory>
        ensures { IfOk result (λ table. decls_in table ≡ map bare_decl rows.entry.items) }
    {
        let mut numbers = BTreeMap::new(alloc);
        let mut at = rows.len();
        while at > 0 {
            at -= 1;
            let row = &rows[at];
            let key = (row.file, node_of(row).number.0);
            match numbers.insert(key, at) {
                Ok(_) => (),
                Err(_) => return Err(NoMemory),
            }
        }
        Ok(DeclTable { rows, numbers })
    }

    /// All declarations, in the order of their numbers.
    pub fn rows(&self) -> &[DeclRow<'t>]
        ensures { map bare_decl result.now ≡ decls_in self.now }
    {
        &self.rows
    }

    /// The number of the first declaration at a site, or None where there is none.
    pub fn number(&self, site: Site) -> Option<usize>
        ensures { result ≡ number_at (decls_in self.now) site }
    {
        self.numbers.get(&key_of(site)).copied()
    }
}
