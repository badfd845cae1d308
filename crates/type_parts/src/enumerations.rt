// The enumerations of a project.

ghost use Rattle.std.specs.Prelude.{◌≡◌, ◌<◌, length, map, IfOk, IfSome};
ghost use Rattle.project_declarations.specs.Rows.{bare_decl};
ghost use Rattle.type_parts.specs.Parts.{enumerations_of};
ghost use Rattle.type_parts.specs.Places as places;
ghost use Rattle.type_parts.specs.Tables.{enumerations_in, values_lists, IsTable};

use crate::listed::Listed;
use crate::listing::listed;
use crate::numbers::{key_of, numbers_of};
use crate::places::{add_names, place_of};
use crate::twice::{is_marked, twice_of};
use project_declarations::DeclRow;
use scope_names::Names;
use st_tree::Site;
use station_ports::outside::NoMemory;
use std::alloc::Global;
use std::collections::BTreeMap;
use std::marker::Model;

/// The enumerations that declarations list, each known by its number, from 0, in the order of
/// declarations and of the text. To contracts it is their list.
#[derive(Drop)]
pub struct Enumerations<'t> {
    rows: Vec<Listed<'t>>,
    numbers: BTreeMap<(u16, u32), usize>,
    names: Names<'t, u32>,
    twice: Vec<bool>,
}

impl<'t> Model for Enumerations<'t> {
    ghost use Rattle.std.specs.Prelude.{List};
    ghost use Rattle.type_parts.specs.Parts.{Enumeration};
    ghost use Rattle.type_parts.specs.Tables.{enumerations_in};
    ghost use Rattle.type_parts.specs.steps.Kept.{AreKept};

    ghost Value = { List Enumeration };

    ghost view = { λ e. enumerations_in e.rows.items };

    ghost invariant = { λ e. AreKept (enumerations_in e.rows.items) e.numbers e.names e.twice.items };
}

impl<'t> Enumerations<'t> {
    /// The enumerations that declarations list. Takes time in the order of the declarations' text,
    /// with the names put in order. NoMemory where there is no memory for them, or no room for the
    /// numbers of 2^32 enumerations or values.
    pub fn of(alloc: Global, decls: &[DeclRow<'t>]) -> Result<Enumerations<'t>, NoMemory>
        ensures { IfOk result (λ e. e ≡ enumerations_of (map bare_decl decls.now)) }
    {
        let rows = listed(alloc, decls)?;
        let numbers = numbers_of(alloc, &rows)?;
        let names = names_of_values(alloc, &rows)?;
        let twice = twice_of(alloc, &names, rows.len())?;
        Ok(Enumerations {
            rows,
            numbers,
            names,
            twice,
        })
    }

    /// How many there are.
    pub fn count(&self) -> usize
        ensures { result ≡ length self.now }
    {
        self.rows.len()
    }

    /// All of them, in the order of their numbers.
    pub fn rows(&self) -> &[Listed<'t>]
        ensures { enumerations_in result.now ≡ self.now }
    {
        &self.rows
    }

    /// The number of the first enumeration that is listed at a site, or None where there is none.
    /// Takes time in the logarithm of the count.
    pub fn number(&self, site: Site) -> Option<usize>
        ensures number { result ≡ places.number_of_site self.now site }
        ensures within { IfSome result (λ n. n < length self.now) }
    {
        self.numbers.get(&key_of(site)).copied()
    }

    /// The place of the first value of a name in the enumeration of a number, from 0, or None where
    /// it has no such value. Takes time in the logarithm of the count of all values.
    pub fn place(&self, number: usize, name: &[u8]) -> Option<usize>
        ensures { result ≡ places.place_of_value self.now number name.now }
    {
        place_of(&self.names, number, name)
    }

    /// Whether two values of the enumeration of a number have one name.
    pub fn has_twice(&self, number: usize) -> bool
        ensures { result ≡ places.has_value_twice self.now number }
    {
        is_marked(&self.twice, number)
    }
}

fn names_of_values<'t>(alloc: Global, rows: &[Listed<'t>]) -> Result<Names<'t, u32>, NoMemory>
    ensures { IfOk result (λ names. IsTable names (values_lists (enumerations_in rows.now))) }
{
    if rows.len() > u32::MAX as usize {
        return Err(NoMemory);
    }
    let mut names = Vec::new(alloc);
    for (number, row) in rows.iter().enumerate() {
        add_names(&mut names, number, 0, row.values)?;
    }
    Ok(Names::of(names))
}
