// The places of names in lists of names, each list under a number of its own.

ghost use Rattle.std.specs.Prelude.{◌≡◌, ℕ, List, IfOk, OnOk};
ghost use Rattle.type_parts.specs.Parts.{names_of};
ghost use Rattle.type_parts.specs.Places.{place_in};
ghost use Rattle.type_parts.specs.Tables as spec;

use scope_names::{NameRow, Names};
use st_tree::{Identifier, NodeNo, Site};
use station_ports::outside::NoMemory;

/// A name of a list at its place. NoMemory where rows have no room for the numbers.
fn row_of<'t>(list: usize, place: usize, x: &'t Identifier) -> Result<NameRow<'t, u32>, NoMemory>
    ensures { IfOk result (λ row. spec.entry_of row ≡ spec.entry list place x.now.name) }
{
    match u32::try_from(list) {
        Err(_) => Err(NoMemory),
        Ok(scope) => match u32::try_from(place) {
            Err(_) => Err(NoMemory),
            Ok(what) => Ok(NameRow {
                scope,
                name: x.name.bytes(),
                site: Site {
                    file: 0,
                    node: NodeNo(what),
                },
                node: x.node,
                what,
            }),
        },
    }
}

/// The names of a part of a list, of which the first one stands at that place.
pub(crate) fn add_names<'t>(
    rows: &mut Vec<NameRow<'t, u32>>,
    list: usize,
    first: usize,
    names: &'t [Identifier],
) -> Result<(), NoMemory>
    ensures { OnOk result (spec.AddsNames rows.old.items rows.new.items
        (spec.list_entries list first (names_of names.now))) }
{
    let mut place = first;
    for x in names {
        rows.push(row_of(list, place, x)?)?;
        place = place.checked_add(1).ok_or(NoMemory)?;
    }
    Ok(())
}

/// The place of the first name of a list that is this one, or None where the list has none.
pub(crate) fn place_of(names: &Names<'_, u32>, list: usize, name: &[u8]) -> Option<usize>
    ensures { (lists : List (List (List ℕ))) → spec.IsTable names.now lists
        → result ≡ place_in (spec.list_at lists list) name.now }
{
    match u32::try_from(list) {
        Err(_) => None,
        Ok(scope) => match names.find(scope, name) {
            None => None,
            Some(row) => Some(row.what as usize),
        },
    }
}
