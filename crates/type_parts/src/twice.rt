// Lists in which a name stands twice.

ghost use Rattle.std.specs.Prelude.{◌≡◌, ℕ, List, length, map, slice_get, false, IfOk};
ghost use Rattle.std.specs.Option.{unwrap_or};
ghost use Rattle.type_parts.specs.Places.{has_twice};
ghost use Rattle.type_parts.specs.Tables.{IsTable};
ghost use Rattle.type_parts.specs.steps.Marks as marks;

use crate::places::place_of;
use scope_names::{NameRow, Names};
use station_ports::outside::NoMemory;
use std::alloc::Global;

/// Whether the first name of its list that is the row's stands at another place.
fn is_further(names: &Names<'_, u32>, row: &NameRow<'_, u32>) -> bool
    ensures { (lists : List (List (List ℕ))) → IsTable names.now lists
        → result ≡ marks.is_further lists row.now }
{
    match place_of(names, row.scope as usize, row.name) {
        None => false,
        Some(place) => place != row.what as usize,
    }
}

fn marked(alloc: Global, names: &Names<'_, u32>, count: usize) -> Result<Vec<bool>, NoMemory>
    ensures { IfOk result (λ twice. (lists : List (List (List ℕ))) → IsTable names.now lists
        → marks.AreMarked lists count names.now twice.items) }
{
    let mut twice = vec![in alloc; false; count]?;
    for row in names.rows() {
        let number = row.scope as usize;
        if number < twice.len() && is_further(names, row) {
            twice[number] = true;
        }
    }
    Ok(twice)
}

/// Of each of so many lists, whether two of its names are one.
pub(crate) fn twice_of(
    alloc: Global,
    names: &Names<'_, u32>,
    count: usize,
) -> Result<Vec<bool>, NoMemory>
    ensures { IfOk result (λ twice. (lists : List (List (List ℕ))) → IsTable names.now lists
        → length lists ≡ count → twice.items ≡ map has_twice lists) }
{
    let twice = marked(alloc, names, count)?;
    Ok(twice)
}

/// Whether the list of a number is marked: false where there is no such list.
pub(crate) fn is_marked(twice: &[bool], number: usize) -> bool
    ensures { result ≡ unwrap_or (slice_get twice.now number) false }
{
    match twice.get(number) {
        None => false,
        Some(marked) => *marked,
    }
}
