// The numbers of enumerations by the sites where they are listed.

ghost use Rattle.std.specs.Prelude.{◌≡◌, IfOk};
ghost use Rattle.type_parts.specs.Tables.{enumerations_in};
ghost use Rattle.type_parts.specs.steps.Numbered.{AreNumbers};

use crate::listed::Listed;
use st_tree::Site;
use station_ports::outside::NoMemory;
use std::alloc::Global;
use std::collections::BTreeMap;

pub(crate) fn key_of(site: Site) -> (u16, u32)
    ensures file { result.0 ≡ site.file }
    ensures node { result.1 ≡ site.node.0 }
{
    (site.file, site.node.0)
}

/// The number of the first enumeration at each site.
pub(crate) fn numbers_of(
    alloc: Global,
    rows: &[Listed<'_>],
) -> Result<BTreeMap<(u16, u32), usize>, NoMemory>
    ensures { IfOk result (λ numbers. AreNumbers 0 (enumerations_in rows.now) numbers) }
{
    let mut numbers = BTreeMap::new(alloc);
    let mut at = rows.len();
    while at > 0 {
        at -= 1;
        let row = &rows[at];
        let key = (row.site.file, row.site.node.0);
        match numbers.insert(key, at) {
            Ok(_) => (),
            Err(_) => return Err(NoMemory),
        }
    }
    Ok(numbers)
}
