// Settings of reviews.
ghost use Rattle.std.specs.Prelude.{◌≡◌, IfOk};
ghost use Rattle.st_tree.specs.Defaults.{defaults};

use station_ports::outside::NoMemory;
use station_ports::texts::Name;
use std::alloc::Global;
use tree_items::Items;

/// A caller of the station, and the key by which it is known.
#[derive(Drop)]
pub struct CallerKey {
    pub name: Name,
    pub key: Name,
}

/// What a review is set to: bounds of the rules on names, nesting and statements, the prefix of global names, the numbers of the
/// rules that are disabled; and the callers of the station.
#[derive(Drop)]
pub struct Settings {
    /// The fewest bytes of a declared name.
    pub name_min: u32,
    /// The most bytes of a declared name.
    pub name_max: u32,
    /// How deep statements may nest.
    pub max_nesting: u32,
    /// The most statements of a unit.
    pub max_statements: u32,
    /// What the names of globals begin with.
    pub global_prefix: Name,
    /// The numbers of disabled rules.
    pub disabled: Items<u8>,
    pub callers: Items<CallerKey>,
}

impl Settings {
    /// The settings of a review for which none are given. NoMemory where there is none for their lists.
    pub fn defaults(alloc: Global) -> Result<Self, NoMemory>
        ensures { IfOk result (λ settings. settings ≡ defaults) }
    {
        let disabled = Items::from_slice(alloc, &[7])?;
        Ok(Settings {
            name_min: 1,
            name_max: 32,
            max_nesting: 6,
            max_statements: 500,
            global_prefix: Name::from_vec(Vec::new(alloc)),
            disabled,
            callers: Items::new(alloc),
        })
    }
}
