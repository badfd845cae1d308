// Settings from TOML.
ghost use Rattle.std.specs.Prelude.{◌≡◌, MatchResult, IfOk, Err};
ghost use Rattle.toml.specs.View.{table_view};
ghost use Rattle.station_settings.specs.Schema as schema;
ghost use Rattle.station_settings.specs.Schema.{IsReading};
ghost use Rattle.station_settings.specs.Bounds.{HasBounds};
ghost use Rattle.station_settings.specs.Lawful.{IsLawful};

use crate::callers::callers;
use crate::disabled::rules;
use crate::entry::{least_unknown, number, prefix, value_at};
use crate::field::{Field, SettingsRefusal};
use st_tree::Settings;
use std::alloc::Global;
use std::str;
use toml::Table;

/// The settings of a TOML text, each field by its key: `name_min`, `name_max` (bytes),
/// `max_nesting`, `max_statements`, `global_prefix`, `disabled` (a list of `S01` to `S24`),
/// `caller` (tables of `name` and `key`). A field that is missing has its default. Bad: the text
/// isn't TOML, a field has a value outside its bounds, or a key is no field; told is the first bad
/// field in this order, and the least of the other keys after them. NoMemory where there was none
/// for its table or for them.
pub fn read_settings(alloc: Global, text: &[u8]) -> Result<Settings, SettingsRefusal>
    ensures reading { IsReading (schema.settings text.now) result }

    // Whoever takes settings may ask that they are lawful.
    ensures lawful { IfOk result IsLawful }
{
    let Ok(text) = str::from_utf8(text) else {
        return Err(SettingsRefusal::Bad(Field::Toml));
    };
    match toml::table_from_str(alloc, text) {
        Ok(table) => settings_of(alloc, &table),
        Err(error) if error.is_memory() => Err(SettingsRefusal::NoMemory),
        Err(_) => Err(SettingsRefusal::Bad(Field::Toml)),
    }
}

/// The bounds of rules.
#[derive(Clone, Copy)]
struct Bounds {
    name_min: u32,
    name_max: u32,
    max_nesting: u32,
    max_statements: u32,
}

fn settings_of(alloc: Global, table: &Table) -> Result<Settings, SettingsRefusal>
    ensures { IsReading (schema.settings_of (table_view table.now)) result }
{
    let bounds = match bounds_of(table) {
        Ok(bounds) => bounds,
        Err(field) => return Err(SettingsRefusal::Bad(field)),
    };
    let Some(global_prefix) = prefix(alloc, value_at(table, "global_prefix"))? else {
        return Err(SettingsRefusal::Bad(Field::GlobalPrefix));
    };
    let Some(disabled) = rules(alloc, value_at(table, "disabled"))? else {
        return Err(SettingsRefusal::Bad(Field::Disabled));
    };
    let Some(callers) = callers(alloc, value_at(table, "caller"))? else {
        return Err(SettingsRefusal::Bad(Field::Caller));
    };
    if let Some(key) = least_unknown(alloc, table)? {
        return Err(SettingsRefusal::Bad(Field::Unknown(key)));
    }
    Ok(Settings {
        name_min: bounds.name_min,
        name_max: bounds.name_max,
        max_nesting: bounds.max_nesting,
        max_statements: bounds.max_statements,
        global_prefix,
        disabled,
        callers,
    })
}

fn bounds_of(table: &Table) -> Result<Bounds, Field>
    ensures { MatchResult result (λ bounds. HasBounds (table_view table.now) bounds)
        (λ field. schema.settings_of (table_view table.now) ≡ Err field) }
{
    let Some(name_min) = number(value_at(table, "name_min"), 1, 128, 1) else {
        return Err(Field::NameMin);
    };
    let default = if name_min > 32 { name_min } else { 32 };
    let Some(name_max) = number(value_at(table, "name_max"), name_min, 128, default) else {
        return Err(Field::NameMax);
    };
    let Some(max_nesting) = number(value_at(table, "max_nesting"), 1, 64, 6) else {
        return Err(Field::MaxNesting);
    };
    let Some(max_statements) = number(value_at(table, "max_statements"), 1, 100_000, 500) else {
        return Err(Field::MaxStatements);
    };
    Ok(Bounds {
        name_min,
        name_max,
        max_nesting,
        max_statements,
    })
}
