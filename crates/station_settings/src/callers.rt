// The callers of the station.
ghost use Rattle.std.specs.Prelude.{◌≡◌, IfOk, option_map};
ghost use Rattle.std.specs.List.{list_all};
ghost use Rattle.toml.specs.View.{view, array_view, table_view};
ghost use Rattle.project_keeper.specs.Names.{is_within};
ghost use Rattle.station_settings.specs.Schema as schema;

use crate::entry::value_at;
use project_keeper::is_name;
use st_tree::CallerKey;
use station_ports::outside::NoMemory;
use station_ports::texts::Name;
use std::alloc::Global;
use toml::value::Array;
use toml::{Table, Value};
use tree_items::Items;

/// The most callers.
const MAX_CALLERS: usize = 64;

/// The callers there, who differ; None where it is something else.
pub(crate) fn callers(
    alloc: Global,
    value: Option<&Value>,
) -> Result<Option<Items<CallerKey>>, NoMemory>
    ensures { IfOk result (λ callers. callers ≡
        schema.callers_of (option_map (λ value. view value.now) value.entry)) }
{
    match value {
        None => Ok(Some(Items::new(alloc))),
        Some(Value::Array(tables)) => callers_in(alloc, tables),
        Some(_) => Ok(None),
    }
}

#[tactic(auto, using(crate::proofs::Lists::count_is))]
fn callers_in(alloc: Global, tables: &Array) -> Result<Option<Items<CallerKey>>, NoMemory>
    ensures { IfOk result (λ callers. callers ≡ schema.callers_in (array_view tables.now)) }
{
    if tables.len() <= MAX_CALLERS {
        different_callers(alloc, tables)
    } else {
        Ok(None)
    }
}

fn different_callers(alloc: Global, tables: &Array) -> Result<Option<Items<CallerKey>>, NoMemory>
    ensures { IfOk result (λ callers. callers ≡
        schema.if_differ (schema.each schema.caller (array_view tables.now))) }
{
    match all_callers(alloc, tables)? {
        Some(callers) if all_differ(callers.as_slice()) => Ok(Some(callers)),
        _ => Ok(None),
    }
}

fn all_callers(alloc: Global, tables: &Array) -> Result<Option<Items<CallerKey>>, NoMemory>
    ensures { IfOk result (λ callers. callers ≡ schema.each schema.caller (array_view tables.now)) }
{
    let mut callers = Items::new(alloc);
    for table in tables {
        match caller(alloc, table)? {
            Some(caller) => callers.push(caller)?,
            None => return Ok(None),
        }
    }
    Ok(Some(callers))
}

fn caller(alloc: Global, value: &Value) -> Result<Option<CallerKey>, NoMemory>
    ensures { IfOk result (λ caller. caller ≡ schema.caller (view value.now)) }
{
    match value {
        Value::Table(table) => caller_in(alloc, table),
        _ => Ok(None),
    }
}

#[tactic(auto, using(crate::proofs::Tables::members_are))]
fn caller_in(alloc: Global, table: &Table) -> Result<Option<CallerKey>, NoMemory>
    ensures { IfOk result (λ caller. caller ≡ schema.caller_in (table_view table.now)) }
{
    if table.len() == 2 {
        caller_of(alloc, value_at(table, "name"), value_at(table, "key"))
    } else {
        Ok(None)
    }
}

fn caller_of(
    alloc: Global,
    name: Option<&Value>,
    key: Option<&Value>,
) -> Result<Option<CallerKey>, NoMemory>
    ensures { IfOk result (λ caller. caller ≡ schema.caller_of
        (option_map (λ value. view value.now) name.entry)
        (option_map (λ value. view value.now) key.entry)) }
{
    match (name, key) {
        (Some(Value::String(name)), Some(Value::String(key))) => {
            lawful_caller(alloc, name.as_bytes(), key.as_bytes())
        }
        _ => Ok(None),
    }
}

fn lawful_caller(alloc: Global, name: &[u8], key: &[u8]) -> Result<Option<CallerKey>, NoMemory>
    ensures { IfOk result (λ caller. caller ≡ schema.lawful_caller name.now key.now) }
{
    if !is_name(name) || !is_key(key) {
        return Ok(None);
    }
    let name = Name::of(alloc, name)?;
    let key = Name::of(alloc, key)?;
    Ok(Some(CallerKey { name, key }))
}

/// Whether it may be a key: 16 to 128 bytes of ASCII 33 to 126.
fn is_key(bytes: &[u8]) -> bool
    ensures { result ≡ schema.is_key bytes.now }
{
    bytes.len() >= 16 && bytes.len() <= 128 && all_visible(bytes)
}

fn all_visible(bytes: &[u8]) -> bool
    ensures { result ≡ list_all (is_within 33 126) bytes.now }
{
    bytes.iter().all(|byte| *byte >= 33 && *byte <= 126)
}

/// Whether no two have a name or a key in common.
fn all_differ(callers: &[CallerKey]) -> bool
    ensures { result ≡ schema.all_differ callers.now }
{
    for at in 0..callers.len() {
        if !differs_from(&callers[at], &callers[at + 1..]) {
            return false;
        }
    }
    true
}

fn differs_from(one: &CallerKey, others: &[CallerKey]) -> bool
    ensures { result ≡ list_all (schema.differ one.now) others.now }
{
    for other in others {
        if one.name.bytes() == other.name.bytes() || one.key.bytes() == other.key.bytes() {
            return false;
        }
    }
    true
}
